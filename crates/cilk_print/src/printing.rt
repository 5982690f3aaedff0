//! The canonical text of a tree.

ghost use Rattle.std.specs.Prelude.{◌≡◌, ℕ, List, IfOk};
ghost use Rattle.cilk_model.specs.Canonical.{canonical_text};
ghost use Rattle.cilk_model.specs.Texts.{SpellsTree};
ghost use Rattle.cilk_print.specs.Laws.{SpellsSame};

use crate::items::items;
use cilk_ast::Tree;
use cilk_model::{Gap, Page};
use std::alloc::{AllocError, Global};
use word_ops::List;

#[tactic(auto, unfolding(crate::specs::Printing::printed_items))]
/// The canonical text of `tree` (docs/language.md, "Canonical text"): its tokens with one blank between
/// two, a line for each statement, and two blanks at the start of a line for each brace that is open.
/// Where some text spells `tree`, the answer spells the same tree, places aside.
pub fn print(alloc: Global, tree: &Tree) -> Result<List<u8>, AllocError>
    ensures text { IfOk result (λ text. text ≡ canonical_text tree.now) }
    ensures spells { IfOk result (λ text. (source : List ℕ) → SpellsTree source tree.now → SpellsSame text tree.now) }
{
    let mut page = Page {
        text: List::new(alloc),
        brackets: List::new(alloc),
        gap: Gap::Margin,
    };
    items(alloc, &mut page, tree.items.as_slice())?;
    Ok(page.text)
}
