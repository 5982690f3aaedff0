ghost use Rattle.std.specs.Prelude.{◌≡◌, ◌<◌, ◌^◌, false, [], ◌∷◌, length, OnOk};
ghost use Rattle.codegen_expr.specs.Gains.{Gains};
ghost use Rattle.codegen_expr.specs.Emitted.{kind_of};
ghost use Rattle.codegen_expr.specs.Piece.{line, placeless, zero_line};
ghost use Rattle.codegen_expr.specs.Parts.{is_choice, own_formats, own_lines};

use crate::draft::{Draft, NOWHERE};
use cilk_ast::{Builtin, Expr};
use std::alloc::{AllocError, Global};
use threadlet_code::{AllocCode, Instr};
use word_ops::{Format, List, Pos};

#[tactic(auto, using(crate::proofs::PartForms::lines_by_form, crate::proofs::PartForms::formats_by_form, crate::proofs::PartForms::choice_by_form))]
/// Appends what `e`, which is no choice, does with the values of its parts; behind it the stack has
/// `depth` words.
pub fn put_own(alloc: Global, draft: &mut Draft, e: &Expr, depth: u32) -> Result<(), AllocError>
    requires plain { is_choice e.now ≡ false }
    requires formats { length draft.old.formats < 2 ^ 32 }
    ensures { OnOk result (Gains draft.old draft.new (own_lines (length draft.old.formats) e.now) (own_formats e.now) depth depth) }
{
    match e {
        Expr::Word(word) => draft.put(Instr::Push(*word), NOWHERE, depth),
        Expr::Slot(slot) => draft.put(Instr::Get(*slot), NOWHERE, depth),
        Expr::Un { pos, op, .. } => draft.put(Instr::Un(*op), *pos, depth),
        Expr::Bin { pos, op, .. } => draft.put(Instr::Bin(*op), *pos, depth),
        Expr::Load { pos, .. } => draft.put(Instr::Load, *pos, depth),
        Expr::Call { pos, function, .. } => draft.put(Instr::Call(*function), *pos, depth),
        Expr::Post { pos, op, .. } => put_action(draft, Instr::Post(*op), *pos, depth),
        Expr::Add { pos, .. } => draft.put(Instr::FetchAdd, *pos, depth),
        Expr::Swap { pos, .. } => draft.put(Instr::FetchSwap, *pos, depth),
        Expr::Cas { pos, .. } => draft.put(Instr::FetchCas, *pos, depth),
        Expr::Init { pos, .. } => put_action(draft, Instr::Init, *pos, depth),
        Expr::Fence => put_action(draft, Instr::Fence, NOWHERE, depth),
        Expr::Move { pos, .. } => put_action(draft, Instr::Move, *pos, depth),
        Expr::Where => draft.put(Instr::Where, NOWHERE, depth),
        Expr::Print { format, .. } => put_print(alloc, draft, format, depth),
        Expr::Alloc { pos, which, .. } => draft.put(Instr::Alloc(kind(*which)), *pos, depth),
        Expr::Both { .. } | Expr::Either { .. } => Ok(()),
    }
}

/// The allocation that a word asks for; one that does not allocate counts as `mw_malloc1dlong`.
fn kind(which: Builtin) -> AllocCode
    ensures { result ≡ kind_of which }
{
    match which {
        Builtin::MwMalloc2dlong => AllocCode::Blocked,
        Builtin::MwLocalmalloc => AllocCode::Local,
        Builtin::MwMallocrepl => AllocCode::Replicated,
        _ => AllocCode::Striped,
    }
}

#[tactic(auto, using(crate::proofs::Gained::two_gained))]
/// Appends an action that has no word, and 0 in its place.
fn put_action(draft: &mut Draft, instr: Instr, pos: Pos, depth: u32) -> Result<(), AllocError>
    ensures { OnOk result (Gains draft.old draft.new (line pos instr ∷ zero_line ∷ []) [] depth depth) }
{
    draft.put(instr, pos, depth)?;
    draft.put(Instr::Push(0), NOWHERE, depth)?;
    Ok(())
}

/// Appends a print in a format that comes behind the others, and 0.
fn put_print(
    alloc: Global,
    draft: &mut Draft,
    format: &Format,
    depth: u32,
) -> Result<(), AllocError>
    requires { length draft.old.formats < 2 ^ 32 }
    ensures { OnOk result (Gains draft.old draft.new (placeless (Instr.Print (length draft.old.formats)) ∷ zero_line ∷ []) (format.now ∷ []) depth depth) }
{
    let number = draft.formats.len() as u32;
    let mut copy = List::new(alloc);
    copy.extend_from_slice(format.as_slice())?;
    draft.formats.add(copy)?;
    put_action(draft, Instr::Print(number), NOWHERE, depth)
}
