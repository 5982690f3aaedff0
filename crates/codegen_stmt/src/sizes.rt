ghost use Rattle.std.specs.Prelude.{◌≡◌, ◌<◌, ◌*◌, ◌^◌};
ghost use Rattle.cilk_ast.specs.Nodes.{statement_nodes};
ghost use Rattle.codegen_expr.specs.Emitted.{emitted_each};
ghost use Rattle.codegen_expr.specs.Piece.{in_order};
ghost use Rattle.codegen_stmt.specs.Compiled.{spawned_words};
ghost use Rattle.codegen_stmt.specs.Compiling.{stretch_of};
ghost use Rattle.codegen_stmt.specs.Parts.{hint_of, words_of};

use crate::around::Around;
use crate::pieces::{child, children, hint, own_instructions, word, words};
use cilk_ast::Stmt;
use codegen_expr::measure;

/// How many instructions the code of `s` has.
pub fn size(around: Around, s: &Stmt) -> u32
    requires { 8 * statement_nodes s.now < 2 ^ 32 }
    ensures { result ≡ (stretch_of around s.now).size }
{
    let mut total = own_instructions(around, s) + words_size(s);
    for i in 0..children(s) {
        total += size(around, child(s, i));
    }
    total
}

/// How many instructions the code of the expressions of `s` has.
fn words_size(s: &Stmt) -> u32
    requires { 8 * statement_nodes s.now < 2 ^ 32 }
    ensures { result ≡ (in_order (emitted_each (spawned_words (hint_of s.now) (words_of s.now)))).size }
{
    match hint(s) {
        None => plain_size(s),
        Some(e) => measure(e) + plain_size(s),
    }
}

/// The same without the hint.
fn plain_size(s: &Stmt) -> u32
    requires { 8 * statement_nodes s.now < 2 ^ 32 }
    ensures { result ≡ (in_order (emitted_each (words_of s.now))).size }
{
    let mut total = 0;
    for i in 0..words(s) {
        if let Some(e) = word(s, i) {
            total += measure(e);
        }
    }
    total
}
