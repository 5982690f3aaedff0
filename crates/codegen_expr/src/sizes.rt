ghost use Rattle.std.specs.Prelude.{◌≡◌, ◌<◌, ◌*◌, ◌^◌};
ghost use Rattle.cilk_ast.specs.Nodes.{expression_nodes};
ghost use Rattle.codegen_expr.specs.Emitted.{emitted};

use crate::pieces::{own_instructions, part, parts};
use cilk_ast::Expr;

/// How many instructions the code of `e` has.
pub fn measure(e: &Expr) -> u32
    requires { 8 * expression_nodes e.now < 2 ^ 32 }
    ensures { result ≡ (emitted e.now).size }
{
    let mut size = own_instructions(e);
    for i in 0..parts(e) {
        size += measure(part(e, i));
    }
    size
}
