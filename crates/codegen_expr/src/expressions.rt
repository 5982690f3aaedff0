ghost use Rattle.std.specs.Prelude.{◌*◌, OnOk};
ghost use Rattle.cilk_ast.specs.Nodes.{expression_nodes};
ghost use Rattle.codegen_expr.specs.Gains.{GainsValue, HasRoom};

use crate::draft::Draft;
use crate::own::put_own;
use crate::pieces::{part, parts};
use crate::sizes::measure;
use cilk_ast::Expr;
use std::alloc::{AllocError, Global};

/// Appends code that makes the actions of `e` and leaves its value on the stack, in every program that has
/// the functions that `e` calls (docs/machine.md, "Code").
pub fn emit(alloc: Global, draft: &mut Draft, e: &Expr) -> Result<(), AllocError>
    requires { HasRoom draft.old (8 * expression_nodes e.now) }
    ensures { OnOk result (GainsValue draft.old draft.new e.now) }
{
    let depth = draft.depth;
    match e {
        Expr::Both { pos, left, right } => {
            emit(alloc, draft, left)?;
            draft.put_test(*pos, measure(right), depth)?;
            emit(alloc, draft, right)?;
            draft.put_judge(*pos, depth)
        }
        Expr::Either { pos, left, right } => {
            emit(alloc, draft, left)?;
            draft.put_skip(*pos, measure(right), depth)?;
            emit(alloc, draft, right)?;
            draft.put_judge(*pos, depth)
        }
        _ => {
            for i in 0..parts(e) {
                emit(alloc, draft, part(e, i))?;
            }
            put_own(alloc, draft, e, depth + 1)
        }
    }
}
