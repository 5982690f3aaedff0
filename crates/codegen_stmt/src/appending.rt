ghost use Rattle.std.specs.Prelude.{◌≡◌, ◌<◌, ◌≤◌, ◌+◌, ◌*◌, ◌^◌, [], ◌∷◌, length, suc, OnOk};
ghost use Rattle.cilk_ast.specs.Nodes.{expression_nodes, statement_nodes};
ghost use Rattle.codegen_expr.specs.Emitted.{emitted};
ghost use Rattle.codegen_expr.specs.Gains.{Gains, HasRoom};
ghost use Rattle.codegen_expr.specs.Piece.{line, placeless};
ghost use Rattle.codegen_stmt.specs.Compiling.{exits_of, stretch_of, GainsStretch};
ghost use Rattle.codegen_stmt.specs.Stretch.{adding};

use crate::around::Around;
use crate::rounds::put_rounds;
use crate::simple::put_simple;
use crate::sizes::size;
use cilk_ast::{Expr, Stmt};
use codegen_expr::{Draft, NOWHERE, emit};
use mem_atomics::Op;
use std::alloc::{AllocError, Global};
use threadlet_code::Instr;
use word_ops::{BinaryOp, Pos};

#[tactic(auto, using(crate::proofs::PartForms::simple_by_form))]
/// Appends the code of `s` (docs/machine.md, "Code").
pub fn statement(
    alloc: Global,
    draft: &mut Draft,
    around: Around,
    s: &Stmt,
) -> Result<(), AllocError>
    requires start { draft.old.depth ≡ 0 }
    requires kept { around.kept + 1 < 2 ^ 32 }
    requires room { HasRoom draft.old (8 * statement_nodes s.now) }
    ensures { OnOk result (GainsStretch draft.old draft.new (stretch_of around s.now) (exits_of around)) }
{
    match s {
        Stmt::Nothing => Ok(()),
        Stmt::Block(body) => {
            for i in 0..body.len() {
                statement(alloc, draft, around, body.at(i))?;
            }
            Ok(())
        }
        Stmt::AddTo {
            pos,
            address,
            value,
        } => put_adding(alloc, draft, around, *pos, address, value),
        Stmt::Each {
            pos,
            low,
            high,
            function,
            copies,
        } => {
            emit(alloc, draft, low)?;
            draft.put(Instr::Set(around.kept), NOWHERE, 0)?;
            emit(alloc, draft, high)?;
            draft.put(Instr::Set(around.kept + 1), NOWHERE, 0)?;
            put_rounds(draft, around.kept, *pos, *function, copies)
        }
        Stmt::If { test, yes, no } => {
            emit(alloc, draft, test)?;
            put_over(draft, size(around, yes) + 1)?;
            statement(alloc, draft, around, yes)?;
            put_past(draft, size(around, no))?;
            statement(alloc, draft, around, no)
        }
        Stmt::Loop { test, step, body } => {
            let head = draft.place();
            draft.put(Instr::Turn, NOWHERE, 0)?;
            emit(alloc, draft, test)?;
            let continued = draft.place() + 1 + size(around, body);
            let broken = continued + size(around, step) + 1;
            draft.put(Instr::JumpZero(broken), NOWHERE, 0)?;
            let inside = Around {
                broken,
                continued,
                ..around
            };
            statement(alloc, draft, inside, body)?;
            statement(alloc, draft, around, step)?;
            draft.put(Instr::Jump(head), NOWHERE, 0)
        }
        Stmt::Eval(_) | Stmt::Set { .. } | Stmt::Store { .. } | Stmt::Spawn { .. } => put_simple(
            alloc, draft, around, s,
        ),
        Stmt::Break | Stmt::Continue | Stmt::Return(_) | Stmt::Sync => put_simple(
            alloc, draft, around, s,
        ),
    }
}

/// Appends a test that goes over the next `size` instructions for 0.
fn put_over(draft: &mut Draft, size: u32) -> Result<(), AllocError>
    requires { length draft.old.body + size + 1 < 2 ^ 32 }
    ensures { OnOk result (Gains draft.old draft.new (placeless (Instr.JumpZero (suc (length draft.old.body + size))) ∷ []) [] 0 0) }
{
    let place = draft.place();
    draft.put(Instr::JumpZero(place + size + 1), NOWHERE, 0)
}

/// Appends a jump past the next `size` instructions.
fn put_past(draft: &mut Draft, size: u32) -> Result<(), AllocError>
    requires { length draft.old.body + size + 1 < 2 ^ 32 }
    ensures { OnOk result (Gains draft.old draft.new (placeless (Instr.Jump (suc (length draft.old.body + size))) ∷ []) [] 0 0) }
{
    let place = draft.place();
    draft.put(Instr::Jump(place + size + 1), NOWHERE, 0)
}

/// Appends `*address += value`.
fn put_adding(
    alloc: Global,
    draft: &mut Draft,
    around: Around,
    pos: Pos,
    address: &Expr,
    value: &Expr,
) -> Result<(), AllocError>
    requires start { draft.old.depth ≡ 0 }
    requires room { HasRoom draft.old (8 * suc (expression_nodes address.now + expression_nodes value.now)) }
    ensures { OnOk result (GainsStretch draft.old draft.new (adding pos (emitted address.now) (emitted value.now)) (exits_of around)) }
{
    emit(alloc, draft, address)?;
    put_double(draft, pos)?;
    emit(alloc, draft, value)?;
    put_sum(draft, pos)
}

#[tactic(auto, using(crate::proofs::Joined::double_gained))]
/// Appends a load of the address on top, which stays under the word.
fn put_double(draft: &mut Draft, pos: Pos) -> Result<(), AllocError>
    ensures { OnOk result (Gains draft.old draft.new (placeless Instr.Dup ∷ line pos Instr.Load ∷ []) [] 2 2) }
{
    draft.put(Instr::Dup, NOWHERE, 2)?;
    draft.put(Instr::Load, pos, 2)?;
    Ok(())
}

#[tactic(auto, using(crate::proofs::Joined::sum_gained))]
/// Appends the sum of two words and its store.
fn put_sum(draft: &mut Draft, pos: Pos) -> Result<(), AllocError>
    ensures { OnOk result (Gains draft.old draft.new (placeless (Instr.Bin BinaryOp.Add) ∷ line pos (Instr.Post Op.Store) ∷ []) [] 0 2) }
{
    draft.put(Instr::Bin(BinaryOp::Add), NOWHERE, 2)?;
    draft.put(Instr::Post(Op::Store), pos, 0)?;
    Ok(())
}
