ghost use Rattle.std.specs.Prelude.{◌≡◌, ◌<◌, ◌≤◌, ◌+◌, ◌*◌, ◌^◌, ◌∷◌, ◌++◌, [], length, max, suc, OnOk};
ghost use Rattle.cilk_ast.specs.Nodes.{expression_nodes};
ghost use Rattle.codegen_expr.specs.Gains.{Gains, HasRoom};
ghost use Rattle.codegen_expr.specs.Emitted.{emitted};
ghost use Rattle.codegen_expr.specs.Piece.{placeless};
ghost use Rattle.codegen_stmt.specs.Stretch.{bounded, counting, spawning_one};

use codegen_expr::{Draft, NOWHERE};
use std::alloc::AllocError;
use threadlet_code::Instr;
use word_ops::{BinaryOp, List, Pos};

#[tactic(auto, using(crate::proofs::Joined::rounds_gained))]
/// Appends the rounds of a `cilk_for` whose variable is in slot `kept` and its bound in the next: a Turn, the
/// test, a child, and again; and the Sync at its end.
pub fn put_rounds(
    draft: &mut Draft,
    kept: u32,
    pos: Pos,
    function: u32,
    copies: &List<u32>,
) -> Result<(), AllocError>
    requires room { length draft.old.body + length copies.now + 13 < 2 ^ 32 }
    requires kept { kept + 1 < 2 ^ 32 }
    ensures { OnOk result (Gains draft.old draft.new (placeless Instr.Turn ∷ (bounded kept (length draft.old.body + (length copies.now + 12)) ++ (spawning_one pos kept function copies.now ++ (counting kept (length draft.old.body) ++ placeless Instr.Sync ∷ [])))) [] 0 (max 2 (suc (length copies.now)))) }
{
    let head = draft.place();
    draft.put(Instr::Turn, NOWHERE, 0)?;
    put_bound(draft, kept, head + (copies.len() as u32 + 12))?;
    put_child(draft, kept, pos, function, copies)?;
    put_count(draft, kept, head)?;
    draft.put(Instr::Sync, NOWHERE, 0)?;
    Ok(())
}

#[tactic(auto, using(crate::proofs::Joined::bounded_gained))]
/// Appends the test, which goes to `out` where the variable has reached the bound.
fn put_bound(draft: &mut Draft, kept: u32, out: u32) -> Result<(), AllocError>
    requires { kept + 1 < 2 ^ 32 }
    ensures { OnOk result (Gains draft.old draft.new (bounded kept out) [] 0 2) }
{
    draft.put(Instr::Get(kept), NOWHERE, 1)?;
    draft.put(Instr::Get(kept + 1), NOWHERE, 2)?;
    draft.put(Instr::Bin(BinaryOp::Lt), NOWHERE, 1)?;
    draft.put(Instr::JumpZero(out), NOWHERE, 0)?;
    Ok(())
}

#[tactic(auto, using(crate::proofs::Joined::child_gained))]
/// Appends the spawn of one child, with the variable and the copies.
fn put_child(
    draft: &mut Draft,
    kept: u32,
    pos: Pos,
    function: u32,
    copies: &List<u32>,
) -> Result<(), AllocError>
    requires { length copies.now + 2 < 2 ^ 32 }
    ensures { OnOk result (Gains draft.old draft.new (spawning_one pos kept function copies.now) [] 0 (suc (length copies.now))) }
{
    draft.put(Instr::Get(kept), NOWHERE, 1)?;
    for i in 0..copies.len() {
        draft.put(Instr::Get(*copies.at(i)), NOWHERE, i as u32 + 2)?;
    }
    draft.put(
        Instr::Spawn {
            function,
            target: None,
            hinted: false,
        },
        pos,
        0,
    )?;
    Ok(())
}

#[tactic(auto, using(crate::proofs::Joined::counting_gained))]
/// Appends the step to the next value, and back.
fn put_count(draft: &mut Draft, kept: u32, head: u32) -> Result<(), AllocError>
    ensures { OnOk result (Gains draft.old draft.new (counting kept head) [] 0 2) }
{
    draft.put(Instr::Get(kept), NOWHERE, 1)?;
    draft.put(Instr::Push(1), NOWHERE, 2)?;
    draft.put(Instr::Bin(BinaryOp::Add), NOWHERE, 1)?;
    draft.put(Instr::Set(kept), NOWHERE, 0)?;
    draft.put(Instr::Jump(head), NOWHERE, 0)?;
    Ok(())
}
