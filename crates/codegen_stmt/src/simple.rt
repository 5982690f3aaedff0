ghost use Rattle.std.specs.Prelude.{◌≡◌, ◌*◌, [], true, OnOk};
ghost use Rattle.cilk_ast.specs.Nodes.{statement_nodes};
ghost use Rattle.codegen_expr.specs.Gains.{Gains, HasRoom};
ghost use Rattle.codegen_stmt.specs.Compiled.{spawned_words};
ghost use Rattle.codegen_stmt.specs.Compiling.{exits_of, nodes_of, stretch_of, GainsStretch, GainsWords};
ghost use Rattle.codegen_stmt.specs.Parts.{hint_of, is_simple, own_lines, words_of};
ghost use Rattle.codegen_stmt.specs.Stretch.{returning};

use crate::around::Around;
use crate::pieces::{hint, word, words};
use cilk_ast::Stmt;
use codegen_expr::{Draft, NOWHERE, emit};
use mem_atomics::Op;
use std::alloc::{AllocError, Global};
use threadlet_code::Instr;

/// Appends the code of a simple statement: that of its words, and then its own.
pub fn put_simple(
    alloc: Global,
    draft: &mut Draft,
    around: Around,
    s: &Stmt,
) -> Result<(), AllocError>
    requires simple { is_simple s.now ≡ true }
    requires start { draft.old.depth ≡ 0 }
    requires room { HasRoom draft.old (8 * statement_nodes s.now) }
    ensures { OnOk result (GainsStretch draft.old draft.new (stretch_of around s.now) (exits_of around)) }
{
    put_words(alloc, draft, s)?;
    put_own(draft, around, s)
}

/// Appends the code of the expressions of `s`.
fn put_words(alloc: Global, draft: &mut Draft, s: &Stmt) -> Result<(), AllocError>
    requires { HasRoom draft.old (8 * nodes_of (spawned_words (hint_of s.now) (words_of s.now))) }
    ensures { OnOk result (GainsWords draft.old draft.new (spawned_words (hint_of s.now) (words_of s.now))) }
{
    match hint(s) {
        None => put_plain_words(alloc, draft, s),
        Some(e) => {
            emit(alloc, draft, e)?;
            put_plain_words(alloc, draft, s)
        }
    }
}

/// The same without the hint.
fn put_plain_words(alloc: Global, draft: &mut Draft, s: &Stmt) -> Result<(), AllocError>
    requires { HasRoom draft.old (8 * nodes_of (words_of s.now)) }
    ensures { OnOk result (GainsWords draft.old draft.new (words_of s.now)) }
{
    for i in 0..words(s) {
        if let Some(e) = word(s, i) {
            emit(alloc, draft, e)?;
        }
    }
    Ok(())
}

#[tactic(auto, using(crate::proofs::PartForms::lines_by_form, crate::proofs::PartForms::simple_by_form))]
/// Appends what a simple statement does with its words.
fn put_own(draft: &mut Draft, around: Around, s: &Stmt) -> Result<(), AllocError>
    requires { is_simple s.now ≡ true }
    ensures { OnOk result (Gains draft.old draft.new (own_lines around s.now) [] 0 0) }
{
    match s {
        Stmt::Eval(_) => draft.put(Instr::Pop, NOWHERE, 0),
        Stmt::Set { slot, .. } => draft.put(Instr::Set(*slot), NOWHERE, 0),
        Stmt::Store { pos, .. } => draft.put(Instr::Post(Op::Store), *pos, 0),
        Stmt::Spawn {
            pos,
            target,
            function,
            hint,
            ..
        } => {
            let hinted = hint.is_some();
            draft.put(
                Instr::Spawn {
                    function: *function,
                    target: *target,
                    hinted,
                },
                *pos,
                0,
            )
        }
        Stmt::Break => draft.put(Instr::Jump(around.broken), NOWHERE, 0),
        Stmt::Continue => draft.put(Instr::Jump(around.continued), NOWHERE, 0),
        Stmt::Sync => draft.put(Instr::Sync, NOWHERE, 0),
        Stmt::Return(_) => put_return(draft, around.spawns),
        Stmt::Nothing | Stmt::Block(_) | Stmt::AddTo { .. } => Ok(()),
        Stmt::If { .. } | Stmt::Loop { .. } | Stmt::Each { .. } => Ok(()),
    }
}

#[tactic(auto, using(crate::proofs::Grown::sync_gained))]
/// Appends the end of an activation: one that spawns syncs before it returns the word on top.
pub fn put_return(draft: &mut Draft, spawns: bool) -> Result<(), AllocError>
    ensures { OnOk result (Gains draft.old draft.new (returning spawns) [] 0 0) }
{
    if spawns {
        draft.put(Instr::Sync, NOWHERE, 0)?;
        draft.put(Instr::Return, NOWHERE, 0)?;
        Ok(())
    } else {
        draft.put(Instr::Return, NOWHERE, 0)
    }
}
