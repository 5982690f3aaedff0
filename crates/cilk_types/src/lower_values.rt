//! What left sides, values, spawns and declarations are in a program.

ghost use Rattle.std.specs.Prelude.{◌≡◌, [], ◌∷◌, Some, pos, IfOk, OnOk};
ghost use Rattle.cilk_ast.specs.declared.program.Expr.{Word};
ghost use Rattle.cilk_ast.specs.declared.program.Stmt as program;
ghost use Rattle.cilk_model.specs.Sorts.{begins_at};
ghost use Rattle.cilk_model.specs.StatementLowering.{put as put_into, added as added_to, target_of as slot_of};
ghost use Rattle.cilk_types.specs.Making.{walked_of, word_at, hint_at, tested_at, returned_at, side_at, spawned_at, assigned_at, initial_at, local_at, declared_at};
ghost use Rattle.cilk_types.specs.Sides.{side_of};

use crate::lower_expressions::sum;
use crate::naming::declare;
use crate::owned::pair;
use crate::walk::{Side, Walk, called, first_token, index, variable_side, word, words};
use cilk_ast::{Expr, Kind, Stmt, TExpr, TSpawn, TValue};
use std::alloc::{AllocError, Global};
use word_ops::Pos;

#[tactic(auto, using(crate::proofs::MakingValues::side_lowered))]
/// A left side.
fn left_side(alloc: Global, walk: &Walk<'_, '_>, left: &TExpr) -> Result<Side, AllocError>
    ensures { IfOk result (λ s. side_of s ≡ side_at (walked_of walk.now) left.now) }
{
    match left {
        TExpr::Var { pos, name } => {
            let side = variable_side(walk, *pos, name.as_slice())?;
            Ok(side)
        }
        TExpr::Paren { pos: _, inner } => {
            let side = left_side(alloc, walk, inner.get())?;
            Ok(side)
        }
        TExpr::Deref { pos, inner } => {
            let address = word(alloc, walk, inner.get())?;
            Ok(Side::Cell { pos: *pos, address })
        }
        TExpr::Index { pos, base, index } => {
            let base = word(alloc, walk, base.get())?;
            let index = word(alloc, walk, index.get())?;
            let address = sum(alloc, *pos, base, index)?;
            Ok(Side::Cell { pos: *pos, address })
        }
        _ => {
            let pos = first_token(walk, left);
            let address = word(alloc, walk, left)?;
            Ok(Side::Cell { pos, address })
        }
    }
}

/// A word put into a side.
fn put(side: Side, value: Expr) -> Stmt
    ensures { result ≡ put_into (side_of side) value }
{
    match side {
        Side::Slot(slot) => Stmt::Set { slot, value },
        Side::Cell { pos, address } => Stmt::Store {
            pos,
            address,
            value,
        },
    }
}

/// A word added to a side; `at` is the place of a sum in a slot.
fn added(alloc: Global, at: Pos, side: Side, value: Expr) -> Result<Stmt, AllocError>
    ensures { IfOk result (λ s. s ≡ added_to at (side_of side) value) }
{
    match side {
        Side::Slot(slot) => Ok(Stmt::Set {
            slot,
            value: sum(alloc, at, Expr::Slot(slot), value)?,
        }),
        Side::Cell { pos, address } => Ok(Stmt::AddTo {
            pos,
            address,
            value,
        }),
    }
}

#[tactic(auto, using(crate::proofs::MakingValues::value_forms))]
/// The hint of a spawn, if there is one.
fn hint(alloc: Global, walk: &Walk<'_, '_>, e: &Option<TExpr>) -> Result<Option<Expr>, AllocError>
    ensures { IfOk result (λ h. h ≡ hint_at (walked_of walk.now) e.now) }
{
    match e {
        None => Ok(None),
        Some(e) => {
            let word = word(alloc, walk, e)?;
            Ok(Some(word))
        }
    }
}

#[tactic(auto, using(crate::proofs::MakingValues::value_forms))]
/// A spawn for a target.
pub fn spawn_to(
    alloc: Global,
    walk: &Walk<'_, '_>,
    target: Option<u32>,
    spawn: &TSpawn,
) -> Result<Stmt, AllocError>
    ensures { IfOk result (λ s. s ≡ spawned_at (walked_of walk.now) target spawn.now) }
{
    let hint = hint(alloc, walk, &spawn.hint)?;
    let args = words(alloc, walk, spawn.args.as_slice())?;
    let function = called(walk, spawn.name.as_slice());
    Ok(Stmt::Spawn {
        pos: spawn.pos,
        target,
        function,
        hint,
        args,
    })
}

/// The slot of a side, if it is one.
fn target_of(side: &Side) -> Option<u32>
    ensures { result ≡ slot_of (side_of side.now) }
{
    match side {
        Side::Slot(slot) => Some(*slot),
        Side::Cell { pos: _, address: _ } => None,
    }
}

#[tactic(auto, using(crate::proofs::MakingValues::value_forms))]
/// `left = value`.
fn assigned(
    alloc: Global,
    walk: &Walk<'_, '_>,
    side: Side,
    value: &TValue,
) -> Result<Stmt, AllocError>
    ensures { IfOk result (λ s. s ≡ assigned_at (walked_of walk.now) (side_of side) value.now) }
{
    match value {
        TValue::Plain(e) => {
            let word = word(alloc, walk, e)?;
            Ok(put(side, word))
        }
        TValue::Spawned(spawn) => {
            let target = target_of(&side);
            let made = spawn_to(alloc, walk, target, spawn)?;
            Ok(made)
        }
    }
}

/// `left = value`.
pub fn assign(
    alloc: Global,
    walk: &Walk<'_, '_>,
    left: &TExpr,
    value: &TValue,
) -> Result<Stmt, AllocError>
    ensures { IfOk result (λ s. s ≡ assigned_at (walked_of walk.now) (side_at (walked_of walk.now) left.now) value.now) }
{
    let side = left_side(alloc, walk, left)?;
    let made = assigned(alloc, walk, side, value)?;
    Ok(made)
}

/// `left += value`.
pub fn add_to(
    alloc: Global,
    walk: &Walk<'_, '_>,
    at: Pos,
    left: &TExpr,
    value: &TExpr,
) -> Result<Stmt, AllocError>
    ensures { IfOk result (λ s. s ≡ added_to at (side_at (walked_of walk.now) left.now) (word_at (walked_of walk.now) value.now)) }
{
    let side = left_side(alloc, walk, left)?;
    let word = word(alloc, walk, value)?;
    let made = added(alloc, at, side, word)?;
    Ok(made)
}

/// `left++` or `left--`.
pub fn step_by(
    alloc: Global,
    walk: &Walk<'_, '_>,
    left: &TExpr,
    amount: i64,
) -> Result<Stmt, AllocError>
    ensures { IfOk result (λ s. s ≡ added_to (begins_at left.now) (side_at (walked_of walk.now) left.now) (Word amount)) }
{
    let at = first_token(walk, left);
    let side = left_side(alloc, walk, left)?;
    let made = added(alloc, at, side, Expr::Word(amount))?;
    Ok(made)
}

/// Two statements one behind the other.
pub fn in_turn(alloc: Global, first: Stmt, second: Stmt) -> Result<Stmt, AllocError>
    ensures { IfOk result (λ s. s ≡ program.Block (first ∷ second ∷ [])) }
{
    let both = pair(alloc, first, second)?;
    Ok(Stmt::Block(both))
}

/// A spawn whose result a new local gets: the local is 0 before.
fn spawn_into_new(
    alloc: Global,
    walk: &Walk<'_, '_>,
    slot: u32,
    spawn: &TSpawn,
) -> Result<Stmt, AllocError>
    ensures { IfOk result (λ s. s ≡ program.Block (program.Set slot (Word (pos 0)) ∷ spawned_at (walked_of walk.now) (Some slot) spawn.now ∷ [])) }
{
    let made = spawn_to(alloc, walk, Some(slot), spawn)?;
    let zero = Stmt::Set {
        slot,
        value: Expr::Word(0),
    };
    let both = in_turn(alloc, zero, made)?;
    Ok(both)
}

#[tactic(auto, using(crate::proofs::MakingValues::value_forms))]
/// The value of a new local with a slot.
fn initial(
    alloc: Global,
    walk: &Walk<'_, '_>,
    slot: u32,
    value: &Option<TValue>,
) -> Result<Stmt, AllocError>
    ensures { IfOk result (λ s. s ≡ initial_at (walked_of walk.now) slot value.now) }
{
    match value {
        None => Ok(Stmt::Set {
            slot,
            value: Expr::Word(0),
        }),
        Some(TValue::Plain(e)) => {
            let word = word(alloc, walk, e)?;
            Ok(Stmt::Set { slot, value: word })
        }
        Some(TValue::Spawned(spawn)) => {
            let made = spawn_into_new(alloc, walk, slot, spawn)?;
            Ok(made)
        }
    }
}

#[tactic(auto, using(crate::proofs::MakingValues::value_forms))]
/// What is returned: 0, if there is no value.
pub fn returned(
    alloc: Global,
    walk: &Walk<'_, '_>,
    value: &Option<TExpr>,
) -> Result<Expr, AllocError>
    ensures { IfOk result (λ x. x ≡ returned_at (walked_of walk.now) value.now) }
{
    match value {
        None => Ok(Expr::Word(0)),
        Some(e) => {
            let word = word(alloc, walk, e)?;
            Ok(word)
        }
    }
}

#[tactic(auto, using(crate::proofs::MakingValues::value_forms))]
/// The test of a `for`: without one it goes on.
pub fn tested(alloc: Global, walk: &Walk<'_, '_>, test: &Option<TExpr>) -> Result<Expr, AllocError>
    ensures { IfOk result (λ x. x ≡ tested_at (walked_of walk.now) test.now) }
{
    match test {
        None => Ok(Expr::Word(1)),
        Some(e) => {
            let word = word(alloc, walk, e)?;
            Ok(word)
        }
    }
}

/// A declaration of a local, which gets the next slot.
pub fn local<'a>(
    alloc: Global,
    walk: &mut Walk<'_, 'a>,
    kind: Kind,
    name: &'a [u8],
    value: &Option<TValue>,
) -> Result<Stmt, AllocError>
    ensures made { IfOk result (λ x. x ≡ local_at (walked_of walk.old) value.now) }
    ensures past { OnOk result (walked_of walk.new ≡ declared_at name.now kind (walked_of walk.old)) }
{
    let slot = index(walk.frame.len())?;
    let made = initial(alloc, walk, slot, value)?;
    walk.frame.add(walk.scopes.count)?;
    let _ = declare(&mut walk.scopes, name, kind)?;
    Ok(made)
}
