//! The functions that bodies of `cilk_for` become.

ghost use Rattle.std.specs.Prelude.{◌≡◌, suc, ◌∷◌, length, map, slice_set, IfOk, OnOk};
ghost use Rattle.cilk_model.specs.ExpressionLowering.{slot_in as slot_of};
ghost use Rattle.cilk_model.specs.StatementLowering.{function_of as function_so};
ghost use Rattle.cilk_types.specs.Making.{walked_of, copies_at, each_at, spare as spare_function, entered, kept_of, signature_of, function_at, back, leaving};
ghost use Rattle.cilk_types.specs.Around.{around_of};

use crate::counts::one_more;
use crate::frames::copies;
use crate::lower_expressions::slot_in;
use crate::naming::close_scope;
use crate::owned::copied;
use crate::spawning::spawns;
use crate::statements::enter_body;
use crate::walk::{Walk, index, word};
use cilk_ast::{Function, Stmt, TExpr, TStmt};
use std::alloc::{AllocError, Global};
use word_ops::{Box, List, Pos};

/// What is kept of a function while a body in it is lowered: its frame, its level, the place of the body's
/// function, and how many parameters that has.
#[derive(Drop)]
pub struct Around {
    pub frame: List<u32>,
    pub level: u32,
    pub place: usize,
    pub params: u32,
}

/// The outer locals that the body of a `cilk_for` copies.
pub fn copies_of<'a>(
    alloc: Global,
    walk: &mut Walk<'_, 'a>,
    name: &'a [u8],
    body: &'a TStmt,
) -> Result<List<u32>, AllocError>
    ensures copies { IfOk result (λ c. c ≡ copies_at (walked_of walk.old) name.now body.now) }
    ensures same { OnOk result (walked_of walk.new ≡ walked_of walk.old) }
{
    let frame = walk.frame.as_slice();
    let copied = copies(alloc, &mut walk.scopes, frame, name, body)?;
    Ok(copied)
}

/// The slots of locals.
fn slots_of(alloc: Global, frame: &[u32], numbers: &[u32]) -> Result<List<u32>, AllocError>
    ensures { IfOk result (λ ss. ss ≡ map (slot_of frame.now) numbers.now) }
{
    let mut slots = List::new(alloc);
    for number in numbers {
        slots.add(slot_in(frame, *number)?)?;
    }
    Ok(slots)
}

/// A `cilk_for` whose body is the next one.
pub fn each_of(
    alloc: Global,
    walk: &Walk<'_, '_>,
    at: Pos,
    low: &TExpr,
    high: &TExpr,
    copies: &[u32],
) -> Result<Stmt, AllocError>
    ensures { IfOk result (λ s. s ≡ each_at (walked_of walk.now) at low.now high.now copies.now) }
{
    let from = word(alloc, walk, low)?;
    let to = word(alloc, walk, high)?;
    let frame = walk.frame.as_slice();
    let slots = slots_of(alloc, frame, copies)?;
    Ok(Stmt::Each {
        pos: at,
        low: from,
        high: to,
        function: walk.next,
        copies: slots,
    })
}

/// A function in the place of one that is not known yet.
fn spare(alloc: Global) -> Function
    ensures { result ≡ spare_function }
{
    Function {
        name: List::new(alloc),
        params: 0,
        slots: 0,
        spawns: false,
        body: Stmt::Nothing,
    }
}

/// The frame of a body: its variable, then its copies.
fn frame_of(alloc: Global, variable: u32, copies: &[u32]) -> Result<List<u32>, AllocError>
    ensures { IfOk result (λ f. f ≡ variable ∷ copies.now) }
{
    let mut frame = List::new(alloc);
    frame.add(variable)?;
    frame.extend_from_slice(copies)?;
    Ok(frame)
}

/// Enters the body of a `cilk_for`, and keeps what is around it.
pub fn enter<'a>(
    alloc: Global,
    walk: &mut Walk<'_, 'a>,
    name: &'a [u8],
    copies: List<u32>,
) -> Result<Around, AllocError>
    ensures around { IfOk result (λ a. around_of a ≡ kept_of (suc (length copies)) (walked_of walk.old)) }
    ensures inner { OnOk result (walked_of walk.new ≡ entered name.now copies (walked_of walk.old)) }
{
    let inner = frame_of(alloc, walk.scopes.count, copies.as_slice())?;
    let params = index(inner.len())?;
    let next = one_more(walk.next)?;
    let place = walk.bodies.len();
    let level = walk.scopes.level;
    walk.bodies.add(spare(alloc))?;
    enter_body(alloc, &mut walk.scopes, name)?;
    walk.next = next;
    let frame = std::mem::replace(&mut walk.frame, inner);
    Ok(Around {
        frame,
        level,
        place,
        params,
    })
}

/// A function of this name.
fn function_of(name: List<u8>, params: u32, slots: u32, body: Stmt) -> Function
    ensures { result ≡ function_so name params slots body }
{
    Function {
        name,
        params,
        slots,
        spawns: spawns(&body),
        body,
    }
}

/// Puts a function into its place, if there is one.
fn put_function(functions: &mut List<Function>, place: usize, function: Function)
    ensures { functions.new ≡ slice_set functions.old place function }
{
    if place < functions.len() {
        let _ = functions.set(place, function);
    }
}

/// The name of a function, and how many slots it has.
fn signature(alloc: Global, walk: &Walk<'_, '_>) -> Result<(List<u8>, u32), AllocError>
    ensures { IfOk result (λ s. s ≡ signature_of (walked_of walk.now)) }
{
    let slots = index(walk.frame.len())?;
    let name = copied(alloc, walk.name)?;
    Ok((name, slots))
}

/// The function of a walk that has passed its body.
pub fn passed(
    alloc: Global,
    walk: &Walk<'_, '_>,
    params: u32,
    body: Box<Stmt>,
) -> Result<Function, AllocError>
    ensures { IfOk result (λ f. f ≡ function_at (walked_of walk.now) params body) }
{
    let signed = signature(alloc, walk)?;
    let (name, slots) = signed;
    let function = function_of(name, params, slots, body.into_inner());
    Ok(function)
}

/// Goes back to what is around a body, whose function takes its place.
fn go_back(walk: &mut Walk<'_, '_>, around: Around, function: Function)
    ensures { walked_of walk.new ≡ back (around_of around) function (walked_of walk.old) }
{
    put_function(&mut walk.bodies, around.place, function);
    close_scope(&mut walk.scopes);
    walk.scopes.level = around.level;
    walk.frame = around.frame;
}

#[tactic(auto, using(crate::proofs::MakingLoops::body_forms))]
/// Leaves the body of a `cilk_for`: its function takes its place.
pub fn leave(
    alloc: Global,
    walk: &mut Walk<'_, '_>,
    around: Around,
    body: Box<Stmt>,
) -> Result<(), AllocError>
    ensures { OnOk result (walked_of walk.new ≡ leaving (around_of around) body (walked_of walk.old)) }
{
    let function = passed(alloc, walk, around.params, body)?;
    go_back(walk, around, function);
    Ok(())
}
