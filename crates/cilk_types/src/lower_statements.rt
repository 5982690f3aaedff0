//! What statements are in a program.

ghost use Rattle.std.specs.Prelude.{◌≡◌, [], ◌∷◌, IfOk, OnOk};
ghost use Rattle.cilk_ast.specs.declared.program.Stmt as program;
ghost use Rattle.cilk_types.specs.Making.{walked_of, within, without, word_at, tested_at, made as made_of, past as past_of, made_part, past_part, made_list, past_list, copies_at, each_at, past_body};

use crate::lower_bodies::{copies_of, each_of, enter, leave};
use crate::lower_values::{add_to, assign, in_turn, local, returned, spawn_to, step_by, tested};
use crate::owned::boxed;
use crate::walk::{Walk, close, open, word};
use cilk_ast::{Expr, Stmt, TExpr, TStmt};
use std::alloc::{AllocError, Global};
use word_ops::{Box, List, Pos};

/// A test, and the statement that goes with it.
#[derive(Drop)]
pub struct Tested {
    pub test: Expr,
    pub body: Box<Stmt>,
}

#[tactic(auto, using(crate::proofs::MakingValues::made_simple, crate::proofs::MakingValues::past_simple, crate::proofs::MakingForms::making_control, crate::proofs::MakingLoops::making_loops))]
/// A statement in a function, and behind it what the walk has passed.
#[cycle(making)]
pub fn statement<'a>(
    alloc: Global,
    walk: &mut Walk<'_, 'a>,
    s: &'a TStmt,
) -> Result<Stmt, AllocError>
    ensures made { IfOk result (λ x. x ≡ made_of s.now (walked_of walk.old)) }
    ensures past { OnOk result (walked_of walk.new ≡ past_of s.now (walked_of walk.old)) }
{
    match s {
        TStmt::Empty => Ok(Stmt::Nothing),
        TStmt::Block(body) => block(alloc, walk, body.as_slice()),
        TStmt::Local {
            kind,
            name,
            value,
            ..
        } => local(alloc, walk, *kind, name.as_slice(), value),
        TStmt::Eval(e) => Ok(Stmt::Eval(word(alloc, walk, e)?)),
        TStmt::Assign { left, value, .. } => assign(alloc, walk, left, value),
        TStmt::AddTo { pos, left, value } => add_to(alloc, walk, *pos, left, value),
        TStmt::Up { left } => step_by(alloc, walk, left, 1),
        TStmt::Down { left } => step_by(alloc, walk, left, -1),
        TStmt::Spawn(spawn) => spawn_to(alloc, walk, None, spawn),
        TStmt::If { test, yes, no } => {
            let first = yes.get();
            let chosen = if_begun(alloc, walk, first, test)?;
            if_rest(alloc, walk, no, chosen)
        }
        TStmt::While { test, body } => while_loop(alloc, walk, body.get(), test),
        TStmt::For {
            init,
            test,
            step,
            body,
        } => {
            let begun = for_begun(alloc, walk, init)?;
            let head = for_head(alloc, walk, step, test)?;
            let inner = body.get();
            for_rest(alloc, walk, inner, begun, head)
        }
        TStmt::CilkFor {
            pos,
            name,
            low,
            high,
            body,
            ..
        } => each(alloc, walk, *pos, name.as_slice(), body.get(), low, high),
        TStmt::Break { pos: _ } => Ok(Stmt::Break),
        TStmt::Continue { pos: _ } => Ok(Stmt::Continue),
        TStmt::Return { value, .. } => Ok(Stmt::Return(returned(alloc, walk, value)?)),
        TStmt::Sync => Ok(Stmt::Sync),
    }
}

/// A block, with a scope of its own.
#[cycle(making)]
fn block<'a>(alloc: Global, walk: &mut Walk<'_, 'a>, body: &'a [TStmt]) -> Result<Stmt, AllocError>
    ensures made { IfOk result (λ x. x ≡ program.Block (made_list body.now (within (walked_of walk.old)))) }
    ensures past { OnOk result (walked_of walk.new ≡ without (past_list body.now (within (walked_of walk.old)))) }
{
    open(alloc, walk)?;
    let made = statements(alloc, walk, body)?;
    close(walk);
    Ok(Stmt::Block(made))
}

/// Statements one after the other.
#[cycle(making)]
pub fn statements<'a>(
    alloc: Global,
    walk: &mut Walk<'_, 'a>,
    body: &'a [TStmt],
) -> Result<List<Stmt>, AllocError>
    ensures made { IfOk result (λ xs. xs ≡ made_list body.now (walked_of walk.old)) }
    ensures past { OnOk result (walked_of walk.new ≡ past_list body.now (walked_of walk.old)) }
{
    let mut made = List::new(alloc);
    for i in 0..body.len() {
        let next = statement(alloc, walk, &body[i])?;
        made.add(next)?;
    }
    Ok(made)
}

/// A statement on the heap.
#[cycle(making)]
pub fn boxed_statement<'a>(
    alloc: Global,
    walk: &mut Walk<'_, 'a>,
    s: &'a TStmt,
) -> Result<Box<Stmt>, AllocError>
    ensures made { IfOk result (λ x. x ≡ made_of s.now (walked_of walk.old)) }
    ensures past { OnOk result (walked_of walk.new ≡ past_of s.now (walked_of walk.old)) }
{
    let made = statement(alloc, walk, s)?;
    boxed(alloc, made)
}

#[tactic(auto, using(crate::proofs::MakingForms::part_forms))]
/// A statement on the heap that may be missing.
#[cycle(making)]
fn boxed_part<'a>(
    alloc: Global,
    walk: &mut Walk<'_, 'a>,
    s: &'a Option<Box<TStmt>>,
) -> Result<Box<Stmt>, AllocError>
    ensures made { IfOk result (λ x. x ≡ made_part s.now (walked_of walk.old)) }
    ensures past { OnOk result (walked_of walk.new ≡ past_part s.now (walked_of walk.old)) }
{
    match s {
        None => boxed(alloc, Stmt::Nothing),
        Some(s) => boxed_statement(alloc, walk, s.get()),
    }
}

/// A test and the statement that it chooses.
#[cycle(making)]
fn if_begun<'a>(
    alloc: Global,
    walk: &mut Walk<'_, 'a>,
    yes: &'a TStmt,
    test: &TExpr,
) -> Result<Tested, AllocError>
    ensures made { IfOk result (λ t. t ≡ record { test = word_at (walked_of walk.old) test.now; body = made_of yes.now (walked_of walk.old) }) }
    ensures past { OnOk result (walked_of walk.new ≡ past_of yes.now (walked_of walk.old)) }
{
    let test = word(alloc, walk, test)?;
    let body = boxed_statement(alloc, walk, yes)?;
    Ok(Tested { test, body })
}

/// An `if` whose first statement is made.
#[cycle(making)]
fn if_rest<'a>(
    alloc: Global,
    walk: &mut Walk<'_, 'a>,
    no: &'a Option<Box<TStmt>>,
    chosen: Tested,
) -> Result<Stmt, AllocError>
    ensures made { IfOk result (λ x. x ≡ program.If chosen.test chosen.body (made_part no.now (walked_of walk.old))) }
    ensures past { OnOk result (walked_of walk.new ≡ past_part no.now (walked_of walk.old)) }
{
    let no = boxed_part(alloc, walk, no)?;
    let Tested { test, body } = chosen;
    Ok(Stmt::If {
        test,
        yes: body,
        no,
    })
}

/// A loop with a test.
#[cycle(making)]
fn while_loop<'a>(
    alloc: Global,
    walk: &mut Walk<'_, 'a>,
    body: &'a TStmt,
    test: &TExpr,
) -> Result<Stmt, AllocError>
    ensures made { IfOk result (λ x. x ≡ program.Loop (word_at (walked_of walk.old) test.now) program.Nothing (made_of body.now (walked_of walk.old))) }
    ensures past { OnOk result (walked_of walk.new ≡ past_of body.now (walked_of walk.old)) }
{
    let test = word(alloc, walk, test)?;
    let step = boxed(alloc, Stmt::Nothing)?;
    let body = boxed_statement(alloc, walk, body)?;
    Ok(Stmt::Loop { test, step, body })
}

/// The initial part of a `for`, in a scope of its own.
#[cycle(making)]
fn for_begun<'a>(
    alloc: Global,
    walk: &mut Walk<'_, 'a>,
    init: &'a Option<Box<TStmt>>,
) -> Result<Box<Stmt>, AllocError>
    ensures made { IfOk result (λ x. x ≡ made_part init.now (within (walked_of walk.old))) }
    ensures past { OnOk result (walked_of walk.new ≡ past_part init.now (within (walked_of walk.old))) }
{
    open(alloc, walk)?;
    boxed_part(alloc, walk, init)
}

/// The test and the step of a `for`.
#[cycle(making)]
fn for_head<'a>(
    alloc: Global,
    walk: &mut Walk<'_, 'a>,
    step: &'a Option<Box<TStmt>>,
    test: &Option<TExpr>,
) -> Result<Tested, AllocError>
    ensures made { IfOk result (λ t. t ≡ record { test = tested_at (walked_of walk.old) test.now; body = made_part step.now (walked_of walk.old) }) }
    ensures past { OnOk result (walked_of walk.new ≡ past_part step.now (walked_of walk.old)) }
{
    let test = tested(alloc, walk, test)?;
    let body = boxed_part(alloc, walk, step)?;
    Ok(Tested { test, body })
}

/// A `for` whose head is made.
#[cycle(making)]
fn for_rest<'a>(
    alloc: Global,
    walk: &mut Walk<'_, 'a>,
    body: &'a TStmt,
    begun: Box<Stmt>,
    head: Tested,
) -> Result<Stmt, AllocError>
    ensures made { IfOk result (λ x. x ≡ program.Block (begun ∷ program.Loop head.test head.body (made_of body.now (walked_of walk.old)) ∷ [])) }
    ensures past { OnOk result (walked_of walk.new ≡ without (past_of body.now (walked_of walk.old))) }
{
    let body = boxed_statement(alloc, walk, body)?;
    close(walk);
    let Tested { test, body: step } = head;
    in_turn(alloc, begun.into_inner(), Stmt::Loop { test, step, body })
}

/// A `cilk_for`, whose body becomes a function.
#[cycle(making)]
fn each<'a>(
    alloc: Global,
    walk: &mut Walk<'_, 'a>,
    at: Pos,
    name: &'a [u8],
    body: &'a TStmt,
    low: &TExpr,
    high: &TExpr,
) -> Result<Stmt, AllocError>
    ensures made { IfOk result (λ x. x ≡ each_at (walked_of walk.old) at low.now high.now (copies_at (walked_of walk.old) name.now body.now)) }
    ensures past { OnOk result (walked_of walk.new ≡ past_body name.now (copies_at (walked_of walk.old) name.now body.now) body.now (walked_of walk.old)) }
{
    let copies = copies_of(alloc, walk, name, body)?;
    let made = each_of(alloc, walk, at, low, high, copies.as_slice())?;
    let made = boxed(alloc, made)?;
    body_of(alloc, walk, name, copies, body)?;
    Ok(made.into_inner())
}

#[tactic(auto, using(crate::proofs::MakingLoops::body_forms))]
/// The body of a `cilk_for`, with its variable and its copies.
#[cycle(making)]
fn body_of<'a>(
    alloc: Global,
    walk: &mut Walk<'_, 'a>,
    name: &'a [u8],
    copies: List<u32>,
    body: &'a TStmt,
) -> Result<(), AllocError>
    ensures { OnOk result (walked_of walk.new ≡ past_body name.now copies body.now (walked_of walk.old)) }
{
    let around = enter(alloc, walk, name, copies)?;
    let made = boxed_statement(alloc, walk, body)?;
    leave(alloc, walk, around, made)?;
    Ok(())
}
