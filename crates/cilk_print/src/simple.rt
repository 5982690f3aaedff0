//! Statements without parts that are statements.

ghost use Rattle.std.specs.Prelude.{◌≡◌, OnOk};
ghost use Rattle.cilk_print.specs.Printing.{printed_perhaps, printed_declared, printed_spawn, printed_origin, printed_value, printed_initial, printed_simple};

use crate::expressions::{bracketed, call, expression, operand, star};
use crate::page::{operator, plain, tight, word};
use cilk_ast::{Kind, TExpr, TSpawn, TStmt, TValue};
use cilk_model::Page;
use std::alloc::{AllocError, Global};

#[tactic(auto, using(crate::proofs::StatementSteps::perhaps_steps))]
/// An expression, where there is one.
pub fn perhaps(alloc: Global, page: &mut Page, e: &Option<TExpr>) -> Result<(), AllocError>
    ensures { OnOk result (page.new ≡ printed_perhaps page.old e.now) }
{
    match e {
        None => Ok(()),
        Some(e) => expression(alloc, page, e),
    }
}

#[tactic(auto, using(crate::proofs::StatementSteps::declared_step))]
/// `long` and a name with its `*`.
pub fn declared(page: &mut Page, kind: Kind, name: &[u8]) -> Result<(), AllocError>
    ensures { OnOk result (page.new ≡ printed_declared page.old kind name.now) }
{
    word(page, "long")?;
    star(page, kind)?;
    plain(page, name)
}

#[tactic(auto, using(crate::proofs::StatementSteps::origin_steps))]
/// The word of a spawn, and its hint.
fn origin(alloc: Global, page: &mut Page, hint: &Option<TExpr>) -> Result<(), AllocError>
    ensures { OnOk result (page.new ≡ printed_origin page.old hint.now) }
{
    match hint {
        None => word(page, "cilk_spawn"),
        Some(hint) => {
            word(page, "cilk_spawn_at")?;
            bracketed(alloc, page, hint)
        }
    }
}

#[tactic(auto, using(crate::proofs::StatementSteps::spawn_step))]
fn spawn(alloc: Global, page: &mut Page, spawn: &TSpawn) -> Result<(), AllocError>
    ensures { OnOk result (page.new ≡ printed_spawn page.old spawn.now) }
{
    origin(alloc, page, &spawn.hint)?;
    call(alloc, page, spawn.name.as_slice(), spawn.args.as_slice())
}

#[tactic(auto, using(crate::proofs::StatementSteps::value_steps))]
/// What stands behind a `=`.
fn right_side(alloc: Global, page: &mut Page, value: &TValue) -> Result<(), AllocError>
    ensures { OnOk result (page.new ≡ printed_value page.old value.now) }
{
    match value {
        TValue::Plain(e) => expression(alloc, page, e),
        TValue::Spawned(s) => spawn(alloc, page, s),
    }
}

#[tactic(auto, using(crate::proofs::StatementSteps::initial_steps))]
/// The initial value of a local, where it has one.
fn initial(alloc: Global, page: &mut Page, first: &Option<TValue>) -> Result<(), AllocError>
    ensures { OnOk result (page.new ≡ printed_initial page.old first.now) }
{
    match first {
        None => Ok(()),
        Some(first) => {
            operator(page, "=")?;
            right_side(alloc, page, first)
        }
    }
}

#[tactic(auto, using(crate::proofs::StatementSteps::simple_steps))]
/// A statement without its `;`, where it has no parts that are statements.
pub fn simple(alloc: Global, page: &mut Page, s: &TStmt) -> Result<(), AllocError>
    ensures { OnOk result (page.new ≡ printed_simple page.old s.now) }
{
    match s {
        TStmt::Local {
            kind,
            name,
            value,
            ..
        } => {
            declared(page, *kind, name.as_slice())?;
            initial(alloc, page, value)
        }
        TStmt::Eval(e) => expression(alloc, page, e),
        TStmt::Assign { left, value, .. } => {
            expression(alloc, page, left)?;
            operator(page, "=")?;
            right_side(alloc, page, value)
        }
        TStmt::AddTo { left, value, .. } => {
            expression(alloc, page, left)?;
            operand(alloc, page, "+=", value)
        }
        TStmt::Up { left } => {
            expression(alloc, page, left)?;
            tight(page, "++")
        }
        TStmt::Down { left } => {
            expression(alloc, page, left)?;
            tight(page, "--")
        }
        TStmt::Spawn(s) => spawn(alloc, page, s),
        TStmt::Break { .. } => word(page, "break"),
        TStmt::Continue { .. } => word(page, "continue"),
        TStmt::Return { value, .. } => {
            word(page, "return")?;
            perhaps(alloc, page, value)
        }
        TStmt::Sync => word(page, "cilk_sync"),
        TStmt::Empty => Ok(()),
        TStmt::Block(_) => Ok(()),
        TStmt::If { .. } => Ok(()),
        TStmt::While { .. } => Ok(()),
        TStmt::For { .. } => Ok(()),
        TStmt::CilkFor { .. } => Ok(()),
    }
}
