//! Statements on a page.

ghost use Rattle.std.specs.Prelude.{◌≡◌, OnOk};
ghost use Rattle.cilk_print.specs.Printing.{printed_part, printed_for_head, printed_low, printed_high, printed_cilk_for_head, printed_else, printed_statement, printed_statements};

use crate::expressions::{bracketed, call_of, expression};
use crate::page::{close_brace, close_round, open_brace, operator, plain, semicolon, tight, word};
use crate::simple::{declared, perhaps, simple};
use cilk_ast::{Kind, TExpr, TStmt};
use cilk_model::Page;
use std::alloc::{AllocError, Global};
use word_ops::{Box, List, Pos};

#[tactic(auto, using(crate::proofs::StatementSteps::part_steps))]
/// The init or the step of a `for`, where there is one.
fn part(alloc: Global, page: &mut Page, part: &Option<Box<TStmt>>) -> Result<(), AllocError>
    ensures { OnOk result (page.new ≡ printed_part page.old part.now) }
{
    match part {
        None => Ok(()),
        Some(s) => simple(alloc, page, s.get()),
    }
}

#[tactic(auto, using(crate::proofs::StatementSteps::for_head_step))]
/// `for`, and what stands between its brackets.
fn for_head(
    alloc: Global,
    page: &mut Page,
    init: &Option<Box<TStmt>>,
    test: &Option<TExpr>,
    step: &Option<Box<TStmt>>,
) -> Result<(), AllocError>
    ensures { OnOk result (page.new ≡ printed_for_head page.old init.now test.now step.now) }
{
    call_of(page, "for")?;
    part(alloc, page, init)?;
    semicolon(page)?;
    perhaps(alloc, page, test)?;
    semicolon(page)?;
    part(alloc, page, step)?;
    close_round(page)
}

#[tactic(auto, using(crate::proofs::StatementSteps::low_step))]
/// The variable of a `cilk_for` and where it begins.
fn low_bound(alloc: Global, page: &mut Page, name: &[u8], low: &TExpr) -> Result<(), AllocError>
    ensures { OnOk result (page.new ≡ printed_low page.old name.now low.now) }
{
    declared(page, Kind::Long, name)?;
    operator(page, "=")?;
    expression(alloc, page, low)?;
    semicolon(page)
}

#[tactic(auto, using(crate::proofs::StatementSteps::high_step))]
/// The test of a `cilk_for`.
fn high_bound(alloc: Global, page: &mut Page, name: &[u8], high: &TExpr) -> Result<(), AllocError>
    ensures { OnOk result (page.new ≡ printed_high page.old name.now high.now) }
{
    plain(page, name)?;
    operator(page, "<")?;
    expression(alloc, page, high)?;
    semicolon(page)
}

#[tactic(auto, using(crate::proofs::StatementSteps::cilk_for_head_step))]
/// `cilk_for`, and what stands between its brackets.
fn cilk_for_head(
    alloc: Global,
    page: &mut Page,
    name: &[u8],
    low: &TExpr,
    second: &(Pos, List<u8>),
    high: &TExpr,
    third: &(Pos, List<u8>),
) -> Result<(), AllocError>
    ensures { OnOk result (page.new ≡ printed_cilk_for_head page.old name.now low.now second.now.1 high.now third.now.1) }
{
    call_of(page, "cilk_for")?;
    low_bound(alloc, page, name, low)?;
    high_bound(alloc, page, second.1.as_slice(), high)?;
    plain(page, third.1.as_slice())?;
    tight(page, "++")?;
    close_round(page)
}

/// The `else` of an `if`, where there is one.
#[cycle(statements)]
fn otherwise(alloc: Global, page: &mut Page, no: &Option<Box<TStmt>>) -> Result<(), AllocError>
    ensures { OnOk result (page.new ≡ printed_else page.old no.now) }
{
    match no {
        None => Ok(()),
        Some(no) => {
            word(page, "else")?;
            statement(alloc, page, no.get())
        }
    }
}

/// A statement.
#[cycle(statements)]
#[tactic(auto, using(crate::proofs::StatementSteps::statement_steps))]
pub fn statement(alloc: Global, page: &mut Page, s: &TStmt) -> Result<(), AllocError>
    ensures { OnOk result (page.new ≡ printed_statement page.old s.now) }
{
    match s {
        TStmt::Block(body) => {
            open_brace(page)?;
            statements(alloc, page, body.as_slice())?;
            close_brace(page)
        }
        TStmt::If { test, yes, no } => {
            word(page, "if")?;
            bracketed(alloc, page, test)?;
            statement(alloc, page, yes.get())?;
            otherwise(alloc, page, no)
        }
        TStmt::While { test, body } => {
            word(page, "while")?;
            bracketed(alloc, page, test)?;
            statement(alloc, page, body.get())
        }
        TStmt::For {
            init,
            test,
            step,
            body,
        } => {
            for_head(alloc, page, init, test, step)?;
            statement(alloc, page, body.get())
        }
        TStmt::CilkFor {
            name,
            low,
            second,
            high,
            third,
            body,
            ..
        } => {
            cilk_for_head(alloc, page, name.as_slice(), low, second, high, third)?;
            statement(alloc, page, body.get())
        }
        other => {
            simple(alloc, page, other)?;
            semicolon(page)
        }
    }
}

/// The statements of a block.
#[cycle(statements)]
fn statements(alloc: Global, page: &mut Page, body: &[TStmt]) -> Result<(), AllocError>
    ensures { OnOk result (page.new ≡ printed_statements page.old body.now) }
{
    for i in 0..body.len() {
        statement(alloc, page, &body[i])?;
    }
    Ok(())
}
