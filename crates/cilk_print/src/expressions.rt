//! Expressions on a page.

ghost use Rattle.std.specs.Prelude.{◌≡◌, ◌≤◌, codes, length, drop, IsTrue, OnOk};
ghost use Rattle.cilk_model.specs.Layout.{put};
ghost use Rattle.cilk_model.specs.Lexemes as lexeme;
ghost use Rattle.cilk_model.specs.TreeTokens.{nowhere, mark, name as name_of, word as word_of};
ghost use Rattle.cilk_print.specs.Printing.{printed, printed_behind, printed_between, starred, called, addressed, bracketed as bracketed_on, is_indexed, is_plain};

use crate::page::{
    close_round, literal, open_round, open_square, operator, plain, text, tight, word,
};
use crate::spellings::{builtin, infix, prefix};
use cilk_ast::{Kind, TExpr};
use cilk_model::Page;
use std::alloc::{AllocError, Global};

#[tactic(auto, unfolding(crate::specs::Printing::starred))]
/// The `*` of a kind.
pub fn star(page: &mut Page, kind: Kind) -> Result<(), AllocError>
    ensures { OnOk result (page.new ≡ starred page.old kind) }
{
    match kind {
        Kind::Ptr => operator(page, "*"),
        _ => Ok(()),
    }
}

#[tactic(auto, unfolding(crate::specs::Printing::called))]
/// A reserved word that is called, and its bracket.
pub fn call_of(page: &mut Page, spelling: &str) -> Result<(), AllocError>
    ensures { OnOk result (page.new ≡ called page.old spelling.now) }
{
    word(page, spelling)?;
    open_round(page)
}

#[tactic(auto, unfolding(crate::specs::Printing::addressed, crate::specs::Printing::called))]
/// `mw_replicated_init` of a global, up to its value.
fn address_of(page: &mut Page, name: &[u8]) -> Result<(), AllocError>
    ensures { OnOk result (page.new ≡ addressed page.old name.now) }
{
    call_of(page, "mw_replicated_init")?;
    operator(page, "&")?;
    plain(page, name)?;
    tight(page, ",")
}

/// A cast, up to what it is of.
fn cast(page: &mut Page, kind: Kind) -> Result<(), AllocError>
    ensures { OnOk result (page.new ≡ put (starred (put (put page.old (mark "(")) (word_of "long")) kind) (mark ")")) }
{
    open_round(page)?;
    word(page, "long")?;
    star(page, kind)?;
    close_round(page)
}

#[tactic(auto, using(crate::proofs::ExpressionSteps::bracketed_step))]
/// An expression in its brackets.
#[cycle(expressions)]
pub fn bracketed(alloc: Global, page: &mut Page, e: &TExpr) -> Result<(), AllocError>
    ensures { OnOk result (page.new ≡ bracketed_on page.old e.now) }
{
    open_round(page)?;
    expression(alloc, page, e)?;
    close_round(page)
}

/// An expression in the brackets of an index.
#[cycle(expressions)]
fn in_square(alloc: Global, page: &mut Page, e: &TExpr) -> Result<(), AllocError>
    ensures { OnOk result (page.new ≡ put (printed (put page.old (mark "[")) e.now) (mark "]")) }
{
    open_square(page)?;
    expression(alloc, page, e)?;
    tight(page, "]")
}

/// An operator, and the expression behind it.
#[cycle(expressions)]
pub fn operand(alloc: Global, page: &mut Page, spelling: &str, e: &TExpr) -> Result<(), AllocError>
    requires { IsTrue (is_plain spelling.now) }
    ensures { OnOk result (page.new ≡ printed (put page.old (lexeme.mark nowhere spelling.now)) e.now) }
{
    operator(page, spelling)?;
    expression(alloc, page, e)
}

/// A name that is called, and its arguments.
#[cycle(expressions)]
pub fn call(alloc: Global, page: &mut Page, name: &[u8], args: &[TExpr]) -> Result<(), AllocError>
    ensures { OnOk result (page.new ≡ put (printed_between (put (put page.old (name_of name.now)) (mark "(")) args.now) (mark ")")) }
{
    plain(page, name)?;
    open_round(page)?;
    between_commas(alloc, page, args)?;
    close_round(page)
}

/// `printf` of a format, and its words.
#[cycle(expressions)]
fn print(alloc: Global, page: &mut Page, format: &[u8], args: &[TExpr]) -> Result<(), AllocError>
    ensures { OnOk result (page.new ≡ put (printed_behind (put (called page.old (codes "printf")) (lexeme.text nowhere format.now)) args.now) (mark ")")) }
{
    call_of(page, "printf")?;
    text(page, format)?;
    behind_commas(alloc, page, args, 0)?;
    close_round(page)
}

#[tactic(auto, using(crate::proofs::ExpressionSteps::expression_steps))]
/// An expression, by its form.
#[cycle(expressions)]
fn form(alloc: Global, page: &mut Page, e: &TExpr) -> Result<(), AllocError>
    ensures { OnOk result (page.new ≡ printed page.old e.now) }
{
    match e {
        TExpr::Number { value, .. } => literal(page, *value),
        TExpr::Var { name, .. } => plain(page, name.as_slice()),
        TExpr::Paren { inner, .. } => bracketed(alloc, page, inner.get()),
        TExpr::Un { op, inner, .. } => operand(alloc, page, prefix(*op), inner.get()),
        TExpr::Deref { inner, .. } => operand(alloc, page, "*", inner.get()),
        TExpr::Cast { kind, inner, .. } => {
            cast(page, *kind)?;
            expression(alloc, page, inner.get())
        }
        TExpr::Index { base, index, .. } => {
            expression(alloc, page, base.get())?;
            in_square(alloc, page, index.get())
        }
        TExpr::Bin {
            op,
            left,
            right,
            ..
        } => {
            expression(alloc, page, left.get())?;
            operand(alloc, page, infix(*op), right.get())
        }
        TExpr::Both { left, right, .. } => {
            expression(alloc, page, left.get())?;
            operand(alloc, page, "&&", right.get())
        }
        TExpr::Either { left, right, .. } => {
            expression(alloc, page, left.get())?;
            operand(alloc, page, "||", right.get())
        }
        TExpr::Call { name, args, .. } => call(alloc, page, name.as_slice(), args.as_slice()),
        TExpr::Builtin { which, args, .. } => {
            call_of(page, builtin(*which))?;
            between_commas(alloc, page, args.as_slice())?;
            close_round(page)
        }
        TExpr::Print { format, args, .. } => {
            print(alloc, page, format.as_slice(), args.as_slice())
        }
        TExpr::InitAt { name, value, .. } => {
            address_of(page, name.as_slice())?;
            expression(alloc, page, value.get())?;
            close_round(page)
        }
    }
}

/// Expressions from the one at `first` on, with a comma before each.
#[cycle(expressions)]
fn behind_commas(
    alloc: Global,
    page: &mut Page,
    args: &[TExpr],
    first: usize,
) -> Result<(), AllocError>
    requires { first ≤ length args.now }
    ensures { OnOk result (page.new ≡ printed_behind page.old (drop first args.now)) }
{
    for i in first..args.len() {
        tight(page, ",")?;
        expression(alloc, page, &args[i])?;
    }
    Ok(())
}

/// Expressions with a comma between two.
#[cycle(expressions)]
pub fn between_commas(alloc: Global, page: &mut Page, args: &[TExpr]) -> Result<(), AllocError>
    ensures { OnOk result (page.new ≡ printed_between page.old args.now) }
{
    if args.is_empty() {
        return Ok(());
    }
    expression(alloc, page, &args[0])?;
    behind_commas(alloc, page, args, 1)
}

fn is_index(e: &TExpr) -> bool
    ensures { result ≡ is_indexed e.now }
{
    match e {
        TExpr::Index { .. } => true,
        _ => false,
    }
}

/// An expression. A chain of indexes can be as long as a text, so that it is walked in a loop.
#[cycle(expressions)]
pub fn expression(alloc: Global, page: &mut Page, e: &TExpr) -> Result<(), AllocError>
    ensures { OnOk result (page.new ≡ printed page.old e.now) }
{
    let mut rest = e;
    let mut indexes: Vec<&TExpr> = Vec::new(alloc);
    while let TExpr::Index {
        pos: _,
        base,
        index,
    } = rest
    {
        if !is_index(base.get()) {
            break;
        }
        indexes.push(index.get())?;
        rest = base.get();
    }
    form(alloc, page, rest)?;
    while let Some(index) = indexes.pop() {
        in_square(alloc, page, index)?;
    }
    Ok(())
}
