//! The rules that are broken in statements, and the scopes behind them.

ghost use Rattle.std.specs.Prelude.{◌≡◌, false, nat_lt, OnOk, IfOk};
ghost use Rattle.cilk_model.specs.FirstFault.{earlier as earlier_of, first_fault, broken_if as breaks_if};
ghost use Rattle.cilk_model.specs.Scopes.{opened, closed, declared, is_twice};
ghost use Rattle.cilk_model.specs.Locals.{in_body};
ghost use Rattle.cilk_model.specs.StatementBreaks.{other_name as other};
ghost use Rattle.cilk_types.specs.declared.judgement.Want.TheVariants as want;
ghost use Rattle.cilk_types.specs.Shown.{scopes_of, names_of};
ghost use Rattle.cilk_types.specs.Values.{part_fault as fault_of_part, side_fault as fault_of_side, target_fault as fault_of_target, value_fault as fault_of_value, initial_fault as fault_of_initial, added_fault as fault_of_added, return_fault as fault_of_return};
ghost use Rattle.cilk_types.specs.Judging.{judgement, wrong_with as wrong_in};
ghost use Rattle.cilk_types.specs.Walking.{fault_in, left_by, fault_in_part, left_by_part, fault_in_list, left_by_list};

use crate::counts::one_more;
use crate::expressions::judge;
use crate::first::earlier;
use crate::judgement::Want;
use crate::naming::{close_scope, declare, open_scope};
use crate::rules::{broken_if, wrong_with};
use crate::scopes::Scopes;
use crate::values::{
    added_fault, initial_fault, part_fault, return_fault, side_fault, spawn, target_fault,
    test_fault, value_fault,
};
use cilk_ast::{FaultKind, Kind, TExpr, TStmt, TValue, TextFault};
use std::alloc::{AllocError, Global};
use word_ops::{Box, List, Pos};

#[tactic(auto, using(crate::proofs::SimpleForms::simple_forms, crate::proofs::ControlForms::control_forms))]
/// The first fault in a statement of a function with a result of a kind. `inside` says that the statement
/// stands in a loop which a `break` can leave.
#[cycle(walking)]
pub fn statement<'a>(
    alloc: Global,
    scopes: &mut Scopes<'_, 'a>,
    gives: Kind,
    s: &'a TStmt,
    inside: bool,
) -> Result<Option<TextFault>, AllocError>
    ensures fault { IfOk result (λ f. f ≡ fault_in gives s.now (scopes_of scopes.old) inside) }
    ensures scopes { OnOk result (scopes_of scopes.new ≡ left_by s.now (scopes_of scopes.old)) }
{
    match s {
        TStmt::Empty | TStmt::Sync => Ok(None),
        TStmt::Block(body) => block(alloc, scopes, gives, body.as_slice(), inside),
        TStmt::Local {
            pos,
            kind,
            name,
            value,
        } => { local(scopes, *pos, *kind, name.as_slice(), value) }
        TStmt::Eval(e) => Ok(judge(scopes, e).fault),
        TStmt::Assign { left, value, .. } => Ok(assign(scopes, left, value)),
        TStmt::AddTo { left, value, .. } => Ok(add_to(scopes, left, value)),
        TStmt::Up { left } | TStmt::Down { left } => Ok(step_by_one(scopes, left)),
        TStmt::Spawn(s) => Ok(spawn(scopes, s).fault),
        TStmt::If { test, yes, no } => {
            let wrong = part_fault(scopes, Want::Value, test);
            let first = statement(alloc, scopes, gives, yes.get(), inside)?;
            let second = part(alloc, scopes, gives, no, inside)?;
            Ok(earlier(earlier(wrong, first), second))
        }
        TStmt::While { test, body } => {
            let wrong = part_fault(scopes, Want::Value, test);
            let more = statement(alloc, scopes, gives, body.get(), true)?;
            Ok(earlier(wrong, more))
        }
        TStmt::For {
            init,
            test,
            step,
            body,
        } => {
            open_scope(alloc, scopes)?;
            let first = part(alloc, scopes, gives, init, inside)?;
            let second = test_fault(scopes, test);
            let third = part(alloc, scopes, gives, step, inside)?;
            let fourth = statement(alloc, scopes, gives, body.get(), true)?;
            close_scope(scopes);
            Ok(earlier(earlier(earlier(first, second), third), fourth))
        }
        TStmt::CilkFor {
            name,
            low,
            second,
            high,
            third,
            body,
            ..
        } => {
            let head = cilk_for_head(scopes, name.as_slice(), low, second, high, third);
            let more = cilk_for_body(alloc, scopes, gives, name.as_slice(), body.get())?;
            Ok(earlier(head, more))
        }
        TStmt::Break { pos } | TStmt::Continue { pos } => {
            Ok(broken_if(!inside, FaultKind::Escapes, *pos))
        }
        TStmt::Return { pos, value } => Ok(return_from(scopes, gives, *pos, value)),
    }
}

/// A block, with a scope of its own.
#[cycle(walking)]
fn block<'a>(
    alloc: Global,
    scopes: &mut Scopes<'_, 'a>,
    gives: Kind,
    body: &'a [TStmt],
    inside: bool,
) -> Result<Option<TextFault>, AllocError>
    ensures fault { IfOk result (λ f. f ≡ fault_in_list gives body.now (opened (scopes_of scopes.old)) inside) }
    ensures scopes { OnOk result (scopes_of scopes.new ≡ closed (left_by_list body.now (opened (scopes_of scopes.old)))) }
{
    open_scope(alloc, scopes)?;
    let fault = statements(alloc, scopes, gives, body, inside)?;
    close_scope(scopes);
    Ok(fault)
}

/// Statements one after the other.
#[cycle(walking)]
pub fn statements<'a>(
    alloc: Global,
    scopes: &mut Scopes<'_, 'a>,
    gives: Kind,
    body: &'a [TStmt],
    inside: bool,
) -> Result<Option<TextFault>, AllocError>
    ensures fault { IfOk result (λ f. f ≡ fault_in_list gives body.now (scopes_of scopes.old) inside) }
    ensures scopes { OnOk result (scopes_of scopes.new ≡ left_by_list body.now (scopes_of scopes.old)) }
{
    let mut worst = None;
    for i in 0..body.len() {
        let fault = statement(alloc, scopes, gives, &body[i], inside)?;
        worst = earlier(worst, fault);
    }
    Ok(worst)
}

/// A statement that may be missing.
#[cycle(walking)]
fn part<'a>(
    alloc: Global,
    scopes: &mut Scopes<'_, 'a>,
    gives: Kind,
    s: &'a Option<Box<TStmt>>,
    inside: bool,
) -> Result<Option<TextFault>, AllocError>
    ensures fault { IfOk result (λ f. f ≡ fault_in_part gives s.now (scopes_of scopes.old) inside) }
    ensures scopes { OnOk result (scopes_of scopes.new ≡ left_by_part s.now (scopes_of scopes.old)) }
{
    match s {
        None => Ok(None),
        Some(s) => statement(alloc, scopes, gives, s.get(), inside),
    }
}

/// A name in the head of a `cilk_for`, which is to be that of its variable.
fn other_name(name: &[u8], again: &(Pos, List<u8>)) -> Option<TextFault>
    ensures { result ≡ first_fault (other name.now again.now) }
{
    let same = name == again.1.as_slice();
    broken_if(!same, FaultKind::Unknown, again.0)
}

/// The head of a `cilk_for`.
fn cilk_for_head(
    scopes: &Scopes<'_, '_>,
    name: &[u8],
    low: &TExpr,
    second: &(Pos, List<u8>),
    high: &TExpr,
    third: &(Pos, List<u8>),
) -> Option<TextFault>
    ensures { result ≡ earlier_of (earlier_of (earlier_of (fault_of_part (names_of scopes.now) want.Word low.now) (first_fault (other name.now second.now))) (fault_of_part (names_of scopes.now) want.Word high.now)) (first_fault (other name.now third.now)) }
{
    let bounds = earlier(
        part_fault(scopes, Want::Word, low),
        other_name(name, second),
    );
    let bounds = earlier(bounds, part_fault(scopes, Want::Word, high));
    earlier(bounds, other_name(name, third))
}

/// The body of a `cilk_for`, with its variable.
#[cycle(walking)]
fn cilk_for_body<'a>(
    alloc: Global,
    scopes: &mut Scopes<'_, 'a>,
    gives: Kind,
    name: &'a [u8],
    body: &'a TStmt,
) -> Result<Option<TextFault>, AllocError>
    ensures fault { IfOk result (λ f. f ≡ fault_in gives body.now (in_body name.now (scopes_of scopes.old)) false) }
    ensures scopes { OnOk result (scopes_of scopes.new ≡ record (closed (left_by body.now (in_body name.now (scopes_of scopes.old)))) { level = scopes.old.level }) }
{
    let level = scopes.level;
    enter_body(alloc, scopes, name)?;
    let fault = statement(alloc, scopes, gives, body, false)?;
    close_scope(scopes);
    scopes.level = level;
    Ok(fault)
}

/// Enters the body of a `cilk_for` with its variable.
pub fn enter_body<'a>(
    alloc: Global,
    scopes: &mut Scopes<'_, 'a>,
    name: &'a [u8],
) -> Result<(), AllocError>
    ensures { OnOk result (scopes_of scopes.new ≡ in_body name.now (scopes_of scopes.old)) }
{
    open_scope(alloc, scopes)?;
    let _ = declare(scopes, name, Kind::Long)?;
    let level = one_more(scopes.level)?;
    scopes.level = level;
    Ok(())
}

/// A declaration of a local.
fn local<'a>(
    scopes: &mut Scopes<'_, 'a>,
    at: Pos,
    kind: Kind,
    name: &'a [u8],
    value: &Option<TValue>,
) -> Result<Option<TextFault>, AllocError>
    ensures fault { IfOk result (λ f. f ≡ earlier_of (first_fault (breaks_if (is_twice name.now (scopes_of scopes.old).around) FaultKind.Twice at)) (fault_of_initial (names_of scopes.old) kind value.now)) }
    ensures scopes { OnOk result (scopes_of scopes.new ≡ declared name.now kind (scopes_of scopes.old)) }
{
    let wrong = initial_fault(scopes, kind, value);
    let twice = declare(scopes, name, kind)?;
    Ok(earlier(broken_if(twice, FaultKind::Twice, at), wrong))
}

/// `left = value`.
fn assign(scopes: &Scopes<'_, '_>, left: &TExpr, value: &TValue) -> Option<TextFault>
    ensures { result ≡ earlier_of (earlier_of (fault_of_side (scopes_of scopes.now) left.now) (fault_of_target (names_of scopes.now) left.now value.now)) (fault_of_value (names_of scopes.now) (judgement (names_of scopes.now) left.now).kind value.now) }
{
    let sides = earlier(side_fault(scopes, left), target_fault(scopes, left, value));
    earlier(sides, value_fault(scopes, judge(scopes, left).kind, value))
}

/// `left += value`.
fn add_to(scopes: &Scopes<'_, '_>, left: &TExpr, value: &TExpr) -> Option<TextFault>
    ensures { result ≡ earlier_of (earlier_of (fault_of_side (scopes_of scopes.now) left.now) (judgement (names_of scopes.now) value.now).fault) (fault_of_added (judgement (names_of scopes.now) left.now).kind (judgement (names_of scopes.now) value.now)) }
{
    let part = judge(scopes, value);
    let sides = earlier(side_fault(scopes, left), part.fault);
    earlier(sides, added_fault(judge(scopes, left).kind, part))
}

/// `left++` or `left--`.
fn step_by_one(scopes: &Scopes<'_, '_>, left: &TExpr) -> Option<TextFault>
    ensures { result ≡ earlier_of (fault_of_side (scopes_of scopes.now) left.now) (wrong_in want.Value (judgement (names_of scopes.now) left.now)) }
{
    earlier(
        side_fault(scopes, left),
        wrong_with(Want::Value, judge(scopes, left)),
    )
}

/// A `return`, which may not leave the body of a `cilk_for`.
fn return_from(
    scopes: &Scopes<'_, '_>,
    gives: Kind,
    at: Pos,
    value: &Option<TExpr>,
) -> Option<TextFault>
    ensures { result ≡ earlier_of (fault_of_return (names_of scopes.now) gives at value.now) (first_fault (breaks_if (nat_lt 0 scopes.now.level) FaultKind.Escapes at)) }
{
    earlier(
        return_fault(scopes, gives, at, value),
        broken_if(0 < scopes.level, FaultKind::Escapes, at),
    )
}
