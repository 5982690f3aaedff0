//! The judgement of expressions: their kinds, and the rules that are broken in them.

ghost use Rattle.std.specs.Prelude.{◌≡◌, slice_get};
ghost use Rattle.std.specs.Option.{option_map};
ghost use Rattle.cilk_model.specs.FirstFault.{broken, first_fault};
ghost use Rattle.cilk_types.specs.Calling.{of_applied, of_no_call, of_call, of_print, is_counted as counted_so, miscounted as miscounted_so};
ghost use Rattle.cilk_types.specs.Judging.{judgement, want_of, is_single, is_double};
ghost use Rattle.cilk_types.specs.Arguments.{arguments_of, words_of as words_in};
ghost use Rattle.cilk_types.specs.Shown.{names_of};

use crate::first::earlier;
use crate::formats::words_of;
use crate::judgement::{Arguments, Judgement, Want};
use crate::kinds::{counted, given, wanted};
use crate::lookup::meaning;
use crate::rules::{
    bracketed, broken_if, fit_where, index as indexed, init, is_replicated, kind_if, literal,
    logic, one_part, operator, variable, with_argument,
};
use crate::scopes::{Meaning, Scopes};
use cilk_ast::{FaultKind, Kind, TExpr, TextFault};
use word_ops::{Pos, UnaryOp};

/// What is wanted of an operand.
fn operand(op: UnaryOp) -> Want
    ensures { result ≡ want_of op }
{
    match op {
        UnaryOp::Not => Want::Value,
        _ => Want::Word,
    }
}

#[tactic(auto, using(crate::proofs::Judgements::judgement_forms, crate::proofs::Calls::call_forms))]
/// The judgement of an expression, by its form.
#[cycle(judging)]
fn form(scopes: &Scopes<'_, '_>, e: &TExpr) -> Judgement
    ensures { result ≡ judgement (names_of scopes.now) e.now }
{
    match e {
        TExpr::Number { pos, value } => literal(*pos, *value),
        TExpr::Var { pos, name } => variable(*pos, meaning(scopes, name.as_slice())),
        TExpr::Paren { pos, inner } => bracketed(*pos, judge(scopes, inner.get())),
        TExpr::Un { pos, op, inner } => {
            one_part(*pos, operand(*op), Kind::Long, judge(scopes, inner.get()))
        }
        TExpr::Deref { pos, inner } => {
            let part = judge(scopes, inner.get());
            one_part(*pos, Want::Kind(Kind::Ptr), Kind::Long, part)
        }
        TExpr::Cast { pos, kind, inner } => {
            one_part(*pos, Want::Value, *kind, judge(scopes, inner.get()))
        }
        TExpr::Index { base, index, .. } => {
            indexed(judge(scopes, base.get()), judge(scopes, index.get()))
        }
        TExpr::Bin {
            pos,
            op,
            left,
            right,
        } => {
            let first = judge(scopes, left.get());
            operator(*pos, *op, first, judge(scopes, right.get()))
        }
        TExpr::Both { pos, left, right } | TExpr::Either { pos, left, right } => {
            logic(*pos, judge(scopes, left.get()), judge(scopes, right.get()))
        }
        TExpr::InitAt {
            pos,
            name_pos,
            name,
            value,
        } => {
            let there = is_replicated(meaning(scopes, name.as_slice()));
            init(*pos, *name_pos, there, judge(scopes, value.get()))
        }
        TExpr::Call { pos, name, args } => call(scopes, *pos, name.as_slice(), args.as_slice()),
        TExpr::Builtin { pos, which, args } => {
            applied(scopes, *pos, wanted(*which), given(*which), args.as_slice())
        }
        TExpr::Print {
            pos,
            text_pos,
            format,
            args,
        } => {
            let words = words_of(format.as_slice());
            print(scopes, *pos, *text_pos, words, args.as_slice())
        }
    }
}

#[tactic(auto, using(crate::proofs::Chains::index_is_double))]
/// Whether an expression is `e[i][j]`, which has no kind.
fn is_index_of_index(e: &TExpr) -> bool
    ensures { result ≡ is_double e.now }
{
    match e {
        TExpr::Index { base, .. } => is_index(base.get()),
        _ => false,
    }
}

#[tactic(auto, using(crate::proofs::Chains::index_is_single))]
fn is_index(e: &TExpr) -> bool
    ensures { result ≡ is_single e.now }
{
    match e {
        TExpr::Index { .. } => true,
        _ => false,
    }
}

/// The judgement of an expression. A chain of indexes can be as long as a text, so that it is walked
/// in a loop.
#[cycle(judging)]
pub fn judge(scopes: &Scopes<'_, '_>, e: &TExpr) -> Judgement
    ensures { result ≡ judgement (names_of scopes.now) e.now }
{
    let mut rest = e;
    let mut outside = None;
    let mut taken = false;
    while let TExpr::Index {
        pos: _,
        base,
        index,
    } = rest
    {
        if !is_index_of_index(base.get()) {
            break;
        }
        let part = judge(scopes, index.get());
        outside = earlier(part.fault, outside);
        taken = true;
        rest = base.get();
    }
    let whole = form(scopes, rest);
    Judgement {
        at: whole.at,
        is_literal_0: whole.is_literal_0,
        kind: if taken { None } else { whole.kind },
        fault: earlier(whole.fault, outside),
    }
}

/// What is wanted in a place, if there is that place.
fn wanted_at(wanted: &[Kind], i: usize) -> Option<Want>
    ensures { result ≡ option_map Want.Kind (slice_get wanted.now i) }
{
    match wanted.get(i) {
        Some(kind) => Some(Want::Kind(*kind)),
        None => None,
    }
}

/// Arguments for which kinds are wanted.
#[cycle(judging)]
fn arguments(scopes: &Scopes<'_, '_>, wanted: &[Kind], args: &[TExpr]) -> Arguments
    ensures { result ≡ arguments_of (names_of scopes.now) wanted.now args.now }
{
    let mut found = Arguments {
        fit: true,
        misfit: None,
        fault: None,
    };
    for i in 0..args.len() {
        let part = judge(scopes, &args[i]);
        found = with_argument(found, wanted_at(wanted, i), part);
    }
    fit_where(found, wanted.len() <= args.len())
}

/// Arguments that are to be words.
#[cycle(judging)]
fn words(scopes: &Scopes<'_, '_>, args: &[TExpr]) -> Arguments
    ensures { result ≡ words_in (names_of scopes.now) args.now }
{
    let mut found = Arguments {
        fit: true,
        misfit: None,
        fault: None,
    };
    for i in 0..args.len() {
        let part = judge(scopes, &args[i]);
        found = with_argument(found, Some(Want::Word), part);
    }
    found
}

/// Something that takes arguments and gives a kind.
#[cycle(judging)]
fn applied(
    scopes: &Scopes<'_, '_>,
    at: Pos,
    wanted: &[Kind],
    gives: Kind,
    args: &[TExpr],
) -> Judgement
    ensures { result ≡ of_applied (names_of scopes.now) at wanted.now gives args.now }
{
    let found = arguments(scopes, wanted, args);
    let count = broken_if(wanted.len() != args.len(), FaultKind::WrongCount, at);
    Judgement {
        at,
        is_literal_0: false,
        kind: kind_if(found.fit, gives),
        fault: earlier(earlier(count, found.misfit), found.fault),
    }
}

#[tactic(auto, using(crate::proofs::ArgumentLemmas::arguments_fault))]
/// Arguments of what is no function.
#[cycle(judging)]
fn no_call(scopes: &Scopes<'_, '_>, at: Pos, kind: FaultKind, args: &[TExpr]) -> Judgement
    ensures { result ≡ of_no_call (names_of scopes.now) at (first_fault (broken kind at)) args.now }
{
    let found = arguments(scopes, &[], args);
    Judgement {
        at,
        is_literal_0: false,
        kind: None,
        fault: earlier(broken_if(true, kind, at), found.fault),
    }
}

/// A call of a name.
#[cycle(judging)]
pub fn call(scopes: &Scopes<'_, '_>, at: Pos, name: &[u8], args: &[TExpr]) -> Judgement
    ensures { result ≡ of_call (names_of scopes.now) at (names_of scopes.now name.now) args.now }
{
    match meaning(scopes, name) {
        None => no_call(scopes, at, FaultKind::Unknown, args),
        Some(Meaning::Function(written)) => applied(
            scopes,
            at,
            written.params.as_slice(),
            counted(written.result),
            args,
        ),
        Some(Meaning::Local(_)) => no_call(scopes, at, FaultKind::WrongType, args),
        Some(Meaning::Global(_)) => no_call(scopes, at, FaultKind::WrongType, args),
    }
}

/// The words of a format, if it is one, are as many as the arguments.
fn is_counted(words: Option<usize>, n: usize) -> bool
    ensures { result ≡ counted_so words n }
{
    match words {
        None => false,
        Some(words) => words == n,
    }
}

fn miscounted(at: Pos, text_at: Pos, words: Option<usize>, n: usize) -> Option<TextFault>
    ensures { result ≡ miscounted_so at text_at words n }
{
    match words {
        None => broken_if(true, FaultKind::BadFormat, text_at),
        Some(words) => broken_if(words != n, FaultKind::WrongCount, at),
    }
}

/// A `printf` of a format with so many words, if it is one.
#[cycle(judging)]
fn print(
    scopes: &Scopes<'_, '_>,
    at: Pos,
    text_at: Pos,
    format: Option<usize>,
    args: &[TExpr],
) -> Judgement
    ensures { result ≡ of_print (names_of scopes.now) at text_at format args.now }
{
    let found = words(scopes, args);
    let wrong = miscounted(at, text_at, format, args.len());
    Judgement {
        at,
        is_literal_0: false,
        kind: kind_if(is_counted(format, args.len()) && found.fit, Kind::Void),
        fault: earlier(earlier(wrong, found.misfit), found.fault),
    }
}
