//! The rules that are broken in the expressions of statements.

ghost use Rattle.std.specs.Prelude.{◌≡◌};
ghost use Rattle.std.specs.Option.{option_map};
ghost use Rattle.cilk_model.specs.FirstFault.{first_fault};
ghost use Rattle.cilk_model.specs.StatementBreaks.{is_place as place, is_outer as outer, is_target as target, is_outer_local, is_global, brings_other as other_kind};
ghost use Rattle.cilk_types.specs.Shown.{scopes_of, names_of, meaning_of};
ghost use Rattle.cilk_types.specs.Values.{part_fault as fault_of_part, test_fault as fault_of_test, hint_fault as fault_of_hint, hint_holds as holds, of_spawn, side_fault as fault_of_side, given_fault as fault_of_given, value_fault as fault_of_value, initial_fault as fault_of_initial, target_fault as fault_of_target, added_fault as fault_of_added, return_fault as fault_of_return};

use crate::expressions::{call, judge};
use crate::first::earlier;
use crate::judgement::{Judgement, Want};
use crate::kinds::{counted, same_kind};
use crate::lookup::meaning;
use crate::rules::{broken_if, is_good, wrong_with};
use crate::scopes::{Meaning, Scopes};
use cilk_ast::{FaultKind, Kind, TExpr, TSpawn, TValue, TextFault};
use word_ops::Pos;

/// The first fault of a part of which something is wanted.
pub fn part_fault(scopes: &Scopes<'_, '_>, want: Want, e: &TExpr) -> Option<TextFault>
    ensures { result ≡ fault_of_part (names_of scopes.now) want e.now }
{
    let part = judge(scopes, e);
    earlier(part.fault, wrong_with(want, part))
}

/// The first fault of a test that may be missing.
pub fn test_fault(scopes: &Scopes<'_, '_>, test: &Option<TExpr>) -> Option<TextFault>
    ensures { result ≡ fault_of_test (names_of scopes.now) test.now }
{
    match test {
        None => None,
        Some(e) => part_fault(scopes, Want::Value, e),
    }
}

/// A spawn: the kind of what it brings, and its first fault.
pub fn spawn(scopes: &Scopes<'_, '_>, s: &TSpawn) -> Judgement
    ensures { result ≡ of_spawn (names_of scopes.now) s.now }
{
    let called = call(scopes, s.name_pos, s.name.as_slice(), s.args.as_slice());
    match &s.hint {
        None => Judgement {
            at: s.pos,
            is_literal_0: false,
            kind: called.kind,
            fault: called.fault,
        },
        Some(e) => {
            let hint = judge(scopes, e);
            let wrong = earlier(hint.fault, wrong_with(Want::Kind(Kind::Ptr), hint));
            let holds = is_good(Want::Kind(Kind::Ptr), hint);
            Judgement {
                at: s.pos,
                is_literal_0: false,
                kind: if holds { called.kind } else { None },
                fault: earlier(wrong, called.fault),
            }
        }
    }
}

#[tactic(auto, using(crate::proofs::Sides::side_forms))]
/// Whether a left side is a name, `*e` or `e[i]`, brackets aside.
fn is_place(left: &TExpr) -> bool
    ensures { result ≡ place left.now }
{
    match left {
        TExpr::Var { pos: _, name: _ } => true,
        TExpr::Deref { pos: _, inner: _ } => true,
        TExpr::Index {
            pos: _,
            base: _,
            index: _,
        } => true,
        TExpr::Paren { pos: _, inner } => is_place(inner.get()),
        _ => false,
    }
}

fn names_outer(level: u32, meaning: Option<Meaning<'_>>) -> bool
    ensures { result ≡ is_outer_local level (option_map meaning_of meaning.entry) }
{
    match meaning {
        Some(Meaning::Local(local)) => local.level < level,
        _ => false,
    }
}

fn names_global(meaning: Option<Meaning<'_>>) -> bool
    ensures { result ≡ is_global (option_map meaning_of meaning.entry) }
{
    match meaning {
        Some(Meaning::Global(_)) => true,
        _ => false,
    }
}

#[tactic(auto, using(crate::proofs::Sides::side_forms))]
/// Whether a left side is the variable of a `cilk_for` or a local from around its body, brackets aside.
fn is_outer(scopes: &Scopes<'_, '_>, left: &TExpr) -> bool
    ensures { result ≡ outer (scopes_of scopes.now) left.now }
{
    match left {
        TExpr::Var { pos: _, name } => {
            names_outer(scopes.level, meaning(scopes, name.as_slice()))
        }
        TExpr::Paren { pos: _, inner } => is_outer(scopes, inner.get()),
        _ => false,
    }
}

#[tactic(auto, using(crate::proofs::Sides::side_forms))]
/// Whether a left side may be the target of a spawn: a name that is no global's, brackets aside.
fn is_target(scopes: &Scopes<'_, '_>, left: &TExpr) -> bool
    ensures { result ≡ target (names_of scopes.now) left.now }
{
    match left {
        TExpr::Var { pos: _, name } => !names_global(meaning(scopes, name.as_slice())),
        TExpr::Paren { pos: _, inner } => is_target(scopes, inner.get()),
        _ => false,
    }
}

/// The first fault of a left side.
pub fn side_fault(scopes: &Scopes<'_, '_>, left: &TExpr) -> Option<TextFault>
    ensures { result ≡ fault_of_side (scopes_of scopes.now) left.now }
{
    let part = judge(scopes, left);
    let place = is_place(left);
    let no_place = broken_if(!place, FaultKind::NotAPlace, part.at);
    let outside = broken_if(is_outer(scopes, left), FaultKind::AssignsOuter, part.at);
    earlier(earlier(part.fault, no_place), outside)
}

/// What is wrong with a value that is given to something of a kind.
fn given_fault(kind: Option<Kind>, value: Judgement) -> Option<TextFault>
    ensures { result ≡ fault_of_given kind value }
{
    match kind {
        None => None,
        Some(kind) => wrong_with(Want::Kind(kind), value),
    }
}

fn brings_other(wanted: Option<Kind>, kind: Option<Kind>, at: Pos) -> Option<TextFault>
    ensures { result ≡ first_fault (other_kind wanted kind at) }
{
    match (wanted, kind) {
        (Some(wanted), Some(kind)) => {
            let same = same_kind(wanted, kind);
            broken_if(!same, FaultKind::WrongType, at)
        }
        _ => None,
    }
}

/// The first fault of what is given to something of a kind.
pub fn value_fault(scopes: &Scopes<'_, '_>, kind: Option<Kind>, value: &TValue) -> Option<TextFault>
    ensures { result ≡ fault_of_value (names_of scopes.now) kind value.now }
{
    match value {
        TValue::Plain(e) => {
            let part = judge(scopes, e);
            earlier(part.fault, given_fault(kind, part))
        }
        TValue::Spawned(s) => {
            let part = spawn(scopes, s);
            earlier(part.fault, brings_other(kind, part.kind, s.pos))
        }
    }
}

/// The first fault of an initial value that may be missing.
pub fn initial_fault(
    scopes: &Scopes<'_, '_>,
    kind: Kind,
    value: &Option<TValue>,
) -> Option<TextFault>
    ensures { result ≡ fault_of_initial (names_of scopes.now) kind value.now }
{
    match value {
        None => None,
        Some(value) => value_fault(scopes, Some(kind), value),
    }
}

/// What is wrong with the target of a value that is spawned.
pub fn target_fault(scopes: &Scopes<'_, '_>, left: &TExpr, value: &TValue) -> Option<TextFault>
    ensures { result ≡ fault_of_target (names_of scopes.now) left.now value.now }
{
    match value {
        TValue::Plain(_) => None,
        TValue::Spawned(_) => {
            let good = is_target(scopes, left);
            broken_if(!good, FaultKind::NotAPlace, judge(scopes, left).at)
        }
    }
}

/// What is wrong with a value that is added to something of a kind.
pub fn added_fault(kind: Option<Kind>, value: Judgement) -> Option<TextFault>
    ensures { result ≡ fault_of_added kind value }
{
    match kind {
        None => None,
        Some(_) => wrong_with(Want::Word, value),
    }
}

/// The first fault of a `return` in a function with a result.
pub fn return_fault(
    scopes: &Scopes<'_, '_>,
    gives: Kind,
    at: Pos,
    value: &Option<TExpr>,
) -> Option<TextFault>
    ensures { result ≡ fault_of_return (names_of scopes.now) gives at value.now }
{
    match value {
        None => {
            let nothing = same_kind(Kind::Void, gives);
            broken_if(!nothing, FaultKind::WrongType, at)
        }
        Some(e) => match gives {
            Kind::Void => {
                let part = judge(scopes, e);
                earlier(broken_if(true, FaultKind::WrongType, at), part.fault)
            }
            Kind::Long => part_fault(scopes, Want::Kind(counted(gives)), e),
            Kind::Ptr => part_fault(scopes, Want::Kind(counted(gives)), e),
            Kind::Int => part_fault(scopes, Want::Kind(counted(gives)), e),
        },
    }
}
