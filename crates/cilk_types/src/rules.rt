//! Rules of kinds over the parts of a form.

ghost use Rattle.std.specs.Prelude.{◌≡◌, ◌&&◌, pos};
ghost use Rattle.std.specs.Option.{option_map};
ghost use Rattle.cilk_model.specs.FirstFault.{broken_if as breaks_if, first_fault};
ghost use Rattle.cilk_model.specs.Sorts.{kind_if as kind_where, is_replicated as replicated};
ghost use Rattle.cilk_model.specs.ExpressionBreaks.{index_misfits};
ghost use Rattle.cilk_types.specs.Judging.{part_of, test_of, is_good as good, wrong_with as wrong_in, of_one, of_operator, of_logic, of_index, of_literal, of_variable, of_init};
ghost use Rattle.cilk_types.specs.Arguments.{argument_of, joined};
ghost use Rattle.cilk_types.specs.Shown.{meaning_of};
ghost use Rattle.word_ops.specs.Operators.{same_word};

use crate::first::earlier;
use crate::judgement::{Arguments, Judgement, Want};
use crate::kinds::{binary_kind, fits, is_value, is_word};
use crate::scopes::Meaning;
use cilk_ast::{FaultKind, Kind, TextFault};
use word_ops::{BinaryOp, Pos};

/// The fault of a rule that is broken where a test says so.
pub fn broken_if(holds: bool, kind: FaultKind, at: Pos) -> Option<TextFault>
    ensures { result ≡ first_fault (breaks_if holds kind at) }
{
    if holds {
        Some(TextFault { pos: at, kind })
    } else {
        None
    }
}

fn accepts(want: Want, is_literal_0: bool, kind: Kind) -> bool
    ensures { result ≡ test_of want is_literal_0 kind }
{
    match want {
        Want::Word => is_word(kind),
        Want::Value => is_value(kind),
        Want::Kind(wanted) => fits(wanted, is_literal_0, kind),
    }
}

/// Whether a part has a kind, and one that is wanted.
pub fn is_good(want: Want, part: Judgement) -> bool
    ensures { result ≡ good want part }
{
    match part.kind {
        Some(kind) => accepts(want, part.is_literal_0, kind),
        None => false,
    }
}

/// The fault of a part that has a kind, and one that is not wanted.
pub fn wrong_with(want: Want, part: Judgement) -> Option<TextFault>
    ensures { result ≡ wrong_in want part }
{
    match part.kind {
        Some(kind) => {
            let accepted = accepts(want, part.is_literal_0, kind);
            broken_if(!accepted, FaultKind::WrongType, part.at)
        }
        None => None,
    }
}

/// A kind, where a test holds.
pub fn kind_if(holds: bool, kind: Kind) -> Option<Kind>
    ensures { result ≡ kind_where holds kind }
{
    if holds { Some(kind) } else { None }
}

/// A literal.
pub fn literal(at: Pos, value: i64) -> Judgement
    ensures { result ≡ of_literal at (same_word value (pos 0)) }
{
    Judgement {
        at,
        is_literal_0: value == 0,
        kind: Some(Kind::Long),
        fault: None,
    }
}

/// An expression in its brackets, of which the first is its first token.
pub fn bracketed(at: Pos, part: Judgement) -> Judgement
    ensures { result ≡ record part { at = at } }
{
    Judgement {
        at,
        is_literal_0: part.is_literal_0,
        kind: part.kind,
        fault: part.fault,
    }
}

/// A form with one part, which gives a kind.
pub fn one_part(at: Pos, want: Want, gives: Kind, part: Judgement) -> Judgement
    ensures { result ≡ of_one at want gives part }
{
    Judgement {
        at,
        is_literal_0: false,
        kind: kind_if(is_good(want, part), gives),
        fault: earlier(part.fault, wrong_with(want, part)),
    }
}

/// An operator between two operands.
pub fn operator(at: Pos, op: BinaryOp, left: Judgement, right: Judgement) -> Judgement
    ensures { result ≡ of_operator at op left right }
{
    let kinds = match (left.kind, right.kind) {
        (Some(k), Some(l)) => {
            let made = binary_kind(op, left.is_literal_0, right.is_literal_0, k, l);
            (made, broken_if(made.is_none(), FaultKind::WrongType, at))
        }
        _ => (None, None),
    };
    Judgement {
        at: left.at,
        is_literal_0: false,
        kind: kinds.0,
        fault: earlier(earlier(left.fault, right.fault), kinds.1),
    }
}

/// `&&` or `||` between two operands.
pub fn logic(at: Pos, left: Judgement, right: Judgement) -> Judgement
    ensures { result ≡ of_logic at left right }
{
    let both_good = is_good(Want::Value, left) && is_good(Want::Value, right);
    let both_known = left.kind.is_some() && right.kind.is_some();
    let wrong = broken_if(both_known && !both_good, FaultKind::WrongType, at);
    Judgement {
        at: left.at,
        is_literal_0: false,
        kind: kind_if(both_good, Kind::Long),
        fault: earlier(earlier(left.fault, right.fault), wrong),
    }
}

#[tactic(auto, using(crate::proofs::FaultOrder::first_fault_append))]
/// What is wrong with the base and the index of `e[i]`, where both have a kind.
fn wrong_with_index(base: Judgement, index: Judgement) -> Option<TextFault>
    ensures { result ≡ first_fault (index_misfits (part_of base) (part_of index)) }
{
    if base.kind.is_some() && index.kind.is_some() {
        earlier(
            wrong_with(Want::Kind(Kind::Ptr), base),
            wrong_with(Want::Word, index),
        )
    } else {
        None
    }
}

/// `base[index]`.
pub fn index(base: Judgement, index: Judgement) -> Judgement
    ensures { result ≡ of_index base index }
{
    let both_good = is_good(Want::Kind(Kind::Ptr), base) && is_good(Want::Word, index);
    Judgement {
        at: base.at,
        is_literal_0: false,
        kind: kind_if(both_good, Kind::Long),
        fault: earlier(
            earlier(base.fault, index.fault),
            wrong_with_index(base, index),
        ),
    }
}

/// A variable's name.
pub fn variable(at: Pos, meaning: Option<Meaning<'_>>) -> Judgement
    ensures { result ≡ of_variable at (option_map meaning_of meaning.entry) }
{
    let (kind, fault) = match meaning {
        Some(Meaning::Local(local)) => (Some(local.kind), None),
        Some(Meaning::Global(global)) => (Some(global.kind), None),
        Some(Meaning::Function(_)) => (None, broken_if(true, FaultKind::WrongType, at)),
        None => (None, broken_if(true, FaultKind::Unknown, at)),
    };
    Judgement {
        at,
        is_literal_0: false,
        kind,
        fault,
    }
}

/// `mw_replicated_init` of a name.
pub fn init(at: Pos, name_at: Pos, is_replicated: bool, value: Judgement) -> Judgement
    ensures { result ≡ of_init at name_at is_replicated value }
{
    let unknown = broken_if(!is_replicated, FaultKind::Unknown, name_at);
    Judgement {
        at,
        is_literal_0: false,
        kind: kind_if(is_replicated && is_good(Want::Word, value), Kind::Void),
        fault: earlier(earlier(unknown, value.fault), wrong_with(Want::Word, value)),
    }
}

/// Whether a name is that of a replicated global.
pub fn is_replicated(meaning: Option<Meaning<'_>>) -> bool
    ensures { result ≡ replicated (option_map meaning_of meaning.entry) }
{
    match meaning {
        Some(Meaning::Global(global)) => global.replicated,
        _ => false,
    }
}

/// One argument more, of which something is wanted or for which there is no place.
pub fn with_argument(found: Arguments, want: Option<Want>, part: Judgement) -> Arguments
    ensures { result ≡ joined found (argument_of want part) }
{
    match want {
        None => Arguments {
            fit: false,
            misfit: found.misfit,
            fault: earlier(found.fault, part.fault),
        },
        Some(want) => Arguments {
            fit: found.fit && is_good(want, part),
            misfit: earlier(found.misfit, wrong_with(want, part)),
            fault: earlier(found.fault, part.fault),
        },
    }
}

/// Arguments that fit only where a test holds besides.
pub fn fit_where(found: Arguments, holds: bool) -> Arguments
    ensures { result ≡ record found { fit = found.fit && holds } }
{
    Arguments {
        fit: found.fit && holds,
        misfit: found.misfit,
        fault: found.fault,
    }
}
