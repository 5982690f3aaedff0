//! Kinds: which there are, and what operators and built-ins make of them.

ghost use Rattle.std.specs.Prelude.{◌≡◌};
ghost use Rattle.cilk_model.specs.Sorts.{counted as counted_as, same_kind as are_same, is_word as is_long, is_value as is_scalar, fits as fits_where, sum_kind as sum_of, difference_kind as difference_of, are_alike as alike, binary_kind as made_by, takes_operand as operand_of, wanted as wanted_by, given as given_by, word_if as word_where};

use cilk_ast::{Builtin, Kind};
use word_ops::{BinaryOp, UnaryOp};

/// The result of main counts as a word.
pub fn counted(kind: Kind) -> Kind
    ensures { result ≡ counted_as kind }
{
    match kind {
        Kind::Int => Kind::Long,
        Kind::Long => Kind::Long,
        Kind::Ptr => Kind::Ptr,
        Kind::Void => Kind::Void,
    }
}

pub fn same_kind(kind: Kind, other: Kind) -> bool
    ensures { result ≡ are_same kind other }
{
    match (kind, other) {
        (Kind::Long, Kind::Long) => true,
        (Kind::Ptr, Kind::Ptr) => true,
        (Kind::Void, Kind::Void) => true,
        (Kind::Int, Kind::Int) => true,
        _ => false,
    }
}

pub fn is_word(kind: Kind) -> bool
    ensures { result ≡ is_long kind }
{
    same_kind(Kind::Long, kind)
}

/// A word or an address.
pub fn is_value(kind: Kind) -> bool
    ensures { result ≡ is_scalar kind }
{
    same_kind(Kind::Long, kind) || same_kind(Kind::Ptr, kind)
}

/// A part of a kind fits where a kind is wanted: a literal 0 also where an address is.
pub fn fits(wanted: Kind, is_literal_0: bool, kind: Kind) -> bool
    ensures { result ≡ fits_where wanted is_literal_0 kind }
{
    same_kind(wanted, kind) || (same_kind(Kind::Ptr, wanted) && is_literal_0)
}

fn sum_kind(kind: Kind, other: Kind) -> Option<Kind>
    ensures { result ≡ sum_of kind other }
{
    match (kind, other) {
        (Kind::Long, Kind::Long) => Some(Kind::Long),
        (Kind::Ptr, Kind::Long) => Some(Kind::Ptr),
        (Kind::Long, Kind::Ptr) => Some(Kind::Ptr),
        _ => None,
    }
}

fn difference_kind(kind: Kind, other: Kind) -> Option<Kind>
    ensures { result ≡ difference_of kind other }
{
    match (kind, other) {
        (Kind::Long, Kind::Long) => Some(Kind::Long),
        (Kind::Ptr, Kind::Long) => Some(Kind::Ptr),
        (Kind::Ptr, Kind::Ptr) => Some(Kind::Long),
        _ => None,
    }
}

fn word_if(holds: bool) -> Option<Kind>
    ensures { result ≡ word_where holds }
{
    if holds { Some(Kind::Long) } else { None }
}

/// Two words, or two addresses, of which one may be a literal 0.
fn are_alike(left_is_0: bool, right_is_0: bool, left: Kind, right: Kind) -> bool
    ensures { result ≡ alike left_is_0 right_is_0 left right }
{
    is_value(left)
        && is_value(right)
        && (fits(left, right_is_0, right) || fits(right, left_is_0, left))
}

/// The kind that an operator makes of two operands.
pub fn binary_kind(
    op: BinaryOp,
    left_is_0: bool,
    right_is_0: bool,
    left: Kind,
    right: Kind,
) -> Option<Kind>
    ensures { result ≡ made_by op left_is_0 right_is_0 left right }
{
    match op {
        BinaryOp::Add => sum_kind(left, right),
        BinaryOp::Sub => difference_kind(left, right),
        BinaryOp::Lt => word_if(are_alike(left_is_0, right_is_0, left, right)),
        BinaryOp::Le => word_if(are_alike(left_is_0, right_is_0, left, right)),
        BinaryOp::Gt => word_if(are_alike(left_is_0, right_is_0, left, right)),
        BinaryOp::Ge => word_if(are_alike(left_is_0, right_is_0, left, right)),
        BinaryOp::Eq => word_if(are_alike(left_is_0, right_is_0, left, right)),
        BinaryOp::Ne => word_if(are_alike(left_is_0, right_is_0, left, right)),
        _ => word_if(is_word(left) && is_word(right)),
    }
}

/// Whether an operator takes an operand of a kind.
pub fn takes_operand(op: UnaryOp, kind: Kind) -> bool
    ensures { result ≡ operand_of op kind }
{
    match op {
        UnaryOp::Not => is_value(kind),
        _ => is_word(kind),
    }
}

/// What a built-in takes.
pub fn wanted(which: Builtin) -> &'static [Kind]
    ensures { result.now ≡ wanted_by which }
{
    match which {
        Builtin::MwMalloc1dlong => &[Kind::Long],
        Builtin::MwMalloc2dlong => &[Kind::Long, Kind::Long],
        Builtin::MwLocalmalloc => &[Kind::Long, Kind::Ptr],
        Builtin::MwMallocrepl => &[Kind::Long],
        Builtin::AtomicCas => &[Kind::Ptr, Kind::Long, Kind::Long],
        Builtin::Fence => &[],
        Builtin::Migrate => &[Kind::Ptr],
        Builtin::NodeId => &[],
        _ => &[Kind::Ptr, Kind::Long],
    }
}

/// What a built-in gives.
pub fn given(which: Builtin) -> Kind
    ensures { result ≡ given_by which }
{
    match which {
        Builtin::MwMalloc1dlong => Kind::Ptr,
        Builtin::MwMalloc2dlong => Kind::Ptr,
        Builtin::MwLocalmalloc => Kind::Ptr,
        Builtin::MwMallocrepl => Kind::Ptr,
        Builtin::AtomicAddms => Kind::Long,
        Builtin::AtomicSwap => Kind::Long,
        Builtin::AtomicCas => Kind::Long,
        Builtin::NodeId => Kind::Long,
        _ => Kind::Void,
    }
}
