//! Which of two faults is the first.

ghost use Rattle.std.specs.Prelude.{◌≡◌};
ghost use Rattle.cilk_model.specs.FirstFault.{rank_of, is_before as stands_before, comes_first as is_first_of, earlier as earlier_of};

use cilk_ast::{FaultKind, TextFault};
use word_ops::Pos;

/// How many kinds are listed before a kind of fault (docs/language.md, "Faults").
fn rank(kind: FaultKind) -> u8
    ensures { result ≡ rank_of kind }
{
    match kind {
        FaultKind::BadByte => 0,
        FaultKind::BadLiteral => 1,
        FaultKind::OpenComment => 2,
        FaultKind::OpenText => 3,
        FaultKind::TooDeep => 4,
        FaultKind::Unexpected => 5,
        FaultKind::Unknown => 6,
        FaultKind::Twice => 7,
        FaultKind::WrongType => 8,
        FaultKind::WrongCount => 9,
        FaultKind::NotAPlace => 10,
        FaultKind::BadFormat => 11,
        FaultKind::AssignsOuter => 12,
        FaultKind::Escapes => 13,
        FaultKind::TooMany => 14,
        FaultKind::NoMain => 15,
    }
}

fn is_before(p: Pos, q: Pos) -> bool
    ensures { result ≡ stands_before p q }
{
    p.line < q.line || (p.line == q.line && p.column < q.column)
}

fn comes_first(f: TextFault, g: TextFault) -> bool
    ensures { result ≡ is_first_of f g }
{
    let same_place = f.pos.line == g.pos.line && f.pos.column == g.pos.column;
    is_before(f.pos, g.pos) || (same_place && rank(f.kind) <= rank(g.kind))
}

/// The first of two faults, either of which there may be none.
pub fn earlier(f: Option<TextFault>, g: Option<TextFault>) -> Option<TextFault>
    ensures { result ≡ earlier_of f g }
{
    match (f, g) {
        (None, other) => other,
        (Some(fault), None) => Some(fault),
        (Some(fault), Some(other)) => {
            if comes_first(fault, other) {
                Some(fault)
            } else {
                Some(other)
            }
        }
    }
}
