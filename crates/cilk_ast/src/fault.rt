ghost use Rattle.std.specs.Prelude.{◌≡◌};
ghost use Rattle.cilk_ast.specs.declared.fault.TextRefusal.TheVariants.{Fault, OutOfMemory};

use std::alloc::{AllocError, AllocFailed};
use word_ops::Pos;

/// Why a text is refused (docs/language.md, "Faults"): first what stands in the way of tokens, then of
/// a tree, then of a program. Of two faults at one place the one listed first counts.
#[derive(Clone, Copy, PartialEq, Eq, Debug)]
pub enum FaultKind {
    BadByte,
    BadLiteral,
    OpenComment,
    OpenText,
    TooDeep,
    Unexpected,
    Unknown,
    Twice,
    WrongType,
    WrongCount,
    NotAPlace,
    BadFormat,
    AssignsOuter,
    Escapes,
    TooMany,
    NoMain,
}

/// A fault and where it stands.
#[derive(Clone, Copy, PartialEq, Eq, Debug)]
pub struct TextFault {
    pub pos: Pos,
    pub kind: FaultKind,
}

/// Why a text gave nothing: its first fault, or want of memory.
#[derive(Clone, Copy, PartialEq, Eq, Debug)]
pub enum TextRefusal {
    Fault(TextFault),
    OutOfMemory,
}

impl From<TextFault> for TextRefusal {
    ghost from_gives = { λ fault e. e ≡ Fault fault };

    fn from(fault: TextFault) -> TextRefusal {
        TextRefusal::Fault(fault)
    }
}

impl From<AllocError> for TextRefusal {
    ghost from_gives = { λ _ e. e ≡ OutOfMemory };

    fn from(_: AllocError) -> TextRefusal {
        TextRefusal::OutOfMemory
    }
}

impl<T: Drop> From<AllocFailed<T>> for TextRefusal {
    ghost from_gives = { λ _ e. e ≡ OutOfMemory };

    fn from(_: AllocFailed<T>) -> TextRefusal {
        TextRefusal::OutOfMemory
    }
}
