use crate::name::Name;
use crate::place::Pos;

/// Why a strand traps (docs/machine.md, "Traps").
#[derive(Clone, Copy, PartialEq, Eq, Debug)]
pub enum TrapKind {
    Divide,
    BadAddress,
    Depth,
    OutOfBounds,
}

/// What a run that is cut short has spent: the turns of a nodelet, or its stamps.
#[derive(Clone, Copy, PartialEq, Eq, Debug)]
pub enum SpentCause {
    Turns,
    Stamps,
}

/// How a run ends (docs/machine.md, "Endings").
#[derive(Clone, Copy, PartialEq, Eq, Debug)]
pub enum End {
    /// Main has ended with this value.
    Done {
        value: i64,
    },
    /// The first strand that trapped, and why and where in the source.
    Trap {
        kind: TrapKind,
        pos: Pos,
        name: Name,
    },
    /// The run is cut short at this nodelet.
    Spent {
        nodelet: u32,
        cause: SpentCause,
    },
}
