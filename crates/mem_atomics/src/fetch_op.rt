//! Fetches: atomics that answer the old word and leave a new one.

ghost use Rattle.std.specs.Prelude.{◌≡◌};
ghost use Rattle.mem_atomics.specs.NewWord.{fetched};

/// An atomic that answers the word that its cell held, and leaves a new one
/// (docs/machine.md, "Operations and fetches").
#[derive(Clone, Copy, PartialEq, Eq, Debug)]
pub enum FetchOp {
    /// Leaves the sum, wrapping at 64 bits.
    Add { by: i64 },
    /// Leaves `to`.
    Swap { to: i64 },
    /// Leaves `to` where the cell held `expected`, and else what it held.
    Cas { expected: i64, to: i64 },
}

/// The word in a cell after the fetch `f`, where the cell held `old`
/// (docs/machine.md, "Operations and fetches").
pub fn fetch(f: FetchOp, old: i64) -> i64
    ensures { result ≡ fetched f old }
{
    match f {
        FetchOp::Add { by } => old.wrapping_add(by),
        FetchOp::Swap { to } => to,
        FetchOp::Cas { expected, to } => if old == expected { to } else { old },
    }
}
