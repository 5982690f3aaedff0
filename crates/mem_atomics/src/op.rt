//! Operations: what a strand sends to a cell without waiting for an answer.

ghost use Rattle.std.specs.Prelude.{◌≡◌};
ghost use Rattle.mem_atomics.specs.NewWord.{applied};

/// A store or a remote atomic. It leaves a new word in its cell and answers nothing
/// (docs/machine.md, "Operations and fetches").
#[derive(Clone, Copy, PartialEq, Eq, Debug)]
pub enum Op {
    /// The word given.
    Store,
    /// The sum, wrapping at 64 bits.
    Add,
    /// The bits that both words have.
    And,
    /// The bits that either word has.
    Or,
    /// The bits that exactly one of the words has.
    Xor,
    /// The lesser word, both signed.
    Min,
    /// The greater word, both signed.
    Max,
}

/// The word in a cell after `op` with the word `v`, where the cell held `old`
/// (docs/machine.md, "Operations and fetches").
pub fn apply(op: Op, old: i64, v: i64) -> i64
    ensures { result ≡ applied op old v }
{
    match op {
        Op::Store => v,
        Op::Add => old.wrapping_add(v),
        Op::And => old & v,
        Op::Or => old | v,
        Op::Xor => old ^ v,
        Op::Min => old.min(v),
        Op::Max => old.max(v),
    }
}
