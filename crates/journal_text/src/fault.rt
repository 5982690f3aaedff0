/// What is wrong with a line of a journal (docs/outputs.md, "Journal").
#[derive(Clone, Copy, PartialEq, Eq, Debug)]
pub enum JournalKind {
    /// The first line is neither `emu-journal 1` nor `emu-journal 2`.
    BadHead,
    /// No line `nodelets N` with N from 1 to 64.
    BadNodelets,
    /// No line `turns B` with B from 1 to 2^40.
    BadTurns,
    /// No line `source L` with L up to 1,048,576.
    BadLength,
    /// The source text has fewer bytes than announced, or no newline stands right behind it.
    ShortSource,
    /// No line `steps C`.
    BadCount,
    /// No line of a step.
    BadStep,
    /// No line `end`, or something stands behind it.
    BadEnd,
    /// The step is not possible after those before it.
    NotReady,
    /// All steps are possible, and the run that they make has not ended.
    Unfinished,
    /// Under the checked rules the steps make no run, or another one.
    Changed,
}

/// The first line of a journal that is broken, counted from 1 by the newlines before it.
#[derive(Clone, Copy, PartialEq, Eq, Debug)]
pub struct JournalFault {
    pub line: u64,
    pub kind: JournalKind,
}

/// Why bytes give no journal.
#[derive(Clone, Copy, PartialEq, Eq, Debug)]
pub enum JournalRefusal {
    Fault(JournalFault),
    OutOfMemory,
}
