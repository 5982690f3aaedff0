use threadlet_code::Rule;

/// What is wrong with a line of a code text (docs/outputs.md, "Code text").
#[derive(Clone, Copy, PartialEq, Eq, Debug)]
pub enum CodeKind {
    /// The first line is not `emu-code 1`.
    BadHead,
    /// No line of a word and a number: `globals`, `replicated`, `formats`, `functions` or `main`.
    BadCount,
    /// No line of a format.
    BadText,
    /// No line that begins a function.
    BadHeader,
    /// No line of an instruction.
    BadInstr,
    /// No line `end`, or something stands behind it.
    BadEnd,
    /// The code breaks this rule. Reading never tells it.
    Broken(Rule),
}

/// The first line of a code text that is broken, counted from 1 by the newlines before it.
#[derive(Clone, Copy, PartialEq, Eq, Debug)]
pub struct CodeFault {
    pub line: u64,
    pub kind: CodeKind,
}

/// Why bytes give no code.
#[derive(Clone, Copy, PartialEq, Eq, Debug)]
pub enum CodeRefusal {
    Fault(CodeFault),
    OutOfMemory,
}
