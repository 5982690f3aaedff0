use mem_atomics::Op;
use word_ops::{BinaryOp, UnaryOp};

/// What an allocation asks for (docs/machine.md, "Allocation").
#[derive(Clone, Copy, PartialEq, Eq, Debug)]
pub enum AllocCode {
    Striped,
    Blocked,
    Local,
    Replicated,
}

/// An instruction: what it pops and pushes, and whether it is an action, stands in docs/machine.md,
/// "Code". Slots, functions, formats and places of a body are numbered from 0.
#[derive(Clone, Copy, PartialEq, Eq, Debug)]
pub enum Instr {
    Push(i64),
    Get(u32),
    Set(u32),
    Pop,
    Dup,
    Un(UnaryOp),
    Bin(BinaryOp),
    Jump(u32),
    JumpZero(u32),
    Call(u32),
    Return,
    Turn,
    Load,
    Post(Op),
    FetchAdd,
    FetchSwap,
    FetchCas,
    Init,
    Fence,
    Move,
    Where,
    Print(u32),
    Alloc(AllocCode),
    /// `target` is the slot for the child's result, if any; a hinted one has an address under its arguments.
    Spawn {
        function: u32,
        target: Option<u32>,
        hinted: bool,
    },
    Sync,
}
