ghost use Rattle.std.specs.Prelude.{IsTrue};
ghost use Rattle.cilk_ast.specs.Kept.{keeps};

use crate::builtin::Builtin;
use mem_atomics::Op;
use word_ops::{BinaryOp, Box, Format, List, Pos, UnaryOp};

/// An expression of a program (docs/language.md, "Meaning"). `pos` is where it traps.
#[derive(Debug, Drop)]
pub enum Expr {
    Word(i64),
    Slot(u32),
    Un {
        pos: Pos,
        op: UnaryOp,
        inner: Box<Expr>,
    },
    Bin {
        pos: Pos,
        op: BinaryOp,
        left: Box<Expr>,
        right: Box<Expr>,
    },
    Both {
        pos: Pos,
        left: Box<Expr>,
        right: Box<Expr>,
    },
    Either {
        pos: Pos,
        left: Box<Expr>,
        right: Box<Expr>,
    },
    Load {
        pos: Pos,
        address: Box<Expr>,
    },
    Call {
        pos: Pos,
        function: u32,
        args: List<Expr>,
    },
    Post {
        pos: Pos,
        op: Op,
        address: Box<Expr>,
        value: Box<Expr>,
    },
    Add {
        pos: Pos,
        address: Box<Expr>,
        value: Box<Expr>,
    },
    Swap {
        pos: Pos,
        address: Box<Expr>,
        value: Box<Expr>,
    },
    Cas {
        pos: Pos,
        address: Box<Expr>,
        expected: Box<Expr>,
        value: Box<Expr>,
    },
    Init {
        pos: Pos,
        address: Box<Expr>,
        value: Box<Expr>,
    },
    Fence,
    Move {
        pos: Pos,
        address: Box<Expr>,
    },
    Where,
    Print {
        format: Format,
        args: List<Expr>,
    },
    Alloc {
        pos: Pos,
        which: Builtin,
        args: List<Expr>,
    },
}

/// A statement of a program (docs/language.md, "Meaning").
#[derive(Debug, Drop)]
pub enum Stmt {
    Nothing,
    Block(List<Stmt>),
    Eval(Expr),
    Set {
        slot: u32,
        value: Expr,
    },
    Store {
        pos: Pos,
        address: Expr,
        value: Expr,
    },
    AddTo {
        pos: Pos,
        address: Expr,
        value: Expr,
    },
    Spawn {
        pos: Pos,
        target: Option<u32>,
        function: u32,
        hint: Option<Expr>,
        args: List<Expr>,
    },
    If {
        test: Expr,
        yes: Box<Stmt>,
        no: Box<Stmt>,
    },
    Loop {
        test: Expr,
        step: Box<Stmt>,
        body: Box<Stmt>,
    },
    /// A `cilk_for`: its body is `function`, which takes the variable and the slots in `copies`.
    Each {
        pos: Pos,
        low: Expr,
        high: Expr,
        function: u32,
        copies: List<u32>,
    },
    Break,
    Continue,
    Return(Expr),
    Sync,
}

/// A function of a program. Its slots are its parameters, then its locals in order of declaration;
/// `spawns` says that it spawns, and so syncs before it returns.
#[derive(Debug, Drop)]
pub struct Function {
    pub name: List<u8>,
    pub params: u32,
    pub slots: u32,
    pub spawns: bool,
    pub body: Stmt,
}

/// A program: its functions, the bodies of `cilk_for` behind those that were written; which of them is
/// main; and how many plain and replicated globals it has. It is well formed (docs/language.md,
/// "Programs").
#[derive(Debug, Drop)]
pub struct Program {
    pub functions: List<Function>,
    pub main: u32,
    pub globals: u32,
    pub replicated: u32,
    ghost kept: { IsTrue (keeps functions main) },
}
