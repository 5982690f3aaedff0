use crate::builtin::Builtin;
use crate::kind::Kind;
use word_ops::{BinaryOp, Box, List, Pos, UnaryOp};

/// An expression as it is spelled (docs/language.md, "Expressions"). Each `pos` is where the form stands
/// in the text: an operator's at the operator, an index's at the `[`, else at the first token.
#[derive(Debug, Drop)]
pub enum TExpr {
    Number {
        pos: Pos,
        value: i64,
    },
    Var {
        pos: Pos,
        name: List<u8>,
    },
    Paren {
        pos: Pos,
        inner: Box<TExpr>,
    },
    Un {
        pos: Pos,
        op: UnaryOp,
        inner: Box<TExpr>,
    },
    Deref {
        pos: Pos,
        inner: Box<TExpr>,
    },
    Cast {
        pos: Pos,
        kind: Kind,
        inner: Box<TExpr>,
    },
    Index {
        pos: Pos,
        base: Box<TExpr>,
        index: Box<TExpr>,
    },
    Bin {
        pos: Pos,
        op: BinaryOp,
        left: Box<TExpr>,
        right: Box<TExpr>,
    },
    Both {
        pos: Pos,
        left: Box<TExpr>,
        right: Box<TExpr>,
    },
    Either {
        pos: Pos,
        left: Box<TExpr>,
        right: Box<TExpr>,
    },
    Call {
        pos: Pos,
        name: List<u8>,
        args: List<TExpr>,
    },
    Builtin {
        pos: Pos,
        which: Builtin,
        args: List<TExpr>,
    },
    /// `printf`; `format` is the bytes between the quotes of the text literal at `text_pos`.
    Print {
        pos: Pos,
        text_pos: Pos,
        format: List<u8>,
        args: List<TExpr>,
    },
    /// `mw_replicated_init` of the replicated global `name`.
    InitAt {
        pos: Pos,
        name_pos: Pos,
        name: List<u8>,
        value: Box<TExpr>,
    },
}

/// `cilk_spawn` of a call, or `cilk_spawn_at` where there is a hint.
#[derive(Debug, Drop)]
pub struct TSpawn {
    pub pos: Pos,
    pub hint: Option<TExpr>,
    pub name_pos: Pos,
    pub name: List<u8>,
    pub args: List<TExpr>,
}

/// What stands behind a `=`.
#[derive(Debug, Drop)]
pub enum TValue {
    Plain(TExpr),
    Spawned(TSpawn),
}

/// A statement as it is spelled (docs/language.md, "Statements").
#[derive(Debug, Drop)]
pub enum TStmt {
    Empty,
    Block(List<TStmt>),
    /// One declarator of a local.
    Local {
        pos: Pos,
        kind: Kind,
        name: List<u8>,
        value: Option<TValue>,
    },
    Eval(TExpr),
    Assign {
        pos: Pos,
        left: TExpr,
        value: TValue,
    },
    /// `left += value`.
    AddTo {
        pos: Pos,
        left: TExpr,
        value: TExpr,
    },
    /// `left++` or `++left`.
    Up {
        left: TExpr,
    },
    /// `left--` or `--left`.
    Down {
        left: TExpr,
    },
    Spawn(TSpawn),
    If {
        test: TExpr,
        yes: Box<TStmt>,
        no: Option<Box<TStmt>>,
    },
    While {
        test: TExpr,
        body: Box<TStmt>,
    },
    For {
        init: Option<Box<TStmt>>,
        test: Option<TExpr>,
        step: Option<Box<TStmt>>,
        body: Box<TStmt>,
    },
    /// `cilk_for`; `second` and `third` are the names in its test and in its step.
    CilkFor {
        pos: Pos,
        name: List<u8>,
        low: TExpr,
        second: (Pos, List<u8>),
        high: TExpr,
        third: (Pos, List<u8>),
        body: Box<TStmt>,
    },
    Break {
        pos: Pos,
    },
    Continue {
        pos: Pos,
    },
    Return {
        pos: Pos,
        value: Option<TExpr>,
    },
    Sync,
}

/// A parameter of a function.
#[derive(Debug, Drop)]
pub struct Param {
    pub pos: Pos,
    pub kind: Kind,
    pub name: List<u8>,
}

/// What a file is made of; prototypes are left out.
#[derive(Debug, Drop)]
pub enum Item {
    /// One declarator of a global.
    Global {
        pos: Pos,
        name: List<u8>,
        kind: Kind,
        replicated: bool,
    },
    Function {
        pos: Pos,
        result: Kind,
        name_pos: Pos,
        name: List<u8>,
        params: List<Param>,
        body: TStmt,
    },
}

/// A text as it is spelled; `end` is where it ends.
#[derive(Debug, Drop)]
pub struct Tree {
    pub items: List<Item>,
    pub end: Pos,
}
