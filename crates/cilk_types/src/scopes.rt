//! What names stand for, at each place of a text.

use cilk_ast::Kind;
use indexmap::IndexMap;
use word_ops::List;

/// A parameter, a local or the variable of a `for` or `cilk_for`.
#[derive(Clone, Copy, Debug)]
pub struct Local {
    pub kind: Kind,
    pub number: u32,
    pub level: u32,
}

/// A global, and its address.
#[derive(Clone, Copy, Debug)]
pub struct GlobalWord {
    pub kind: Kind,
    pub replicated: bool,
    pub address: i64,
}

/// A function that is written.
#[derive(Debug, Drop)]
pub struct Written {
    pub result: Kind,
    pub params: List<Kind>,
    pub index: u32,
}

/// What a name stands for.
#[derive(Clone, Copy)]
pub enum Meaning<'s> {
    Local(Local),
    Global(GlobalWord),
    Function(&'s Written),
}

/// What a file knows: what is declared before, with its global if it is one, and all functions. Of two
/// with one name the first counts.
#[derive(Drop)]
pub struct FileNames<'a> {
    pub before: IndexMap<&'a [u8], Option<GlobalWord>>,
    pub functions: IndexMap<&'a [u8], Written>,
}

/// What is known at a place of a function: what the file knows, and the locals of the scopes that are open,
/// the innermost last.
#[derive(Drop)]
pub struct Scopes<'f, 'a> {
    pub file: &'f FileNames<'a>,
    pub around: List<IndexMap<&'a [u8], Local>>,
    pub count: u32,
    pub level: u32,
}
