use crate::instr::Instr;
use word_ops::{Format, List, Pos};

/// A function: how many parameters and slots it has, how high its stack may grow, whether it spawns, its
/// instructions, and for each of these its place in the source text.
#[derive(Debug, Drop)]
pub struct FuncCode {
    pub params: u32,
    pub slots: u32,
    pub height: u32,
    pub spawns: bool,
    pub body: List<Instr>,
    pub places: List<Pos>,
}

/// A program as code: its functions, which of them is main, the formats that it prints, and how many plain
/// and replicated globals it has. It need not keep any rule (docs/machine.md, "Code").
#[derive(Debug, Drop)]
pub struct Code {
    pub functions: List<FuncCode>,
    pub main: u32,
    pub formats: List<Format>,
    pub globals: u32,
    pub replicated: u32,
}
