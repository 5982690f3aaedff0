use cilk_ast::{FaultKind, TokenKind};
use word_ops::Pos;

/// What stands at the front of a text (docs/language.md, "Tokens"). The numbers count bytes.
#[derive(Clone, Copy, PartialEq, Eq, Debug)]
pub enum Piece {
    /// A blank, a comment, a skipped line or a skipped word, so long.
    Skipped(usize),
    /// A token, so long.
    Found(TokenKind, usize),
    /// A lexical fault behind so many bytes.
    Bad(FaultKind, usize),
}

/// A spot in a text (docs/language.md, "Tokens"): how many bytes stand before it, its line and column,
/// and whether only spaces and tabs stand before it in its line.
#[derive(Clone, Copy, PartialEq, Eq, Debug)]
pub struct Spot {
    pub at: usize,
    pub pos: Pos,
    pub fresh: bool,
}
