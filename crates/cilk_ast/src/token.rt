use word_ops::Pos;

/// What a token is (docs/language.md, "Tokens").
#[derive(Clone, Copy, PartialEq, Eq, Debug)]
pub enum TokenKind {
    Name,
    /// A reserved word.
    Word,
    Literal,
    Text,
    Mark,
    /// The end of the text, behind all other tokens.
    Finish,
}

/// A token: bytes `start` up to `stop` of the text, which begin at `pos`.
#[derive(Clone, Copy, PartialEq, Eq, Debug)]
pub struct Token {
    pub kind: TokenKind,
    pub start: usize,
    pub stop: usize,
    pub pos: Pos,
}
