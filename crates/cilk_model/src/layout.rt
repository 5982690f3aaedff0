use word_ops::List;

/// A bracket that is open in a text that is laid out (docs/language.md, "Canonical text").
#[derive(Clone, Copy, PartialEq, Eq, Debug)]
pub enum Bracket {
    Brace,
    Round,
}

/// What stands before the next token of such a text: the margin of a new line, nothing, or a blank.
#[derive(Clone, Copy, PartialEq, Eq, Debug)]
pub enum Gap {
    Margin,
    Nothing,
    Blank,
}

/// A text that is being laid out: what stands there, the brackets that are open, the outermost first,
/// and what stands before the next token.
#[derive(Debug, Drop)]
pub struct Page {
    pub text: List<u8>,
    pub brackets: List<Bracket>,
    pub gap: Gap,
}
