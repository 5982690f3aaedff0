/// What is due behind a byte of a text literal that is spelled by more than one.
#[derive(Clone, Copy, PartialEq, Eq, Debug)]
pub enum Due {
    /// A byte that stands for itself, or the first of several.
    Any,
    /// The byte behind a backslash.
    Escaped,
    /// The byte behind a percent sign.
    Percent,
    /// The last byte of `%ld`.
    Word,
}
