use crate::list::List;

/// A part of a format: a byte as it stands, or a word in decimal.
#[derive(Clone, Copy, PartialEq, Eq, Debug)]
pub enum Part {
    Byte(u8),
    Long,
}

/// What a `printf` writes, part by part.
pub type Format = List<Part>;
