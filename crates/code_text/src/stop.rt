use crate::fault::CodeKind;

/// A line that is broken, with its kind, and how many bytes there are from its begin on.
#[derive(Clone, Copy, Debug)]
pub struct Broken {
    pub kind: CodeKind,
    pub left: usize,
}

/// Why reading stops.
#[derive(Clone, Copy, Debug)]
pub enum Stop {
    At(Broken),
    OutOfMemory,
}
