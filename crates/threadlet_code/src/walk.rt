use word_ops::List;

/// The least and the greatest stack height of some ways to a place.
#[derive(Clone, Copy, PartialEq, Eq, Debug)]
pub struct Span {
    pub least: u32,
    pub most: u32,
}

/// A walk over all ways through a body, an instruction more at a time: the height of each place to which a
/// shorter way leads; the heights of all ways that came to each place; the places to which one came, in the
/// order in which they were reached; and how many of these have their height.
#[derive(Debug, Drop)]
pub struct Walk {
    pub known: List<Option<u32>>,
    pub ways: List<Option<Span>>,
    pub reached: List<usize>,
    pub settled: usize,
}
