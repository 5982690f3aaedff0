use crate::walk::Span;
use word_ops::List;

/// What is found of a function: for each place the stack height that goes on from there, the span of the
/// heights of all ways that come, and whether a jump goes there.
#[derive(Debug, Drop)]
pub struct Survey {
    pub heights: List<Option<u32>>,
    pub ways: List<Option<Span>>,
    pub jumped: List<bool>,
}
