//! What the rules see of an expression, and what they want of it.

use cilk_ast::{Kind, TextFault};
use word_ops::Pos;

/// An expression: its first token, whether it is a literal 0, its kind if no rule is broken in it, and
/// the first fault in it.
#[derive(Clone, Copy)]
pub struct Judgement {
    pub at: Pos,
    pub is_literal_0: bool,
    pub kind: Option<Kind>,
    pub fault: Option<TextFault>,
}

/// Which kinds are good in a place.
#[derive(Clone, Copy)]
pub enum Want {
    Word,
    Value,
    Kind(Kind),
}

/// Arguments: whether each has a kind that fits, the first that does not, and the first fault in them.
#[derive(Clone, Copy)]
pub struct Arguments {
    pub fit: bool,
    pub misfit: Option<TextFault>,
    pub fault: Option<TextFault>,
}
