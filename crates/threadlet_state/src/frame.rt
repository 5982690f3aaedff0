use word_ops::List;

/// An activation: its function, the place of its next instruction, its words, how many of them are the
/// stack, and the slots for the results of its outstanding children, in spawn order. The words are the
/// function's slots and then the places of its stack, of which the first `top` are taken, the top of the
/// stack last (docs/machine.md, "Contexts and packets"). One that waits for a call stands behind the call.
#[derive(Debug, Drop)]
pub struct Frame {
    pub function: u32,
    pub at: u32,
    pub words: List<i64>,
    pub top: u32,
    pub targets: List<Option<u32>>,
}
