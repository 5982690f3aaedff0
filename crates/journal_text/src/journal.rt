use word_ops::{List, Step};

/// What was run, and its steps (docs/outputs.md, "Journal").
#[derive(Debug, Drop)]
pub struct Journal {
    /// The rules of the run: 1 for the loose ones, 2 for the checked ones.
    pub version: u32,
    /// How many nodelets there are.
    pub n: u32,
    /// How many turns each nodelet serves at most.
    pub turns: u64,
    /// The source text.
    pub text: List<u8>,
    /// The steps, in order.
    pub steps: List<Step>,
}
