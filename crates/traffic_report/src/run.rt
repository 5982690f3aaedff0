use word_ops::{Cell, End, Entry, List, Step, Traffic};

/// A run that has ended.
#[derive(Debug, Drop)]
pub struct Ran {
    /// How it ended (docs/machine.md, "Endings").
    pub end: End,
    /// Its steps, in order.
    pub told: List<Step>,
    /// The events of each nodelet, in order; none where the run was made from its steps.
    pub parts: List<List<Entry>>,
    /// What its strands printed, piece by piece.
    pub out: List<List<u8>>,
    /// The words that it left, other than 0, in order of nodelet and address.
    pub cells: List<Cell>,
    /// What was sent between the nodelets and done at each.
    pub traffic: Traffic,
}

/// Why given steps make no run (docs/outputs.md, "Journal").
#[derive(Clone, Copy, PartialEq, Eq, Debug)]
pub enum StepsRefusal {
    /// Step `index`, from 0, is the first that is not possible after those before it.
    NotReady { index: usize },
    /// All steps are possible, and the run that they make has not ended.
    Unfinished,
    OutOfMemory,
}
