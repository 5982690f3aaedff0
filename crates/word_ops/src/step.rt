use crate::name::Name;

/// A step of a run (docs/machine.md, "Steps").
#[derive(Clone, Copy, PartialEq, Eq, Debug)]
pub enum Step {
    /// The strand does the action that it is due; a spawn names the child.
    Act { name: Name, child: Option<Name> },
    /// The first item that the strand has pending at the nodelet is applied there.
    Apply { name: Name, nodelet: u32 },
}

/// What happens at one nodelet at once.
#[derive(Clone, Copy, PartialEq, Eq, Debug)]
pub enum NodeEvent {
    /// The context of this strand goes on for `count` instructions, at least 1.
    Run { name: Name, count: u64 },
    /// The first packet that nodelet `origin` has sent here is taken.
    Take { origin: u32 },
}

/// An event at a nodelet, with its stamp and the step that it did, if any.
#[derive(Clone, Copy, PartialEq, Eq, Debug)]
pub struct Entry {
    pub stamp: u64,
    pub event: NodeEvent,
    pub step: Option<Step>,
}

/// What a nodelet has done so far: turns served, operations applied, and contexts sent away, for moves
/// and births alike.
#[derive(Clone, Copy, PartialEq, Eq, Debug)]
pub struct Counts3 {
    pub turns: u64,
    pub applied: u64,
    pub sent_contexts: u64,
}
