use crate::step::Counts3;

/// Where a caller may hold the workers of a parallel run, or look at them.
pub trait Gate: Sync {
    /// The worker of `nodelet` is about to do its round number `round`, from 0, and has these counts.
    /// Takes no memory.
    fn at(&self, nodelet: u32, round: u64, counts: Counts3);
}

/// The gate that holds nobody.
#[derive(Clone, Copy, Debug)]
pub struct NoGate;

impl Gate for NoGate {
    fn at(&self, _nodelet: u32, _round: u64, _counts: Counts3) {}
}
