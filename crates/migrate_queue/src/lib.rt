//! Links between nodelets: what is sent at one end is taken at the other in the same order, also where
//! the two ends are in two threads (docs/machine.md, "Links").
#![tactic(auto)]

mod link_in;
mod link_out;
mod linking;
mod outlet;

pub use link_in::LinkIn;
pub use link_out::LinkOut;
pub use linking::link;
pub use outlet::LinkOutlet;

#[cfg(test)]
mod tests;
