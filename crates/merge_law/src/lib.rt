//! Entries with stamps, made by nodelets one by one, and their merge into one run: a machine of nodelets
//! and links in the abstract, the replay of one nodelet's entries, and what holds of the merge of all.
#![tactic(auto)]

mod event;
mod laws;
mod merging;

pub use event::Event;
pub use laws::{law_merged_legal, law_merged_order, law_replay, law_stamps};
pub use merging::merge;

#[cfg(test)]
mod tests;
