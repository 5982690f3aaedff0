//! The journal of a run, as a text (docs/outputs.md, "Journal").
#![tactic(auto)]

mod fault;
mod journal;
mod reading;
mod scanning;
mod writing;

pub use fault::{JournalFault, JournalKind, JournalRefusal};
pub use journal::Journal;
pub use reading::read;
pub use word_ops::{List, Name, Step};
pub use writing::write;

#[cfg(test)]
mod tests;
