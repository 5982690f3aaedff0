//! The top call: from the words and the bytes that are read to the bytes that are written.
#![tactic(auto)]

mod checking;
mod ended;
mod judging;
mod running;
mod sources;
mod texts;
mod top;
mod verdict;
mod words;

pub use ended::{Ended, SourceFault};
pub use top::{emu_main, emu_plain};
pub use traffic_report::Ran;

#[cfg(test)]
mod emit_tests;
#[cfg(test)]
mod tests;
