//! What a run answers, and the texts of its end, its words and its traffic.
#![tactic(auto)]

mod report;
mod run;
mod texts;

pub use report::report_text;
pub use run::{Ran, StepsRefusal};
pub use texts::{ending_text, words_text};
pub use word_ops::{
    Cell, End, Entry, List, Name, NodeEvent, Pos, SpentCause, Step, Traffic, TrapKind,
};

#[cfg(test)]
mod tests;
