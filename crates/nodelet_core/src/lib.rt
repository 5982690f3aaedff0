//! One nodelet: its words, its contexts and what it counts, and what one event changes there
//! (docs/machine.md, "Nodelets").
#![tactic(auto)]

mod awaiting;
mod changing;
mod children;
mod contexts;
mod counting;
mod deliver;
mod due;
mod effect;
mod going;
mod keeping;
mod memory;
mod next;
mod nodelet;
mod operands;
mod reading;
mod records;
mod run;
mod sending;
mod services;
mod sight;
mod standing;
mod start;
mod tally;

pub use core_model::Trapped;
pub use next::Next;
pub use nodelet::Nodelet;
pub use records::Records;
pub use tally::Tally;

#[cfg(test)]
mod tests;
