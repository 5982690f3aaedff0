//! All nodelets with the links between them: which events are legal and what they leave
//! (docs/machine.md, "The core").
#![tactic(auto)]

mod advancing;
mod cells;
mod link;
mod machine;
mod naming;
mod outcome;
mod outgoing;
mod ran;
mod starting;
mod traffic;

pub use machine::Core;
pub use merge_law::Event;

#[cfg(test)]
mod tests;
