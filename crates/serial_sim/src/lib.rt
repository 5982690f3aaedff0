//! Runs on one thread: which events happen, and in which order (docs/machine.md, "Serial runs").
#![tactic(auto)]

mod choosing;
mod laws;
mod playing;
mod running;

pub use laws::law_schedule;
pub use running::run_serial;

#[cfg(test)]
mod tests;
