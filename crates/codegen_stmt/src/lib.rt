//! From programs to code (docs/machine.md, "Code").
#![tactic(auto)]

mod appending;
mod around;
mod functions;
mod pieces;
mod program_laws;
mod programs;
mod rounds;
mod simple;
mod sizes;
#[cfg(test)]
mod tests;

pub use program_laws::law_code_of_programs_keeps_rules;
pub use programs::compile;
