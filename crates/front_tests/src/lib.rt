//! Tests of the parser and the checker: in a crate of their own, so that each of those is proved once.
#![tactic(auto)]

#[cfg(test)]
mod fault_tests;
#[cfg(test)]
mod program_tests;
#[cfg(test)]
mod text_tests;
