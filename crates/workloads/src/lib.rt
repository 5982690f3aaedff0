//! Programs to run: three kinds of source text, each in many sizes, made from a number.
#![tactic(auto)]

mod templates;
mod workload;

pub use templates::{CHASE, GUPS, STREAM};
pub use workload::text;

#[cfg(test)]
mod tests;
