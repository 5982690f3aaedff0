//! The word that a memory operation leaves in its cell. Nothing here takes memory.
#![tactic(auto)]

mod fetch_op;
mod op;

pub use fetch_op::{FetchOp, fetch};
pub use op::{Op, apply};

#[cfg(test)]
mod tests;
