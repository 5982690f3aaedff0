//! From expressions to code (docs/machine.md, "Code").
#![tactic(auto)]

mod draft;
mod expression_laws;
mod expressions;
mod own;
mod pieces;
mod sizes;
#[cfg(test)]
mod tests;

pub use draft::{Draft, NOWHERE};
pub use expression_laws::law_code_of_expressions_acts;
pub use expressions::emit;
pub use sizes::measure;
