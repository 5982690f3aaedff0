//! Where words live: views, owners, and the cursors from which views are allocated. Nothing here takes memory.
#![tactic(auto)]

mod cursors;
mod views;

pub use cursors::Cursors;
pub use views::{owner, valid, view};

#[cfg(test)]
mod tests;
