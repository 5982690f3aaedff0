//! The words of the command line, read into what the program is to do.
#![tactic(auto)]

mod asked;
mod command;
mod reading;
mod values;

pub use asked::{Asked, Mode, WordsRefusal};
pub use reading::read;

#[cfg(test)]
mod tests;
