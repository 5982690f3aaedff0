//! Tokens of a text, or its first lexical fault.
#![tactic(auto)]

mod bytes;
mod lexing;
mod literals;
mod pieces;
mod spots;
mod words;

pub use lexing::lex;
pub use literals::literal_value;

#[cfg(test)]
mod tests;
