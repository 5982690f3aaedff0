//! The canonical text of a tree.
#![tactic(auto)]

mod expressions;
mod items;
mod page;
mod print_laws;
mod printing;
mod simple;
mod spellings;
mod statements;

pub use print_laws::{law_canonical_text_is_one, law_canonical_text_spells};
pub use printing::print;

#[cfg(test)]
mod tests;
