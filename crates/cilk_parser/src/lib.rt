//! From tokens to the tree that they spell.
#![tactic(auto)]

mod calls;
mod cursor;
mod expressions;
mod items;
mod levels;
mod lexemes;
mod loops;
mod nesting;
mod parsing;
mod signs;
mod simple;
mod statements;
mod stop;
mod syntax_laws;
mod text_laws;

pub use parsing::parse;
pub use syntax_laws::{law_not_both, law_one_fault, law_one_of_both, law_one_tree};
pub use text_laws::{
    law_faulty_texts_spell_no_program, law_one_fault_of_a_text, law_one_program_of_a_text,
    law_one_tree_of_a_text, law_texts_spell_or_fail,
};
