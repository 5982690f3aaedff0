//! What a program means: the actions of its strands, and what is written of its runs. This crate has
//! definitions and laws, and the plain types that they speak of.
#![tactic(auto)]

mod layout;
mod lexing;
mod strand_laws;
mod token_laws;

pub use layout::{Bracket, Gap, Page};
pub use lexing::{Piece, Spot};
pub use strand_laws::{
    law_actions_are_bounded, law_more_answers_make_more_actions, law_one_action_waits,
    law_over_is_over, law_strands_begin_with_turn,
};
pub use token_laws::{
    law_lexemes_end_once, law_lexical_fault_is_one, law_texts_lex, law_tokens_are_one,
    law_tokens_are_spelled, law_tokens_finish, law_tokens_have_no_fault,
};
