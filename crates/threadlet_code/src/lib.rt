//! The code that strands run: instructions over slots and a stack, the machine that runs them, and the
//! rules that good code keeps (docs/machine.md, "Code").
#![tactic(auto)]

mod code;
mod instr;
mod judging;
mod machine_laws;
mod naming;
mod operands;
mod refusal;
mod rule;
mod rules;
mod strand_laws;
mod survey;
mod surveying;
mod verdict;
mod verified;
mod verified_laws;
mod verifying;
mod walk;
mod walking;
mod ways;

pub use code::{Code, FuncCode};
pub use instr::{AllocCode, Instr};
pub use machine_laws::{law_action_is_made, law_last_action_ends, law_silent_goes_on};
pub use refusal::VerifyRefusal;
pub use rule::Rule;
pub use strand_laws::{
    law_action_halts_here, law_answer_follows, law_end_is_last, law_last_action_halts_here,
    law_next_is_last, law_silent_follows, law_silent_halts_later, law_start_follows,
};
pub use verified::Verified;
pub use verified_laws::{
    law_answer_fits, law_answer_stays_tidy, law_children_fit, law_halts_at_due,
    law_heights_are_of_ways, law_never_stuck, law_nothing_silent_is_due, law_rules_are_kept,
    law_silent_fits, law_silent_stays_tidy, law_slots_are_there, law_starts_fit,
    law_verified_heights_lead, law_well_code_is_sound,
};
pub use verifying::verify;

#[cfg(test)]
mod tests;
