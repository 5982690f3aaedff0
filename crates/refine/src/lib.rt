//! What the events of the core are to a program that the code implements: a run of it, with its strands, its
//! traffic and its end (docs/machine.md, "The core").
#![tactic(auto)]

mod code_laws;
mod laws;

pub use code_laws::{law_code_not_stuck, law_code_run, law_upgrades_alike};
pub use laws::{law_alike, law_census, law_not_stuck, law_records_alike, law_run, law_runs_end};
