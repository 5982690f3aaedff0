//! What strands do: their actions, the world that they share, its steps and runs, and how runs end.
//! This crate has definitions and laws alone, over any meaning of the functions that strands run.
#![tactic(auto)]

mod laws;

pub use laws::{
    law_clear, law_grants_settle, law_names, law_one_list, law_one_nodelet, law_order, law_pending,
    law_run_append, law_upgraded,
};
