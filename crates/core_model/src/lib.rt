//! What nodelets are and what events leave of them, and the laws of all events: they are a run of the code's
//! meaning, whose strands, traffic, traps and end the nodelets show (docs/machine.md, "The core").
#![tactic(auto)]

mod laws;
mod run_laws;
mod trapped;

pub use laws::{
    law_census_is_live, law_census_names_once, law_counts_are_traffic, law_events_are_run,
    law_events_end, law_first_can_come, law_first_traps_are_told, law_never_stuck, law_runs_end,
};
pub use run_laws::{
    law_cells_are_all, law_cells_beyond_are_zero, law_contexts_travel,
    law_event_traps_at_one_nodelet, law_events_go_on, law_events_miss_nothing,
    law_events_touch_few, law_legal_is_listed, law_main_ends_last, law_merged_end_is_shown,
    law_others_go_on_alike, law_serial_end_is_shown,
};
pub use trapped::Trapped;
