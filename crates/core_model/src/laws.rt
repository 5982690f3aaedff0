//! What holds of all events. Each function here does nothing; its contract is the law.

ghost use Rattle.core_model.specs.Laws.{CensusIsLive, CensusNamesOnce, CountsAreTraffic, EventsAreRun, EventsLowerRank, FirstCanCome, FirstTrapsAreTold, NeverStuck, RunsEnd};

/// The steps of legal events are a run of the code's meaning, to a world that shares with the core its
/// words, grants, cursors, output and turns, its strands that live, what is pending and main's value
/// (docs/machine.md, "The core").
pub fn law_events_are_run()
    ensures { EventsAreRun }
{}

/// The census names exactly the strands that live once legal events have happened
/// (docs/machine.md, "The core").
pub fn law_census_is_live()
    ensures { CensusIsLive }
{}

/// The census names no strand twice (docs/machine.md, "The core").
pub fn law_census_names_once()
    ensures { CensusNamesOnce }
{}

/// After legal events the first packet of each link can come to the nodelet that it goes to
/// (docs/machine.md, "The core").
pub fn law_first_can_come()
    ensures { FirstCanCome }
{}

/// After legal events each nodelet keeps the first trap that the entries tell of at it
/// (docs/machine.md, "The core").
pub fn law_first_traps_are_told()
    ensures { FirstTrapsAreTold }
{}

/// After legal events the nodelets have counted the traffic of the run (docs/machine.md, "The core").
pub fn law_counts_are_traffic()
    ensures { CountsAreTraffic }
{}

/// Where no event is legal, a strand has trapped, a nodelet has the last stamp, or no step of the world is
/// possible and main has ended or turns are spent (docs/machine.md, "The core").
pub fn law_never_stuck()
    ensures { NeverStuck }
{}

/// Where no event is legal, the run has an ending (docs/machine.md, "The core").
pub fn law_runs_end()
    ensures { RunsEnd }
{}

/// Each legal event lowers the rank of the core, so events come to an end (docs/machine.md, "The core").
pub fn law_events_end()
    ensures { EventsLowerRank }
{}
