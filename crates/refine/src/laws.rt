//! What holds of a program and of code that implements it. Each function here does nothing; its contract is
//! the law.

ghost use Rattle.refine.specs.Laws.{CensusIsOfProgram, EventsAreRunOfProgram, ProgramNeverStuck, ProgramRunsEnd, RecordsAlike, RunsAlike};

/// The same steps are a run of verified code and of the program that it implements, to the same worlds, with
/// the same end and the same traffic (docs/machine.md, "The core").
pub fn law_alike()
    ensures { RunsAlike }
{}

/// The steps of legal events are a run of the program; each nodelet keeps the first trap that they tell of at
/// it, and the nodelets have counted the run's traffic (docs/machine.md, "The core").
pub fn law_run()
    ensures { EventsAreRunOfProgram }
{}

/// The census names exactly the strands that live in the program's run, none of them twice, and what a strand
/// has pending is what is on the link from its place (docs/machine.md, "The core").
pub fn law_census()
    ensures { CensusIsOfProgram }
{}

/// Where no event is legal, a strand has trapped, a nodelet has the last stamp, or no step of the program's
/// world is possible and main has ended or turns are spent (docs/machine.md, "The core").
pub fn law_not_stuck()
    ensures { ProgramNeverStuck }
{}

/// Where no event is legal, the program's run has an ending (docs/machine.md, "The core").
pub fn law_runs_end()
    ensures { ProgramRunsEnd }
{}

/// What is recorded of a run of verified code is recorded of the same run of the program that it implements
/// (docs/machine.md, "The core").
pub fn law_records_alike()
    ensures { RecordsAlike }
{}
