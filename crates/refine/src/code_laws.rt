//! What holds of verified code without a program, and of runs that are written again. Each function here does
//! nothing; its contract is the law.

ghost use Rattle.refine.specs.CodeLaws.{CodeNeverStuck, EventsAreRunOfCode, UpgradesAlike};

/// The steps of legal events are a run of the code's own meaning; each nodelet keeps the first trap that they
/// tell of at it, the nodelets have counted the run's traffic, and no event meets an instruction, an operand, a
/// slot or a target that is missing (docs/machine.md, "The core").
pub fn law_code_run()
    ensures { EventsAreRunOfCode }
{}

/// Where no event is legal, a strand has trapped, a nodelet has the last stamp, or no step of the code's world
/// is possible and main has ended or turns are spent (docs/machine.md, "The core").
pub fn law_code_not_stuck()
    ensures { CodeNeverStuck }
{}

/// A run of verified code and of the program that it implements is written again under the checked rules as the
/// same steps, or changes at the same step (docs/machine.md, "The core").
pub fn law_upgrades_alike()
    ensures { UpgradesAlike }
{}
