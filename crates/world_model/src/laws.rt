//! What holds of every run. Each function here does nothing; its contract is the law.

ghost use Rattle.world_model.specs.Laws.{RunsGoOn, StepsChangeOneNodelet, ClearMeansNothingPending, PendingIsIssued, IssuedIsAppliedBefore, CellsHaveOneList, NamesAreGivenOnce, GrantsSettle, UpgradedIsRun};

/// Steps followed by more steps lead where the more lead from where the steps do
/// (docs/machine.md, "Steps").
pub fn law_run_append()
    ensures { RunsGoOn }
{}

/// A step changes cells of one nodelet at most (docs/machine.md, "Steps").
pub fn law_one_nodelet()
    ensures { StepsChangeOneNodelet }
{}

/// A clear strand has nothing pending anywhere (docs/machine.md, "Strands").
pub fn law_clear()
    ensures { ClearMeansNothingPending }
{}

/// What a strand issued to a nodelet is what was applied of it there, in that order, and then what is
/// pending (docs/machine.md, "Steps").
pub fn law_pending()
    ensures { PendingIsIssued }
{}

/// Before a strand fences, spawns, ends or changes its place, all that it has issued is applied
/// (docs/machine.md, "Steps").
pub fn law_order()
    ensures { IssuedIsAppliedBefore }
{}

/// The words of a world have one list (docs/outputs.md, "Words").
pub fn law_one_list()
    ensures { CellsHaveOneList }
{}

/// No two strands have one name (docs/machine.md, "Strands").
pub fn law_names()
    ensures { NamesAreGivenOnce }
{}

/// Grants that stand first can be applied one after the other until none does
/// (docs/machine.md, "Upgrades").
pub fn law_grants_settle()
    ensures { GrantsSettle }
{}

/// A run that is written again under the checked rules is a run under them
/// (docs/machine.md, "Upgrades").
pub fn law_upgraded()
    ensures { UpgradedIsRun }
{}
