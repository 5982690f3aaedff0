//! Serial runs.

ghost use Rattle.std.specs.Prelude.{◌≤◌, IfOk};
ghost use Rattle.traffic_report.specs.Runs.{IsWholeRun};
ghost use Rattle.core_model.specs.Core.{setting_of};
ghost use Rattle.sim_core.specs.code.Numbered.{setup_with};
ghost use Rattle.serial_sim.specs.Scheduled.{IsScheduled};

use crate::playing::play_out;
use std::alloc::{AllocError, Global};
use threadlet_code::Verified;
use traffic_report::Ran;
use word_ops::Rules;

/// The run of a code on `n` nodelets that serve so many turns each, on one thread, where the words of a seed pick each
/// event (docs/machine.md, "Serial runs"). It is a run of the code's own meaning, and is not cut short. Want of memory
/// gives the run up.
pub fn run_serial(
    alloc: Global,
    code: &Verified,
    n: u32,
    turns: u64,
    seed: u64,
    rules: Rules,
) -> Result<Ran, AllocError>
    requires some { 1 ≤ n }
    requires few { n ≤ 64 }
    ensures scheduled { IfOk result (IsScheduled (setup_with code.now.code n turns rules) seed) }
    ensures run { IfOk result (IsWholeRun (setting_of (setup_with code.now.code n turns rules))) }
{
    let left = play_out(alloc, n, turns, code, seed, rules)?;
    left.core.into_ran(code, left.told)
}
