//! The events of a serial run, from the start to its end.

ghost use Rattle.std.specs.Prelude.{◌≡◌, ◌≤◌, ◌<◌, ◌++◌, ◌∷◌, [], length, List as Seq, true, option_to_list, IfOk, OnOk};
ghost use Rattle.word_ops.specs.declared.step.Entry.{Entry as Noted};
ghost use Rattle.merge_law.specs.Events.{nodelet_of as happens_at};
ghost use Rattle.sim_core.specs.code.Numbered.{setup_with};
ghost use Rattle.core_model.specs.Core.{is_legal};
ghost use Rattle.sim_core.specs.Kept.{setup_in, core_in, core_fits};
ghost use Rattle.sim_core.specs.Advanced.{entries_at, IsReached};
ghost use Rattle.serial_sim.specs.code.Going.{HasHappened, HasGone};

use crate::choosing::next_event;
use rand_core::SeedableRng;
use rand_pcg::Lcg64Xsh32;
use sim_core::{Core, Event};
use std::alloc::{AllocError, Global};
use threadlet_code::Verified;
use word_ops::{List, Rules, Step};

/// What a serial run leaves: the core after its last event, and its steps.
#[derive(Drop)]
pub(crate) struct Left {
    pub core: Core,
    pub told: List<Step>,
}

/// All events of the schedule of a seed happen, from the start on.
pub(crate) fn play_out(
    alloc: Global,
    n: u32,
    turns: u64,
    code: &Verified,
    seed: u64,
    rules: Rules,
) -> Result<Left, AllocError>
    requires some { 1 ≤ n }
    requires few { n ≤ 64 }
    ensures gone { IfOk result (λ left. HasGone code.now.code seed (setup_with code.now.code n turns rules) left.core left.told) }
    ensures fits { IfOk result (λ left. core_fits code.now.code left.core ≡ true) }
{
    let mut core = Core::new(alloc, n, turns, code, rules)?;
    let mut told = List::new(alloc);
    let mut generator = Lcg64Xsh32::seed_from_u64(seed);
    while let Some(event) = next_event(&core, n, code, &mut generator)? {
        happen(&mut core, code, event, &mut told)?;
    }
    Ok(Left { core, told })
}

/// A legal event happens, and its step is told, if it has one. Where it is refused memory the run is given up.
fn happen(
    core: &mut Core,
    code: &Verified,
    event: Event,
    told: &mut List<Step>,
) -> Result<(), AllocError>
    requires reached { IsReached code.now.code core.old }
    requires fits { core_fits code.now.code core.old ≡ true }
    requires legal { is_legal (setup_in code.now.code core.old) (core_in code.now.code core.old) event ≡ true }
    ensures ok { OnOk result (HasHappened code.now.code core.old core.new event told.old told.new) }
    ensures fits { core_fits code.now.code core.new ≡ true }
{
    core.event(code, event)?;
    tell(told, last_step(core, nodelet_of(event)))
}

/// The nodelet at which an event happens.
fn nodelet_of(event: Event) -> u32
    ensures { result ≡ happens_at event }
{
    match event {
        Event::Run { nodelet, .. } => nodelet,
        Event::Take { nodelet, .. } => nodelet,
    }
}

/// The step of the last event at a nodelet, if it has one.
fn last_step(core: &Core, k: u32) -> Option<Step>
    requires there { k < core.now.count }
    requires some { 1 ≤ length (entries_at core.now k) }
    ensures { (before : Seq Noted) (entry : Noted) → entries_at core.now k ≡ before ++ entry ∷ [] → result ≡ entry.step }
{
    let entries = core.node(k).entries();
    entries.at(entries.len() - 1).step
}

/// Adds a step, if there is one.
fn tell(told: &mut List<Step>, step: Option<Step>) -> Result<(), AllocError>
    ensures { OnOk result (told.new ≡ told.old ++ option_to_list step) }
{
    match step {
        None => Ok(()),
        Some(step) => told.add(step),
    }
}
