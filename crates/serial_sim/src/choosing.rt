//! The event that happens next in a serial run.

ghost use Rattle.std.specs.Prelude.{◌≡◌, true, IfOk};
ghost use Rattle.threadlet_code.specs.declared.code.Code.{Code};
ghost use Rattle.sim_core.specs.Kept.{setup_in, core_in, core_fits};
ghost use Rattle.serial_sim.specs.Schedule.{has_trapped as trapped_in};
ghost use Rattle.serial_sim.specs.code.Going.{IsChosen};

use rand_core::utils::NextWord;
use rand_pcg::Lcg64Xsh32;
use sim_core::{Core, Event};
use std::alloc::AllocError;
use threadlet_code::Verified;

/// The event that the next word picks among those that are legal in a core of `n` nodelets; none where a strand has
/// trapped or no event is legal.
pub(crate) fn next_event(
    core: &Core,
    n: u32,
    code: &Verified,
    generator: &mut Lcg64Xsh32,
) -> Result<Option<Event>, AllocError>
    requires count { core.now.count ≡ n }
    requires fits { core_fits code.now.code core.now ≡ true }
    ensures { IfOk result (IsChosen (setup_in code.now.code core.now) (core_in code.now.code core.now) generator.old generator.new) }
{
    if has_trapped(core, n) {
        return Ok(None);
    }
    let events = core.legal_events(code)?;
    if events.len() == 0 {
        return Ok(None);
    }
    let word = generator.next_word();
    Ok(Some(*events.at(word as usize % events.len())))
}

/// A strand has trapped at some nodelet.
fn has_trapped(core: &Core, n: u32) -> bool
    requires { core.now.count ≡ n }
    ensures { (code : Code) → result ≡ trapped_in (setup_in code core.now) (core_in code core.now) }
{
    for k in 0..n {
        if core.node(k).trapped().is_some() {
            return true;
        }
    }
    false
}
