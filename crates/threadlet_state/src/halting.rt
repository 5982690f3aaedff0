//! The silent instructions of a context up to its next action.

ghost use Rattle.std.specs.Prelude.{◌≡◌, ◌<◌, ◌-◌, ◌^◌, true, IfOk, OnErr};
ghost use Rattle.threadlet_code.specs.Running.{halt};
ghost use Rattle.threadlet_state.specs.Activations.{state_of};
ghost use Rattle.threadlet_state.specs.Answered.{IsHalted};
ghost use Rattle.threadlet_state.specs.Fit.{frames_fit};
ghost use Rattle.threadlet_state.specs.Silent.{is_call, next_instr};

use crate::context::Context;
use crate::silence::is_silent;
use crate::stepping::step_silent;
use std::alloc::AllocError;
use threadlet_code::Verified;

/// Does all silent instructions of a context that come next; the answer is how many (docs/machine.md, "Contexts
/// and packets"). Takes memory only at Calls; want of it leaves the context before one.
pub fn run_silent(context: &mut Context, code: &Verified) -> Result<u64, AllocError>
    requires fits { frames_fit code.now.code context.old.frames ≡ true }
    ensures few { IfOk result (λ done. done < 2 ^ 64 - 1) }
    ensures halted { IfOk result (λ done. IsHalted code.now.code context.old.frames done context.new.frames) }
    ensures call { OnErr result (is_call (next_instr code.now.code context.new.frames) ≡ true) }
    ensures way { (halt code.now.code (state_of code.now.code context.new.frames)).state ≡ (halt code.now.code (state_of code.now.code context.old.frames)).state }
    ensures fits { frames_fit code.now.code context.new.frames ≡ true }
    ensures kept { context.new ≡ record context.old { frames = context.new.frames } }
{
    let mut done = 0;
    while is_silent(context, code) {
        step_silent(context, code)?;
        done += 1;
    }
    Ok(done)
}
