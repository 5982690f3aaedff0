//! Whether the next instruction of a context is silent.

ghost use Rattle.std.specs.Prelude.{◌≡◌, ◌≤◌, true, IsTrue};
ghost use Rattle.threadlet_code.specs.declared.instr.Instr.TheVariants as by;
ghost use Rattle.threadlet_code.specs.Breaches.{is_sound};
ghost use Rattle.threadlet_code.specs.Machine.{step};
ghost use Rattle.threadlet_state.specs.Activations.{activation, state_of};
ghost use Rattle.threadlet_state.specs.Fit.{IsLaidOut, frames_fit};
ghost use Rattle.threadlet_state.specs.Silent.{goes_on, stays, GoesOnWith};

use crate::context::Context;
use crate::fitting::MAX_DEPTH;
use crate::frame::Frame;
use threadlet_code::{Code, FuncCode, Instr, Verified};
use word_ops::{BinaryOp, List, binary};

/// The next instruction of a context that fits is silent: no action, no trap and not the strand's end
/// (docs/machine.md, "Contexts and packets"). Takes no memory.
pub fn is_silent(context: &Context, code: &Verified) -> bool
    requires fits { frames_fit code.now.code context.now.frames ≡ true }
    ensures { result ≡ goes_on (step code.now.code (state_of code.now.code context.now.frames)) }
{
    are_silent(&context.frames, code.code())
}

/// The same of the frames of a context.
fn are_silent(frames: &List<Frame>, code: &Code) -> bool
    requires sound { IsTrue (is_sound code.now) }
    requires fits { frames_fit code.now frames.now ≡ true }
    ensures { result ≡ goes_on (step code.now (state_of code.now frames.now)) }
{
    let depth = frames.len();
    let frame = frames.at(depth - 1);
    let f = code.functions.at(frame.function as usize);
    match *f.body.at(frame.at as usize) {
        Instr::Call(_) => depth < MAX_DEPTH,
        Instr::Return => 1 < depth,
        Instr::Bin(op) => has_value(frame, f, op),
        instr => concerns_its_frame(instr),
    }
}

/// The words on top of the stack have a value under an operator.
fn has_value(frame: &Frame, f: &FuncCode, op: BinaryOp) -> bool
    requires laid { IsLaidOut f.now frame.now }
    requires two { 2 ≤ frame.now.top }
    ensures { GoesOnWith (by.Bin op) (activation f.now.slots frame.now) result }
{
    let end = f.slots as usize + frame.top as usize;
    let (left, right) = (*frame.words.at(end - 2), *frame.words.at(end - 1));
    binary(op, left, right).is_ok()
}

/// An instruction is silent and concerns its own frame alone.
fn concerns_its_frame(instr: Instr) -> bool
    ensures { result ≡ stays instr }
{
    match instr {
        Instr::Push(_) | Instr::Get(_) | Instr::Set(_) | Instr::Pop | Instr::Dup => true,
        Instr::Un(_) | Instr::Bin(_) | Instr::Jump(_) | Instr::JumpZero(_) => true,
        _ => false,
    }
}
