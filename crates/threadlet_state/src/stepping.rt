//! One silent instruction of a context.

ghost use Rattle.std.specs.Prelude.{◌≡◌, ◌≤◌, ◌<◌, ◌+◌, ◌-◌, ◌^◌, true, Some, IsTrue, OnOk, OnErr};
ghost use Rattle.threadlet_code.specs.declared.instr.Instr.TheVariants as by;
ghost use Rattle.threadlet_code.specs.Machine as machine;
ghost use Rattle.threadlet_code.specs.Verdict.{IsShort};
ghost use Rattle.threadlet_code.specs.Breaches.{is_sound};
ghost use Rattle.threadlet_state.specs.Activations.{activation};
ghost use Rattle.threadlet_state.specs.Fit.{IsLaidOut};
ghost use Rattle.threadlet_state.specs.Silent.{IsBeforeSilent, IsStepped, next_instr, is_call, stays, computes, HasRoom, Leads};

use crate::context::Context;
use crate::frame::Frame;
use crate::operand_stack::{pop, push};
use crate::starting::entered;
use std::alloc::AllocError;
use threadlet_code::{Code, FuncCode, Instr, Verified};
use word_ops::{List, binary, unary};

/// Does one silent instruction of a context that fits: what follows is the machine's next state
/// (docs/machine.md, "Contexts and packets"). Takes memory only at a Call; want of it changes nothing.
pub fn step_silent(context: &mut Context, code: &Verified) -> Result<(), AllocError>
    requires silent { IsBeforeSilent code.now.code context.old.frames }
    ensures ok { OnOk result (IsStepped code.now.code context.old.frames context.new.frames) }
    ensures kept { context.new ≡ record context.old { frames = context.new.frames } }
    ensures err { OnErr result (context.new ≡ context.old) }
    ensures call { OnErr result (is_call (next_instr code.now.code context.old.frames) ≡ true) }
{
    step_frames(&mut context.frames, code.code())
}

/// The same of the frames of a context.
fn step_frames(frames: &mut List<Frame>, code: &Code) -> Result<(), AllocError>
    requires silent { IsBeforeSilent code.now frames.old }
    requires short { IsShort code.now }
    requires sound { IsTrue (is_sound code.now) }
    ensures ok { OnOk result (IsStepped code.now frames.old frames.new) }
    ensures err { OnErr result (frames.new ≡ frames.old) }
    ensures call { OnErr result (is_call (next_instr code.now frames.old) ≡ true) }
{
    let deepest = frames.len() - 1;
    let frame = frames.at(deepest);
    let f = code.functions.at(frame.function as usize);
    match *f.body.at(frame.at as usize) {
        Instr::Call(function) => call(frames, code, function),
        Instr::Return => {
            give_back(frames, code);
            Ok(())
        }
        instr => {
            run_here(frames.at_mut(deepest), f, instr);
            Ok(())
        }
    }
}

/// A frame of the function `f` does an instruction that concerns it alone.
fn run_here(frame: &mut Frame, f: &FuncCode, instr: Instr)
    requires stays { stays instr ≡ true }
    requires room { HasRoom f.now instr frame.old }
    ensures leads { Leads instr (activation f.now.slots frame.old) (activation f.now.slots frame.new) }
    ensures laid { IsLaidOut f.now frame.new }
    ensures function { frame.new.function ≡ frame.old.function }
{
    match instr {
        Instr::Jump(to) => frame.at = to,
        Instr::JumpZero(to) => {
            if pop(frame, f) == 0 {
                frame.at = to;
            } else {
                frame.at += 1;
            }
        }
        _ => {
            compute(frame, f, instr);
            frame.at += 1;
        }
    }
}

/// The same of one that goes on to the next place, all but that.
fn compute(frame: &mut Frame, f: &FuncCode, instr: Instr)
    requires computes { computes instr ≡ true }
    requires room { HasRoom f.now instr frame.old }
    ensures leads { Leads instr (activation f.now.slots frame.old) (machine.onward (activation f.now.slots frame.new)) }
    ensures laid { IsLaidOut f.now frame.new }
    ensures at { frame.new.at ≡ frame.old.at }
    ensures function { frame.new.function ≡ frame.old.function }
{
    match instr {
        Instr::Push(word) => push(frame, f, word),
        Instr::Get(slot) => {
            let word = *frame.words.at(slot as usize);
            push(frame, f, word);
        }
        Instr::Set(slot) => {
            let word = pop(frame, f);
            let _ = frame.words.set(slot as usize, word);
        }
        Instr::Pop => {
            let _ = pop(frame, f);
        }
        Instr::Dup => {
            let word = pop(frame, f);
            push(frame, f, word);
            push(frame, f, word);
        }
        Instr::Un(op) => {
            let word = pop(frame, f);
            push(frame, f, unary(op, word));
        }
        Instr::Bin(op) => {
            let right = pop(frame, f);
            let left = pop(frame, f);
            if let Ok(word) = binary(op, left, right) {
                push(frame, f, word);
            }
        }
        _ => {}
    }
}

/// Calls a function from the deepest frame.
fn call(frames: &mut List<Frame>, code: &Code, function: u32) -> Result<(), AllocError>
    requires silent { IsBeforeSilent code.now frames.old }
    requires short { IsShort code.now }
    requires sound { IsTrue (is_sound code.now) }
    requires here { next_instr code.now frames.old ≡ Some (by.Call function) }
    ensures ok { OnOk result (IsStepped code.now frames.old frames.new) }
    ensures err { OnErr result (frames.new ≡ frames.old) }
{
    let deepest = frames.len() - 1;
    let caller = frames.at(deepest);
    let f = code.functions.at(caller.function as usize);
    let callee = code.functions.at(function as usize);
    let end = f.slots as usize + caller.top as usize;
    let args = &caller.words.as_slice()[end - callee.params as usize..end];
    let next = entered(frames.allocator(), function, callee, args)?;
    frames.add(next)?;
    leave_behind(frames.at_mut(deepest), callee.params);
    Ok(())
}

/// A frame goes on behind its instruction, without its operands.
pub(crate) fn leave_behind(frame: &mut Frame, operands: u32)
    requires operands { operands ≤ frame.old.top }
    requires next_place { frame.old.at + 1 < 2 ^ 32 }
    ensures { frame.new ≡ record frame.old { top = frame.old.top - operands; at = frame.old.at + 1 } }
{
    frame.top -= operands;
    frame.at += 1;
}

/// Returns from the deepest frame, which has a caller.
fn give_back(frames: &mut List<Frame>, code: &Code)
    requires silent { IsBeforeSilent code.now frames.old }
    requires sound { IsTrue (is_sound code.now) }
    requires here { next_instr code.now frames.old ≡ Some by.Return }
    ensures { IsStepped code.now frames.old frames.new }
{
    if let Some(mut frame) = frames.pop() {
        let f = code.functions.at(frame.function as usize);
        let word = pop(&mut frame, f);
        let caller = frames.len() - 1;
        let g = code.functions.at(frames.at(caller).function as usize);
        push(frames.at_mut(caller), g, word);
    }
}
