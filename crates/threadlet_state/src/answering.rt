//! The answer to the action before which a context stands.

ghost use Rattle.std.specs.Prelude.{◌≡◌, ◌+◌, ◌≤◌, Some, length, true, false, IsTrue, OnOk, OnErr};
ghost use Rattle.threadlet_code.specs.Breaches.{is_sound};
ghost use Rattle.threadlet_code.specs.Fitting.{AreSlots};
ghost use Rattle.threadlet_code.specs.Machine.{answered, step};
ghost use Rattle.threadlet_code.specs.Naming.{is_spawn as spawns};
ghost use Rattle.threadlet_code.specs.Operands.{results as pushed};
ghost use Rattle.threadlet_code.specs.Verdict.{IsShort};
ghost use Rattle.threadlet_code.specs.declared.instr.Instr.TheVariants as by;
ghost use Rattle.threadlet_state.specs.Activations.{activation, state_of};
ghost use Rattle.threadlet_state.specs.Answered.{IsAnswered, IsBeforeAction, IsReady, GoesOnBehind, is_spawn};
ghost use Rattle.threadlet_state.specs.Fit.{IsLaidOut};
ghost use Rattle.world_model.specs.Activation.{joined};
ghost use Rattle.world_model.specs.Meaning.{word_of};

use crate::context::Context;
use crate::frame::Frame;
use crate::operand_stack::push;
use crate::operands::operand_count;
use crate::reuse::clear;
use crate::stepping::leave_behind;
use std::alloc::AllocError;
use threadlet_code::{Code, FuncCode, Instr, Verified};
use word_ops::List;

/// Answers the action before which a context that fits stands: what follows is the state that the machine goes
/// on with (docs/machine.md, "Contexts and packets"). Takes memory only at a Spawn; want of it changes nothing.
pub fn answer(context: &mut Context, code: &Verified, answer: &[i64]) -> Result<(), AllocError>
    requires asked { IsBeforeAction code.now.code context.old.frames }
    ensures ok { OnOk result (IsAnswered code.now.code context.old.frames answer.now context.new.frames) }
    ensures kept { context.new ≡ record context.old { frames = context.new.frames } }
    ensures err { OnErr result (context.new ≡ context.old) }
    ensures spawn { OnErr result (is_spawn (step code.now.code (state_of code.now.code context.old.frames)) ≡ true) }
{
    answer_frames(&mut context.frames, code.code(), answer)
}

/// The same of the frames of a context.
fn answer_frames(frames: &mut List<Frame>, code: &Code, answer: &[i64]) -> Result<(), AllocError>
    requires asked { IsBeforeAction code.now frames.old }
    requires short { IsShort code.now }
    requires sound { IsTrue (is_sound code.now) }
    ensures ok { OnOk result (IsAnswered code.now frames.old answer.now frames.new) }
    ensures err { OnErr result (frames.new ≡ frames.old) }
    ensures spawn { OnErr result (is_spawn (step code.now (state_of code.now frames.old)) ≡ true) }
{
    let deepest = frames.len() - 1;
    let frame = frames.at(deepest);
    let f = code.functions.at(frame.function as usize);
    let instr = *f.body.at(frame.at as usize);
    let count = operand_count(code, instr);
    go_on(frames.at_mut(deepest), f, instr, count, answer)
}

/// A frame of the function `f` goes on behind its action, which has `count` operands.
fn go_on(
    frame: &mut Frame,
    f: &FuncCode,
    instr: Instr,
    count: usize,
    answer: &[i64],
) -> Result<(), AllocError>
    requires { IsReady f.now instr count frame.old }
    ensures on { OnOk result (GoesOnBehind f.now instr count answer.now frame.old frame.new) }
    ensures laid { IsLaidOut f.now frame.new }
    ensures function { frame.new.function ≡ frame.old.function }
    ensures err { OnErr result (frame.new ≡ frame.old) }
    ensures spawn { OnErr result (spawns (Some instr) ≡ true) }
{
    prove!(count <= frame.top as usize);
    let count = count as u32;
    match instr {
        Instr::Spawn { target, .. } => {
            frame.targets.add(target)?;
            leave_behind(frame, count);
            Ok(())
        }
        instr => {
            leave_behind(frame, count);
            take_answer(frame, f, instr, answer);
            Ok(())
        }
    }
}

/// What a frame does with the answer to an action that is no Spawn, once the operands are off its stack.
fn take_answer(frame: &mut Frame, f: &FuncCode, instr: Instr, answer: &[i64])
    requires no_spawn { spawns (Some instr) ≡ false }
    requires laid { IsLaidOut f.now frame.old }
    requires room { frame.old.top + pushed instr ≤ f.now.height }
    requires targets { AreSlots f.now.slots frame.old.targets }
    ensures answered { activation f.now.slots frame.new ≡ answered instr answer.now (activation f.now.slots frame.old) }
    ensures laid { IsLaidOut f.now frame.new }
    ensures function { frame.new.function ≡ frame.old.function }
{
    match instr {
        Instr::Load | Instr::FetchAdd | Instr::FetchSwap | Instr::FetchCas => {
            push(frame, f, first_word(answer));
        }
        Instr::Where | Instr::Alloc(_) => push(frame, f, first_word(answer)),
        Instr::Sync => join(frame, f, answer),
        _ => {}
    }
}

/// The word of an answer, and 0 where it has none.
fn first_word(answer: &[i64]) -> i64
    ensures { result ≡ word_of answer.now }
{
    match answer.first() {
        None => 0,
        Some(word) => *word,
    }
}

/// The results of the children go to their slots, and no child is to be joined then.
fn join(frame: &mut Frame, f: &FuncCode, results: &[i64])
    requires laid { IsLaidOut f.now frame.old }
    requires targets { AreSlots f.now.slots frame.old.targets }
    ensures answered { activation f.now.slots frame.new ≡ answered by.Sync results.now (activation f.now.slots frame.old) }
    ensures laid { IsLaidOut f.now frame.new }
    ensures function { frame.new.function ≡ frame.old.function }
{
    bring(&mut frame.words, frame.targets.as_slice(), results);
    clear(&mut frame.targets);
}

/// Results go to the slots that are their targets, as far as there are both.
fn bring(words: &mut List<i64>, targets: &[Option<u32>], results: &[i64])
    requires { AreSlots (length words.old) targets.now }
    ensures { words.new ≡ joined words.old targets.now results.now }
{
    for (target, result) in targets.iter().zip(results) {
        if let Some(slot) = target {
            let _ = words.set(*slot as usize, *result);
        }
    }
}
