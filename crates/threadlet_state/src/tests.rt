mod programs;

ghost use Rattle.std.specs.Prelude.{◌≡◌, true};
ghost use Rattle.threadlet_code.specs.Machine.{step};
ghost use Rattle.threadlet_state.specs.Activations.{state_of};
ghost use Rattle.threadlet_state.specs.Answered.{is_asked};
ghost use Rattle.threadlet_state.specs.Fit.{frames_fit};

use super::{Context, Packet, answer, copied, fits, is_silent, run_silent, started, step_silent};
use programs::{difference, family};
use std::alloc::AllocError;
use threadlet_code::{Instr, Verified, verify};
use word_ops::{Box, Name};

const MAIN: Name = Name {
    nodelet: 0,
    number: 0,
};

/// How many silent instructions came next, up to 100; they are done.
fn run_on(context: &mut Context, code: &Verified) -> Result<u64, AllocError> {
    for done in 0..100 {
        if !fits(context, code) || !is_silent(context, code) {
            return Ok(done);
        }
        step_silent(context, code)?;
    }
    Ok(100)
}

#[test]
fn a_strand_calls_and_returns_between_its_turns(rt: HostRuntime) -> Result<(), AllocError> {
    let code = difference(rt.alloc())?;
    match verify(rt.alloc(), code) {
        Err(_) => Err(AllocError),
        Ok(code) => {
            let mut context = started(rt.alloc(), &code, 0, &[], MAIN, 2, None)?;
            assert!(rt; fits(&context, &code));
            assert_eq!(rt; run_on(&mut context, &code)?, 0);
            assert_eq!(rt; reply(&mut context, &code, &[])?, 0);
            assert_eq!(rt; run_on(&mut context, &code)?, 3);
            assert_eq!(rt; context.frames.len(), 2);
            assert_eq!(rt; context.frames.at(0).at, 4);
            assert_eq!(rt;
                context.frames.at(1).words.as_slice(),
                [9, 3, 0, 0].as_slice()
            );
            assert_eq!(rt; reply(&mut context, &code, &[])?, 0);
            assert_eq!(rt; run_on(&mut context, &code)?, 12);
            assert_eq!(rt; context.frames.len(), 1);
            let frame = context.frames.at(0);
            assert_eq!(rt; frame.at, 13);
            assert_eq!(rt; frame.top, 1);
            assert_eq!(rt; frame.words.as_slice(), [6, -6, -6].as_slice());
            Ok(())
        }
    }
}

/// The next instruction of a context is an action of those that a family makes.
fn is_before_action(context: &Context, code: &Verified) -> bool
    requires { frames_fit code.now.code context.now.frames ≡ true }
    ensures { result ≡ true → is_asked (step code.now.code (state_of code.now.code context.now.frames)) ≡ true }
{
    let text = code.code();
    let frame = context.frames.at(context.frames.len() - 1);
    let f = text.functions.at(frame.function as usize);
    match *f.body.at(frame.at as usize) {
        Instr::Turn | Instr::Load | Instr::Spawn { .. } | Instr::Sync => true,
        _ => false,
    }
}

/// Answers the next action of a context, behind the silent instructions before it; says how many these were.
fn reply(context: &mut Context, code: &Verified, words: &[i64]) -> Result<u64, AllocError> {
    if !fits(context, code) {
        return Err(AllocError);
    }
    let done = run_silent(context, code)?;
    if !is_before_action(context, code) {
        return Err(AllocError);
    }
    answer(context, code, words)?;
    Ok(done)
}

/// The deepest frame of a context has these places, words and targets.
fn stands(context: &Context, at: u32, top: u32, words: &[i64], targets: &[Option<u32>]) -> bool {
    match context.frames.as_slice().last() {
        None => false,
        Some(frame) => {
            frame.at == at
                && frame.top == top
                && frame.words.as_slice() == words
                && frame.targets.as_slice() == targets
        }
    }
}

#[test]
fn words_are_answered_to_the_stack_and_results_to_their_slots(
    rt: HostRuntime,
) -> Result<(), AllocError> {
    let code = family(rt.alloc())?;
    match verify(rt.alloc(), code) {
        Err(_) => Err(AllocError),
        Ok(code) => {
            let mut context = started(rt.alloc(), &code, 0, &[], MAIN, 2, None)?;
            reply(&mut context, &code, &[])?;
            assert_eq!(rt; reply(&mut context, &code, &[5, 6])?, 2);
            assert!(rt; stands(&context, 4, 2, &[0, 0, 7, 5], &[]));
            for _ in 0..3 {
                reply(&mut context, &code, &[])?;
            }
            assert!(rt; stands(&context, 11, 1, &[0, 0, 2, 3], &[Some(1), None, Some(0)]));
            reply(&mut context, &code, &[11, 22, 33])?;
            assert!(rt; stands(&context, 12, 1, &[33, 11, 2, 3], &[]));
            Ok(())
        }
    }
}

#[test]
fn a_copy_in_the_room_of_more_frames_is_the_context(rt: HostRuntime) -> Result<(), AllocError> {
    let code = difference(rt.alloc())?;
    match verify(rt.alloc(), code) {
        Err(_) => Err(AllocError),
        Ok(code) => {
            let mut larger = started(rt.alloc(), &code, 0, &[], MAIN, 2, None)?;
            reply(&mut larger, &code, &[])?;
            run_on(&mut larger, &code)?;
            assert_eq!(rt; larger.frames.len(), 2);
            let context = started(rt.alloc(), &code, 0, &[], MAIN, 5, None)?;
            let copy = copied(&context, larger.frames)?;
            assert_eq!(rt; copy.home, 5);
            assert_eq!(rt; copy.frames.len(), 1);
            assert!(rt; stands(&copy, 0, 0, &[0, 0, 0], &[]));
            Ok(())
        }
    }
}

fn can_move_between_threads<T: Send>() {}

#[test]
fn contexts_and_packets_cross_threads() {
    can_move_between_threads::<Context>();
    can_move_between_threads::<Packet>();
    can_move_between_threads::<Box<Context>>();
}
