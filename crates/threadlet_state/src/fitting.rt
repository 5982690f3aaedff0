//! Whether the frames of a context fit verified code.

ghost use Rattle.std.specs.Prelude.{◌≡◌, ◌≤◌, ◌&&◌, nat_lt, length};
ghost use Rattle.std.specs.List.{list_all};
ghost use Rattle.threadlet_code.specs.Naming.{is_past};
ghost use Rattle.threadlet_state.specs.Fit.{are_slots, makes_up, frame_fits, frames_fit};

use crate::context::Context;
use crate::frame::Frame;
use threadlet_code::Verified;

/// The most activations that a strand has at a time.
pub const MAX_DEPTH: usize = 256;

/// The frames of a context fit the code: there are 1 to 256; each has the words of its function, targets
/// that are slots of it, and a stack of the height of its place, of one word less where it waits for a call
/// (docs/machine.md, "Contexts and packets"). Takes no memory.
pub fn fits(context: &Context, code: &Verified) -> bool
    ensures { result ≡ frames_fit code.now.code context.now.frames }
{
    match context.frames.as_slice().split_last() {
        None => false,
        Some((deepest, callers)) => all_suit(deepest, callers, code),
    }
}

/// The deepest frame fits, the others fit and wait for a value, and they are not too many.
fn all_suit(deepest: &Frame, callers: &[Frame], code: &Verified) -> bool
    ensures { result ≡ (nat_lt (length callers.now) 256 && frame_fits code.now.code 0 deepest.now && list_all (frame_fits code.now.code 1) callers.now) }
{
    callers.len() < MAX_DEPTH && suits(deepest, code, 0) && all_wait(callers, code)
}

/// All these frames fit, and wait for a value.
#[tactic(auto, using(std::proofs::lemmas::List::Folds::list_all_more, std::proofs::lemmas::List::Folds::list_all_at))]
fn all_wait(frames: &[Frame], code: &Verified) -> bool
    ensures { result ≡ list_all (frame_fits code.now.code 1) frames.now }
{
    for frame in frames {
        if !suits(frame, code, 1) {
            return false;
        }
    }
    true
}

/// A frame fits that waits for so many words.
fn suits(frame: &Frame, code: &Verified, waits: u64) -> bool
    requires { waits ≤ 1 }
    ensures { result ≡ frame_fits code.now.code waits frame.now }
{
    match code.code.functions.as_slice().get(frame.function as usize) {
        None => false,
        Some(f) => {
            frame.words.len() == f.slots as usize + f.height as usize
                && have_slots(frame.targets.as_slice(), f.slots)
                && reaches(frame.top, waits, code.height(frame.function, frame.at))
        }
    }
}

/// So many words, and those that are to come, make up a height.
fn reaches(top: u32, waits: u64, height: Option<u32>) -> bool
    requires { waits ≤ 1 }
    ensures { result ≡ makes_up top waits height }
{
    match height {
        None => false,
        Some(height) => top as u64 + waits == height as u64,
    }
}

/// These targets are none or slots.
#[tactic(auto, using(std::proofs::lemmas::List::Folds::list_all_more, std::proofs::lemmas::List::Folds::list_all_at))]
fn have_slots(targets: &[Option<u32>], slots: u32) -> bool
    ensures { result ≡ are_slots slots targets.now }
{
    for target in targets {
        if is_outside(*target, slots) {
            return false;
        }
    }
    true
}

/// This target is a slot that is not there.
fn is_outside(target: Option<u32>, slots: u32) -> bool
    ensures { result ≡ is_past slots target }
{
    match target {
        None => false,
        Some(slot) => slots <= slot,
    }
}
