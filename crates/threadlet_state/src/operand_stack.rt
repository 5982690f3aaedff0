//! The stack of a frame.

ghost use Rattle.std.specs.Prelude.{◌≡◌, ◌+◌, ◌<◌, ◌≤◌};
ghost use Rattle.threadlet_code.specs.Machine as machine;
ghost use Rattle.threadlet_state.specs.Activations.{activation};
ghost use Rattle.threadlet_state.specs.Fit.{IsLaidOut};

use crate::frame::Frame;
use threadlet_code::FuncCode;

/// Puts a word on the stack of a frame of the function `f`.
pub fn push(frame: &mut Frame, f: &FuncCode, word: i64)
    requires laid { IsLaidOut f.now frame.old }
    requires room { frame.old.top < f.now.height }
    ensures pushed { activation f.now.slots frame.new ≡ machine.push word (activation f.now.slots frame.old) }
    ensures laid { IsLaidOut f.now frame.new }
    ensures top { frame.new.top ≡ frame.old.top + 1 }
    ensures at { frame.new.at ≡ frame.old.at }
    ensures function { frame.new.function ≡ frame.old.function }
{
    prove!(frame.top < f.height);
    let _ = frame.words.set(f.slots as usize + frame.top as usize, word);
    frame.top += 1;
}

/// Takes the top word off the stack of a frame of the function `f`.
pub fn pop(frame: &mut Frame, f: &FuncCode) -> i64
    requires laid { IsLaidOut f.now frame.old }
    requires some { 1 ≤ frame.old.top }
    ensures popped { activation f.now.slots frame.old ≡ machine.push result (activation f.now.slots frame.new) }
    ensures laid { IsLaidOut f.now frame.new }
    ensures top { frame.new.top + 1 ≡ frame.old.top }
    ensures at { frame.new.at ≡ frame.old.at }
    ensures function { frame.new.function ≡ frame.old.function }
{
    frame.top -= 1;
    *frame.words.at(f.slots as usize + frame.top as usize)
}
