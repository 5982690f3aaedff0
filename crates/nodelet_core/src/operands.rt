//! The operands of the instruction before which a frame stands.

ghost use Rattle.std.specs.Prelude.{◌≤◌};
ghost use Rattle.threadlet_state.specs.Fit.{IsLaidOut};
ghost use Rattle.nodelet_core.specs.code.Operands.{AreTop};

use threadlet_code::FuncCode;
use threadlet_state::Frame;

/// The `count` words on top of the stack of a frame of the function `f`, the lowest first.
pub(crate) fn top_words<'a>(frame: &'a Frame, f: &FuncCode, count: usize) -> &'a [i64]
    requires laid { IsLaidOut f.now frame.now }
    requires enough { count ≤ frame.now.top }
    ensures { AreTop f.now.slots frame.now count result.now }
{
    let end = f.slots as usize + frame.top as usize;
    &frame.words.as_slice()[end - count..end]
}
