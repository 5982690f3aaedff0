//! How a way through a body goes on.

ghost use Rattle.std.specs.Prelude.{◌≡◌, ◌<◌, ◌+◌, ◌^◌, length, map, slice_get};
ghost use Rattle.word_ops.specs.Formats.{words_in};
ghost use Rattle.threadlet_code.specs.Ways.{names_hold};
ghost use Rattle.threadlet_code.specs.Walking.{behind};

use crate::code::{Code, FuncCode};
use crate::operands::{popped_by, pushed_by};
use crate::rules::{has_bad_format, has_bad_function, has_bad_slot, has_bad_target};
use word_ops::List;

/// Names at a place are there.
fn has_names(code: &Code, function: usize, f: &FuncCode, place: usize) -> bool
    requires { place < length f.now.body }
    ensures { result ≡ names_hold code.now function f.now place }
{
    !(has_bad_slot(f, place)
        || has_bad_function(code, function, f, place)
        || has_bad_format(code, f, place)
        || has_bad_target(f, place))
}

/// The height that a way has behind the instruction at a place, where it goes on; `counts` are the numbers
/// of words of the formats.
#[tactic(auto, using(crate::proofs::Heights::exchanged_above))]
pub fn height_behind(
    code: &Code,
    counts: &List<u64>,
    function: usize,
    f: &FuncCode,
    place: usize,
    height: u32,
) -> Option<u32>
    requires counts { counts.now ≡ map words_in code.now.formats }
    requires place { place < length f.now.body }
    requires room { height + 1 < 2 ^ 32 }
    ensures { result ≡ behind code.now function f.now place (slice_get f.now.body place) height }
{
    if !has_names(code, function, f, place) || f.height < height {
        return None;
    }
    let instr = f.body.at(place);
    match popped_by(code, counts, instr) {
        Some(popped) if popped <= height as u64 => Some(height - popped as u32 + pushed_by(instr)),
        _ => None,
    }
}
