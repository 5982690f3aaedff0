//! What is found of a function before its places are judged.

ghost use Rattle.std.specs.Prelude.{◌≡◌, ℕ, ◌<◌, ◌≤◌, ◌^◌, ◌||◌, length, map, false, IfOk, slice_index_or};
ghost use Rattle.word_ops.specs.Formats.{words_in};
ghost use Rattle.threadlet_code.specs.Naming.{is_named};
ghost use Rattle.threadlet_code.specs.Ways.{heights};
ghost use Rattle.threadlet_code.specs.Walking.{AreFound};
ghost use Rattle.threadlet_code.specs.Judging.{AreJumps};

use crate::code::{Code, FuncCode};
use crate::naming::target_of;
use crate::survey::Survey;
use crate::walk::Walk;
use crate::walking::walk_through;
use std::alloc::{AllocError, Global};
use word_ops::List;

/// What is found of a function that has an instruction.
pub fn survey_of(
    alloc: Global,
    code: &Code,
    counts: &List<u64>,
    function: usize,
    f: &FuncCode,
) -> Result<Survey, AllocError>
    requires counts { counts.now ≡ map words_in code.now.formats }
    requires short { length f.now.body < 2 ^ 32 }
    requires some { 1 ≤ length f.now.body }
    ensures heights { IfOk result (λ survey. survey.heights ≡ heights code.now function f.now) }
    ensures ways { IfOk result (λ survey. AreFound code.now function f.now survey.ways) }
    ensures jumped { IfOk result (λ survey. AreJumps f.now survey.jumped) }
{
    let jumped = jumps_in(alloc, f)?;
    let Walk { known, ways, .. } = walk_through(alloc, code, counts, function, f)?;
    Ok(Survey {
        heights: known,
        ways,
        jumped,
    })
}

/// To which places of a function some jump goes.
fn jumps_in(alloc: Global, f: &FuncCode) -> Result<List<bool>, AllocError>
    ensures { IfOk result (λ jumped. AreJumps f.now jumped) }
{
    let mut jumped = List::from_vec(vec![in alloc; false; f.body.len()]?);
    for instr in f.body.as_slice() {
        mark(&mut jumped, target_of(instr));
    }
    Ok(jumped)
}

/// Marks a place, if any, which may lie behind the body.
fn mark(jumped: &mut List<bool>, to: Option<u32>)
    ensures size { length jumped.new ≡ length jumped.old }
    ensures each { (place : ℕ) → place < length jumped.old →
        slice_index_or jumped.new place false ≡ (is_named place to || slice_index_or jumped.old place false) }
{
    if let Some(place) = to {
        if (place as usize) < jumped.len() {
            let _ = jumped.set(place as usize, true);
        }
    }
}
