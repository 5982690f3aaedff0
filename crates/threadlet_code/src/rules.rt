//! The rules that need no ways, each as a test of one place (docs/machine.md, "Rules of code").

ghost use Rattle.std.specs.Prelude.{◌≡◌, ◌<◌, length, slice_get};
ghost use Rattle.threadlet_code.specs.Naming.{is_turn, is_return, is_sync, is_spawn, is_last};
ghost use Rattle.threadlet_code.specs.Rules.{no_entry_turn, bad_places, bad_slot, can_start, bad_main, bad_function, bad_format, bad_target, loop_without_turn, falls_off, spawn_untold, follows_sync, return_unsynced, is_jumped_to};

use crate::code::{Code, FuncCode};
use crate::instr::Instr;
use crate::naming::{format_of, function_of, slot_of, target_of};

/// The first instruction is no Turn.
pub fn lacks_entry_turn(f: &FuncCode, place: usize) -> bool
    ensures { result ≡ no_entry_turn f.now place }
{
    place == 0 && !is_turn_at(f, 0)
}

/// There are not as many positions as instructions.
pub fn has_bad_places(f: &FuncCode, place: usize) -> bool
    ensures { result ≡ bad_places f.now place }
{
    place == 0 && f.places.len() != f.body.len()
}

/// There are fewer slots than parameters, or a slot that is named is not there.
pub fn has_bad_slot(f: &FuncCode, place: usize) -> bool
    requires { place < length f.now.body }
    ensures { result ≡ bad_slot f.now place }
{
    let named_past = match slot_of(f.body.at(place)) {
        None => false,
        Some(slot) => f.slots <= slot,
    };
    place == 0 && f.slots < f.params || named_past
}

/// Main is bad, which is told at the first place of the first function, or a function that is named is
/// not there.
pub fn has_bad_function(code: &Code, function: usize, f: &FuncCode, place: usize) -> bool
    requires { place < length f.now.body }
    ensures { result ≡ bad_function code.now function f.now place }
{
    let named_past = match function_of(f.body.at(place)) {
        None => false,
        Some(named) => code.functions.len() <= named as usize,
    };
    lacks_main(code, function, place) || named_past
}

/// Main is not there or has parameters, and this is the first place of the first function.
fn lacks_main(code: &Code, function: usize, place: usize) -> bool
    ensures { result ≡ bad_main code.now function place }
{
    function == 0 && place == 0 && !main_starts(code)
}

/// Main is there, and has no parameters.
fn main_starts(code: &Code) -> bool
    ensures { result ≡ can_start (slice_get code.now.functions code.now.main) }
{
    match code.functions.as_slice().get(code.main as usize) {
        None => false,
        Some(f) => f.params == 0,
    }
}

/// A format that is named is not there.
pub fn has_bad_format(code: &Code, f: &FuncCode, place: usize) -> bool
    requires { place < length f.now.body }
    ensures { result ≡ bad_format code.now f.now place }
{
    match format_of(f.body.at(place)) {
        None => false,
        Some(named) => code.formats.len() <= named as usize,
    }
}

/// A jump leaves the body.
pub fn has_bad_target(f: &FuncCode, place: usize) -> bool
    requires { place < length f.now.body }
    ensures { result ≡ bad_target f.now place }
{
    match target_of(f.body.at(place)) {
        None => false,
        Some(to) => f.body.len() <= to as usize,
    }
}

/// A jump goes to its own place or before, and to no Turn.
pub fn loops_without_turn(f: &FuncCode, place: usize) -> bool
    requires { place < length f.now.body }
    ensures { result ≡ loop_without_turn f.now place }
{
    match target_of(f.body.at(place)) {
        None => false,
        Some(to) => to as usize <= place && !is_turn_at(f, to as usize),
    }
}

/// The last instruction is neither a jump nor a return.
pub fn runs_off(f: &FuncCode, place: usize) -> bool
    requires { place < length f.now.body }
    ensures { result ≡ falls_off f.now place }
{
    let end = f.body.len();
    let last = matches!(f.body.at(place), Instr::Jump(_) | Instr::Return);
    place + 1 == end && !last
}

/// A function spawns that does not say so.
pub fn spawns_untold(f: &FuncCode, place: usize) -> bool
    requires { place < length f.now.body }
    ensures { result ≡ spawn_untold f.now place }
{
    let spawns = matches!(f.body.at(place), Instr::Spawn { .. });
    !f.spawns && spawns
}

/// A function that spawns returns here, and no Sync comes before, or a jump leads here.
pub fn returns_unsynced(f: &FuncCode, place: usize, jumped_to: bool) -> bool
    requires place { place < length f.now.body }
    requires jumped { jumped_to ≡ is_jumped_to f.now place }
    ensures { result ≡ return_unsynced f.now place }
{
    let returns = matches!(f.body.at(place), Instr::Return);
    f.spawns && returns && (!is_behind_sync(f, place) || jumped_to)
}

/// There is a Sync at the place before.
fn is_behind_sync(f: &FuncCode, place: usize) -> bool
    requires { place < length f.now.body }
    ensures { result ≡ follows_sync f.now place }
{
    if place == 0 {
        return false;
    }
    matches!(f.body.at(place - 1), Instr::Sync)
}

/// There is a Turn at a place.
fn is_turn_at(f: &FuncCode, place: usize) -> bool
    ensures { result ≡ is_turn (slice_get f.now.body place) }
{
    matches!(f.body.as_slice().get(place), Some(Instr::Turn))
}
