//! What instructions name, and where they lead.

ghost use Rattle.std.specs.Prelude.{◌≡◌, Some, None, slice_get};
ghost use Rattle.threadlet_code.specs.Naming.{slot_named, function_named, format_named, jump_of, is_turn, is_return, is_sync, is_spawn, is_last};

use crate::instr::Instr;

/// The slot that an instruction names, if any.
pub fn slot_of(instr: &Instr) -> Option<u32>
    ensures { result ≡ slot_named instr.now }
{
    match *instr {
        Instr::Get(slot) | Instr::Set(slot) => Some(slot),
        Instr::Spawn { target, .. } => target,
        _ => None,
    }
}

/// The function that an instruction names, if any.
pub fn function_of(instr: &Instr) -> Option<u32>
    ensures { result ≡ function_named instr.now }
{
    match *instr {
        Instr::Call(function) => Some(function),
        Instr::Spawn { function, .. } => Some(function),
        _ => None,
    }
}

/// The format that an instruction names, if any.
pub fn format_of(instr: &Instr) -> Option<u32>
    ensures { result ≡ format_named instr.now }
{
    match *instr {
        Instr::Print(format) => Some(format),
        _ => None,
    }
}

/// Where an instruction jumps, if it does.
pub fn target_of(instr: &Instr) -> Option<u32>
    ensures { result ≡ jump_of instr.now }
{
    match *instr {
        Instr::Jump(to) | Instr::JumpZero(to) => Some(to),
        _ => None,
    }
}
