//! How many words instructions pop and push.

ghost use Rattle.std.specs.Prelude.{◌≡◌, ◌<◌, ◌≤◌, ◌^◌, length, map, IfOk, IfSome};
ghost use Rattle.word_ops.specs.Formats.{words_in};
ghost use Rattle.threadlet_code.specs.Operands.{params_of, operands, own_operands, results};

use crate::code::Code;
use crate::instr::{AllocCode, Instr};
use std::alloc::{AllocError, Global};
use word_ops::{Format, List, Part};

/// How many words each format has.
pub fn words_of_formats(alloc: Global, formats: &List<Format>) -> Result<List<u64>, AllocError>
    ensures { IfOk result (λ counts. counts ≡ map words_in formats.now) }
{
    let mut counts = List::new(alloc);
    for format in formats.as_slice() {
        counts.add(words_of(format))?;
    }
    Ok(counts)
}

/// How many words a format has.
#[tactic(auto, using(crate::proofs::Counting::words_in_byte, crate::proofs::Counting::words_in_long))]
fn words_of(format: &Format) -> u64
    ensures { result ≡ words_in format.now }
{
    let mut count = 0;
    for part in format.as_slice() {
        match part {
            Part::Byte(_) => {}
            Part::Long => count += 1,
        }
    }
    count
}

/// How many words an instruction pops, where `counts` are those of the formats; None where the function or
/// the format is not there.
pub fn popped_by(code: &Code, counts: &List<u64>, instr: &Instr) -> Option<u64>
    requires { counts.now ≡ map words_in code.now.formats }
    ensures { result ≡ operands code.now instr.now }
{
    match *instr {
        Instr::Call(function) => parameters(code, function),
        Instr::Spawn {
            function,
            hinted,
            ..
        } => {
            match parameters(code, function) {
                None => None,
                Some(params) if hinted => Some(params + 1),
                Some(params) => Some(params),
            }
        }
        Instr::Print(format) => counts.as_slice().get(format as usize).copied(),
        _ => Some(popped_alone(instr)),
    }
}

/// How many parameters a function has, if it is there.
fn parameters(code: &Code, function: u32) -> Option<u64>
    ensures params { result ≡ params_of code.now function }
    ensures small { IfSome result (λ n. n < 2 ^ 32) }
{
    match code.functions.as_slice().get(function as usize) {
        None => None,
        Some(f) => Some(f.params as u64),
    }
}

/// How many words an instruction pops that names neither a function nor a format.
fn popped_alone(instr: &Instr) -> u64
    ensures { result ≡ own_operands instr.now }
{
    match *instr {
        Instr::Set(_) | Instr::Pop | Instr::Dup | Instr::Un(_) => 1,
        Instr::JumpZero(_) | Instr::Return | Instr::Load | Instr::Move => 1,
        Instr::Bin(_) | Instr::Post(_) | Instr::FetchAdd | Instr::FetchSwap | Instr::Init => 2,
        Instr::FetchCas => 3,
        Instr::Alloc(AllocCode::Striped) | Instr::Alloc(AllocCode::Replicated) => 1,
        Instr::Alloc(AllocCode::Blocked) | Instr::Alloc(AllocCode::Local) => 2,
        _ => 0,
    }
}

/// How many words an instruction leaves in their place.
pub fn pushed_by(instr: &Instr) -> u32
    ensures { result ≡ results instr.now }
{
    match *instr {
        Instr::Dup => 2,
        Instr::Push(_) | Instr::Get(_) | Instr::Un(_) | Instr::Bin(_) | Instr::Call(_) => 1,
        Instr::Load | Instr::FetchAdd | Instr::FetchSwap | Instr::FetchCas => 1,
        Instr::Where | Instr::Alloc(_) => 1,
        _ => 0,
    }
}
