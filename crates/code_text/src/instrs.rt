//! The instruction that a line may be.

ghost use Rattle.std.specs.Prelude.{◌≡◌};
ghost use Rattle.code_text.specs.Words.{bare_in, numbered_in, target_in, spawn_in, operand_in, instr_in};

use crate::words::{alloc_named, binary_named, cut, op_named, read_index, read_word, unary_named};
use threadlet_code::Instr;

/// An instruction.
pub fn read_instr(text: &[u8]) -> Option<Instr>
    ensures { result ≡ instr_in text.now }
{
    match cut(b' ', text) {
        None => bare(text),
        Some((word, rest)) => with_operand(word, rest),
    }
}

/// An instruction of one word.
fn bare(word: &[u8]) -> Option<Instr>
    ensures { result ≡ bare_in word.now }
{
    if word == b"pop".as_slice() {
        Some(Instr::Pop)
    } else if word == b"dup".as_slice() {
        Some(Instr::Dup)
    } else if word == b"return".as_slice() {
        Some(Instr::Return)
    } else if word == b"turn".as_slice() {
        Some(Instr::Turn)
    } else if word == b"load".as_slice() {
        Some(Instr::Load)
    } else if word == b"fetchadd".as_slice() {
        Some(Instr::FetchAdd)
    } else if word == b"fetchswap".as_slice() {
        Some(Instr::FetchSwap)
    } else if word == b"fetchcas".as_slice() {
        Some(Instr::FetchCas)
    } else if word == b"init".as_slice() {
        Some(Instr::Init)
    } else if word == b"fence".as_slice() {
        Some(Instr::Fence)
    } else if word == b"move".as_slice() {
        Some(Instr::Move)
    } else if word == b"where".as_slice() {
        Some(Instr::Where)
    } else if word == b"sync".as_slice() {
        Some(Instr::Sync)
    } else {
        None
    }
}

/// An instruction of a word and what stands behind it.
fn with_operand(word: &[u8], rest: &[u8]) -> Option<Instr>
    ensures { result ≡ operand_in word.now rest.now }
{
    if word == b"push".as_slice() {
        Some(Instr::Push(read_word(rest)?))
    } else if word == b"un".as_slice() {
        Some(Instr::Un(unary_named(rest)?))
    } else if word == b"bin".as_slice() {
        Some(Instr::Bin(binary_named(rest)?))
    } else if word == b"post".as_slice() {
        Some(Instr::Post(op_named(rest)?))
    } else if word == b"alloc".as_slice() {
        Some(Instr::Alloc(alloc_named(rest)?))
    } else if word == b"spawn".as_slice() {
        spawn(rest)
    } else {
        numbered(word, read_index(rest)?)
    }
}

/// An instruction of a word and a number of 32 bits.
fn numbered(word: &[u8], n: u32) -> Option<Instr>
    ensures { result ≡ numbered_in word.now n }
{
    if word == b"get".as_slice() {
        Some(Instr::Get(n))
    } else if word == b"set".as_slice() {
        Some(Instr::Set(n))
    } else if word == b"jump".as_slice() {
        Some(Instr::Jump(n))
    } else if word == b"jumpzero".as_slice() {
        Some(Instr::JumpZero(n))
    } else if word == b"call".as_slice() {
        Some(Instr::Call(n))
    } else if word == b"print".as_slice() {
        Some(Instr::Print(n))
    } else {
        None
    }
}

/// The slot for the result of a child.
fn read_target(text: &[u8]) -> Option<Option<u32>>
    ensures { result ≡ target_in text.now }
{
    if text == b"none".as_slice() {
        Some(None)
    } else {
        Some(Some(read_index(text)?))
    }
}

/// A spawn of its operands.
fn spawn(rest: &[u8]) -> Option<Instr>
    ensures { result ≡ spawn_in rest.now }
{
    let (function, rest) = cut(b' ', rest)?;
    let (target, hint) = cut(b' ', rest)?;
    Some(Instr::Spawn {
        function: read_index(function)?,
        target: read_target(target)?,
        hinted: hint == b"hinted".as_slice(),
    })
}
