//! What the words of a line may be.

ghost use Rattle.std.specs.Prelude.{◌≡◌, ◌≤◌, ◌^◌, ◌-◌, negsuc, MatchOption, Some, None};
ghost use Rattle.code_text.specs.Words.{cut, index_in, word_in, unary_in, binary_in, op_in, alloc_in};

use mem_atomics::Op;
use threadlet_code::AllocCode;
use word_ops::{BinaryOp, UnaryOp, read_count};

/// What stands before the first `byte`, and what behind it.
pub fn cut(byte: u8, bytes: &[u8]) -> Option<(&[u8], &[u8])>
    ensures { MatchOption result (cut byte bytes.now ≡ None) (λ x. cut byte bytes.now ≡ Some (x.0.now, x.1.now)) }
{
    let mut len = 0;
    while len < bytes.len() {
        if bytes[len] == byte {
            return Some((&bytes[..len], &bytes[len + 1..]));
        }
        len += 1;
    }
    None
}

/// A number of 32 bits.
pub fn read_index(text: &[u8]) -> Option<u32>
    ensures { result ≡ index_in text.now }
{
    let n = read_count(text, 0, u64::from(u32::MAX))?;
    Some(n as u32)
}

/// The word below 0 that is so far from it.
fn opposite(n: u64) -> i64
    requires some { 1 ≤ n }
    requires fits { n ≤ 2 ^ 63 }
    ensures { result ≡ negsuc (n - 1) }
{
    -1 - (n - 1) as i64
}

/// A word of 64 bits, with or without a minus.
pub fn read_word(text: &[u8]) -> Option<i64>
    ensures { result ≡ word_in text.now }
{
    if text.first() == Some(&b'-') {
        let n = read_count(&text[1..], 1, 1 << 63)?;
        Some(opposite(n))
    } else {
        let n = read_count(text, 0, 9_223_372_036_854_775_807)?;
        Some(n as i64)
    }
}

/// The operator of this name that takes one word.
pub fn unary_named(name: &[u8]) -> Option<UnaryOp>
    ensures { result ≡ unary_in name.now }
{
    if name == b"neg".as_slice() {
        Some(UnaryOp::Neg)
    } else if name == b"not".as_slice() {
        Some(UnaryOp::Not)
    } else if name == b"flip".as_slice() {
        Some(UnaryOp::Flip)
    } else {
        None
    }
}

/// The operation of this name.
pub fn op_named(name: &[u8]) -> Option<Op>
    ensures { result ≡ op_in name.now }
{
    if name == b"store".as_slice() {
        Some(Op::Store)
    } else if name == b"add".as_slice() {
        Some(Op::Add)
    } else if name == b"and".as_slice() {
        Some(Op::And)
    } else if name == b"or".as_slice() {
        Some(Op::Or)
    } else if name == b"xor".as_slice() {
        Some(Op::Xor)
    } else if name == b"min".as_slice() {
        Some(Op::Min)
    } else if name == b"max".as_slice() {
        Some(Op::Max)
    } else {
        None
    }
}

/// The allocation of this name.
pub fn alloc_named(name: &[u8]) -> Option<AllocCode>
    ensures { result ≡ alloc_in name.now }
{
    if name == b"striped".as_slice() {
        Some(AllocCode::Striped)
    } else if name == b"blocked".as_slice() {
        Some(AllocCode::Blocked)
    } else if name == b"local".as_slice() {
        Some(AllocCode::Local)
    } else if name == b"replicated".as_slice() {
        Some(AllocCode::Replicated)
    } else {
        None
    }
}

/// The operator of this name that takes two words.
pub fn binary_named(name: &[u8]) -> Option<BinaryOp>
    ensures { result ≡ binary_in name.now }
{
    if name == b"add".as_slice() {
        Some(BinaryOp::Add)
    } else if name == b"sub".as_slice() {
        Some(BinaryOp::Sub)
    } else if name == b"mul".as_slice() {
        Some(BinaryOp::Mul)
    } else if name == b"div".as_slice() {
        Some(BinaryOp::Div)
    } else if name == b"rem".as_slice() {
        Some(BinaryOp::Rem)
    } else if name == b"shl".as_slice() {
        Some(BinaryOp::Shl)
    } else if name == b"shr".as_slice() {
        Some(BinaryOp::Shr)
    } else if name == b"lt".as_slice() {
        Some(BinaryOp::Lt)
    } else if name == b"le".as_slice() {
        Some(BinaryOp::Le)
    } else if name == b"gt".as_slice() {
        Some(BinaryOp::Gt)
    } else if name == b"ge".as_slice() {
        Some(BinaryOp::Ge)
    } else if name == b"eq".as_slice() {
        Some(BinaryOp::Eq)
    } else if name == b"ne".as_slice() {
        Some(BinaryOp::Ne)
    } else if name == b"and".as_slice() {
        Some(BinaryOp::And)
    } else if name == b"xor".as_slice() {
        Some(BinaryOp::Xor)
    } else if name == b"or".as_slice() {
        Some(BinaryOp::Or)
    } else {
        None
    }
}
