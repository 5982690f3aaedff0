//! The lines of a code text, taken one by one.

ghost use Rattle.std.specs.Prelude.{◌≡◌, ◌≤◌, ◌<◌, ◌-◌, ◌^◌, [], ⊤, Ok, Err, IfOk, IfErr, MatchResult, codes, length};
ghost use Rattle.code_text.specs.Decoding.{IfAt, broken, found, on_line, over_in};
ghost use Rattle.code_text.specs.Reading.{said_in, counted_in, format_in, header_in, placed_in};

use crate::fault::CodeKind;
use crate::header::Header;
use crate::lines::{read_counted, read_format, read_header, read_placed};
use crate::stop::{Broken, Stop};
use crate::words::cut;
use std::alloc::{AllocError, Global};
use threadlet_code::Instr;
use word_ops::{Format, Pos};

/// The line that the bytes begin with is broken.
fn broken(kind: CodeKind, bytes: &[u8]) -> Stop
    ensures { result ≡ Stop.At (record { kind = kind; left = length bytes.now }) }
{
    Stop::At(Broken {
        kind,
        left: bytes.len(),
    })
}

/// What was found on the first line, before the rest.
fn found<'a, T>(
    kind: CodeKind,
    bytes: &[u8],
    what: Result<Option<T>, AllocError>,
    rest: &'a [u8],
) -> Result<(T, &'a [u8]), Stop>
    ensures ok { IfOk result (λ x. IfOk what (λ o. found kind bytes.now o rest.now ≡ Ok (x.0, x.1.now))) }
    ensures known { IfOk result (λ x. what ≡ Ok (Some x.0)) }
    ensures at { IfErr result (λ s. IfAt s (λ stop. IfOk what (λ o. found kind bytes.now o rest.now ≡ Err stop))) }
    ensures refused { IfErr result (λ s. IfAt s (λ stop. what ≡ Ok None)) }
{
    match what {
        Ok(Some(item)) => Ok((item, rest)),
        Ok(None) => Err(broken(kind, bytes)),
        Err(_) => Err(Stop::OutOfMemory),
    }
}

/// A line that says these words.
pub fn take_said<'a>(kind: CodeKind, words: &[u8], bytes: &'a [u8]) -> Result<&'a [u8], Stop>
    ensures ok { IfOk result (λ rest. on_line kind (said_in words.now) bytes.now ≡ Ok (tt, rest.now)) }
    ensures at { IfErr result (λ s. IfAt s (λ stop. on_line kind (said_in words.now) bytes.now ≡ Err stop)) }
{
    match cut(b'\n', bytes) {
        Some((line, rest)) if words == line => Ok(rest),
        _ => Err(broken(kind, bytes)),
    }
}

/// A line of a word and a number up to `most`.
pub fn take_counted<'a>(
    alloc: Global,
    word: &str,
    most: u64,
    bytes: &'a [u8],
) -> Result<(u64, &'a [u8]), Stop>
    ensures ok { IfOk result (λ x. on_line CodeKind.BadCount (counted_in word.now most) bytes.now ≡ Ok (x.0, x.1.now)) }
    ensures small { IfOk result (λ x. x.0 ≤ most) }
    ensures at { IfErr result (λ s. IfAt s (λ stop. on_line CodeKind.BadCount (counted_in word.now most) bytes.now ≡ Err stop)) }
{
    match cut(b'\n', bytes) {
        None => Err(broken(CodeKind::BadCount, bytes)),
        Some((line, rest)) => {
            let what = read_counted(alloc, line, word, most);
            found(CodeKind::BadCount, bytes, what, rest)
        }
    }
}

/// A line of a format.
pub fn take_format(alloc: Global, bytes: &[u8]) -> Result<(Format, &[u8]), Stop>
    ensures ok { IfOk result (λ x. on_line CodeKind.BadText format_in bytes.now ≡ Ok (x.0, x.1.now)) }
    ensures at { IfErr result (λ s. IfAt s (λ stop. on_line CodeKind.BadText format_in bytes.now ≡ Err stop)) }
{
    match cut(b'\n', bytes) {
        None => Err(broken(CodeKind::BadText, bytes)),
        Some((line, rest)) => {
            let what = read_format(alloc, line);
            found(CodeKind::BadText, bytes, what, rest)
        }
    }
}

/// A line that begins a function.
pub fn take_header(alloc: Global, bytes: &[u8]) -> Result<(Header, &[u8]), Stop>
    ensures ok { IfOk result (λ x. on_line CodeKind.BadHeader header_in bytes.now ≡ Ok (x.0, x.1.now)) }
    ensures at { IfErr result (λ s. IfAt s (λ stop. on_line CodeKind.BadHeader header_in bytes.now ≡ Err stop)) }
{
    match cut(b'\n', bytes) {
        None => Err(broken(CodeKind::BadHeader, bytes)),
        Some((line, rest)) => {
            let what = read_header(alloc, line);
            found(CodeKind::BadHeader, bytes, what, rest)
        }
    }
}

/// A line of an instruction.
pub fn take_placed(alloc: Global, bytes: &[u8]) -> Result<((Pos, Instr), &[u8]), Stop>
    ensures ok { IfOk result (λ x. on_line CodeKind.BadInstr placed_in bytes.now ≡ Ok (x.0, x.1.now)) }
    ensures at { IfErr result (λ s. IfAt s (λ stop. on_line CodeKind.BadInstr placed_in bytes.now ≡ Err stop)) }
{
    match cut(b'\n', bytes) {
        None => Err(broken(CodeKind::BadInstr, bytes)),
        Some((line, rest)) => {
            let what = read_placed(alloc, line);
            found(CodeKind::BadInstr, bytes, what, rest)
        }
    }
}

/// Nothing stands there.
pub fn take_nothing(bytes: &[u8]) -> Result<(), Stop>
    ensures ok { IfOk result (λ _. over_in bytes.now ≡ Ok (tt, [])) }
    ensures at { IfErr result (λ s. IfAt s (λ stop. over_in bytes.now ≡ Err stop)) }
{
    if bytes.is_empty() {
        Ok(())
    } else {
        Err(broken(CodeKind::BadEnd, bytes))
    }
}
