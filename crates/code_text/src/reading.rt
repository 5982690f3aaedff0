ghost use Rattle.std.specs.Prelude.{◌≡◌, [], Ok, Err, IfOk, IfErr, length, take, ◌<◌, ◌^◌, ◌+◌, ◌-◌};
ghost use Rattle.threadlet_code.specs.Verdict.{IsShort};
ghost use Rattle.code_text.specs.Codes.{IfFault, IsTextOf, IsNoText, IsWithin};
ghost use Rattle.code_text.specs.Decoding.{IfAt, many_in, pushed, with_line, made_of, one_format, one_placed, one_function, front_in, back_in, all_in, newlines, code_in};

use crate::fault::{CodeFault, CodeKind, CodeRefusal};
use crate::header::Header;
use crate::stop::Stop;
use crate::taking::{take_counted, take_format, take_header, take_nothing, take_placed, take_said};
use std::alloc::Global;
use threadlet_code::{Code, FuncCode};
use word_ops::{Format, List};

/// The code that the bytes are (docs/outputs.md, "Code text"), or the first line that is broken.
pub fn read(alloc: Global, bytes: &[u8]) -> Result<Code, CodeRefusal>
    ensures code { IfOk result (λ code. IsTextOf code bytes.now) }
    ensures within { IfOk result (λ code. IsWithin (length bytes.now) code) }
    ensures short { length bytes.now < 2 ^ 32 → IfOk result IsShort }
    ensures fault { IfErr result (λ r. IfFault r (λ f. code_in bytes.now ≡ Err f)) }
    ensures none { IfErr result (λ r. IfFault r (λ _. IsNoText bytes.now)) }
{
    read_code(alloc, bytes)
}

/// So many formats, each on a line of its own.
fn read_formats(alloc: Global, count: u64, bytes: &[u8]) -> Result<(List<Format>, &[u8]), Stop>
    ensures ok { IfOk result (λ x. many_in one_format pushed [] count bytes.now ≡ Ok (x.0, x.1.now)) }
    ensures at { IfErr result (λ s. IfAt s (λ stop. many_in one_format pushed [] count bytes.now ≡ Err stop)) }
{
    let mut formats = List::new(alloc);
    let mut rest = bytes;
    for _ in 0..count {
        let (format, behind) = take_format(alloc, rest)?;
        let Ok(()) = formats.add(format) else {
            return Err(Stop::OutOfMemory);
        };
        rest = behind;
    }
    Ok((formats, rest))
}

/// The function of a header, whose instructions stand each on a line of its own.
fn read_body(alloc: Global, header: Header, bytes: &[u8]) -> Result<(FuncCode, &[u8]), Stop>
    ensures ok { IfOk result (λ x. many_in one_placed with_line (made_of header [] []) header.length bytes.now ≡ Ok (x.0, x.1.now)) }
    ensures at { IfErr result (λ s. IfAt s (λ stop. many_in one_placed with_line (made_of header [] []) header.length bytes.now ≡ Err stop)) }
{
    let mut places = List::new(alloc);
    let mut body = List::new(alloc);
    let mut rest = bytes;
    for _ in 0..header.length {
        let ((pos, instr), behind) = take_placed(alloc, rest)?;
        let Ok(()) = places.add(pos) else {
            return Err(Stop::OutOfMemory);
        };
        let Ok(()) = body.add(instr) else {
            return Err(Stop::OutOfMemory);
        };
        rest = behind;
    }
    let function = FuncCode {
        params: header.params,
        slots: header.slots,
        height: header.height,
        spawns: header.spawns,
        body,
        places,
    };
    Ok((function, rest))
}

/// A function.
fn read_function(alloc: Global, bytes: &[u8]) -> Result<(FuncCode, &[u8]), Stop>
    ensures ok { IfOk result (λ x. one_function bytes.now ≡ Ok (x.0, x.1.now)) }
    ensures at { IfErr result (λ s. IfAt s (λ stop. one_function bytes.now ≡ Err stop)) }
{
    let (header, rest) = take_header(alloc, bytes)?;
    read_body(alloc, header, rest)
}

/// So many functions.
fn read_functions(alloc: Global, count: u64, bytes: &[u8]) -> Result<(List<FuncCode>, &[u8]), Stop>
    ensures ok { IfOk result (λ x. many_in one_function pushed [] count bytes.now ≡ Ok (x.0, x.1.now)) }
    ensures at { IfErr result (λ s. IfAt s (λ stop. many_in one_function pushed [] count bytes.now ≡ Err stop)) }
{
    let mut functions = List::new(alloc);
    let mut rest = bytes;
    for _ in 0..count {
        let (function, behind) = read_function(alloc, rest)?;
        let Ok(()) = functions.add(function) else {
            return Err(Stop::OutOfMemory);
        };
        rest = behind;
    }
    Ok((functions, rest))
}

/// How many globals there are of either kind, and the formats.
fn read_front(alloc: Global, bytes: &[u8]) -> Result<((u32, (u32, List<Format>)), &[u8]), Stop>
    ensures ok { IfOk result (λ x. front_in bytes.now ≡ Ok (x.0, x.1.now)) }
    ensures at { IfErr result (λ s. IfAt s (λ stop. front_in bytes.now ≡ Err stop)) }
{
    let rest = take_said(CodeKind::BadHead, b"emu-code 1", bytes)?;
    let (globals, rest) = take_counted(alloc, "globals", u64::from(u32::MAX), rest)?;
    let (replicated, rest) = take_counted(alloc, "replicated", u64::from(u32::MAX), rest)?;
    let (count, rest) = take_counted(alloc, "formats", u64::MAX, rest)?;
    let (formats, rest) = read_formats(alloc, count, rest)?;
    Ok(((globals as u32, (replicated as u32, formats)), rest))
}

/// Which function is main, and the functions.
fn read_back(alloc: Global, bytes: &[u8]) -> Result<((u32, List<FuncCode>), &[u8]), Stop>
    ensures ok { IfOk result (λ x. back_in bytes.now ≡ Ok (x.0, x.1.now)) }
    ensures at { IfErr result (λ s. IfAt s (λ stop. back_in bytes.now ≡ Err stop)) }
{
    let (count, rest) = take_counted(alloc, "functions", u64::MAX, bytes)?;
    let (main, rest) = take_counted(alloc, "main", u64::from(u32::MAX), rest)?;
    let (functions, rest) = read_functions(alloc, count, rest)?;
    Ok(((main as u32, functions), rest))
}

/// The whole code, and nothing behind it.
fn read_all(alloc: Global, bytes: &[u8]) -> Result<Code, Stop>
    ensures ok { IfOk result (λ code. all_in bytes.now ≡ Ok (code, [])) }
    ensures at { IfErr result (λ s. IfAt s (λ stop. all_in bytes.now ≡ Err stop)) }
{
    let ((globals, (replicated, formats)), rest) = read_front(alloc, bytes)?;
    let ((main, functions), rest) = read_back(alloc, rest)?;
    let rest = take_said(CodeKind::BadEnd, b"end", rest)?;
    take_nothing(rest)?;
    Ok(Code {
        functions,
        main,
        formats,
        globals,
        replicated,
    })
}

/// The line at which so many bytes are left, counted from 1 by the newlines before it.
fn line_at(bytes: &[u8], left: usize) -> u64
    ensures { result ≡ 1 + newlines (take (length bytes.now - left) bytes.now) }
{
    let (before, _) = bytes.split_at(bytes.len() - left.min(bytes.len()));
    let mut line = 1;
    for byte in before {
        if *byte == b'\n' {
            line += 1;
        }
    }
    line
}

/// The code that the bytes are, or the first line that is broken.
fn read_code(alloc: Global, bytes: &[u8]) -> Result<Code, CodeRefusal>
    ensures ok { IfOk result (λ code. code_in bytes.now ≡ Ok code) }
    ensures fault { IfErr result (λ r. IfFault r (λ f. code_in bytes.now ≡ Err f)) }
{
    match read_all(alloc, bytes) {
        Ok(code) => Ok(code),
        Err(Stop::OutOfMemory) => Err(CodeRefusal::OutOfMemory),
        Err(Stop::At(broken)) => {
            let line = line_at(bytes, broken.left);
            let kind = broken.kind;
            Err(CodeRefusal::Fault(CodeFault { line, kind }))
        }
    }
}
