//! What the lines of a code text say.

ghost use Rattle.std.specs.Prelude.{◌≡◌, ◌++◌, OnOk, IfOk};
ghost use Rattle.std.specs.Fmt.{decimal};
ghost use Rattle.code_text.specs.Lines.{part_text, format_text, header_text, instr_text, placed_text};

use crate::header::Header;
use crate::names::{name_of_alloc, name_of_binary, name_of_flag, name_of_op, name_of_unary};
use std::alloc::{AllocError, Global};
use threadlet_code::Instr;
use word_ops::{Format, List, Part, Pos};

/// Appends how a part of a format is written.
fn push_part(out: &mut List<u8>, part: Part) -> Result<(), AllocError>
    ensures { OnOk result (out.new ≡ out.old ++ part_text part) }
{
    match part {
        Part::Byte(b'\n') => out.extend_from_slice(b"\\n"),
        Part::Byte(b'\\') => out.extend_from_slice(b"\\\\"),
        Part::Byte(b'"') => out.extend_from_slice(b"\\\""),
        Part::Byte(b'%') => out.extend_from_slice(b"%%"),
        Part::Byte(byte) => out.add(byte),
        Part::Long => out.extend_from_slice(b"%ld"),
    }
}

/// What the line of a format says.
pub fn spell_format(alloc: Global, format: &Format) -> Result<List<u8>, AllocError>
    ensures { IfOk result (λ text. text ≡ format_text format.now) }
{
    let mut text = List::new(alloc);
    text.extend_from_slice(b"format \"")?;
    for part in format.as_slice() {
        push_part(&mut text, *part)?;
    }
    text.add(b'"')?;
    Ok(text)
}

/// Appends a text and a number.
fn push_number(alloc: Global, out: &mut List<u8>, text: &str, n: u64) -> Result<(), AllocError>
    ensures { OnOk result (out.new ≡ out.old ++ text.now ++ decimal n) }
{
    out.extend_from_slice(text.as_bytes())?;
    let digits = format!(in alloc; "{n}")?;
    out.extend_from_slice(digits.as_bytes())
}

/// What the line that begins a function says.
pub fn spell_header(alloc: Global, header: Header) -> Result<List<u8>, AllocError>
    ensures { IfOk result (λ text. text ≡ header_text header) }
{
    let mut text = List::new(alloc);
    push_number(
        alloc,
        &mut text,
        "function params ",
        u64::from(header.params),
    )?;
    push_number(alloc, &mut text, " slots ", u64::from(header.slots))?;
    push_number(alloc, &mut text, " height ", u64::from(header.height))?;
    text.extend_from_slice(b" spawns ")?;
    text.extend_from_slice(name_of_flag(header.spawns).as_bytes())?;
    push_number(alloc, &mut text, " length ", header.length)?;
    Ok(text)
}

/// Appends an instruction.
fn push_instr(alloc: Global, out: &mut List<u8>, instr: Instr) -> Result<(), AllocError>
    ensures { OnOk result (out.new ≡ out.old ++ instr_text instr) }
{
    let text = match instr {
        Instr::Push(word) => format!(in alloc; "push {word}")?,
        Instr::Get(slot) => format!(in alloc; "get {slot}")?,
        Instr::Set(slot) => format!(in alloc; "set {slot}")?,
        Instr::Un(op) => format!(in alloc; "un {}", name_of_unary(op))?,
        Instr::Bin(op) => format!(in alloc; "bin {}", name_of_binary(op))?,
        Instr::Jump(to) => format!(in alloc; "jump {to}")?,
        Instr::JumpZero(to) => format!(in alloc; "jumpzero {to}")?,
        Instr::Call(function) => format!(in alloc; "call {function}")?,
        Instr::Post(op) => format!(in alloc; "post {}", name_of_op(op))?,
        Instr::Print(format) => format!(in alloc; "print {format}")?,
        Instr::Alloc(code) => format!(in alloc; "alloc {}", name_of_alloc(code))?,
        Instr::Spawn {
            function,
            target,
            hinted,
        } => return push_spawn(alloc, out, function, target, hinted),
        Instr::Pop => return out.extend_from_slice(b"pop"),
        Instr::Dup => return out.extend_from_slice(b"dup"),
        Instr::Return => return out.extend_from_slice(b"return"),
        Instr::Turn => return out.extend_from_slice(b"turn"),
        Instr::Load => return out.extend_from_slice(b"load"),
        Instr::FetchAdd => return out.extend_from_slice(b"fetchadd"),
        Instr::FetchSwap => return out.extend_from_slice(b"fetchswap"),
        Instr::FetchCas => return out.extend_from_slice(b"fetchcas"),
        Instr::Init => return out.extend_from_slice(b"init"),
        Instr::Fence => return out.extend_from_slice(b"fence"),
        Instr::Move => return out.extend_from_slice(b"move"),
        Instr::Where => return out.extend_from_slice(b"where"),
        Instr::Sync => return out.extend_from_slice(b"sync"),
    };
    out.extend_from_slice(text.as_bytes())
}

/// Appends the instruction that spawns a child.
fn push_spawn(
    alloc: Global,
    out: &mut List<u8>,
    function: u32,
    target: Option<u32>,
    hinted: bool,
) -> Result<(), AllocError>
    ensures { OnOk result (out.new ≡ out.old ++ instr_text (Instr.Spawn function target hinted)) }
{
    let hint = if hinted { "hinted" } else { "plain" };
    let text = match target {
        None => format!(in alloc; "spawn {function} none {hint}")?,
        Some(slot) => format!(in alloc; "spawn {function} {slot} {hint}")?,
    };
    out.extend_from_slice(text.as_bytes())
}

/// What the line of an instruction says.
pub fn spell_placed(alloc: Global, pos: Pos, instr: Instr) -> Result<List<u8>, AllocError>
    ensures { IfOk result (λ text. text ≡ placed_text pos instr) }
{
    let mut text = List::new(alloc);
    let place = format!(in alloc; "{}:{} ", pos.line, pos.column)?;
    text.extend_from_slice(place.as_bytes())?;
    push_instr(alloc, &mut text, instr)?;
    Ok(text)
}
