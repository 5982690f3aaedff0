//! What the lines of a code text are.

ghost use Rattle.std.specs.Prelude.{◌≡◌, ◌≤◌, IfOk, IfSome, MatchOption, Some, None};
ghost use Rattle.std.specs.List.{list_all};
ghost use Rattle.word_ops.specs.Formats.{is_printable};
ghost use Rattle.code_text.specs.Reading.{counted_in, part_at, format_like, format_in, field, header_from, header_like, header_in, placed_like, placed_in};

use crate::due::Due;
use crate::header::Header;
use crate::instrs::read_instr;
use crate::spelling::{spell_format, spell_header, spell_placed};
use crate::words::{cut, read_index};
use std::alloc::{AllocError, Global};
use threadlet_code::Instr;
use word_ops::{Format, List, Part, Pos, read_count};

/// A line of a word and a number up to `most`.
pub fn read_counted(
    alloc: Global,
    line: &[u8],
    word: &str,
    most: u64,
) -> Result<Option<u64>, AllocError>
    ensures ok { IfOk result (λ o. o ≡ counted_in word.now most line.now) }
    ensures small { IfOk result (λ o. IfSome o (λ n. n ≤ most)) }
{
    let Some((_, digits)) = cut(b' ', line) else {
        return Ok(None);
    };
    let Some(n) = read_count(digits, 0, most) else {
        return Ok(None);
    };
    let again = format!(in alloc; "{word} {n}")?;
    Ok(if again.as_bytes() == line {
        Some(n)
    } else {
        None
    })
}

/// The part that ends with `byte`, if any, and what is due behind it.
fn part_with(due: Due, byte: u8) -> (Option<Part>, Due)
    ensures { result ≡ part_at due byte }
{
    match due {
        Due::Any => match byte {
            b'\\' => (None, Due::Escaped),
            b'%' => (None, Due::Percent),
            b'"' => (None, Due::Any),
            _ => (Some(Part::Byte(byte)), Due::Any),
        },
        Due::Escaped if byte == b'n' => (Some(Part::Byte(b'\n')), Due::Any),
        Due::Escaped => (Some(Part::Byte(byte)), Due::Any),
        Due::Percent if byte == b'%' => (Some(Part::Byte(b'%')), Due::Any),
        Due::Percent => (None, Due::Word),
        Due::Word => (Some(Part::Long), Due::Any),
    }
}

/// The format that a literal may be.
fn read_parts(alloc: Global, literal: &[u8]) -> Result<Format, AllocError>
    ensures { IfOk result (λ format. format ≡ format_like literal.now) }
{
    let mut format = List::new(alloc);
    let mut due = Due::Any;
    for byte in literal {
        let (part, next) = part_with(due, *byte);
        if let Some(part) = part {
            format.add(part)?;
        }
        due = next;
    }
    Ok(format)
}

/// A literal can spell each part.
fn is_printable(format: &Format) -> bool
    ensures { result ≡ list_all is_printable format.now }
{
    for part in format.as_slice() {
        if let Part::Byte(byte) = *part {
            let printable = byte == b'\n' || (32 <= byte && byte <= 126);
            if !printable {
                return false;
            }
        }
    }
    true
}

/// The line of a format.
pub fn read_format(alloc: Global, line: &[u8]) -> Result<Option<Format>, AllocError>
    ensures { IfOk result (λ o. o ≡ format_in line.now) }
{
    let Some((_, literal)) = cut(b'"', line) else {
        return Ok(None);
    };
    let format = read_parts(alloc, literal)?;
    if !is_printable(&format) {
        return Ok(None);
    }
    let again = spell_format(alloc, &format)?;
    Ok(if again.as_slice() == line {
        Some(format)
    } else {
        None
    })
}

/// The second word, and what stands behind it.
fn field(text: &[u8]) -> Option<(&[u8], &[u8])>
    ensures { MatchOption result (field text.now ≡ None) (λ x. field text.now ≡ Some (x.0.now, x.1.now)) }
{
    let (_, rest) = cut(b' ', text)?;
    cut(b' ', rest)
}

/// What a header may be.
fn header_like(text: &[u8]) -> Option<Header>
    ensures { result ≡ header_like text.now }
{
    let (_, rest) = cut(b' ', text)?;
    let (params, rest) = field(rest)?;
    let (slots, rest) = field(rest)?;
    let (height, rest) = field(rest)?;
    let (spawns, rest) = field(rest)?;
    let (_, length) = cut(b' ', rest)?;
    Some(Header {
        params: read_index(params)?,
        slots: read_index(slots)?,
        height: read_index(height)?,
        spawns: spawns == b"1".as_slice(),
        length: read_count(length, 0, u64::MAX)?,
    })
}

/// The line that begins a function.
pub fn read_header(alloc: Global, line: &[u8]) -> Result<Option<Header>, AllocError>
    ensures { IfOk result (λ o. o ≡ header_in line.now) }
{
    let Some(header) = header_like(line) else {
        return Ok(None);
    };
    let again = spell_header(alloc, header)?;
    Ok(if again.as_slice() == line {
        Some(header)
    } else {
        None
    })
}

/// What an instruction behind its place may be.
fn placed_like(text: &[u8]) -> Option<(Pos, Instr)>
    ensures { result ≡ placed_like text.now }
{
    let (line, rest) = cut(b':', text)?;
    let (column, rest) = cut(b' ', rest)?;
    let pos = Pos {
        line: read_index(line)?,
        column: read_index(column)?,
    };
    Some((pos, read_instr(rest)?))
}

/// The line of an instruction.
pub fn read_placed(alloc: Global, line: &[u8]) -> Result<Option<(Pos, Instr)>, AllocError>
    ensures { IfOk result (λ o. o ≡ placed_in line.now) }
{
    let Some((pos, instr)) = placed_like(line) else {
        return Ok(None);
    };
    let again = spell_placed(alloc, pos, instr)?;
    Ok(if again.as_slice() == line {
        Some((pos, instr))
    } else {
        None
    })
}
