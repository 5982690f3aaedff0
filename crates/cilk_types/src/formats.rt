//! Formats of `printf`.

ghost use Rattle.std.specs.Prelude.{◌≡◌, ℕ, List, ◌∷◌, IfOk};
ghost use Rattle.cilk_types.specs.Lowered.{format_in, with_parts, going_on};
ghost use Rattle.std.specs.Option.{option_map};
ghost use Rattle.word_ops.specs.Formats.{words_in};
ghost use Rattle.cilk_model.specs.Formats.{is_plain as stands_for_itself, format_of, parts_from};
ghost use Rattle.cilk_types.specs.Reading.{read_of, begun_of};

use std::alloc::{AllocError, Global};
use word_ops::{Format, List, Part};

/// What has been read of a part of a format.
#[derive(Clone, Copy)]
pub enum Begun {
    Nothing,
    Backslash,
    Percent,
    PercentL,
}

/// What a byte makes of it.
#[derive(Clone, Copy)]
pub enum Seen {
    Bad,
    Begun(Begun),
    Whole(Part),
}

fn is_plain(byte: u8) -> bool
    ensures { result ≡ stands_for_itself byte }
{
    32 <= byte && byte <= 126 && !(byte == b'\\' || byte == b'"' || byte == b'%')
}

fn read(begun: Begun, byte: u8) -> Seen
    ensures { result ≡ read_of begun byte }
{
    match begun {
        Begun::Nothing => {
            if byte == b'\\' {
                Seen::Begun(Begun::Backslash)
            } else if byte == b'%' {
                Seen::Begun(Begun::Percent)
            } else if is_plain(byte) {
                Seen::Whole(Part::Byte(byte))
            } else {
                Seen::Bad
            }
        }
        Begun::Backslash => {
            if byte == b'n' {
                Seen::Whole(Part::Byte(b'\n'))
            } else if byte == b'\\' || byte == b'"' {
                Seen::Whole(Part::Byte(byte))
            } else {
                Seen::Bad
            }
        }
        Begun::Percent => {
            if byte == b'l' {
                Seen::Begun(Begun::PercentL)
            } else if byte == b'%' {
                Seen::Whole(Part::Byte(b'%'))
            } else {
                Seen::Bad
            }
        }
        Begun::PercentL => {
            if byte == b'd' {
                Seen::Whole(Part::Long)
            } else {
                Seen::Bad
            }
        }
    }
}

/// How many words a text has as a format, if it is one.
pub fn words_of(text: &[u8]) -> Option<usize>
    ensures { result ≡ option_map words_in (format_of text.now) }
{
    let mut begun = Begun::Nothing;
    let mut words = 0;
    for byte in text {
        match read(begun, *byte) {
            Seen::Bad => return None,
            Seen::Begun(more) => begun = more,
            Seen::Whole(part) => {
                begun = Begun::Nothing;
                if let Part::Long = part {
                    words += 1;
                }
            }
        }
    }
    match begun {
        Begun::Nothing => Some(words),
        _ => None,
    }
}

/// Reads a byte into parts, and says what it leaves begun, if it can be there.
fn read_into(parts: &mut Format, begun: Begun, byte: u8) -> Result<Option<Begun>, AllocError>
    ensures { IfOk result (λ more. (rest : List ℕ) → with_parts parts.old (parts_from (begun_of begun) (byte ∷ rest)) ≡ going_on parts.new more rest) }
{
    match read(begun, byte) {
        Seen::Bad => Ok(None),
        Seen::Begun(more) => Ok(Some(more)),
        Seen::Whole(part) => {
            parts.add(part)?;
            Ok(Some(Begun::Nothing))
        }
    }
}

/// The format that a text means; none if it means none.
pub fn format(alloc: Global, text: &[u8]) -> Result<Format, AllocError>
    ensures { IfOk result (λ f. f ≡ format_in text.now) }
{
    let mut begun = Begun::Nothing;
    let mut parts = List::new(alloc);
    for byte in text {
        match read_into(&mut parts, begun, *byte)? {
            None => return Ok(List::new(alloc)),
            Some(more) => begun = more,
        }
    }
    match begun {
        Begun::Nothing => Ok(parts),
        _ => Ok(List::new(alloc)),
    }
}
