//! The text that a print writes.

ghost use Rattle.std.specs.Prelude.{◌≡◌, ◌≤◌, ◌+◌, ◌∷◌, [], ◌++◌, IfOk, OnOk, length, drop};
ghost use Rattle.word_ops.specs.Formats.{words_in, printed};

use std::alloc::{AllocError, Global};
use word_ops::{Format, List, Part, push_decimal};

/// The bytes that a format prints of words, one for each `%ld` (docs/language.md, "Meaning").
pub fn format(alloc: Global, f: &Format, words: &List<i64>) -> Result<List<u8>, AllocError>
    requires words { words_in f.now ≡ length words.now }
    ensures { IfOk result (λ piece. piece ≡ printed f.now words.now) }
{
    let mut piece = List::new(alloc);
    let all = words.as_slice();
    let mut next = 0;
    for part in f.as_slice() {
        next = push_part(&mut piece, part, all, next)?;
    }
    Ok(piece)
}

/// Appends what one part of a format prints, where word `next` is the first one left, and says which is then.
fn push_part(
    piece: &mut List<u8>,
    part: &Part,
    words: &[i64],
    next: usize,
) -> Result<usize, AllocError>
    requires words { next + words_in (part.now ∷ []) ≤ length words.now }
    ensures next { IfOk result (λ left. left ≡ next + words_in (part.now ∷ [])) }
    ensures piece { OnOk result (piece.new ≡ piece.old ++ printed (part.now ∷ []) (drop next words.now)) }
{
    match part {
        Part::Byte(byte) => {
            piece.add(*byte)?;
            Ok(next)
        }
        Part::Long => {
            push_decimal(piece, words[next])?;
            Ok(next + 1)
        }
    }
}
