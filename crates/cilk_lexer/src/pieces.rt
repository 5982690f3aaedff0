//! What stands at the front of a text (docs/language.md, "Tokens").

ghost use Rattle.std.specs.Prelude.{◌≡◌, ◌<◌, ◌≤◌, length, get_or, drop, true, false, option_map, IfSome};
ghost use Rattle.cilk_model.specs.Pieces.{is_directive as directive_leads, comment_end as end_of_comment, comment_piece, text_piece, is_double_mark as are_double_mark, is_single_mark as single_mark, mark_piece, token_piece, piece_at};

use crate::bytes::{behind_spaces, is_blank, is_run_byte, is_text_byte, line_length, run_of};
use crate::literals::literal;
use crate::words::word;
use cilk_ast::{FaultKind, TokenKind};
use cilk_model::Piece;

/// `#`, with `include` or `pragma` behind it as a whole run.
fn is_directive(rest: &[u8]) -> bool
    ensures { result ≡ directive_leads rest.now }
{
    if !rest.starts_with(b"#") {
        return false;
    }
    let run = run_of(behind_spaces(&rest[1..]));
    run == b"include".as_slice() || run == b"pragma".as_slice()
}

/// How many bytes there are up to the first `*/` and with it.
fn comment_end(rest: &[u8]) -> Option<usize>
    ensures value { result ≡ end_of_comment rest.now }
    ensures within { IfSome result (λ n. n ≤ length rest.now) }
{
    for i in 0..rest.len() {
        if rest[i..].starts_with(b"*/") {
            return Some(i + 2);
        }
    }
    None
}

/// What begins with `/*`.
fn comment(rest: &[u8]) -> Piece
    requires { 2 ≤ length rest.now }
    ensures { result ≡ comment_piece (end_of_comment (drop 2 rest.now)) }
{
    match comment_end(&rest[2..]) {
        Some(n) => Piece::Skipped(n + 2),
        None => Piece::Bad(FaultKind::OpenComment, 0),
    }
}

/// What begins with a quote.
fn text(rest: &[u8]) -> Piece
    requires { 1 ≤ length rest.now }
    ensures { result ≡ text_piece false 1 (drop 1 rest.now) }
{
    let mut taken = false;
    for i in 1..rest.len() {
        let byte = rest[i];
        if byte == b'\n' {
            return Piece::Bad(FaultKind::OpenText, 0);
        }
        if !is_text_byte(byte) {
            return Piece::Bad(FaultKind::BadByte, i);
        }
        if byte == b'"' && !taken {
            return Piece::Found(TokenKind::Text, i + 1);
        }
        taken = byte == b'\\' && !taken;
    }
    Piece::Bad(FaultKind::OpenText, 0)
}

/// A mark of two bytes.
fn is_double_mark(first: u8, second: u8) -> bool
    ensures { result ≡ are_double_mark first second }
{
    (first == second && b"<>=&|+-".contains(&first)) || (second == b'=' && b"<>!+".contains(&first))
}

/// A mark of one byte.
fn is_single_mark(byte: u8) -> bool
    ensures { result ≡ single_mark byte }
{
    b"+-*/%<>=!~&^|()[]{},;".contains(&byte)
}

/// The longest mark, or a byte that begins nothing.
fn mark(rest: &[u8]) -> Piece
    requires { 0 < length rest.now }
    ensures { result ≡ mark_piece rest.now }
{
    if rest.len() > 1 && is_double_mark(rest[0], rest[1]) {
        Piece::Found(TokenKind::Mark, 2)
    } else if is_single_mark(rest[0]) {
        Piece::Found(TokenKind::Mark, 1)
    } else {
        Piece::Bad(FaultKind::BadByte, 0)
    }
}

/// The token at the front.
fn token(rest: &[u8]) -> Piece
    requires { 0 < length rest.now }
    ensures { result ≡ token_piece rest.now }
{
    let first = rest[0];
    if first == b'"' {
        text(rest)
    } else if first.is_ascii_digit() {
        literal(run_of(rest))
    } else if is_run_byte(first) {
        word(run_of(rest))
    } else {
        mark(rest)
    }
}

/// What stands at the front of `rest`; `fresh` says that only spaces and tabs stand before it in its
/// line.
pub fn front(fresh: bool, rest: &[u8]) -> Piece
    requires { 0 < length rest.now }
    ensures { result ≡ piece_at fresh rest.now }
{
    if is_blank(rest[0]) {
        Piece::Skipped(1)
    } else if (fresh && is_directive(rest)) || rest.starts_with(b"//") {
        Piece::Skipped(line_length(rest))
    } else if rest.starts_with(b"/*") {
        comment(rest)
    } else {
        token(rest)
    }
}
