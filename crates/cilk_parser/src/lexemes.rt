//! What a token of a text says (docs/language.md, "Tokens").

ghost use Rattle.std.specs.Prelude.{◌≡◌, ◌-◌, drop, take, pos, unwrap_or, MatchOption, Some, None};
ghost use Rattle.cilk_model.specs.Lexemes.{lexeme_of, spelling_of, between_quotes as quoted_part};
ghost use Rattle.cilk_model.specs.Literals.{literal_value as value_of_literal};
ghost use Rattle.cilk_model.specs.Tests.{is_name as names, is_finish as finishes};
ghost use Rattle.cilk_parser.specs.Kinds.{a_name, a_literal, a_text};
ghost use Rattle.cilk_parser.specs.Spelled.{is_marked, is_worded, mark_bytes, word_bytes};

use cilk_ast::{Token, TokenKind};
use cilk_lexer::literal_value;

/// All but the first `n` bytes.
fn without(bytes: &[u8], n: usize) -> &[u8]
    ensures { result.now ≡ drop n bytes.now }
{
    if n < bytes.len() {
        &bytes[n..]
    } else {
        &bytes[bytes.len()..]
    }
}

/// The first `n` bytes, or all if there are fewer.
fn first(bytes: &[u8], n: usize) -> &[u8]
    ensures { result.now ≡ take n bytes.now }
{
    if n < bytes.len() { &bytes[..n] } else { bytes }
}

/// The bytes of a token.
fn spelling(text: &[u8], token: Token) -> &[u8]
    ensures { result.now ≡ spelling_of text.now token }
{
    let length = token.stop.saturating_sub(token.start);
    first(without(text, token.start), length)
}

/// What stands between the quotes of a text literal.
fn between_quotes(spelling: &[u8]) -> &[u8]
    ensures { result.now ≡ quoted_part spelling.now }
{
    first(without(spelling, 1), spelling.len().saturating_sub(2))
}

/// The value of a literal; 0 for other bytes.
fn value(spelling: &[u8]) -> i64
    ensures { result ≡ pos (unwrap_or (value_of_literal spelling.now) 0) }
{
    match literal_value(spelling) {
        Some(value) => value as i64,
        None => 0,
    }
}

/// The bytes of a token that is a mark.
pub fn mark_of(text: &[u8], token: Token) -> Option<&[u8]>
    ensures { MatchOption result (mark_bytes (lexeme_of text.now token) ≡ None) (λ bytes. mark_bytes (lexeme_of text.now token) ≡ Some bytes.now) }
{
    match token.kind {
        TokenKind::Mark => Some(spelling(text, token)),
        _ => None,
    }
}

/// The bytes of a token that is a word.
pub fn word_of(text: &[u8], token: Token) -> Option<&[u8]>
    ensures { MatchOption result (word_bytes (lexeme_of text.now token) ≡ None) (λ bytes. word_bytes (lexeme_of text.now token) ≡ Some bytes.now) }
{
    match token.kind {
        TokenKind::Word => Some(spelling(text, token)),
        _ => None,
    }
}

/// The token is this mark.
pub fn is_mark(text: &[u8], token: Token, spelled: &[u8]) -> bool
    ensures { result ≡ is_marked spelled.now (lexeme_of text.now token) }
{
    match token.kind {
        TokenKind::Mark => spelling(text, token) == spelled,
        _ => false,
    }
}

/// The token is this word.
pub fn is_word(text: &[u8], token: Token, spelled: &[u8]) -> bool
    ensures { result ≡ is_worded spelled.now (lexeme_of text.now token) }
{
    match token.kind {
        TokenKind::Word => spelling(text, token) == spelled,
        _ => false,
    }
}

/// The token is a name.
pub fn is_name(text: &[u8], token: Token) -> bool
    ensures { result ≡ names (lexeme_of text.now token) }
{
    let _text = text;
    match token.kind {
        TokenKind::Name => true,
        _ => false,
    }
}

/// The token is the end of the text.
pub fn is_finish(text: &[u8], token: Token) -> bool
    ensures { result ≡ finishes (lexeme_of text.now token) }
{
    let _text = text;
    match token.kind {
        TokenKind::Finish => true,
        _ => false,
    }
}

/// The bytes of a name.
pub fn name_of(text: &[u8], token: Token) -> Option<&[u8]>
    ensures { MatchOption result (a_name (lexeme_of text.now token) ≡ None) (λ bytes. a_name (lexeme_of text.now token) ≡ Some (token.pos, bytes.now)) }
{
    match token.kind {
        TokenKind::Name => Some(spelling(text, token)),
        _ => None,
    }
}

/// The bytes between the quotes of a text literal.
pub fn text_of(text: &[u8], token: Token) -> Option<&[u8]>
    ensures { MatchOption result (a_text (lexeme_of text.now token) ≡ None) (λ bytes. a_text (lexeme_of text.now token) ≡ Some (token.pos, bytes.now)) }
{
    match token.kind {
        TokenKind::Text => Some(between_quotes(spelling(text, token))),
        _ => None,
    }
}

/// The value of a literal.
pub fn literal_of(text: &[u8], token: Token) -> Option<i64>
    ensures { MatchOption result (a_literal (lexeme_of text.now token) ≡ None) (λ value. a_literal (lexeme_of text.now token) ≡ Some (token.pos, value)) }
{
    match token.kind {
        TokenKind::Literal => Some(value(spelling(text, token))),
        _ => None,
    }
}
