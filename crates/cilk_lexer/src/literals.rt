//! Literals and their values (docs/language.md, "Tokens").

ghost use Rattle.std.specs.Prelude.{◌≡◌, ◌<◌, ◌≤◌, ◌^◌, ◌-◌, length, drop, take, IsTrue, Some, None, IfSome};
ghost use Rattle.std.specs.Char.{is_ascii_hexdigit, digit_value as value_of_digit};
ghost use Rattle.std.specs.List.{list_all};
ghost use Rattle.std.specs.Str.Parse.{digits_value};
ghost use Rattle.cilk_model.specs.Words.{literal_piece};
ghost use Rattle.cilk_model.specs.Literals.{number_part as part_of_number, is_decimal as is_decimal_number, is_hexadecimal as is_hexadecimal_number, within_literals, literal_value as value_of, max_literal};

use cilk_ast::{FaultKind, TokenKind};
use cilk_model::Piece;
use word_ops::all_digits;

/// The greatest value of a literal.
const MAX: u64 = 9_223_372_036_854_775_807;

/// A run without the one `L` or `l` at its end.
fn number_part(run: &[u8]) -> &[u8]
    ensures { result.now ≡ part_of_number run.now }
{
    match run {
        [number @ .., b'L' | b'l'] => number,
        _ => run,
    }
}

/// Each byte is a hexadecimal digit.
fn all_hexadecimal(bytes: &[u8]) -> bool
    ensures { result ≡ list_all is_ascii_hexdigit bytes.now }
{
    bytes.iter().all(|byte| byte.is_ascii_hexdigit())
}

/// `0`, or digits of which the first is from 1 to 9.
fn is_decimal(number: &[u8]) -> bool
    ensures { result ≡ is_decimal_number number.now }
{
    match number {
        [b'0'] => true,
        [b'1'..=b'9', ..] => all_digits(number),
        _ => false,
    }
}

/// `0x` or `0X`, and hexadecimal digits behind it.
#[tactic(auto, using(std::proofs::lemmas::List::take_rest))]
fn is_hexadecimal(number: &[u8]) -> bool
    ensures { result ≡ is_hexadecimal_number number.now }
{
    match number {
        [b'0', b'x' | b'X', digits @ ..] => !digits.is_empty() && all_hexadecimal(digits),
        _ => false,
    }
}

/// What a letter or digit counts for; 36 for other bytes.
fn digit_value(byte: u8) -> u8
    ensures value { result ≡ value_of_digit byte }
    ensures small { result ≤ 36 }
{
    match byte {
        b'0'..=b'9' => byte - b'0',
        b'A'..=b'Z' => byte - b'A' + 10,
        b'a'..=b'z' => byte - b'a' + 10,
        _ => 36,
    }
}

/// The number that the digits write, where a literal can have it.
fn number(radix: u128, digits: &[u8]) -> Option<u64>
    requires { (1 ≤ radix) × (radix ≤ 16) }
    ensures value { result ≡ within_literals (digits_value radix digits.now) }
    ensures small { IfSome result (λ value. value ≤ max_literal) }
{
    let mut value: u128 = 0;
    for digit in digits {
        value = value * radix + u128::from(digit_value(*digit));
        if value > u128::from(MAX) {
            return None;
        }
    }
    Some(value as u64)
}

/// The value of a run that is a literal, at most 2^63 - 1 (docs/language.md, "Tokens"). None exactly where
/// the run is no literal.
pub fn literal_value(run: &[u8]) -> Option<u64>
    ensures value { result ≡ value_of run.now }
    ensures small { IfSome result (λ value. value ≤ max_literal) }
{
    let part = number_part(run);
    if is_hexadecimal(part) {
        number(16, &part[2..])
    } else if is_decimal(part) {
        number(10, part)
    } else {
        None
    }
}

/// What a run that begins with a digit is.
pub(crate) fn literal(run: &[u8]) -> Piece
    ensures { result ≡ literal_piece run.now }
{
    match literal_value(run) {
        Some(_) => Piece::Found(TokenKind::Literal, run.len()),
        None => Piece::Bad(FaultKind::BadLiteral, 0),
    }
}
