ghost use Rattle.std.specs.Prelude.{◌≡◌, ◌++◌, ◌≤◌, length, IsTrue, OnOk, OnErr};
ghost use Rattle.std.specs.Fmt.{signed_decimal};
ghost use Rattle.std.specs.Char.{is_ascii_digit};
ghost use Rattle.std.specs.List.{list_all};
ghost use Rattle.std.specs.Str.Parse.{digits_value};
ghost use Rattle.word_ops.specs.Numbers.{count_in};

use crate::list::List;
use itoa::Buffer;
use std::alloc::AllocError;

/// Appends the shortest decimal text of `x`. Want of memory changes nothing.
pub fn push_decimal(out: &mut List<u8>, x: i64) -> Result<(), AllocError>
    ensures ok { OnOk result (out.new ≡ out.old ++ signed_decimal x) }
    ensures err { OnErr result (out.new ≡ out.old) }
{
    let mut buffer = Buffer::new();
    out.extend_from_slice(buffer.format(x).as_bytes())
}

/// Each byte of `text` is an ASCII digit, as in an empty text.
pub fn all_digits(text: &[u8]) -> bool
    ensures { result ≡ list_all is_ascii_digit text.now }
{
    text.iter().all(|byte| byte.is_ascii_digit())
}

/// The number that the digits of `text` spell.
fn decimal_value(text: &[u8]) -> u128
    requires digits { IsTrue (list_all is_ascii_digit text.now) }
    requires short { length text.now ≤ 20 }
    ensures { result ≡ digits_value 10 text.now }
{
    let mut value: u128 = 0;
    for digit in text {
        value = value * 10 + u128::from(*digit - b'0');
    }
    value
}

/// The number that `text` spells in 1 to 20 ASCII digits, leading zeros allowed, where it is from
/// `least` to `most`.
pub fn read_count(text: &[u8], least: u64, most: u64) -> Option<u64>
    ensures { result ≡ count_in text.now least most }
{
    let is_count = !text.is_empty() && text.len() <= 20 && all_digits(text);
    if !is_count {
        return None;
    }
    match u64::try_from(decimal_value(text)) {
        Ok(count) if least <= count && count <= most => Some(count),
        _ => None,
    }
}
