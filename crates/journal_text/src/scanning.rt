ghost use Rattle.std.specs.Prelude.{◌≡◌, ◌≤◌, length, MatchOption, Some, None};
ghost use Rattle.std.specs.Char.{is_ascii_digit};
ghost use Rattle.std.specs.List.{prefix_len};
ghost use Rattle.journal_text.specs.Reading.{behind, number_in, count_in_line, name_in, child_in, act_in, apply_in, step_in};

use itoa::Buffer;
use word_ops::{Name, Step, read_count};

/// What stands behind `word`, where the bytes begin with it.
pub fn behind<'a>(bytes: &'a [u8], word: &[u8]) -> Option<&'a [u8]>
    ensures { MatchOption result (behind word.now bytes.entry.now ≡ None) (λ rest. behind word.now bytes.entry.now ≡ Some rest.now) }
{
    bytes.strip_prefix(word)
}

/// How many digits the bytes begin with.
fn digits_len(bytes: &[u8]) -> usize
    ensures { result ≡ prefix_len is_ascii_digit bytes.now }
{
    let mut len = 0;
    while len < bytes.len() && bytes[len].is_ascii_digit() {
        len += 1;
    }
    len
}

/// The number from `least` to `most` that the bytes begin with, and what stands behind it.
pub fn number_first(bytes: &[u8], least: u64, most: u64) -> Option<(u64, &[u8])>
    ensures { MatchOption result (number_in least most bytes.now ≡ None) (λ x. number_in least most bytes.now ≡ Some (x.0, x.1.now)) }
{
    let (digits, rest) = bytes.split_at(digits_len(bytes));
    let n = read_count(digits, least, most)?;
    let mut buffer = Buffer::new();
    if buffer.format(n).as_bytes() == digits {
        Some((n, rest))
    } else {
        None
    }
}

/// The number of the line that the bytes begin with, and what stands behind the line.
pub fn count_line<'a>(
    bytes: &'a [u8],
    word: &[u8],
    least: u64,
    most: u64,
) -> Option<(u64, &'a [u8])>
    ensures { MatchOption result (count_in_line word.now least most bytes.entry.now ≡ None) (λ x. count_in_line word.now least most bytes.entry.now ≡ Some (x.0, x.1.now)) }
{
    let (n, rest) = number_first(behind(bytes, word)?, least, most)?;
    Some((n, behind(rest, b"\n")?))
}

/// The name that the bytes begin with, and what stands behind it.
pub fn name_first(bytes: &[u8]) -> Option<(Name, &[u8])>
    ensures { MatchOption result (name_in bytes.now ≡ None) (λ x. name_in bytes.now ≡ Some (x.0, x.1.now)) }
{
    let (nodelet, rest) = number_first(bytes, 0, u64::from(u32::MAX))?;
    let (number, rest) = number_first(behind(rest, b".")?, 0, u64::MAX)?;
    let name = Name {
        nodelet: nodelet as u32,
        number,
    };
    Some((name, rest))
}

/// The child that the line of an action ends with, if any, and what stands behind the line.
fn child_first(bytes: &[u8]) -> Option<(Option<Name>, &[u8])>
    ensures { MatchOption result (child_in bytes.now ≡ None) (λ x. child_in bytes.now ≡ Some (x.0, x.1.now)) }
{
    if let Some(rest) = behind(bytes, b"\n") {
        return Some((None, rest));
    }
    let (child, rest) = name_first(behind(bytes, b" spawn ")?)?;
    Some((Some(child), behind(rest, b"\n")?))
}

/// The action whose line the bytes begin with, and what stands behind the line.
fn act_first(bytes: &[u8]) -> Option<(Step, &[u8])>
    ensures { MatchOption result (act_in bytes.now ≡ None) (λ x. act_in bytes.now ≡ Some (x.0, x.1.now)) }
{
    let (name, rest) = name_first(behind(bytes, b"act ")?)?;
    let (child, rest) = child_first(rest)?;
    Some((Step::Act { name, child }, rest))
}

/// The application whose line the bytes begin with, at one of `n` nodelets, and what stands behind
/// the line.
fn apply_first(bytes: &[u8], n: u32) -> Option<(Step, &[u8])>
    requires { 1 ≤ n }
    ensures { MatchOption result (apply_in n bytes.now ≡ None) (λ x. apply_in n bytes.now ≡ Some (x.0, x.1.now)) }
{
    let (name, rest) = name_first(behind(bytes, b"apply ")?)?;
    let (nodelet, rest) = count_line(rest, b" ", 0, u64::from(n - 1))?;
    let nodelet = nodelet as u32;
    Some((Step::Apply { name, nodelet }, rest))
}

/// The step whose line the bytes begin with, and what stands behind the line.
pub fn step_first(bytes: &[u8], n: u32) -> Option<(Step, &[u8])>
    requires { 1 ≤ n }
    ensures { MatchOption result (step_in n bytes.now ≡ None) (λ x. step_in n bytes.now ≡ Some (x.0, x.1.now)) }
{
    match act_first(bytes) {
        Some(found) => Some(found),
        None => apply_first(bytes, n),
    }
}
