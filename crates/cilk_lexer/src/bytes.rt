//! Classes of bytes (docs/language.md, "Tokens").

ghost use Rattle.std.specs.Prelude.{◌≡◌, ◌≤◌, length, take_while};
ghost use Rattle.cilk_model.specs.Bytes.{is_space as is_space_byte, is_blank as is_blank_byte, is_run_byte as is_run_test, is_text_byte as is_text_test, is_in_line};
ghost use Rattle.cilk_model.specs.Pieces.{run_of as longest_run, line_length as length_of_line, behind_spaces as rest_behind_spaces};

/// A space or a tab.
pub fn is_space(byte: u8) -> bool
    ensures { result ≡ is_space_byte byte }
{
    byte == b' ' || byte == b'\t'
}

/// A space, a tab, a carriage return or a newline.
pub fn is_blank(byte: u8) -> bool
    ensures { result ≡ is_blank_byte byte }
{
    is_space(byte) || byte == b'\r' || byte == b'\n'
}

/// A letter, a digit or `_`.
pub fn is_run_byte(byte: u8) -> bool
    ensures { result ≡ is_run_test byte }
{
    byte.is_ascii_alphanumeric() || byte == b'_'
}

/// A byte that a text literal may hold.
pub fn is_text_byte(byte: u8) -> bool
    ensures { result ≡ is_text_test byte }
{
    b' ' <= byte && byte <= b'~'
}

/// How many bytes are left of the line, its newline not counted.
pub fn line_length(rest: &[u8]) -> usize
    ensures { result ≡ length_of_line rest.now }
{
    rest.iter().take_while(|byte| **byte != b'\n').count()
}

/// How long the longest run of letters, digits and `_` at the front is.
fn run_length(rest: &[u8]) -> usize
    ensures { result ≡ length (longest_run rest.now) }
{
    rest.iter().take_while(|byte| is_run_byte(**byte)).count()
}

/// The longest run of letters, digits and `_` at the front.
#[tactic(auto, using(cilk_model::proofs::Fronts::run_taken, cilk_model::proofs::Fronts::run_within))]
pub fn run_of(rest: &[u8]) -> &[u8]
    ensures { result.now ≡ longest_run rest.now }
{
    let n = run_length(rest);
    &rest[..n]
}

/// How many spaces and tabs stand at the front.
fn space_length(rest: &[u8]) -> usize
    ensures { result ≡ length (take_while is_space_byte rest.now) }
{
    rest.iter().take_while(|byte| is_space(**byte)).count()
}

/// What stands behind the spaces and tabs at the front.
#[tactic(auto, using(std::proofs::lemmas::List::take_rest, cilk_model::proofs::Fronts::spaces_within))]
pub fn behind_spaces(rest: &[u8]) -> &[u8]
    ensures { result.now ≡ rest_behind_spaces rest.now }
{
    let n = space_length(rest);
    &rest[n..]
}
