ghost use Rattle.std.specs.Prelude.{◌≡◌, ◌≤◌, IfSome};
ghost use Rattle.clap.specs.Words.{found_of, rows_of};
ghost use Rattle.emu_words.specs.Asking.{flag_in, mode_in, mode_named, number_in, number_if_given, default_workload};

use crate::asked::Mode;
use clap::ArgMatches;
use word_ops::read_count;

/// The mode that the words name.
#[tactic(auto, using(crate::proofs::RowLemmas::value_by_rows), unfolding(crate::specs::Asking::mode_in))]
pub fn mode_among(matches: &ArgMatches<'_>) -> Option<Mode>
    ensures { result ≡ mode_in (rows_of (found_of matches.now)) }
{
    match matches.get_str("mode") {
        Some(text) => mode_named(text),
        None => None,
    }
}

fn mode_named(text: &str) -> Option<Mode>
    ensures { result ≡ mode_named text.now }
{
    match text {
        "check" => Some(Mode::Check),
        "emit" => Some(Mode::Emit),
        "run" => Some(Mode::Run),
        "gen" => Some(Mode::Gen),
        "replay" => Some(Mode::Replay),
        "audit" => Some(Mode::Audit),
        "exec" => Some(Mode::Exec),
        "time" => Some(Mode::Time),
        "upgrade" => Some(Mode::Upgrade),
        _ => None,
    }
}

/// The workload where none is given.
pub fn workload_unless_given(mode: Mode) -> Option<u64>
    ensures value { result ≡ default_workload mode }
    ensures within { IfSome result (λ n. n ≤ 1000000) }
{
    match mode {
        Mode::Gen => Some(0),
        _ => None,
    }
}

/// The number of an option, or `absent` where it is not given. None where it is out of range.
#[tactic(auto, using(crate::proofs::RowLemmas::value_by_rows), unfolding(crate::specs::Asking::number_in))]
pub fn number_or(
    matches: &ArgMatches<'_>,
    name: &str,
    absent: u64,
    least: u64,
    most: u64,
) -> Option<u64>
    requires low { least ≤ absent }
    requires high { absent ≤ most }
    ensures value { result ≡ number_in name.now absent least most (rows_of (found_of matches.now)) }
    ensures within { IfSome result (λ n. (least ≤ n) × (n ≤ most)) }
{
    match matches.get_str(name) {
        Some(text) => read_count(text.as_bytes(), least, most),
        None => Some(absent),
    }
}

/// The number of an option that may have none: `absent` where it is not given. None where it is
/// over `most`.
#[tactic(auto, using(crate::proofs::RowLemmas::value_by_rows), unfolding(crate::specs::Asking::number_if_given))]
pub fn number_or_none(
    matches: &ArgMatches<'_>,
    name: &str,
    absent: Option<u64>,
    most: u64,
) -> Option<Option<u64>>
    requires { IfSome absent (λ n. n ≤ most) }
    ensures value { result ≡ number_if_given name.now absent most (rows_of (found_of matches.now)) }
    ensures within { IfSome result (λ given. IfSome given (λ n. n ≤ most)) }
{
    match matches.get_str(name) {
        Some(text) => Some(Some(read_count(text.as_bytes(), 0, most)?)),
        None => Some(absent),
    }
}

/// A flag is given.
#[tactic(auto, using(crate::proofs::RowLemmas::value_by_rows), unfolding(crate::specs::Asking::flag_in))]
pub fn is_given(matches: &ArgMatches<'_>, name: &str) -> bool
    ensures { result ≡ flag_in name.now (rows_of (found_of matches.now)) }
{
    match matches.get_str(name) {
        Some(text) => text == "true",
        None => false,
    }
}
