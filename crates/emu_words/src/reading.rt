ghost use Rattle.std.specs.Prelude.{◌≡◌, ◌≢◌, [], IfErr, IfOk, IfSome, None, map, string_bytes};
ghost use Rattle.clap.specs.Words.{fault_of, found_of, kind_of, matches_of, rows_of};
ghost use Rattle.emu_words.specs.Asking.{InRange, asked_in, asked_of};
ghost use Rattle.emu_words.specs.Line.{emu_app};

use crate::asked::{Asked, WordsRefusal};
use crate::command::emu;
use crate::values::{is_given, mode_among, number_or, number_or_none, workload_unless_given};
use clap::error::ErrorKind;
use clap::{ArgMatches, Error};
use std::alloc::Global;

/// Reads the words behind the program's name (docs/outputs.md, "Command line"). They are BadWords
/// exactly where they ask for nothing.
#[tactic(auto, using(crate::proofs::AskedLemmas::asked_where_taken, crate::proofs::AskedLemmas::asked_where_refused))]
pub fn read(alloc: Global, words: &[String]) -> Result<Asked, WordsRefusal>
    ensures ok { IfOk result (λ asked. asked_of (map string_bytes words.now) ≡ Some asked) }
    ensures bad { IfErr result (λ e. e ≡ WordsRefusal.BadWords → asked_of (map string_bytes words.now) ≡ None) }
    ensures range { IfOk result InRange }
{
    let matches = matched(alloc, words)?;
    match asking(&matches) {
        Some(asked) => Ok(asked),
        None => Err(WordsRefusal::BadWords),
    }
}

/// What the command makes of the words.
fn matched<'a>(alloc: Global, words: &'a [String]) -> Result<ArgMatches<'a>, WordsRefusal>
    ensures ok { IfOk result (λ m. (fault_of emu_app (map string_bytes words.entry.now) ≡ [])
        × (rows_of (found_of m) ≡ matches_of emu_app (map string_bytes words.entry.now))) }
    ensures bad { IfErr result (λ e. e ≡ WordsRefusal.BadWords
        → fault_of emu_app (map string_bytes words.entry.now) ≢ []) }
{
    let Ok(command) = emu(alloc) else {
        return Err(WordsRefusal::OutOfMemory);
    };
    match command.try_get_matches_from(words) {
        Ok(matches) => Ok(matches),
        Err(error) => Err(refusal_of(&error)),
    }
}

/// Whatever the command refuses is a matter of the words, unless memory ran out.
fn refusal_of(error: &Error) -> WordsRefusal
    ensures { result ≡ WordsRefusal.BadWords → kind_of error.now ≢ ErrorKind.OutOfMemory }
{
    match error.kind() {
        ErrorKind::OutOfMemory => WordsRefusal::OutOfMemory,
        _ => WordsRefusal::BadWords,
    }
}

/// What the matches ask for.
#[tactic(auto, unfolding(crate::specs::Asking::asked_in))]
fn asking(matches: &ArgMatches<'_>) -> Option<Asked>
    ensures value { result ≡ asked_in (rows_of (found_of matches.now)) }
    ensures range { IfSome result InRange }
{
    let mode = mode_among(matches)?;
    let n = number_or(matches, "nodelets", 8, 1, 64)?;
    let turns = number_or(matches, "turns", 1_000_000, 1, 1_099_511_627_776)?;
    let serial = number_or_none(matches, "serial", None, u64::MAX)?;
    let workload = number_or_none(matches, "workload", workload_unless_given(mode), 1_000_000)?;
    Some(Asked {
        mode,
        n: n as u32,
        turns,
        serial,
        report: is_given(matches, "report"),
        memory: is_given(matches, "memory"),
        journal: is_given(matches, "record"),
        workload,
        watch: is_given(matches, "watch"),
    })
}
