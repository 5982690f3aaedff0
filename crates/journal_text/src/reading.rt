ghost use Rattle.std.specs.Prelude.{◌≡◌, ◌≤◌, ◌<◌, ◌+◌, [], length, Ok, Err, IfOk, IfErr, MatchOption, MatchResult, ◌^◌};
ghost use Rattle.std.specs.Int.{IsInRange};
ghost use Rattle.journal_text.specs.Decoding.{broken, head_in, newlines, text_in, steps_in, end_in, journal_in};
ghost use Rattle.journal_text.specs.Journals.{IfFault, IsTextOf, IsNoJournal};

use crate::fault::{JournalFault, JournalKind, JournalRefusal};
use crate::journal::Journal;
use crate::scanning::{behind, count_line, step_first};
use std::alloc::Global;
use word_ops::{List, Step};

/// The journal that the bytes are (docs/outputs.md, "Journal"), or the first line that is broken.
pub fn read(alloc: Global, bytes: &[u8]) -> Result<Journal, JournalRefusal>
    ensures journal { IfOk result (λ j. IsTextOf j bytes.now) }
    ensures fault { IfErr result (λ r. IfFault r (λ f. journal_in bytes.now ≡ Err f)) }
    ensures none { IfErr result (λ r. IfFault r (λ _. IsNoJournal bytes.now)) }
{
    read_journal(alloc, bytes)
}

/// The journal that the bytes are, or the first line that is broken.
fn read_journal(alloc: Global, bytes: &[u8]) -> Result<Journal, JournalRefusal>
    ensures ok { IfOk result (λ j. journal_in bytes.now ≡ Ok j) }
    ensures fault { IfErr result (λ r. IfFault r (λ f. journal_in bytes.now ≡ Err f)) }
{
    let (head, rest) = match read_head(bytes) {
        Ok(found) => found,
        Err(fault) => return Err(JournalRefusal::Fault(fault)),
    };
    let (text, rest) = match read_text(rest, head.length) {
        Ok(found) => found,
        Err(fault) => return Err(JournalRefusal::Fault(fault)),
    };
    let line = 6 + newlines(text);
    let (count, rest) = match found(
        count_line(rest, b"steps ", 0, u64::MAX),
        line,
        JournalKind::BadCount,
    ) {
        Ok(found) => found,
        Err(fault) => return Err(JournalRefusal::Fault(fault)),
    };
    let (steps, rest) = match read_steps(alloc, rest, head.n, line + 1, count) {
        Ok(found) => found,
        Err(refusal) => return Err(refusal),
    };
    if let Err(fault) = read_end(rest, line + 1 + steps.len() as u64) {
        return Err(JournalRefusal::Fault(fault));
    }
    let mut copy = List::new(alloc);
    if copy.extend_from_slice(text).is_err() {
        return Err(JournalRefusal::OutOfMemory);
    }
    Ok(Journal {
        version: head.version,
        n: head.n,
        turns: head.turns,
        text: copy,
        steps,
    })
}

/// The numbers of the first four lines.
#[derive(Clone, Copy, Debug)]
pub struct Head {
    pub version: u32,
    pub n: u32,
    pub turns: u64,
    pub length: u64,
}

/// What was found, or else the line is broken.
fn found<T>(what: Option<T>, line: u64, kind: JournalKind) -> Result<T, JournalFault>
    ensures { MatchOption what (result ≡ Err (broken line kind)) (λ x. result ≡ Ok x) }
{
    what.ok_or(JournalFault { line, kind })
}

/// The numbers of the first four lines, and what stands behind them.
fn read_head(bytes: &[u8]) -> Result<(Head, &[u8]), JournalFault>
    ensures answer { MatchResult result (λ x. head_in bytes.now ≡ Ok (x.0, x.1.now)) (λ f. head_in bytes.now ≡ Err f) }
    ensures version { IfOk result (λ x. IsInRange 1 2 x.0.version) }
    ensures nodelets { IfOk result (λ x. IsInRange 1 64 x.0.n) }
    ensures length { IfOk result (λ x. x.0.length ≤ 1048576) }
{
    let (version, rest) = found(
        count_line(bytes, b"emu-journal ", 1, 2),
        1,
        JournalKind::BadHead,
    )?;
    let (n, rest) = found(
        count_line(rest, b"nodelets ", 1, 64),
        2,
        JournalKind::BadNodelets,
    )?;
    let (turns, rest) = found(
        count_line(rest, b"turns ", 1, 1 << 40),
        3,
        JournalKind::BadTurns,
    )?;
    let (length, rest) = found(
        count_line(rest, b"source ", 0, 1_048_576),
        4,
        JournalKind::BadLength,
    )?;
    let head = Head {
        version: version as u32,
        n: n as u32,
        turns,
        length,
    };
    Ok((head, rest))
}

/// How many newlines a text has.
fn newlines(text: &[u8]) -> u64
    ensures { result ≡ newlines text.now }
{
    let mut lines = 0;
    for byte in text {
        if *byte == b'\n' {
            lines += 1;
        }
    }
    lines
}

/// The text of this length, which stands on lines from the fifth, and what stands behind its newline.
fn read_text(bytes: &[u8], size: u64) -> Result<(&[u8], &[u8]), JournalFault>
    ensures { MatchResult result (λ x. text_in size bytes.now ≡ Ok (x.0.now, x.1.now)) (λ f. text_in size bytes.now ≡ Err f) }
{
    let (text, rest) = bytes.split_at(bytes.len().min(size as usize));
    let line = 5 + newlines(text);
    let rest = found(behind(rest, b"\n"), line, JournalKind::ShortSource)?;
    Ok((text, rest))
}

/// The last line, and nothing behind it.
fn read_end(bytes: &[u8], line: u64) -> Result<(), JournalFault>
    requires { line < 2 ^ 63 }
    ensures { result ≡ end_in line bytes.now }
{
    let rest = found(behind(bytes, b"end\n"), line, JournalKind::BadEnd)?;
    if rest.is_empty() {
        Ok(())
    } else {
        Err(JournalFault {
            line: line + 1,
            kind: JournalKind::BadEnd,
        })
    }
}

/// As many steps as `count` says, the first at `line`, and what stands behind them.
fn read_steps(
    alloc: Global,
    bytes: &[u8],
    n: u32,
    line: u64,
    count: u64,
) -> Result<(List<Step>, &[u8]), JournalRefusal>
    requires nodelets { 1 ≤ n }
    requires line { line < 2 ^ 63 }
    ensures ok { IfOk result (λ x. steps_in n line [] count bytes.now ≡ Ok (x.0, x.1.now)) }
    ensures fault { IfErr result (λ r. IfFault r (λ f. steps_in n line [] count bytes.now ≡ Err f)) }
{
    let mut steps = List::new(alloc);
    let mut rest = bytes;
    for _ in 0..count {
        let Some((step, behind)) = step_first(rest, n) else {
            let line = line + steps.len() as u64;
            return Err(JournalRefusal::Fault(JournalFault {
                line,
                kind: JournalKind::BadStep,
            }));
        };
        let Ok(()) = steps.add(step) else {
            return Err(JournalRefusal::OutOfMemory);
        };
        rest = behind;
    }
    Ok((steps, rest))
}
