//! Where the text comes from: a workload that the words name, or the source.

ghost use Rattle.std.specs.Prelude.{◌≡◌, ◌≤◌, ◌<◌, Err, IfOk, IfSome, None, length};
ghost use Rattle.emu_io.specs.Faults.{Rose};
ghost use Rattle.emu_words.specs.Asking.{InRange};
ghost use Rattle.emu_top.specs.Sources.{IsSource, text_limit, workload_of};

use emu_io::{ReadRefusal, Source, read_all};
use emu_words::{Asked, Mode};
use std::alloc::Global;
use word_ops::List;
use workloads::text as workload_text;

/// The most bytes that a text has.
const TEXT_LIMIT: usize = 1_048_576;

/// The number of the workload whose text stands in for the source.
fn workload(asked: &Asked) -> Option<u64>
    ensures { result ≡ workload_of asked.now }
{
    match asked.mode {
        Mode::Gen => Some(asked.workload.unwrap_or(0)),
        Mode::Run => asked.workload,
        Mode::Check
        | Mode::Emit
        | Mode::Replay
        | Mode::Audit
        | Mode::Exec
        | Mode::Time
        | Mode::Upgrade => None,
    }
}

/// The text of the workload that the words name, which leaves the source as it is, or else all that the source gives.
pub(crate) fn source_text<S: Source>(
    alloc: Global,
    asked: &Asked,
    source: &mut S,
) -> Result<List<u8>, ReadRefusal>
    requires range { InRange asked.now }
    ensures text { IfOk result (IsSource (workload_of asked.now) (S.faults source.old) (S.faults source.new) (S.left source.old) (S.left source.new)) }
    ensures short { IfOk result (λ text. length text ≤ text_limit) }
    ensures fault { result ≡ Err ReadRefusal.Fault → (workload_of asked.now ≡ None) × Rose (S.faults source.old) (S.faults source.new) }
    ensures too_long { result ≡ Err ReadRefusal.TooLong → (workload_of asked.now ≡ None) × IfSome (S.left source.old) (λ bytes. text_limit < length bytes) }
{
    match workload(asked) {
        Some(number) => match workload_text(alloc, number) {
            Ok(text) => Ok(text),
            Err(_) => Err(ReadRefusal::OutOfMemory),
        },
        None => read_all(alloc, source, TEXT_LIMIT),
    }
}
