ghost use Rattle.std.specs.Prelude.{◌≡◌, IfOk, OnErr, map, string_bytes};
ghost use Rattle.emu_top.specs.Causes.{IsAnswer};

use crate::ended::Ended;
use crate::judging::judge;
use crate::verdict::{ended, text};
use emu_io::{Sink, Source, write_all};
use std::alloc::{AllocError, Global};
use std::sync::Wait;
use std::thread::Threads;
use word_ops::Gate;

/// Does what `words` ask for: reads the whole text from `source`, or makes that of a workload, does with it what the
/// mode says, and writes what is to be written into `sink`, all at once (docs/outputs.md). A run is a serial one, of
/// seed 0 where none is given. Always returns. Want of memory comes before anything is written.
pub fn emu_plain<S: Source, K: Sink>(
    alloc: Global,
    words: &[String],
    source: &mut S,
    sink: &mut K,
) -> Result<Ended, AllocError>
    ensures answer { IfOk result (IsAnswer (map string_bytes words.now)
        (S.faults source.old) (S.faults source.new) (S.left source.old) (S.left source.new)
        (K.faults sink.old) (K.faults sink.new) (K.held sink.old) (K.held sink.new)) }
    ensures memory { OnErr result (sink.new ≡ sink.old) }
{
    let verdict = judge(alloc, words, source)?;
    let bytes = text(alloc, &verdict)?;
    let whole = write_all(sink, &bytes).is_ok();
    Ok(ended(verdict, whole))
}

/// As `emu_plain`. Runs by workers, which `gate` may hold, are not built yet.
pub fn emu_main<R: Threads + Wait + Sync, S: Source, K: Sink, G: Gate>(
    _rt: &R,
    alloc: Global,
    words: &[String],
    source: &mut S,
    sink: &mut K,
    _gate: &G,
) -> Result<Ended, AllocError>
    ensures answer { IfOk result (IsAnswer (map string_bytes words.now)
        (S.faults source.old) (S.faults source.new) (S.left source.old) (S.left source.new)
        (K.faults sink.old) (K.faults sink.new) (K.held sink.old) (K.held sink.new)) }
    ensures memory { OnErr result (sink.new ≡ sink.old) }
{
    emu_plain(alloc, words, source, sink)
}
