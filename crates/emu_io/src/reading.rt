ghost use Rattle.std.specs.Prelude.{◌≡◌, ◌<◌, ◌≤◌, Err, length, IfOk, IfSome};
ghost use Rattle.emu_io.specs.Faults.{Rose};
ghost use Rattle.emu_io.specs.Left.{GaveAll, GaveSome};

use crate::source::Source;
use std::alloc::Global;
use word_ops::List;

/// Why the bytes of a source were not read.
#[derive(Clone, Copy, Debug, PartialEq, Eq)]
pub enum ReadRefusal {
    /// The source failed.
    Fault,
    /// More bytes came than the limit allows.
    TooLong,
    /// No memory was found for the bytes.
    OutOfMemory,
}

// How many bytes a call asks for at most.
const PIECE: usize = 65_536;

/// All bytes of `source`, which are at most `limit`. It makes at most `limit + 1` calls. A source
/// that was refused has given what it gave (docs/outputs.md, "Reading and writing").
pub fn read_all<S: Source>(
    alloc: Global,
    source: &mut S,
    limit: usize,
) -> Result<List<u8>, ReadRefusal>
    ensures bytes { IfOk result (λ bytes. GaveAll (S.left source.old) (S.left source.new) bytes) }
    ensures within { IfOk result (λ bytes. length bytes ≤ limit) }
    ensures fault { result ≡ Err ReadRefusal.Fault → Rose (S.faults source.old) (S.faults source.new) }
    ensures too_long { result ≡ Err ReadRefusal.TooLong →
        IfSome (S.left source.old) (λ bytes. limit < length bytes) }

    // whatever the answer
    ensures given { GaveSome (S.left source.old) (S.left source.new) }
    ensures never_falls { S.faults source.old ≤ S.faults source.new }
{
    let mut bytes = List::new(alloc);
    let mut piece = [0u8; PIECE];
    // Each call but the last gives a byte at least, so these calls are enough.
    for _ in 0..=limit {
        let Ok(count) = source.take(&mut piece) else {
            return Err(ReadRefusal::Fault);
        };
        if count == 0 {
            return Ok(bytes);
        }
        if count > limit - bytes.len() {
            return Err(ReadRefusal::TooLong);
        }
        if bytes.extend_from_slice(&piece[..count]).is_err() {
            return Err(ReadRefusal::OutOfMemory);
        }
    }
    Err(ReadRefusal::TooLong)
}
