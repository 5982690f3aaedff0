ghost use Rattle.std.specs.Prelude.{◌≡◌, ◌<◌, ◌≤◌, [], length, take, OnOk, OnErr, IfErr};
ghost use Rattle.emu_io.specs.Faults.{Rose};
ghost use Rattle.emu_io.specs.Held.{Grew};

use crate::sink::Sink;
use word_ops::List;

/// The sink failed when it had taken the first `written` bytes.
#[derive(Clone, Copy, Debug, PartialEq, Eq)]
pub struct WriteFault {
    pub written: usize,
}

/// Writes all of `bytes`, however few of them a call takes. It takes no memory, and makes no call
/// for an empty list (docs/outputs.md, "Reading and writing").
pub fn write_all<K: Sink>(sink: &mut K, bytes: &List<u8>) -> Result<(), WriteFault>
    ensures ok { OnOk result (Grew (K.held sink.old) (K.held sink.new) bytes.now) }
    ensures err { IfErr result (λ fault.
        Grew (K.held sink.old) (K.held sink.new) (take fault.written bytes.now)) }
    ensures short { IfErr result (λ fault. fault.written < length bytes.now) }
    ensures rose { OnErr result (Rose (K.faults sink.old) (K.faults sink.new)) }
    ensures never_falls { K.faults sink.old ≤ K.faults sink.new }
    ensures empty { bytes.now ≡ [] → sink.new ≡ sink.old }
{
    let mut written = 0;
    while written < bytes.len() {
        match sink.put(&bytes.as_slice()[written..]) {
            Ok(count) => written += count,
            Err(_) => return Err(WriteFault { written }),
        }
    }
    Ok(())
}
