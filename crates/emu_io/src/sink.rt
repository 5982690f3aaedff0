ghost use Rattle.std.specs.Prelude.{◌≡◌, ℕ, ◌<◌, ◌≤◌, List, length, take, Option, IfOk, OnErr};
ghost use Rattle.emu_io.specs.Faults.{Rose};
ghost use Rattle.emu_io.specs.Held.{Grew};

use crate::source::Failed;

/// Takes bytes a piece at a time, and counts its faults (docs/outputs.md, "Reading and writing").
pub trait Sink {
    // How many faults it counted.
    ghost faults: { Self → ℕ };

    // The bytes taken so far, where it tells them.
    ghost held: { Self → Option (List ℕ) };

    /// Takes the first bytes of `piece`, which is not empty, and says how many they are: one at
    /// least.
    fn put(&mut self, piece: &[u8]) -> Result<usize, Failed>
        requires { 0 < length piece.now }
        ensures some { IfOk result (λ n. 1 ≤ n) }
        ensures within { IfOk result (λ n. n ≤ length piece.now) }
        ensures taken { IfOk result (λ n. Grew (held self.old) (held self.new) (take n piece.now)) }

        // It fails only where a fault is counted.
        ensures failed { OnErr result (held self.new ≡ held self.old) }
        ensures rose { OnErr result (Rose (faults self.old) (faults self.new)) }
        ensures never_falls { faults self.old ≤ faults self.new };
}
