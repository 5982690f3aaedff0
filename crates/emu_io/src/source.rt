ghost use Rattle.std.specs.Prelude.{◌≡◌, ℕ, ◌<◌, ◌≤◌, ◌↔◌, List, [], length, take, drop, Option, IfSome, IfOk, OnErr, MatchResult};
ghost use Rattle.std.specs.Io.KnownBytes.{Consumes};
ghost use Rattle.emu_io.specs.Faults.{Rose};

/// A call to a source or a sink failed: it moved no byte.
#[derive(Clone, Copy, Debug, PartialEq, Eq)]
pub struct Failed;

/// Gives bytes a piece at a time, and counts its faults (docs/outputs.md, "Reading and writing").
pub trait Source {
    // How many faults it counted.
    ghost faults: { Self → ℕ };

    // The bytes still to come, where it tells them.
    ghost left: { Self → Option (List ℕ) };

    /// Puts the next bytes at the front of `buf`, which is not empty, and says how many they are.
    /// None are the end.
    fn take(&mut self, buf: &mut [u8]) -> Result<usize, Failed>
        requires { 0 < length buf.old }
        ensures within { IfOk result (λ n. n ≤ length buf.old) }
        ensures given { IfOk result (λ n. Consumes (left self.old) (left self.new) (take n buf.new)) }
        ensures end { IfOk result (λ n. IfSome (left self.old) (λ bytes. (n ≡ 0) ↔ (bytes ≡ []))) }

        // A source that tells its bytes writes nothing else into the buffer.
        ensures rest { IfSome (left self.old) (λ _.
            MatchResult result (λ n. drop n buf.new ≡ drop n buf.old) (λ _. buf.new ≡ buf.old)) }

        // It fails only where a fault is counted.
        ensures failed { OnErr result (left self.new ≡ left self.old) }
        ensures rose { OnErr result (Rose (faults self.old) (faults self.new)) }
        ensures never_falls { faults self.old ≤ faults self.new };
}
