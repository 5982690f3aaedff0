ghost use Rattle.std.specs.Prelude.{◌≡◌, ◌<◌, ◌≤◌, ◌++◌, [], Some, true, is_err, length, take, drop, min, IfOk, OnErr};

use crate::calls::Calls;
use crate::feed::Feed;
use crate::sink::Sink;
use crate::source::{Failed, Source};
use std::alloc::Global;
use std::marker::Model;
use word_ops::List;

/// A source in memory that gives at most `step` bytes a call. Exactly the calls numbered in
/// `failing`, from 0, fail. A call behind number 2^64 - 1 has no number.
#[derive(Debug, Drop)]
pub struct MemSource {
    feed: Feed,
    step: usize,
    calls: Calls,
}

impl Model for MemSource {
    ghost use Rattle.std.specs.Prelude.{◌≤◌};
    ghost use Rattle.emu_io.specs.Memory.{Supply};

    ghost Value = { Supply };

    ghost view = { λ source. record { left = source.feed; step = source.step; calls = source.calls } };

    ghost invariant = { λ source. 1 ≤ source.step };
}

impl MemSource {
    /// A source of `bytes`, before its first call.
    pub fn new(bytes: List<u8>, step: usize, failing: List<u64>) -> MemSource
        requires { 1 ≤ step }
        ensures { result ≡ record {
          left = bytes;
          step = step;
          calls = record { failing = failing; next = Some 0; faults = 0 };
        } }
    {
        MemSource {
            feed: Feed::new(bytes),
            step,
            calls: Calls::new(failing),
        }
    }
}

impl Source for MemSource {
    ghost use Rattle.emu_io.specs.Memory.{given_count, supply_behind};
    ghost use Rattle.emu_io.specs.Schedule.{is_failing};

    ghost faults = { λ source. source.calls.faults };

    ghost left = { λ source. Some source.left };

    fn take(&mut self, buf: &mut [u8]) -> Result<usize, Failed>
        requires { 0 < length buf.old }
        ensures failing { is_err result ≡ is_failing self.old.calls }
        ensures count { IfOk result (λ n. n ≡ given_count self.old (length buf.old)) }
        ensures state { self.new ≡ supply_behind self.old (given_count self.old (length buf.old)) }
        ensures buffer { let n = given_count self.old (length buf.old) in
            buf.new ≡ take n self.old.left ++ drop n buf.old }

        // so that a call gives a byte where one is left
        ensures step { 1 ≤ self.old.step }
    {
        self.calls.count()?;
        Ok(self.feed.give(buf, self.step))
    }
}

/// A sink in memory that takes at most `step` bytes a call. Exactly the calls numbered in `failing`,
/// from 0, fail. A call behind number 2^64 - 1 has no number. A piece for which no memory is found
/// is dropped, and from then on the sink does not tell what it took.
#[derive(Debug, Drop)]
pub struct MemSink {
    bytes: List<u8>,
    whole: bool,
    step: usize,
    calls: Calls,
}

impl Model for MemSink {
    ghost use Rattle.std.specs.Prelude.{◌≤◌};
    ghost use Rattle.emu_io.specs.Memory.{Store};

    ghost Value = { Store };

    ghost view = { λ sink. record { bytes = sink.bytes; whole = sink.whole; step = sink.step; calls = sink.calls } };

    ghost invariant = { λ sink. 1 ≤ sink.step };
}

impl MemSink {
    /// An empty sink, before its first call.
    pub fn new(alloc: Global, step: usize, failing: List<u64>) -> MemSink
        requires { 1 ≤ step }
        ensures { result ≡ record {
          bytes = [];
          whole = true;
          step = step;
          calls = record { failing = failing; next = Some 0; faults = 0 };
        } }
    {
        MemSink {
            bytes: List::new(alloc),
            whole: true,
            step,
            calls: Calls::new(failing),
        }
    }

    /// The bytes that the sink kept.
    pub fn bytes(&self) -> &List<u8>
        ensures { result.now ≡ self.now.bytes }
    {
        &self.bytes
    }
}

impl Sink for MemSink {
    ghost use Rattle.emu_io.specs.Held.{told_bytes};
    ghost use Rattle.emu_io.specs.Memory.{KeptOrDropped};
    ghost use Rattle.emu_io.specs.Schedule.{calls_behind, is_failing};

    ghost faults = { λ sink. sink.calls.faults };

    ghost held = { λ sink. told_bytes sink.whole sink.bytes };

    fn put(&mut self, piece: &[u8]) -> Result<usize, Failed>
        requires { 0 < length piece.now }
        ensures failing { is_err result ≡ is_failing self.old.calls }
        ensures count { IfOk result (λ n. n ≡ min self.old.step (length piece.now)) }
        ensures taken { IfOk result (λ n. KeptOrDropped self.old self.new (take n piece.now)) }
        ensures failed { OnErr result (self.new ≡ record self.old { calls = calls_behind self.old.calls }) }

        // so that a call takes a byte at least
        ensures step { 1 ≤ self.old.step }
    {
        self.calls.count()?;
        let count = self.step.min(piece.len());
        if self.bytes.extend_from_slice(&piece[..count]).is_err() {
            self.whole = false;
        }
        Ok(count)
    }
}
