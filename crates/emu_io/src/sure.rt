ghost use Rattle.std.specs.Prelude.{◌≡◌, ◌<◌, ◌≤◌, ◌++◌, ℕ, List, [], Some, Ok, true, length, take, drop, min, vec_len, vec_capacity, IfOk};

use crate::feed::Feed;
use crate::sink::Sink;
use crate::source::{Failed, Source};
use std::alloc::{AllocError, Global};
use std::marker::Model;
use word_ops::List;

/// A source in memory that never fails, and gives at each call as much as the buffer has room for.
/// Contracts see the bytes that are left.
#[derive(Debug, Drop)]
pub struct SureSource {
    feed: Feed,
}

impl Model for SureSource {
    ghost Value = { List ℕ };

    ghost view = { λ source. source.feed };
}

impl SureSource {
    /// A source of `bytes`.
    pub fn new(bytes: List<u8>) -> SureSource
        ensures { result ≡ bytes }
    {
        SureSource {
            feed: Feed::new(bytes),
        }
    }
}

impl Source for SureSource {
    ghost faults = { λ _. 0 };

    ghost left = { λ bytes. Some bytes };

    fn take(&mut self, buf: &mut [u8]) -> Result<usize, Failed>
        requires { 0 < length buf.old }
        ensures count { result ≡ Ok (min (length buf.old) (length self.old)) }
        ensures state { self.new ≡ drop (length buf.old) self.old }
        ensures buffer { buf.new ≡ take (length buf.old) self.old ++ drop (length self.old) buf.old }
    {
        Ok(self.feed.give(buf, usize::MAX))
    }
}

/// A sink in memory that never fails and takes every piece whole. It drops the bytes for which it
/// has no room, and from then on does not tell what it took.
#[derive(Debug, Drop)]
pub struct SureSink {
    bytes: Vec<u8>,
    whole: bool,
    room: usize,
}

impl Model for SureSink {
    ghost use Rattle.std.specs.Prelude.{◌≤◌, vec_len, vec_capacity};
    ghost use Rattle.emu_io.specs.Sure.{Shelf};

    ghost Value = { Shelf };

    ghost view = { λ sink. record { bytes = sink.bytes.items; whole = sink.whole; room = sink.room } };

    ghost invariant = { λ sink. (vec_len sink.bytes ≤ sink.room) × (sink.room ≤ vec_capacity sink.bytes) };
}

impl SureSink {
    /// An empty sink with room for `room` bytes.
    pub fn with_room(alloc: Global, room: usize) -> Result<SureSink, AllocError>
        ensures { IfOk result (λ sink. sink ≡ record { bytes = []; whole = true; room = room }) }
    {
        let bytes = Vec::with_capacity(alloc, room)?;
        Ok(SureSink {
            bytes,
            whole: true,
            room,
        })
    }

    /// The bytes that the sink kept, in the order that they came.
    pub fn bytes(&self) -> &[u8]
        ensures { result.now ≡ self.now.bytes }
    {
        self.bytes.as_slice()
    }

    /// The bytes that the sink kept.
    pub fn into_bytes(self) -> List<u8>
        ensures { result ≡ self.bytes }
    {
        let SureSink { bytes, .. } = self;
        List::from_vec(bytes)
    }
}

impl Sink for SureSink {
    ghost use Rattle.emu_io.specs.Held.{told_bytes};
    ghost use Rattle.emu_io.specs.Sure.{shelf_behind};

    ghost faults = { λ _. 0 };

    ghost held = { λ sink. told_bytes sink.whole sink.bytes };

    fn put(&mut self, piece: &[u8]) -> Result<usize, Failed>
        requires { 0 < length piece.now }
        ensures count { result ≡ Ok (length piece.now) }
        ensures state { self.new ≡ shelf_behind self.old piece.now }
        ensures room { length self.old.bytes ≤ self.old.room }
    {
        let free = self.room - self.bytes.len();
        let kept = free.min(piece.len());
        self.whole &= kept == piece.len();
        // Its room was set aside when the sink was made.
        let _ = self.bytes.extend_from_slice(&piece[..kept]);
        Ok(piece.len())
    }
}
