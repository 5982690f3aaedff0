ghost use Rattle.std.specs.Prelude.{◌≡◌, ◌≤◌, ℕ, List, [], length, take, drop, ◌++◌, min};

use std::marker::Model;
use word_ops::List;

/// Bytes that are given away from the front. Contracts see those that are left.
#[derive(Debug, Drop)]
pub struct Feed {
    bytes: List<u8>,
    given: usize,
}

impl Model for Feed {
    ghost Value = { List ℕ };

    ghost view = { λ feed. drop feed.given feed.bytes };

    ghost invariant = { λ feed. feed.given ≤ length feed.bytes };
}

impl Feed {
    pub fn new(bytes: List<u8>) -> Feed
        ensures { result ≡ bytes }
    {
        Feed { bytes, given: 0 }
    }

    /// Gives the next bytes to `buf`: at most `most`, and no more than it has room for.
    pub fn give(&mut self, buf: &mut [u8], most: usize) -> usize
        ensures count { result ≡ min most (min (length buf.old) (length self.old)) }
        ensures buffer { buf.new ≡ take result self.old ++ drop result buf.old }
        ensures left { self.new ≡ drop result self.old }
    {
        let left = &self.bytes.as_slice()[self.given..];
        let count = most.min(buf.len().min(left.len()));
        buf[..count].copy_from_slice(&left[..count]);
        self.given += count;
        count
    }
}
