ghost use Rattle.std.specs.Prelude.{◌≡◌};

use crate::nodelet::Nodelet;
use word_ops::{Entry, List};

/// What a nodelet tells of a run once it is over: the entries of its events, and the pieces of output that were
/// printed here, the first ones first.
#[derive(Drop)]
pub struct Records {
    pub entries: List<Entry>,
    pub pieces: List<List<u8>>,
}

impl Nodelet {
    /// The entries and the pieces, which are moved.
    pub fn into_records(self) -> Records
        ensures entries { result.entries ≡ self.entries }
        ensures pieces { result.pieces ≡ self.services.pieces }
    {
        let Nodelet {
            entries,
            services,
            ..
        } = self;
        Records {
            entries,
            pieces: services.into_pieces(),
        }
    }
}
