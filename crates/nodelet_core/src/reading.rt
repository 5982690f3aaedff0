//! What can be read off a nodelet.

ghost use Rattle.std.specs.Prelude.{◌≡◌};

use crate::nodelet::Nodelet;
use crate::tally::Tally;
use core_model::Trapped;
use nodelet_mem::Words;
use word_ops::{Counts3, Entry, List, Name};

impl Nodelet {
    ghost use Rattle.std.specs.Prelude.{◌≡◌, map};
    ghost use Rattle.threadlet_state.specs.declared.context.Context as carried;
    ghost use Rattle.nodelet_core.specs.Kept.{carried_at};

    /// The names of the contexts that stand here, ascending.
    pub fn names(&self) -> &List<Name>
        ensures { result.now ≡ map (λ (x : carried.Context). x.name) (carried_at self.now) }
    {
        self.standing.names()
    }

    /// The stamp of the last event here, and 0 before any.
    pub fn stamp(&self) -> u64
        ensures { result ≡ self.now.stamp }
    {
        self.stamp
    }

    /// How many turns were served here.
    pub fn served(&self) -> u64
        ensures { result ≡ self.now.counts.turns }
    {
        self.counts.turns
    }

    /// The entries of the events here, the first one first.
    pub fn entries(&self) -> &List<Entry>
        ensures { result.now ≡ self.now.entries }
    {
        &self.entries
    }

    /// The turns served here, the operations applied here, and the contexts sent from here.
    pub fn counts(&self) -> Counts3
        ensures { result ≡ self.now.counts }
    {
        self.counts
    }

    /// The pieces of output that were printed here.
    pub fn pieces(&self) -> &List<List<u8>>
        ensures { result.now ≡ self.now.services.pieces }
    {
        self.services.pieces()
    }

    /// The words here, and their grants.
    pub fn words(&self) -> &Words
        ensures { result.now ≡ self.now.words }
    {
        &self.words
    }

    /// What was counted of the steps done here.
    pub fn tally(&self) -> &Tally
        ensures { result.now ≡ self.now.tally }
    {
        &self.tally
    }

    /// Main's value; None exactly where main has not ended here.
    pub fn ended(&self) -> Option<i64>
        ensures { result ≡ self.now.main_value }
    {
        self.main_value
    }

    /// The first strand that trapped here; None exactly where none has.
    pub fn trapped(&self) -> Option<Trapped>
        ensures { result ≡ self.now.first_trap }
    {
        self.first_trap
    }
}
