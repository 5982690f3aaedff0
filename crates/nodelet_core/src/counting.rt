//! What an event counts at its nodelet.

ghost use Rattle.std.specs.Prelude.{◌≡◌, ◌+◌, ◌<◌, ◌≤◌, ◌^◌, ℕ, length, slice_index, false, None};
ghost use Rattle.word_ops.specs.Report.{below};
ghost use Rattle.nodelet_core.specs.declared.counting.Posts.TheVariants as posts;
ghost use Rattle.nodelet_core.specs.code.Counted.{one_more_where, elsewhere, with_one, with_all, with_posted, IsUnder, are_posted, HasRoom, HasGrown};

use crate::nodelet::Nodelet;
use crate::tally::{Tally, count_one};
use word_ops::{Counts3, List};

/// Where operations are issued to: to one nodelet or to all.
#[derive(Clone, Copy, PartialEq, Eq, Debug)]
pub(crate) enum Posts {
    Nowhere,
    To(u32),
    ToAll,
}

/// What an event counts: a turn, an operation applied, a context sent away, a strand spawned; where a hinted
/// child was born, where operations were issued to, where the parent of a strand that ended has its home, and
/// from where a strand moved here.
#[derive(Clone, Copy, PartialEq, Eq, Debug)]
pub(crate) struct Counted {
    pub turn: bool,
    pub applied: bool,
    pub sent_away: bool,
    pub spawned: bool,
    pub bore_at: Option<u32>,
    pub posts: Posts,
    pub ended_for: Option<u32>,
    pub moved_from: Option<u32>,
}

impl Counted {
    /// Nothing is counted.
    pub fn nothing() -> Counted
        ensures { result ≡ record {
          turn = false;
          applied = false;
          sent_away = false;
          spawned = false;
          bore_at = None;
          posts = posts.Nowhere;
          ended_for = None;
          moved_from = None;
        } }
    {
        Counted {
            turn: false,
            applied: false,
            sent_away: false,
            spawned: false,
            bore_at: None,
            posts: Posts::Nowhere,
            ended_for: None,
            moved_from: None,
        }
    }
}

/// Another nodelet that a strand came from.
fn elsewhere(here: u32, from: Option<u32>) -> Option<u32>
    ensures { result ≡ elsewhere here from }
{
    match from {
        Some(from) if from != here => Some(from),
        _ => None,
    }
}

/// One more where something is so.
fn one_more_where(so: bool, count: u64) -> u64
    requires { count + 1 < 2 ^ 64 }
    ensures { result ≡ one_more_where so count }
{
    if so { count + 1 } else { count }
}

/// One more at a number, if there is one.
fn count_at(counts: &mut List<u64>, k: Option<u32>)
    requires there { IsUnder (length counts.old) k }
    requires room { HasRoom counts.old }
    ensures counts { slice_index counts.new ≡ with_one k (slice_index counts.old) }
    ensures grown { HasGrown counts.old counts.new }
{
    if let Some(k) = k {
        count_one(counts, k);
    }
}

/// One more at each number.
fn count_all(counts: &mut List<u64>)
    requires few { length counts.old ≤ 64 }
    requires room { HasRoom counts.old }
    ensures counts { slice_index counts.new ≡ with_all (below (length counts.old)) (slice_index counts.old) }
    ensures grown { HasGrown counts.old counts.new }
{
    let size = counts.len() as u32;
    for k in 0..size {
        count_one(counts, k);
    }
}

/// Operations are counted where they are issued to.
fn count_posts(counts: &mut List<u64>, posts: Posts)
    requires few { length counts.old ≤ 64 }
    requires there { IsUnder (length counts.old) (are_posted posts) }
    requires room { HasRoom counts.old }
    ensures counts { slice_index counts.new ≡ with_posted (length counts.old) posts (slice_index counts.old) }
    ensures grown { HasGrown counts.old counts.new }
{
    match posts {
        Posts::Nowhere => {}
        Posts::To(k) => count_at(counts, Some(k)),
        Posts::ToAll => count_all(counts),
    }
}

impl Tally {
    ghost use Rattle.std.specs.Prelude.{◌<◌, ◌≤◌, suc};
    ghost use Rattle.nodelet_core.specs.code.Tallied.{HasSize, IsBounded};
    ghost use Rattle.nodelet_core.specs.code.Counted.{NamesAmong, HasCounted};

    /// Counts what an event counts at nodelet `here` of other nodelets.
    fn count(&mut self, n: u32, here: u32, stamp: u64, event: Counted)
        requires few { n ≤ 64 }
        requires size { HasSize n self.old }
        requires bound { IsBounded stamp self.old }
        requires later { stamp + 1 < 2 ^ 64 }
        requires among { NamesAmong n event }
        ensures counted { HasCounted n here event self.old self.new }
        ensures size { HasSize n self.new }
        ensures bound { IsBounded (suc stamp) self.new }
    {
        count_at(&mut self.moves, elsewhere(here, event.moved_from));
        count_at(&mut self.births, event.bore_at);
        count_posts(&mut self.posts, event.posts);
        count_at(&mut self.dones, event.ended_for);
    }
}

/// The counts of an event that are of no other nodelet.
fn with_event(counts: Counts3, event: Counted) -> Counts3
    requires turns { counts.turns + 1 < 2 ^ 64 }
    requires applied { counts.applied + 1 < 2 ^ 64 }
    requires sent { counts.sent_contexts + 1 < 2 ^ 64 }
    ensures { result ≡ record {
      turns = one_more_where event.turn counts.turns;
      applied = one_more_where event.applied counts.applied;
      sent_contexts = one_more_where event.sent_away counts.sent_contexts;
    } }
{
    Counts3 {
        turns: one_more_where(event.turn, counts.turns),
        applied: one_more_where(event.applied, counts.applied),
        sent_contexts: one_more_where(event.sent_away, counts.sent_contexts),
    }
}

impl Nodelet {
    ghost use Rattle.std.specs.Prelude.{◌<◌};
    ghost use Rattle.core_model.specs.Nodes.{applied_here};
    ghost use Rattle.core_model.specs.Machine.{stamped_node};
    ghost use Rattle.nodelet_core.specs.code.Counted.{counted, NamesAmong};
    ghost use Rattle.nodelet_core.specs.code.Became.{Did};

    /// The nodelet has the stamp of an event, and counts what the event counts.
    pub(crate) fn count(&mut self, stamp: u64, event: Counted)
        requires later { self.old.stamp < stamp }
        requires among { NamesAmong self.old.nodelets event }
        ensures { Did (λ v. counted self.old.nodelets self.old.number event (stamped_node stamp v)) self.old self.new }
    {
        let (n, here) = (self.nodelets, self.number);
        self.tally.count(n, here, self.stamp, event);
        self.counts = with_event(self.counts, event);
        self.spawned = one_more_where(event.spawned, self.spawned);
        self.stamp = stamp;
    }

    /// The nodelet has the stamp of an event that counts nothing.
    pub(crate) fn set_stamp(&mut self, stamp: u64)
        requires later { self.old.stamp < stamp }
        ensures { Did (stamped_node stamp) self.old self.new }
    {
        self.count(stamp, Counted::nothing());
    }

    /// The nodelet has the stamp of an event that applies an operation.
    pub(crate) fn count_applied(&mut self, stamp: u64)
        requires later { self.old.stamp < stamp }
        ensures { Did (λ v. stamped_node stamp (applied_here v)) self.old self.new }
    {
        self.count(
            stamp,
            Counted {
                applied: true,
                ..Counted::nothing()
            },
        );
    }
}
