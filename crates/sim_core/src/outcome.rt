//! How a run has ended, as its core shows.

ghost use Rattle.std.specs.Prelude.{◌≡◌, ◌==◌, true, slice_get, filter_map, find};
ghost use Rattle.word_ops.specs.Report.{below};
ghost use Rattle.threadlet_code.specs.declared.code.Code.{Code};
ghost use Rattle.merge_law.specs.Machine.{last_stamp};
ghost use Rattle.word_ops.specs.declared.ending.End.TheVariants.{Spent};
ghost use Rattle.sim_core.specs.code.Earlier.{earlier_of};
ghost use Rattle.core_model.specs.CoreEnd.{earliest, kept_traps, lacks_turn_at, end_in_core};
ghost use Rattle.sim_core.specs.Kept.{setup_in, core_in, core_fits};

use crate::machine::Core;
use nodelet_core::Trapped;
use threadlet_code::Verified;
use word_ops::{End, SpentCause};

impl Core {
    /// How the run has ended that led here: by the first trap, else with main's value, else where stamps or turns are
    /// spent (docs/machine.md, "Endings"). Takes no memory.
    pub fn end(&self, code: &Verified) -> End
        requires fits { core_fits code.now.code self.now ≡ true }
        ensures { result ≡ end_in_core (setup_in code.now.code self.now) (core_in code.now.code self.now) }
    {
        if let Some(
            Trapped {
                kind,
                pos,
                name,
                ..
            },
        ) = self.earliest_trap()
        {
            return End::Trap { kind, pos, name };
        }
        if let Some(value) = self.main_value() {
            return End::Done { value };
        }
        if let Some(nodelet) = self.without_stamps() {
            return spent(nodelet, SpentCause::Stamps);
        }
        match self.without_turns(code) {
            None => spent(0, SpentCause::Turns),
            Some(nodelet) => spent(nodelet, SpentCause::Turns),
        }
    }

    /// The trap of the least stamp, and of those the one at the least nodelet.
    fn earliest_trap(&self) -> Option<Trapped>
        ensures { (code : Code) → result ≡ earliest (kept_traps (setup_in code self.now) (core_in code self.now)) }
    {
        let mut first = None;
        for k in 0..self.count {
            first = earlier(first, self.node(k).trapped());
        }
        first
    }

    /// Main's value, if main has ended.
    fn main_value(&self) -> Option<i64>
        ensures { (code : Code) → result ≡ slice_get (filter_map (λ k. ((core_in code self.now).nodes k).main_value) (below self.now.count)) 0 }
    {
        for k in 0..self.count {
            let ended = self.node(k).ended();
            if ended.is_some() {
                return ended;
            }
        }
        None
    }

    /// The least nodelet that has the last stamp.
    fn without_stamps(&self) -> Option<u32>
        ensures { (code : Code) → result ≡ find (λ k. ((core_in code self.now).nodes k).stamp == last_stamp) (below self.now.count) }
    {
        for k in 0..self.count {
            if self.node(k).stamp() == u64::MAX {
                return Some(k);
            }
        }
        None
    }

    /// The least nodelet at which a context lacks a turn.
    fn without_turns(&self, code: &Verified) -> Option<u32>
        requires fits { core_fits code.now.code self.now ≡ true }
        ensures { result ≡ find (λ k. lacks_turn_at (setup_in code.now.code self.now) ((core_in code.now.code self.now).nodes k)) (below self.now.count) }
    {
        for k in 0..self.count {
            if self.node(k).lacks_turn(code) {
                return Some(k);
            }
        }
        None
    }
}

/// A run is cut short at a nodelet.
fn spent(nodelet: u32, cause: SpentCause) -> End
    ensures { result ≡ Spent nodelet cause }
{
    End::Spent { nodelet, cause }
}

/// The earlier of two traps, the first where they are alike.
fn earlier(first: Option<Trapped>, next: Option<Trapped>) -> Option<Trapped>
    ensures { result ≡ earlier_of first next }
{
    match (first, next) {
        (None, next) => next,
        (first, None) => first,
        (Some(first), Some(next)) => Some(if next.stamp < first.stamp {
            next
        } else {
            first
        }),
    }
}
