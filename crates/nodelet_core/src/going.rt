//! Whether a context can go on.

ghost use Rattle.std.specs.Prelude.{◌≡◌, true};
ghost use Rattle.std.specs.List.{list_all, list_any};
ghost use Rattle.threadlet_state.specs.Fit.{frames_fit};
ghost use Rattle.nodelet_core.specs.Kept.{context_fits, is_at_turn};

use crate::due::{Due, next_due};
use crate::next::Next;
use crate::nodelet::Nodelet;
use crate::sight::{Sight, Way, way_of};
use threadlet_code::Verified;
use threadlet_state::Context;
use word_ops::{Name, Ticket};

impl Nodelet {
    ghost use Rattle.std.specs.Prelude.{◌≡◌, ◌<◌, ◌≤◌, ◌&&◌, not, nat_lt, length, Some, true};
    ghost use Rattle.std.specs.List.{list_any};
    ghost use Rattle.world_model.specs.Action.{Action};
    ghost use Rattle.threadlet_code.specs.declared.code.Code.{Code};
    ghost use Rattle.threadlet_code.specs.Machine.{step};
    ghost use Rattle.threadlet_code.specs.Running.{halt};
    ghost use Rattle.threadlet_state.specs.Activations.{state_of};
    ghost use Rattle.threadlet_state.specs.Fit.{frames_fit};
    ghost use Rattle.nodelet_core.specs.Carried.{context_in};
    ghost use Rattle.nodelet_core.specs.code.Dues.{asked, due_of, way_seen};
    ghost use Rattle.nodelet_core.specs.declared.due.Due.TheVariants.{Sync};
    ghost use Rattle.core_model.specs.Runs as runs;
    ghost use Rattle.core_model.specs.Runs.{are_recorded};
    ghost use Rattle.nodelet_core.specs.Kept.{node_of, setup_of, all_fit, carried_at, is_at_turn, next_by, SeesFor};

    /// Whether the context of a name can go on: it waits exactly where it is not here, or an action comes next
    /// that can neither be done here nor sent elsewhere now (docs/machine.md, "Nodelets"). Takes no memory.
    pub fn next(&self, code: &Verified, name: Name) -> Next
        requires fits { all_fit code.now.code self.now ≡ true }
        ensures { result ≡ next_by (runs.run (setup_of code.now.code self.now) self.now.number (node_of code.now.code self.now) name) }
    {
        match self.standing.find(name) {
            None => Next::Waits,
            Some(context) => self.next_of(code, context),
        }
    }

    /// Whether a context here stands at a Turn while no turn is left (docs/machine.md, "Nodelets"). Takes no
    /// memory.
    pub fn lacks_turn(&self, code: &Verified) -> bool
        requires fits { all_fit code.now.code self.now ≡ true }
        ensures { result ≡ (list_any (is_at_turn code.now.code) (carried_at self.now) && not (nat_lt self.now.counts.turns self.now.turns)) }
    {
        self.counts.turns >= self.turns && any_at_turn(self.standing.contexts(), code)
    }

    /// Whether a context that is here can go on.
    fn next_of(&self, code: &Verified, context: &Context) -> Next
        requires home { context.now.home < self.now.nodelets }
        requires fits { frames_fit code.now.code context.now.frames ≡ true }
        ensures { result ≡ next_by (runs.taken_up (setup_of code.now.code self.now) self.now.number (node_of code.now.code self.now)
            (context_in code.now.code context.now) (halt code.now.code (state_of code.now.code context.now.frames))) }
    {
        match next_due(context, code) {
            None => Next::Goes,
            Some(due) => match self.way(code, context, due) {
                Way::Waits => Next::Waits,
                _ => Next::Goes,
            },
        }
    }

    /// What becomes of the action before which a context here stands.
    pub(crate) fn way(&self, code: &Verified, context: &Context, due: Due) -> Way
        requires home { context.now.home < self.now.nodelets }
        requires fits { frames_fit code.now.code context.now.frames ≡ true }
        ensures { (action : Action) → runs.action_in (step code.now.code (state_of code.now.code context.now.frames)) ≡ Some action → due_of action ≡ due →
            way_seen result ≡ runs.way_of self.now.nodelets self.now.turns
            (runs.sight_at self.now.number (node_of code.now.code self.now) (context_in code.now.code context.now) (state_of code.now.code context.now.frames))
            action (runs.is_free self.now.number (node_of code.now.code self.now) context.now.ticket action) }
    {
        let sight = self.sight(context, due);
        let free = self.is_free(context.ticket, due);
        way_of(self.nodelets, self.turns, &sight, due, free)
    }

    /// What a context sees here that is due an action; only a Sync looks at children that have ended.
    fn sight(&self, context: &Context, due: Due) -> Sight
        requires some { 1 ≤ length context.now.frames }
        requires few { length context.now.frames ≤ 256 }
        ensures { SeesFor self.now context.now due result }
    {
        let depth = context.frames.len();
        let owed = context.frames.at(depth - 1).targets.len();
        Sight {
            here: self.number,
            home: context.home,
            clear: self.under_way.is_clear(context.name),
            served: self.counts.turns,
            childless: owed == 0,
            all_ended: self.have_ended(context.name, depth as u32, owed as u64, due),
            late: context.late,
        }
    }

    /// All children that a Sync waits for have their results here; for any other action nobody looks.
    fn have_ended(&self, parent: Name, depth: u32, count: u64, due: Due) -> bool
        ensures { (code : Code) → due ≡ Sync → result ≡ are_recorded (node_of code self.now) parent depth count }
    {
        match due {
            Due::Sync => self.joins.ready(parent, depth, count),
            _ => false,
        }
    }

    /// An End whose result stays here is free where that is not here yet, and any other action always.
    fn is_free(&self, ticket: Option<Ticket>, due: Due) -> bool
        ensures { (code : Code) → result ≡ runs.is_free self.now.number (node_of code self.now) ticket (asked due) }
    {
        match (ticket, due) {
            (Some(ticket), Due::End { .. }) if ticket.home == self.number => {
                !self.joins.has(ticket.parent, ticket.depth, ticket.order)
            }
            _ => true,
        }
    }
}

/// One of some contexts stands at a Turn.
fn any_at_turn(contexts: &[Context], code: &Verified) -> bool
    requires fits { list_all (context_fits code.now.code) contexts.now ≡ true }
    ensures { result ≡ list_any (is_at_turn code.now.code) contexts.now }
{
    contexts.iter().any(
        |context|
            requires { frames_fit code.now.code context.now.frames ≡ true }
        { stands_at_turn(context, code) },
    )
}

/// A context stands at a Turn.
fn stands_at_turn(context: &Context, code: &Verified) -> bool
    requires fits { frames_fit code.now.code context.now.frames ≡ true }
    ensures { result ≡ is_at_turn code.now.code context.now }
{
    match next_due(context, code) {
        Some(Due::Turn) => true,
        _ => false,
    }
}
