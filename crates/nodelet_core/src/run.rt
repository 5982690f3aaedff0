//! A context goes on at a nodelet, up to its next action.

use crate::counting::Counted;
use crate::due::{Due, next_due};
use crate::nodelet::Nodelet;
use crate::sight::{Way, pos_of};
use data_layout::owner;
use std::alloc::AllocError;
use threadlet_code::Verified;
use threadlet_state::{Body, Context, Outlet, copied, run_silent};
use word_ops::{Box, Entry, List, Name, NodeEvent, Step, TrapKind};

impl Nodelet {
    ghost use Rattle.std.specs.Prelude.{◌≡◌, ◌≢◌, ◌<◌, ◌≤◌, ◌-◌, ◌^◌, ℕ, suc, [], ◌∷◌, Contains, is_some, option_map, false, true, IfOk, OnOk, OnErr, Some};
    ghost use Rattle.threadlet_code.specs.declared.code.Code.{Code};
    ghost use Rattle.threadlet_state.specs.Activations.{state_of};
    ghost use Rattle.threadlet_state.specs.Fit.{frames_fit};
    ghost use Rattle.world_model.specs.Sight.{is_bad};
    ghost use Rattle.world_model.specs.Step.{used_at_once};
    ghost use Rattle.merge_law.specs.Machine.{is_linked};
    ghost use Rattle.nodelet_core.specs.Kept.{node_of, setup_of, all_fit, names_at, next_by, IsUnchanged};
    ghost use Rattle.nodelet_core.specs.declared.next.Next.TheVariants.{Goes};
    ghost use Rattle.core_model.specs.Runs as runs;
    ghost use Rattle.nodelet_core.specs.Left.{Sent, HasRun};
    ghost use Rattle.core_model.specs.Nodes as nodes;
    ghost use Rattle.nodelet_core.specs.Carried.{context_in};
    ghost use Rattle.core_model.specs.Machine.{stamped_node};
    ghost use Rattle.nodelet_core.specs.code.Dues.{asked};
    ghost use Rattle.nodelet_core.specs.code.Standing.{is_among};
    ghost use Rattle.nodelet_core.specs.code.Became.{Became};
    ghost use Rattle.nodelet_core.specs.code.Doing.{Left, CanStand, IsWayOf, FollowedWay, LeavesEntry, child_named};

    /// The context of a name that is here goes on: it takes up its silent instructions, and then the action
    /// behind them, which is done here, or for which the context is sent away whole, or before which it stays.
    /// Want of memory changes nothing (docs/machine.md, "Nodelets").
    pub fn run<O: Outlet>(
        &mut self,
        code: &Verified,
        name: Name,
        out: &mut O,
    ) -> Result<(), AllocError>
        requires stamp { self.old.stamp < 2 ^ 64 - 1 }
        requires goes { next_by (runs.run (setup_of code.now.code self.old) self.old.number (node_of code.now.code self.old) name) ≡ Goes }
        requires fits { all_fit code.now.code self.old ≡ true }
        requires reaches { (k : ℕ) → k < self.old.nodelets → k ≢ self.old.number → O.reaches out.old k ≡ true }
        ensures ok { OnOk result (HasRun code.now.code self.old self.new (O.sent out.old) (O.sent out.new) name) }
        ensures fits { all_fit code.now.code self.new ≡ true }
        ensures err { OnErr result (IsUnchanged self.old self.new) }
        ensures not_sent { OnErr result ((k : ℕ) → O.sent out.new k ≡ O.sent out.old k) }
        ensures reaches { (k : ℕ) → O.reaches out.new k ≡ O.reaches out.old k }
        ensures made { (k : ℕ) → O.made out.new k ≡ O.made out.old k }
    {
        let room = std::mem::replace(&mut self.room, List::new(self.alloc));
        let Some(context) = self.standing.find(name) else {
            return Ok(());
        };
        let mut context = copied(context, room)?;
        let silent = run_silent(&mut context, code)?;
        let Some(due) = next_due(&context, code) else {
            return Ok(());
        };
        let way = self.way(code, &context, due);
        self.enter(self.entry_of(&context, silent, due, way))?;
        let done = self.follow(code, context, due, way, out);
        if done.is_err() {
            self.withdraw_entry();
        }
        done
    }

    /// The entry of a context that has done so many silent instructions, by what becomes of its action.
    fn entry_of(&self, context: &Context, silent: u64, due: Due, way: Way) -> Entry
        requires stamp { self.now.stamp < 2 ^ 64 - 1 }
        requires few { silent < 2 ^ 64 - 1 }
        ensures { (code : Code) → LeavesEntry code self.now context.now silent due way result }
    {
        let name = context.name;
        let (count, step) = match way {
            Way::Waits => (silent, None),
            Way::SentTo { .. } => (silent + 1, None),
            Way::Refused { .. } => (silent + 1, Some(Step::Act { name, child: None })),
            Way::DoneHere => (
                silent + 1,
                Some(Step::Act {
                    name,
                    child: self.child_name(due),
                }),
            ),
        };
        Entry {
            stamp: self.stamp + 1,
            event: NodeEvent::Run { name, count },
            step,
        }
    }

    /// The name of the child that an action gives birth to, if it is a Spawn.
    fn child_name(&self, due: Due) -> Option<Name>
        requires stamp { self.now.stamp < 2 ^ 64 - 1 }
        ensures { (code : Code) → result ≡ child_named self.now.number (node_of code self.now) due }
    {
        match due {
            Due::Spawn { .. } => Some(self.next_name()),
            _ => None,
        }
    }

    /// What becomes of the action of a context is done. Want of memory changes nothing.
    fn follow<O: Outlet>(
        &mut self,
        code: &Verified,
        context: Context,
        due: Due,
        way: Way,
        out: &mut O,
    ) -> Result<(), AllocError>
        requires stands { CanStand code.now.code self.old context }
        requires way { IsWayOf code.now.code self.old context due way }
        requires reaches { (k : ℕ) → is_linked self.old.nodelets self.old.number k ≡ true → O.reaches out.old k ≡ true }
        ensures ok { OnOk result (FollowedWay code.now.code self.old self.new (O.sent out.old) (O.sent out.new) context due way) }
        ensures err { OnErr result (IsUnchanged self.old self.new) }
        ensures not_sent { OnErr result ((k : ℕ) → O.sent out.new k ≡ O.sent out.old k) }
        ensures reaches { (k : ℕ) → O.reaches out.new k ≡ O.reaches out.old k }
        ensures made { (k : ℕ) → O.made out.new k ≡ O.made out.old k }
    {
        let name = context.name;
        match way {
            Way::Waits => {
                self.stay(context);
                Ok(())
            }
            Way::SentTo { nodelet } => self.send_whole(context, nodelet, out),
            Way::Refused { kind, pos } => {
                self.trap(name, kind, pos, None);
                Ok(())
            }
            Way::DoneHere if self.is_outside(due) => {
                self.trap(
                    name,
                    TrapKind::OutOfBounds,
                    pos_of(due),
                    Some(context.place),
                );
                Ok(())
            }
            Way::DoneHere => self.effect(code, context, due, out),
        }
    }

    /// A context stays before its action, where it has got further.
    fn stay(&mut self, context: Context)
        requires stamp { self.old.stamp < 2 ^ 64 - 1 }
        requires here { Contains (names_at self.old) context.name }
        requires among { is_among self.old.nodelets context ≡ true }
        ensures { Became (λ code v. nodes.with_strand (stamped_node (suc v.stamp) v) (context_in code context)) (context ∷ []) self.old self.new }
    {
        self.count(self.stamp + 1, Counted::nothing());
        self.replace(context);
    }

    /// A context is sent whole to another nodelet, to act there. Want of memory changes nothing.
    fn send_whole<O: Outlet>(
        &mut self,
        context: Context,
        to: u32,
        out: &mut O,
    ) -> Result<(), AllocError>
        requires stamp { self.old.stamp < 2 ^ 64 - 1 }
        requires linked { is_linked self.old.nodelets self.old.number to ≡ true }
        requires reaches { O.reaches out.old to ≡ true }
        ensures ok { OnOk result ((code : Code) → frames_fit code context.frames ≡ true →
            Left code (suc self.old.stamp) self.old self.new (O.sent out.old) (O.sent out.new) (runs.sent_whole (node_of code self.old) (context_in code context) (state_of code context.frames) 0 to)) }
        ensures err { OnErr result (IsUnchanged self.old self.new) }
        ensures not_sent { OnErr result ((k : ℕ) → O.sent out.new k ≡ O.sent out.old k) }
        ensures reaches { (k : ℕ) → O.reaches out.new k ≡ O.reaches out.old k }
        ensures made { (k : ℕ) → O.made out.new k ≡ O.made out.old k }
    {
        let name = context.name;
        let context = Box::new(self.alloc, context)?;
        out.reserve(to, 1)?;
        self.go(
            name,
            Counted {
                sent_away: true,
                ..Counted::nothing()
            },
        );
        self.send(to, Body::Ctx(context), out);
        Ok(())
    }

    /// An action that is not bad would use a word here that is not granted.
    fn is_outside(&self, due: Due) -> bool
        requires good { is_bad self.now.nodelets (asked due) ≡ false }
        ensures { (code : Code) → result ≡ is_some (runs.outside (setup_of code self.now) self.now.number (node_of code self.now) (asked due)) }
    {
        match self.used_here(due) {
            None => false,
            Some(address) => !self.is_granted(address),
        }
    }

    /// The address of the word here that an action that is not bad would use, if it is one of this nodelet's.
    fn used_here(&self, due: Due) -> Option<i64>
        requires good { is_bad self.now.nodelets (asked due) ≡ false }
        ensures { result ≡ option_map (λ used. used.1) (used_at_once self.now.nodelets self.now.number (asked due)) }
    {
        match due {
            Due::Load { address, .. } => Some(address),
            Due::Fetch { address, .. } => Some(address),
            Due::Init { address, .. } => Some(address),
            Due::Issue { address, .. } => {
                if owner(address, self.number, self.nodelets) == self.number {
                    Some(address)
                } else {
                    None
                }
            }
            _ => None,
        }
    }
}
