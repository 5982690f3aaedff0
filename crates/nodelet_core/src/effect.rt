//! The effect of an action that is done at a nodelet. Each call takes its memory before it changes anything.

use crate::counting::Counted;
use crate::due::Due;
use crate::nodelet::Nodelet;
use core_model::Trapped;
use std::alloc::AllocError;
use threadlet_code::Verified;
use threadlet_state::{Context, Outlet, answer};
use word_ops::{Name, Pos, TrapKind};

impl Nodelet {
    ghost use Rattle.std.specs.Prelude.{◌≡◌, ◌<◌, ◌-◌, ◌^◌, ℕ, [], ◌∷◌, true, Contains, OnOk, OnErr};
    ghost use Rattle.merge_law.specs.Machine.{is_linked};
    ghost use Rattle.nodelet_core.specs.declared.due.Due.TheVariants as due;
    ghost use Rattle.nodelet_core.specs.code.Standing.{is_among};
    ghost use Rattle.nodelet_core.specs.code.Counted.{IsUnder, NamesAmong};
    ghost use Rattle.nodelet_core.specs.Kept.{names_at, IsUnchanged};
    ghost use Rattle.nodelet_core.specs.Left.{Sent};
    ghost use Rattle.nodelet_core.specs.code.Became.{Became};
    ghost use Rattle.nodelet_core.specs.code.Doing.{IsDueHere, HadEffect, PassesWith, is_quiet, goes_on_at, goes_from, traps_at, placed};

    /// The action that a context is due has its effect here: the context goes on, or is gone. Want of memory changes
    /// nothing.
    pub(crate) fn effect<O: Outlet>(
        &mut self,
        code: &Verified,
        context: Context,
        due: Due,
        out: &mut O,
    ) -> Result<(), AllocError>
        requires due { IsDueHere code.now.code self.old context due }
        requires reaches { (k : ℕ) → is_linked self.old.nodelets self.old.number k ≡ true → O.reaches out.old k ≡ true }
        ensures ok { OnOk result (HadEffect code.now.code self.old self.new (O.sent out.old) (O.sent out.new) context due) }
        ensures err { OnErr result (IsUnchanged self.old self.new) }
        ensures not_sent { OnErr result ((k : ℕ) → O.sent out.new k ≡ O.sent out.old k) }
        ensures reaches { (k : ℕ) → O.reaches out.new k ≡ O.reaches out.old k }
        ensures made { (k : ℕ) → O.made out.new k ≡ O.made out.old k }
    {
        match due {
            Due::Issue { .. } | Due::Init { .. } => self.post(code, context, due, out),
            Due::Alloc { request } => self.allocate(code, context, request, out),
            Due::Spawn { hint } => self.spawn(code, context, hint, out),
            Due::End { value } => self.end(context, value, out),
            due => self.quiet_effect(code, context, due),
        }
    }

    /// The effect of an action that sends nothing.
    fn quiet_effect(
        &mut self,
        code: &Verified,
        context: Context,
        due: Due,
    ) -> Result<(), AllocError>
        requires due { IsDueHere code.now.code self.old context due }
        requires quiet { is_quiet due ≡ true }
        ensures ok { OnOk result ((sent : Sent) → HadEffect code.now.code self.old self.new sent sent context due) }
        ensures err { OnErr result (IsUnchanged self.old self.new) }
    {
        match due {
            Due::Turn => self.serve_turn(code, context),
            Due::Load { pos, address } => self.load(code, context, pos, address),
            Due::Fetch {
                pos,
                fetch,
                address,
            } => self.exchange(code, context, pos, fetch, address),
            Due::Print => self.print(code, context),
            Due::Sync => self.join(code, context),
            Due::Where => {
                let here = i64::from(self.number);
                self.pass(code, context, due, &[here])
            }
            Due::Trap { pos, kind } => {
                self.trap(context.name, kind, pos, None);
                Ok(())
            }
            _ => self.pass(code, context, due, &[]),
        }
    }

    /// A Fence, a Move, a Where or a Load changes only the context, which goes on with an answer.
    pub(crate) fn pass(
        &mut self,
        code: &Verified,
        mut context: Context,
        due: Due,
        words: &[i64],
    ) -> Result<(), AllocError>
        requires due { IsDueHere code.now.code self.old context due }
        requires passes { PassesWith self.old due words.now }
        ensures ok { OnOk result ((sent : Sent) → HadEffect code.now.code self.old self.new sent sent context due) }
        ensures err { OnErr result (IsUnchanged self.old self.new) }
    {
        answer(&mut context, code, words)?;
        self.go_on(context, Counted::nothing());
        Ok(())
    }

    /// One more turn is served.
    fn serve_turn(&mut self, code: &Verified, mut context: Context) -> Result<(), AllocError>
        requires due { IsDueHere code.now.code self.old context due.Turn }
        ensures ok { OnOk result ((sent : Sent) → HadEffect code.now.code self.old self.new sent sent context due.Turn) }
        ensures err { OnErr result (IsUnchanged self.old self.new) }
    {
        answer(&mut context, code, &[])?;
        self.go_on(
            context,
            Counted {
                turn: true,
                ..Counted::nothing()
            },
        );
        Ok(())
    }

    /// A context goes on here in place of the one of its name, in an event that counts this besides where it came
    /// from.
    pub(crate) fn go_on(&mut self, mut context: Context, counted: Counted)
        requires stamp { self.old.stamp < 2 ^ 64 - 1 }
        requires here { Contains (names_at self.old) context.name }
        requires among { is_among self.old.nodelets context ≡ true }
        requires counted { NamesAmong self.old.nodelets counted }
        ensures { Became (goes_on_at self.old.nodelets self.old.number counted context) (placed self.old.number context ∷ []) self.old self.new }
    {
        self.count(
            self.stamp + 1,
            Counted {
                moved_from: Some(context.place),
                ..counted
            },
        );
        context.place = self.number;
        self.replace(context);
    }

    /// The context of a name is gone, in an event that counts this.
    pub(crate) fn go(&mut self, name: Name, counted: Counted)
        requires stamp { self.old.stamp < 2 ^ 64 - 1 }
        requires counted { NamesAmong self.old.nodelets counted }
        ensures { Became (goes_from self.old.nodelets self.old.number counted name) [] self.old self.new }
    {
        self.count(self.stamp + 1, counted);
        self.depart(name);
    }

    /// A strand traps here and is gone; its step may have changed its place.
    pub(crate) fn trap(&mut self, name: Name, kind: TrapKind, pos: Pos, moved_from: Option<u32>)
        requires stamp { self.old.stamp < 2 ^ 64 - 1 }
        requires from { IsUnder self.old.nodelets moved_from }
        ensures { Became (traps_at self.old.number name kind pos moved_from) [] self.old self.new }
    {
        self.go(
            name,
            Counted {
                moved_from,
                ..Counted::nothing()
            },
        );
        self.note_trap(Trapped {
            stamp: self.stamp,
            kind,
            pos,
            name,
        });
    }
}
