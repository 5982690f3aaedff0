//! What an action does for parents and children.

ghost use Rattle.std.specs.Prelude.{◌≡◌, true, option_map};
ghost use Rattle.threadlet_state.specs.Fit.{frames_fit};
ghost use Rattle.nodelet_core.specs.code.Doing.{Hands};

use crate::counting::Counted;
use crate::due::Hint;
use crate::nodelet::Nodelet;
use crate::operands::top_words;
use data_layout::owner;
use std::alloc::AllocError;
use threadlet_code::{Instr, Verified};
use threadlet_state::{Body, Context, Outlet, answer, started};
use word_ops::{Box, Name, Ticket};

/// What a Spawn hands to its child: a function and its arguments.
#[derive(Clone, Copy, Debug)]
pub(crate) struct Handed<'a> {
    pub function: u32,
    pub words: &'a [i64],
}

impl Nodelet {
    ghost use Rattle.std.specs.Prelude.{◌≡◌, ◌≢◌, ◌<◌, ◌-◌, ◌^◌, ℕ, suc, None, false, true, option_map, IfOk, OnOk, OnErr, Option, Some};
    ghost use Rattle.world_model.specs.Effect.{birthplace};
    ghost use Rattle.world_model.specs.Sight.{is_bad};
    ghost use Rattle.nodelet_core.specs.code.Dues.{asked, asked_hint};
    ghost use Rattle.threadlet_code.specs.declared.code.Code.{Code};
    ghost use Rattle.nodelet_core.specs.declared.due.Hint.{Hint as ChildHint};
    ghost use Rattle.word_ops.specs.declared.ticket.Ticket.{Ticket as ChildTicket};
    ghost use Rattle.spawn_tree.specs.Joining.{result_of};
    ghost use Rattle.nodelet_core.specs.Carried.{context_in};
    ghost use Rattle.core_model.specs.Effects.{ended, next_name};
    ghost use Rattle.core_model.specs.Runs.{gone};
    ghost use Rattle.nodelet_core.specs.code.Standing.{is_among};
    ghost use Rattle.merge_law.specs.Machine.{is_linked};
    ghost use Rattle.nodelet_core.specs.declared.due.Due.TheVariants as due;
    ghost use Rattle.nodelet_core.specs.Kept.{node_of, IsUnchanged};
    ghost use Rattle.nodelet_core.specs.Left.{Sent};
    ghost use Rattle.nodelet_core.specs.code.Doing.{Left, IsDueHere, HadEffect, IsChild};

    /// A child is born here, or at the owner of its hint.
    pub(crate) fn spawn<O: Outlet>(
        &mut self,
        code: &Verified,
        mut context: Context,
        hint: Option<Hint>,
        out: &mut O,
    ) -> Result<(), AllocError>
        requires due { IsDueHere code.now.code self.old context (due.Spawn hint) }
        requires reaches { (k : ℕ) → is_linked self.old.nodelets self.old.number k ≡ true → O.reaches out.old k ≡ true }
        ensures ok { OnOk result (HadEffect code.now.code self.old self.new (O.sent out.old) (O.sent out.new) context (due.Spawn hint)) }
        ensures err { OnErr result (IsUnchanged self.old self.new) }
        ensures not_sent { OnErr result ((k : ℕ) → O.sent out.new k ≡ O.sent out.old k) }
        ensures reaches { (k : ℕ) → O.reaches out.new k ≡ O.reaches out.old k }
        ensures made { (k : ℕ) → O.made out.new k ≡ O.made out.old k }
    {
        let home = self.birthplace(hint);
        let child = self.child_of(code, &context, home)?;
        answer(&mut context, code, &[])?;
        let counted = Counted {
            spawned: true,
            bore_at: hinted_to(hint, home),
            ..Counted::nothing()
        };
        if home == self.number {
            self.add(child)?;
            self.go_on(context, counted);
            return Ok(());
        }
        let child = Box::new(self.alloc, child)?;
        out.reserve(home, 1)?;
        self.go_on(
            context,
            Counted {
                sent_away: true,
                ..counted
            },
        );
        self.send(home, Body::Ctx(child), out);
        Ok(())
    }

    /// Where a child is born by its hint, which is not bad: here, or at the owner of the hint.
    fn birthplace(&self, hint: Option<Hint>) -> u32
        requires good { is_bad self.now.nodelets (asked (due.Spawn hint)) ≡ false }
        ensures place { result ≡ birthplace self.now.nodelets self.now.number (option_map asked_hint hint) }
        ensures within { result < self.now.nodelets }
    {
        match hint {
            None => self.number,
            Some(hint) => owner(hint.address, self.number, self.nodelets),
        }
    }

    /// The child that the Spawn gives birth to before which a context stands, at nodelet `home`.
    fn child_of(&self, code: &Verified, context: &Context, home: u32) -> Result<Context, AllocError>
        requires due { (hint : Option ChildHint) × IsDueHere code.now.code self.now context.now (due.Spawn hint) }
        ensures { IfOk result (IsChild code.now.code self.now context.now home) }
    {
        let handed = handed_by(code, context);
        let depth = context.frames.len();
        let ticket = Ticket {
            parent: context.name,
            home: context.home,
            depth: depth as u32,
            order: context.frames.at(depth - 1).targets.len() as u64,
        };
        started(
            self.alloc,
            code,
            handed.function,
            handed.words,
            self.next_name(),
            home,
            Some(ticket),
        )
    }

    /// A Sync brings the results of the activation's children to their slots.
    pub(crate) fn join(&mut self, code: &Verified, mut context: Context) -> Result<(), AllocError>
        requires due { IsDueHere code.now.code self.old context due.Sync }
        ensures ok { OnOk result ((sent : Sent) → HadEffect code.now.code self.old self.new sent sent context due.Sync) }
        ensures err { OnErr result (IsUnchanged self.old self.new) }
    {
        let depth = context.frames.len();
        let owed = context.frames.at(depth - 1).targets.len() as u64;
        let results = self.take_results(context.name, depth as u32, owed)?;
        answer(&mut context, code, results.as_slice())?;
        self.go_on(context, Counted::nothing());
        Ok(())
    }

    /// A strand ends: its result is kept here where its parent's home is here, and else sent there; main's is kept
    /// where it ends.
    pub(crate) fn end<O: Outlet>(
        &mut self,
        context: Context,
        value: i64,
        out: &mut O,
    ) -> Result<(), AllocError>
        requires stamp { self.old.stamp < 2 ^ 64 - 1 }
        requires among { is_among self.old.nodelets context ≡ true }
        requires free { (t : ChildTicket) → context.ticket ≡ Some t → t.home ≡ self.old.number → result_of self.old.joins t.parent t.depth t.order ≡ None }
        requires reaches { (k : ℕ) → is_linked self.old.nodelets self.old.number k ≡ true → O.reaches out.old k ≡ true }
        ensures ok { OnOk result ((code : Code) (count : ℕ) → Left code (suc self.old.stamp) self.old self.new (O.sent out.old) (O.sent out.new)
            (gone (context_in code context) count (ended self.old.number (node_of code self.old) context.ticket value))) }
        ensures err { OnErr result (IsUnchanged self.old self.new) }
        ensures not_sent { OnErr result ((k : ℕ) → O.sent out.new k ≡ O.sent out.old k) }
        ensures reaches { (k : ℕ) → O.reaches out.new k ≡ O.reaches out.old k }
        ensures made { (k : ℕ) → O.made out.new k ≡ O.made out.old k }
    {
        let name = context.name;
        let Some(ticket) = context.ticket else {
            self.keep_value(value);
            self.go(name, Counted::nothing());
            return Ok(());
        };
        let counted = Counted {
            ended_for: Some(ticket.home),
            ..Counted::nothing()
        };
        if ticket.home == self.number {
            self.keep_result(ticket, value)?;
            self.go(name, counted);
            return Ok(());
        }
        out.reserve(ticket.home, 1)?;
        self.go(name, counted);
        let done = Body::Done {
            ticket,
            result: value,
        };
        self.send(ticket.home, done, out);
        Ok(())
    }

    /// The name of the next strand that is spawned here.
    pub(crate) fn next_name(&self) -> Name
        requires stamp { self.now.stamp < 2 ^ 64 - 1 }
        ensures { (code : Code) → result ≡ next_name self.now.number (node_of code self.now) }
    {
        // Nodelet 0 gave number 0 to main.
        let first = u64::from(self.number == 0);
        Name {
            nodelet: self.number,
            number: self.spawned + first,
        }
    }
}

/// The nodelet where a hinted child is born, and none where there is no hint.
fn hinted_to(hint: Option<Hint>, home: u32) -> Option<u32>
    ensures { result ≡ option_map (λ _. home) hint }
{
    match hint {
        None => None,
        Some(_) => Some(home),
    }
}

/// What the Spawn hands to its child before which a context stands.
fn handed_by<'a>(code: &'a Verified, context: &'a Context) -> Handed<'a>
    requires fits { frames_fit code.now.code context.now.frames ≡ true }
    ensures { Hands code.now.code context.now.frames result }
{
    let text = code.code();
    let frame = context.frames.at(context.frames.len() - 1);
    let f = text.functions.at(frame.function as usize);
    match *f.body.at(frame.at as usize) {
        Instr::Spawn { function, .. } => {
            let params = text.functions.at(function as usize).params as usize;
            Handed {
                function,
                words: top_words(frame, f, params),
            }
        }
        _ => Handed {
            function: 0,
            words: &[],
        },
    }
}
