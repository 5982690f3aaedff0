//! What an action does to words, here and at other nodelets.

use crate::counting::{Counted, Posts};
use crate::due::Due;
use crate::nodelet::Nodelet;
use crate::sending::{Item, body_of};
use data_layout::owner;
use mem_atomics::{FetchOp, Op, apply, fetch};
use std::alloc::AllocError;
use threadlet_code::Verified;
use threadlet_state::{Context, Outlet, answer};
use word_ops::Pos;

impl Nodelet {
    ghost use Rattle.std.specs.Prelude.{◌≡◌, ◌≢◌, ◌<◌, ◌≤◌, ℕ, true, IfOk, OnOk, OnErr, Some};
    ghost use Rattle.data_layout.specs.Address.{owner_of};
    ghost use Rattle.merge_law.specs.Machine.{is_linked};
    ghost use Rattle.nodelet_core.specs.declared.due.Due.TheVariants as due;
    ghost use Rattle.nodelet_core.specs.Kept.{IsUnchanged};
    ghost use Rattle.nodelet_core.specs.Left.{Sent};
    ghost use Rattle.nodelet_core.specs.code.Doing.{IsDueHere, HadEffect, is_post};

    /// A load answers the word.
    pub(crate) fn load(
        &mut self,
        code: &Verified,
        context: Context,
        pos: Pos,
        address: i64,
    ) -> Result<(), AllocError>
        requires due { IsDueHere code.now.code self.old context (due.Load pos address) }
        ensures ok { OnOk result ((sent : Sent) → HadEffect code.now.code self.old self.new sent sent context (due.Load pos address)) }
        ensures err { OnErr result (IsUnchanged self.old self.new) }
    {
        let word = self.word(address);
        self.pass(code, context, Due::Load { pos, address }, &[word])
    }

    /// A fetch answers the old word and leaves the new one.
    pub(crate) fn exchange(
        &mut self,
        code: &Verified,
        mut context: Context,
        pos: Pos,
        by: FetchOp,
        address: i64,
    ) -> Result<(), AllocError>
        requires due { IsDueHere code.now.code self.old context (due.Fetch pos by address) }
        ensures ok { OnOk result ((sent : Sent) → HadEffect code.now.code self.old self.new sent sent context (due.Fetch pos by address)) }
        ensures err { OnErr result (IsUnchanged self.old self.new) }
    {
        let _ = pos;
        let old = self.word(address);
        answer(&mut context, code, &[old])?;
        self.store(address, fetch(by, old))?;
        self.go_on(context, Counted::nothing());
        Ok(())
    }

    /// An operation is applied where this nodelet owns the word, and else sent to the owner; an Init is applied here
    /// and sent to all others.
    pub(crate) fn post<O: Outlet>(
        &mut self,
        code: &Verified,
        context: Context,
        due: Due,
        out: &mut O,
    ) -> Result<(), AllocError>
        requires post { is_post due ≡ true }
        requires due { IsDueHere code.now.code self.old context due }
        requires reaches { (k : ℕ) → is_linked self.old.nodelets self.old.number k ≡ true → O.reaches out.old k ≡ true }
        ensures ok { OnOk result (HadEffect code.now.code self.old self.new (O.sent out.old) (O.sent out.new) context due) }
        ensures err { OnErr result (IsUnchanged self.old self.new) }
        ensures not_sent { OnErr result ((k : ℕ) → O.sent out.new k ≡ O.sent out.old k) }
        ensures reaches { (k : ℕ) → O.reaches out.new k ≡ O.reaches out.old k }
        ensures made { (k : ℕ) → O.made out.new k ≡ O.made out.old k }
    {
        match due {
            Due::Init { pos, address, word } => {
                self.initialize(code, context, pos, address, word, out)
            }
            Due::Issue {
                pos,
                op,
                address,
                word,
            } if owner(address, self.number, self.nodelets) == self.number => {
                self.operate_here(code, context, pos, op, address, word)
            }
            Due::Issue {
                pos,
                op,
                address,
                word,
            } => self.issue(code, context, pos, op, address, word, out),
            _ => Ok(()),
        }
    }

    /// An operation on a word of this nodelet.
    fn operate_here(
        &mut self,
        code: &Verified,
        mut context: Context,
        pos: Pos,
        op: Op,
        address: i64,
        word: i64,
    ) -> Result<(), AllocError>
        requires owned { owner_of address self.old.number self.old.nodelets ≡ self.old.number }
        requires due { IsDueHere code.now.code self.old context (due.Issue pos op address word) }
        ensures ok { OnOk result ((sent : Sent) → HadEffect code.now.code self.old self.new sent sent context (due.Issue pos op address word)) }
        ensures err { OnErr result (IsUnchanged self.old self.new) }
    {
        let _ = pos;
        answer(&mut context, code, &[])?;
        let new = apply(op, self.word(address), word);
        self.store(address, new)?;
        self.go_on(
            context,
            Counted {
                applied: true,
                posts: Posts::To(self.number),
                ..Counted::nothing()
            },
        );
        Ok(())
    }

    /// An operation on a word of another nodelet.
    fn issue<O: Outlet>(
        &mut self,
        code: &Verified,
        mut context: Context,
        pos: Pos,
        op: Op,
        address: i64,
        word: i64,
        out: &mut O,
    ) -> Result<(), AllocError>
        requires elsewhere { owner_of address self.old.number self.old.nodelets ≢ self.old.number }
        requires due { IsDueHere code.now.code self.old context (due.Issue pos op address word) }
        requires reaches { (k : ℕ) → is_linked self.old.nodelets self.old.number k ≡ true → O.reaches out.old k ≡ true }
        ensures ok { OnOk result (HadEffect code.now.code self.old self.new (O.sent out.old) (O.sent out.new) context (due.Issue pos op address word)) }
        ensures err { OnErr result (IsUnchanged self.old self.new) }
        ensures not_sent { OnErr result ((k : ℕ) → O.sent out.new k ≡ O.sent out.old k) }
        ensures reaches { (k : ℕ) → O.reaches out.new k ≡ O.reaches out.old k }
        ensures made { (k : ℕ) → O.made out.new k ≡ O.made out.old k }
    {
        let name = context.name;
        let to = owner(address, self.number, self.nodelets);
        answer(&mut context, code, &[])?;
        out.reserve(to, 1)?;
        self.issue_items(name, 1)?;
        self.go_on(
            context,
            Counted {
                posts: Posts::To(to),
                ..Counted::nothing()
            },
        );
        let item = Item::Operation {
            op,
            address,
            word,
            pos,
        };
        self.send(to, body_of(name, item), out);
        Ok(())
    }

    /// An Init stores the copy here, and sends a store to each other nodelet.
    fn initialize<O: Outlet>(
        &mut self,
        code: &Verified,
        mut context: Context,
        pos: Pos,
        address: i64,
        word: i64,
        out: &mut O,
    ) -> Result<(), AllocError>
        requires due { IsDueHere code.now.code self.old context (due.Init pos address word) }
        requires reaches { (k : ℕ) → is_linked self.old.nodelets self.old.number k ≡ true → O.reaches out.old k ≡ true }
        ensures ok { OnOk result (HadEffect code.now.code self.old self.new (O.sent out.old) (O.sent out.new) context (due.Init pos address word)) }
        ensures err { OnErr result (IsUnchanged self.old self.new) }
        ensures not_sent { OnErr result ((k : ℕ) → O.sent out.new k ≡ O.sent out.old k) }
        ensures reaches { (k : ℕ) → O.reaches out.new k ≡ O.reaches out.old k }
        ensures made { (k : ℕ) → O.made out.new k ≡ O.made out.old k }
    {
        let name = context.name;
        answer(&mut context, code, &[])?;
        self.make_room(out)?;
        self.issue_items(name, self.nodelets - 1)?;
        if self.store(address, word).is_err() {
            self.withdraw_items(name, self.nodelets - 1);
            return Err(AllocError);
        }
        self.go_on(
            context,
            Counted {
                applied: true,
                posts: Posts::ToAll,
                ..Counted::nothing()
            },
        );
        let store = Item::Operation {
            op: Op::Store,
            address,
            word,
            pos,
        };
        self.send_to_others(name, store, out);
        Ok(())
    }
}
