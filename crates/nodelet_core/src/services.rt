//! What an action asks of the services of its nodelet.

ghost use Rattle.std.specs.Prelude.{◌≡◌, ◌==◌, ◌||◌, true, IsTrue, IfOk, Some};
ghost use Rattle.world_model.specs.Action as act;
ghost use Rattle.world_model.specs.Action.{Action};
ghost use Rattle.threadlet_code.specs.Breaches.{is_sound};
ghost use Rattle.threadlet_code.specs.Machine.{step};
ghost use Rattle.threadlet_state.specs.Activations.{state_of};
ghost use Rattle.threadlet_state.specs.Fit.{frames_fit};
ghost use Rattle.nodelet_core.specs.declared.due.Due.TheVariants as due;
ghost use Rattle.nodelet_core.specs.code.Dues.{due_of};
ghost use Rattle.core_model.specs.Runs.{action_in};
ghost use Rattle.nodelet_core.specs.code.Doing as spec;

use crate::counting::Counted;
use crate::due::Request;
use crate::keeping::served;
use crate::nodelet::Nodelet;
use crate::operands::top_words;
use crate::sending::Item;
use service::{format, words_granted};
use std::alloc::{AllocError, Global};
use threadlet_code::{Code, Instr, Verified};
use threadlet_state::{Context, Frame, Outlet, answer, operand_count};
use word_ops::{List, Name, Rules};

impl Nodelet {
    ghost use Rattle.std.specs.Prelude.{◌≡◌, ◌≤◌, ◌-◌, ◌==◌, ◌||◌, ℕ, false, true, OnOk, OnErr};
    ghost use Rattle.ack_fence.specs.Counting.{count_of};
    ghost use Rattle.world_model.specs.Allocation.{taken_from};
    ghost use Rattle.threadlet_code.specs.declared.code.Code.{Code};
    ghost use Rattle.nodelet_mem.specs.Words.{grant_room};
    ghost use Rattle.merge_law.specs.Machine.{is_linked};
    ghost use Rattle.nodelet_core.specs.declared.due.Due.TheVariants as due;
    ghost use Rattle.nodelet_core.specs.Kept.{node_of, IsUnchanged};
    ghost use Rattle.nodelet_core.specs.code.Dues.{asked_request};
    ghost use Rattle.core_model.specs.Effects.{with_fresh};
    ghost use Rattle.core_model.specs.Nodes.{with_issued};
    ghost use Rattle.nodelet_core.specs.code.Became.{Did};
    ghost use Rattle.nodelet_core.specs.Left.{Sent};
    ghost use Rattle.nodelet_core.specs.code.Doing.{SentMore, IsDueHere, HadEffect, IsServedHere, address_for, fresh_of, grant_for, grant_sends, with_taken, kept_for, is_local};

    /// A print keeps a piece of output here.
    pub(crate) fn print(&mut self, code: &Verified, mut context: Context) -> Result<(), AllocError>
        requires due { IsDueHere code.now.code self.old context due.Print }
        ensures ok { OnOk result ((sent : Sent) → HadEffect code.now.code self.old self.new sent sent context due.Print) }
        ensures err { OnErr result (IsUnchanged self.old self.new) }
    {
        let piece = piece_of(self.alloc, &context.frames, code.code())?;
        answer(&mut context, code, &[])?;
        self.keep_piece(piece)?;
        self.go_on(context, Counted::nothing());
        Ok(())
    }

    /// A request for words answers the address of the first, or 0; its grant is kept here and, but for local words,
    /// sent to each other nodelet.
    pub(crate) fn allocate<O: Outlet>(
        &mut self,
        code: &Verified,
        context: Context,
        request: Request,
        out: &mut O,
    ) -> Result<(), AllocError>
        requires due { IsDueHere code.now.code self.old context (due.Alloc request) }
        requires reaches { (k : ℕ) → is_linked self.old.nodelets self.old.number k ≡ true → O.reaches out.old k ≡ true }
        ensures ok { OnOk result (HadEffect code.now.code self.old self.new (O.sent out.old) (O.sent out.new) context (due.Alloc request)) }
        ensures err { OnErr result (IsUnchanged self.old self.new) }
        ensures not_sent { OnErr result ((k : ℕ) → O.sent out.new k ≡ O.sent out.old k) }
        ensures reaches { (k : ℕ) → O.reaches out.new k ≡ O.reaches out.old k }
        ensures made { (k : ℕ) → O.made out.new k ≡ O.made out.old k }
    {
        let count = self.words_to_grant(request);
        if stays_here(request, count) {
            self.allocate_here(code, context, request, count)
        } else {
            self.allocate_for_all(code, context, request, count, out)
        }
    }

    /// Words are taken whose grant, of `count` words, stays here.
    fn allocate_here(
        &mut self,
        code: &Verified,
        mut context: Context,
        request: Request,
        count: u64,
    ) -> Result<(), AllocError>
        requires alone { (count == 0 || is_local request) ≡ true }
        requires granted { (code : Code) → fresh_of self.old.rules (node_of code self.old) (taken_from self.old.nodelets self.old.number (asked_request request))
            ≡ grant_for count (address_for (node_of code self.old) (taken_from self.old.nodelets self.old.number (asked_request request))) }
        requires due { IsDueHere code.now.code self.old context (due.Alloc request) }
        ensures ok { OnOk result ((sent : Sent) → HadEffect code.now.code self.old self.new sent sent context (due.Alloc request)) }
        ensures err { OnErr result (IsUnchanged self.old self.new) }
    {
        self.reserve_grant()?;
        let address = self.take_words(request, count);
        answer(&mut context, code, &[address])?;
        self.go_on(context, Counted::nothing());
        Ok(())
    }

    /// Words are taken whose grant, of `count` words, is sent to each other nodelet.
    fn allocate_for_all<O: Outlet>(
        &mut self,
        code: &Verified,
        mut context: Context,
        request: Request,
        count: u64,
        out: &mut O,
    ) -> Result<(), AllocError>
        requires for_all { (count == 0 || is_local request) ≡ false }
        requires granted { (code : Code) → fresh_of self.old.rules (node_of code self.old) (taken_from self.old.nodelets self.old.number (asked_request request))
            ≡ grant_for count (address_for (node_of code self.old) (taken_from self.old.nodelets self.old.number (asked_request request))) }
        requires due { IsDueHere code.now.code self.old context (due.Alloc request) }
        requires reaches { (k : ℕ) → is_linked self.old.nodelets self.old.number k ≡ true → O.reaches out.old k ≡ true }
        ensures ok { OnOk result (HadEffect code.now.code self.old self.new (O.sent out.old) (O.sent out.new) context (due.Alloc request)) }
        ensures err { OnErr result (IsUnchanged self.old self.new) }
        ensures not_sent { OnErr result ((k : ℕ) → O.sent out.new k ≡ O.sent out.old k) }
        ensures reaches { (k : ℕ) → O.reaches out.new k ≡ O.reaches out.old k }
        ensures made { (k : ℕ) → O.made out.new k ≡ O.made out.old k }
    {
        let name = context.name;
        self.prepare_for_all(name, out)?;
        let address = self.take_for_all(name, request, count);
        answer(&mut context, code, &[address])?;
        self.go_on(context, Counted::nothing());
        self.announce(name, address, count, out);
        Ok(())
    }

    /// There is room for a grant here and for one to each other nodelet, which is under way for a strand. Want of
    /// memory changes nothing.
    fn prepare_for_all<O: Outlet>(&mut self, name: Name, out: &mut O) -> Result<(), AllocError>
        requires reaches { (k : ℕ) → is_linked self.old.nodelets self.old.number k ≡ true → O.reaches out.old k ≡ true }
        ensures ok { OnOk result (Did (λ v. with_issued v name (self.old.nodelets - 1)) self.old self.new) }
        ensures err { OnErr result (IsUnchanged self.old self.new) }
        ensures grant { OnOk result (1 ≤ grant_room self.new.words) }
        ensures room { OnOk result ((k : ℕ) → is_linked self.old.nodelets self.old.number k ≡ true → 1 ≤ O.spare out.new k) }
        ensures sent { (k : ℕ) → O.sent out.new k ≡ O.sent out.old k }
        ensures reaches { (k : ℕ) → O.reaches out.new k ≡ O.reaches out.old k }
        ensures made { (k : ℕ) → O.made out.new k ≡ O.made out.old k }
    {
        self.reserve_grant()?;
        self.make_room(out)?;
        self.issue_items(name, self.nodelets - 1)?;
        Ok(())
    }

    /// Takes the words of a request and grants them here, if any are; there is room. The answer is the address of
    /// the first, or 0.
    fn take_words(&mut self, request: Request, count: u64) -> i64
        requires served { IsServedHere self.old.nodelets self.old.number request }
        requires room { 1 ≤ grant_room self.old.words }
        ensures address { (code : Code) → result ≡ address_for (node_of code self.old) (taken_from self.old.nodelets self.old.number (asked_request request)) }
        ensures did { Did (λ v. with_taken self.old.nodelets count result (taken_from self.old.nodelets self.old.number (asked_request request)) v) self.old self.new }
    {
        let address = self.serve(request);
        self.keep_grant(address, count);
        address
    }

    /// The same where a grant is under way to each other nodelet, which stays so only if there are words.
    fn take_for_all(&mut self, name: Name, request: Request, count: u64) -> i64
        requires served { IsServedHere self.old.nodelets self.old.number request }
        requires room { 1 ≤ grant_room self.old.words }
        requires issued { self.old.nodelets - 1 ≤ count_of self.old.under_way name }
        ensures address { (code : Code) → result ≡ address_for (node_of code self.old) (taken_from self.old.nodelets self.old.number (asked_request request)) }
        ensures did { Did (λ v. kept_for name (self.old.nodelets - 1) result (with_taken self.old.nodelets count result (taken_from self.old.nodelets self.old.number (asked_request request)) v)) self.old self.new }
    {
        let address = self.take_words(request, count);
        if address != 0 {
            return address;
        }
        self.withdraw_items(name, self.nodelets - 1);
        address
    }

    /// Sends the grant of words to each other nodelet, if there are any.
    fn announce<O: Outlet>(&self, name: Name, first: i64, count: u64, out: &mut O)
        requires reaches { (k : ℕ) → is_linked self.now.nodelets self.now.number k ≡ true → O.reaches out.old k ≡ true }
        requires room { (k : ℕ) → is_linked self.now.nodelets self.now.number k ≡ true → 1 ≤ O.spare out.old k }
        ensures sent { (code : Code) →
            SentMore code self.now.nodelets self.now.number self.now.stamp (grant_sends self.now.nodelets name first count) (O.sent out.old) (O.sent out.new) }
        ensures reaches { (k : ℕ) → O.reaches out.new k ≡ O.reaches out.old k }
        ensures made { (k : ℕ) → O.made out.new k ≡ O.made out.old k }
    {
        if first == 0 {
            return;
        }
        self.send_to_others(name, Item::Grant { first, count }, out);
    }

    /// The words that were answered are granted here, if any are; there is room.
    fn keep_grant(&mut self, first: i64, count: u64)
        requires room { 1 ≤ grant_room self.old.words }
        ensures { Did (λ v. with_fresh v (grant_for count first)) self.old self.new }
    {
        if count != 0 && first != 0 {
            self.add_grant(first, count).unwrap();
        }
    }

    /// How many words a request is granted where it is answered at all.
    fn words_to_grant(&self, request: Request) -> u64
        requires served { IsServedHere self.now.nodelets self.now.number request }
        ensures { (code : Code) → fresh_of self.now.rules (node_of code self.now) (taken_from self.now.nodelets self.now.number (asked_request request))
            ≡ grant_for result (address_for (node_of code self.now) (taken_from self.now.nodelets self.now.number (asked_request request))) }
    {
        match self.rules {
            Rules::Loose => 0,
            Rules::Checked => {
                let (kind, blocks, words) = served(request, self.number);
                words_granted(kind, blocks, words)
            }
        }
    }
}

/// A grant of `count` words stays where it is made: there are none, or they are local.
fn stays_here(request: Request, count: u64) -> bool
    ensures { result ≡ (count == 0 || spec.is_local request) }
{
    count == 0 || is_local(request)
}

/// Local words are granted at one nodelet alone.
fn is_local(request: Request) -> bool
    ensures { result ≡ spec.is_local request }
{
    matches!(request, Request::Local { .. })
}

/// What the Print writes before which frames stand.
fn piece_of(alloc: Global, frames: &List<Frame>, code: &Code) -> Result<List<u8>, AllocError>
    requires sound { IsTrue (is_sound code.now) }
    requires fits { frames_fit code.now frames.now ≡ true }
    ensures { IfOk result (λ piece. (action : Action) → action_in (step code.now (state_of code.now frames.now)) ≡ Some action →
        due_of action ≡ due.Print → action ≡ act.Print piece) }
{
    let frame = frames.at(frames.len() - 1);
    let f = code.functions.at(frame.function as usize);
    let instr = *f.body.at(frame.at as usize);
    let Instr::Print(number) = instr else {
        return Ok(List::new(alloc));
    };
    let mut words = List::new(alloc);
    words.extend_from_slice(top_words(frame, f, operand_count(code, instr)))?;
    format(alloc, code.formats.at(number as usize), &words)
}
