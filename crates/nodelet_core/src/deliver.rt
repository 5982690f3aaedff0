//! A nodelet takes a packet.

ghost use Rattle.std.specs.Prelude.{◌≡◌};
ghost use Rattle.nodelet_core.specs.code.Doing.{step_of_body};

use crate::nodelet::Nodelet;
use mem_atomics::{Op, apply};
use std::alloc::AllocError;
use threadlet_state::{Body, Context, Outlet, Packet};
use word_ops::{Box, Entry, Name, NodeEvent, Pos, Rules, Step};

impl Nodelet {
    ghost use Rattle.std.specs.Prelude.{◌≡◌, ◌≢◌, ◌<◌, ◌≤◌, ◌-◌, ◌^◌, ℕ, [], ◌∷◌, true, IfOk, IfErr, OnOk, OnErr};
    ghost use Rattle.threadlet_code.specs.declared.code.Code.{Code};
    ghost use Rattle.threadlet_state.specs.declared.packet.Body.TheVariants as by;
    ghost use Rattle.world_model.specs.World as world;
    ghost use Rattle.ack_fence.specs.Counting.{count_of};
    ghost use Rattle.nodelet_core.specs.Carried.{context_in};
    ghost use Rattle.core_model.specs.Nodes as nodes;
    ghost use Rattle.core_model.specs.Takes as takes;
    ghost use Rattle.core_model.specs.Takes.{with_item, late_of};
    ghost use Rattle.core_model.specs.Machine.{stamped_node};
    ghost use Rattle.nodelet_core.specs.code.Standing.{is_among};
    ghost use Rattle.nodelet_core.specs.Kept.{node_of, setup_of, all_fit, body_fits, IsUnchanged};
    ghost use Rattle.nodelet_core.specs.Left.{HasTaken, IsAwaited};
    ghost use Rattle.nodelet_core.specs.code.Became.{Became, Did};
    ghost use Rattle.nodelet_core.specs.code.Doing.{IsAwaitedBody, LeftTaking};

    /// Takes a packet from nodelet `origin`: a strand goes on here, an operation or a grant of a strand is done
    /// and acknowledged to `origin`, word that one is done is taken, or the result of a child is kept. Want of
    /// memory hands the packet back and changes nothing (docs/machine.md, "Nodelets").
    pub fn deliver<O: Outlet>(
        &mut self,
        origin: u32,
        packet: Packet,
        out: &mut O,
    ) -> Result<(), Packet>
        requires stamp { self.old.stamp < 2 ^ 64 - 1 }
        requires sent_at { packet.stamp < 2 ^ 64 - 1 }
        requires awaited { IsAwaited self.old origin packet }
        requires reaches { (k : ℕ) → k < self.old.nodelets → k ≢ self.old.number → O.reaches out.old k ≡ true }
        ensures ok { OnOk result ((code : Code) → body_fits code packet.body ≡ true →
            HasTaken code self.old self.new (O.sent out.old) (O.sent out.new) origin packet) }
        ensures fits { OnOk result ((code : Code) → all_fit code self.old ≡ true → body_fits code packet.body ≡ true → all_fit code self.new ≡ true) }
        ensures err { OnErr result (IsUnchanged self.old self.new) }
        ensures not_sent { OnErr result ((k : ℕ) → O.sent out.new k ≡ O.sent out.old k) }
        ensures handed_back { IfErr result (λ back. back ≡ packet) }
        ensures reaches { (k : ℕ) → O.reaches out.new k ≡ O.reaches out.old k }
        ensures made { (k : ℕ) → O.made out.new k ≡ O.made out.old k }
    {
        let Packet {
            stamp: sent_at,
            body,
        } = packet;
        let stamp = self.stamp.max(sent_at) + 1;
        let entry = Entry {
            stamp,
            event: NodeEvent::Take { origin },
            step: step_of(&body, self.number),
        };
        if self.enter(entry).is_err() {
            return Err(Packet {
                stamp: sent_at,
                body,
            });
        }
        match self.take(origin, stamp, body, out) {
            Ok(()) => Ok(()),
            Err(body) => {
                self.withdraw_entry();
                Err(Packet {
                    stamp: sent_at,
                    body,
                })
            }
        }
    }

    /// The same of what the packet carries, its entry aside.
    fn take<O: Outlet>(
        &mut self,
        origin: u32,
        stamp: u64,
        body: Body,
        out: &mut O,
    ) -> Result<(), Body>
        requires later { self.old.stamp < stamp }
        requires awaited { IsAwaitedBody self.old origin body }
        requires reaches { O.reaches out.old origin ≡ true }
        ensures ok { OnOk result ((code : Code) → body_fits code body ≡ true →
            LeftTaking code stamp self.old self.new (O.sent out.old) (O.sent out.new) origin body) }
        ensures err { OnErr result (IsUnchanged self.old self.new) }
        ensures not_sent { OnErr result ((k : ℕ) → O.sent out.new k ≡ O.sent out.old k) }
        ensures handed_back { IfErr result (λ back. back ≡ body) }
        ensures reaches { (k : ℕ) → O.reaches out.new k ≡ O.reaches out.old k }
        ensures made { (k : ℕ) → O.made out.new k ≡ O.made out.old k }
    {
        match body {
            Body::Ctx(x) => match self.take_context(stamp, x) {
                Ok(()) => Ok(()),
                Err(x) => Err(Body::Ctx(x)),
            },
            body => match self.take_message(origin, stamp, &body, out) {
                Ok(()) => Ok(()),
                Err(_) => Err(body),
            },
        }
    }

    /// A context goes on here. Want of memory hands it back and changes nothing.
    fn take_context(&mut self, stamp: u64, x: Box<Context>) -> Result<(), Box<Context>>
        requires later { self.old.stamp < stamp }
        requires among { is_among self.old.nodelets x ≡ true }
        ensures ok { OnOk result (Became (λ code v. nodes.with_strand (stamped_node stamp v) (context_in code x)) (x ∷ []) self.old self.new) }
        ensures err { OnErr result (IsUnchanged self.old self.new) }
        ensures handed_back { IfErr result (λ back. back ≡ x) }
    {
        self.arrive(x)?;
        self.set_stamp(stamp);
        Ok(())
    }

    /// What is no context is taken. Want of memory changes nothing.
    fn take_message<O: Outlet>(
        &mut self,
        origin: u32,
        stamp: u64,
        body: &Body,
        out: &mut O,
    ) -> Result<(), AllocError>
        requires later { self.old.stamp < stamp }
        requires awaited { IsAwaitedBody self.old origin body.now }
        requires message { (x : _) → body.now ≢ by.Ctx x }
        requires reaches { O.reaches out.old origin ≡ true }
        ensures ok { OnOk result ((code : Code) → LeftTaking code stamp self.old self.new (O.sent out.old) (O.sent out.new) origin body.now) }
        ensures err { OnErr result (IsUnchanged self.old self.new) }
        ensures not_sent { OnErr result ((k : ℕ) → O.sent out.new k ≡ O.sent out.old k) }
        ensures reaches { (k : ℕ) → O.reaches out.new k ≡ O.reaches out.old k }
        ensures made { (k : ℕ) → O.made out.new k ≡ O.made out.old k }
    {
        match *body {
            Body::Ctx(_) => Ok(()),
            Body::Op {
                name,
                op,
                address,
                word,
                pos,
            } => {
                out.reserve(origin, 1)?;
                let late = self.operate(stamp, op, address, word, pos)?;
                self.send(origin, Body::Ack { name, late }, out);
                Ok(())
            }
            Body::Grant { name, first, count } => {
                out.reserve(origin, 1)?;
                self.add_grant(first, count)?;
                self.set_stamp(stamp);
                self.send(origin, Body::Ack { name, late: None }, out);
                Ok(())
            }
            Body::Ack { name, late } => {
                self.acknowledge(stamp, name, late);
                Ok(())
            }
            Body::Done { ticket, result } => {
                self.keep_result(ticket, result)?;
                self.set_stamp(stamp);
                Ok(())
            }
        }
    }

    /// An operation that arrives is applied where its word is granted; else its place in the text is the answer.
    fn operate(
        &mut self,
        stamp: u64,
        op: Op,
        address: i64,
        word: i64,
        pos: Pos,
    ) -> Result<Option<Pos>, AllocError>
        requires later { self.old.stamp < stamp }
        ensures late { IfOk result (λ late. (code : Code) → late ≡ late_of (setup_of code self.old) (node_of code self.old) (world.Operation op address word pos)) }
        ensures ok { OnOk result ((code : Code) → Did (λ v. stamped_node stamp (with_item (setup_of code self.old) v (world.Operation op address word pos))) self.old self.new) }
        ensures err { OnErr result (IsUnchanged self.old self.new) }
    {
        if !self.is_granted(address) {
            self.count_applied(stamp);
            return Ok(Some(pos));
        }
        let new = apply(op, self.word(address), word);
        self.store(address, new)?;
        self.count_applied(stamp);
        Ok(None)
    }

    /// Word that an item of a strand is done is taken.
    fn acknowledge(&mut self, stamp: u64, name: Name, late: Option<Pos>)
        requires later { self.old.stamp < stamp }
        requires under_way { 1 ≤ count_of self.old.under_way name }
        ensures { Became (λ code v. stamped_node stamp (takes.acknowledged v name late)) [] self.old self.new }
    {
        self.withdraw_items(name, 1);
        if let Some(pos) = late {
            self.make_late(name, pos);
        }
        self.set_stamp(stamp);
    }

    /// The word at an address may be used here.
    pub(crate) fn is_granted(&self, address: i64) -> bool
        ensures { (code : Code) → result ≡ nodes.is_granted self.now.rules (node_of code self.now) address }
    {
        match self.rules {
            Rules::Loose => true,
            Rules::Checked => self.words.granted(address),
        }
    }
}

/// The step that the taking of this at a nodelet does, if any.
fn step_of(body: &Body, nodelet: u32) -> Option<Step>
    ensures { result ≡ step_of_body nodelet body.now }
{
    match *body {
        Body::Op { name, .. } | Body::Grant { name, .. } => Some(Step::Apply { name, nodelet }),
        Body::Ctx(_) | Body::Ack { .. } | Body::Done { .. } => None,
    }
}
