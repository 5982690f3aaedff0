//! What a nodelet sends.

ghost use Rattle.std.specs.Prelude.{◌≡◌};
ghost use Rattle.threadlet_code.specs.declared.code.Code.{Code};
ghost use Rattle.core_model.specs.Contexts.{Issued};
ghost use Rattle.nodelet_core.specs.Carried.{body_in};
ghost use Rattle.nodelet_core.specs.code.Told.{body_for};
ghost use Rattle.nodelet_core.specs.code.Doing.{item_of};

use crate::nodelet::Nodelet;
use mem_atomics::Op;
use std::alloc::AllocError;
use threadlet_state::{Body, Outlet, Packet};
use word_ops::{Name, Pos};

/// Something that a strand has pending at another nodelet.
#[derive(Clone, Copy, Debug)]
pub(crate) enum Item {
    Operation {
        op: Op,
        address: i64,
        word: i64,
        pos: Pos,
    },
    Grant {
        first: i64,
        count: u64,
    },
}

/// What is sent of an item of a strand.
pub(crate) fn body_of(name: Name, item: Item) -> Body
    ensures is { result ≡ body_for name item }
    ensures means { (code : Code) → body_in code result ≡ Issued name (item_of item) }
{
    match item {
        Item::Operation {
            op,
            address,
            word,
            pos,
        } => Body::Op {
            name,
            op,
            address,
            word,
            pos,
        },
        Item::Grant { first, count } => Body::Grant { name, first, count },
    }
}

impl Nodelet {
    ghost use Rattle.std.specs.Prelude.{◌≤◌, ℕ, true, OnOk};
    ghost use Rattle.merge_law.specs.Machine.{is_linked};
    ghost use Rattle.core_model.specs.Effects.{only_to, to_all};
    ghost use Rattle.nodelet_core.specs.Kept.{body_fits};
    ghost use Rattle.nodelet_core.specs.code.Doing.{SentMore};

    /// There is room for a packet to each other nodelet. Want of memory leaves at least the room that there was.
    pub(crate) fn make_room<O: Outlet>(&self, out: &mut O) -> Result<(), AllocError>
        requires reaches { (k : ℕ) → is_linked self.now.nodelets self.now.number k ≡ true → O.reaches out.old k ≡ true }
        ensures room { OnOk result ((k : ℕ) → is_linked self.now.nodelets self.now.number k ≡ true → 1 ≤ O.spare out.new k) }
        ensures sent { (k : ℕ) → O.sent out.new k ≡ O.sent out.old k }
        ensures reaches { (k : ℕ) → O.reaches out.new k ≡ O.reaches out.old k }
        ensures made { (k : ℕ) → O.made out.new k ≡ O.made out.old k }
    {
        for k in 0..self.nodelets {
            if k != self.number {
                out.reserve(k, 1)?;
            }
        }
        Ok(())
    }

    /// Sends something to another nodelet with the stamp of this one.
    pub(crate) fn send<O: Outlet>(&self, to: u32, body: Body, out: &mut O)
        requires linked { is_linked self.now.nodelets self.now.number to ≡ true }
        requires reaches { O.reaches out.old to ≡ true }
        requires room { 1 ≤ O.spare out.old to }
        ensures sent { (code : Code) → body_fits code body ≡ true →
            SentMore code self.now.nodelets self.now.number self.now.stamp (only_to to (body_in code body)) (O.sent out.old) (O.sent out.new) }
        ensures reaches { (k : ℕ) → O.reaches out.new k ≡ O.reaches out.old k }
        ensures made { (k : ℕ) → O.made out.new k ≡ O.made out.old k }
    {
        out.send(
            to,
            Packet {
                stamp: self.stamp,
                body,
            },
        );
    }

    /// Sends an item of a strand to each other nodelet with the stamp of this one.
    pub(crate) fn send_to_others<O: Outlet>(&self, name: Name, item: Item, out: &mut O)
        requires reaches { (k : ℕ) → is_linked self.now.nodelets self.now.number k ≡ true → O.reaches out.old k ≡ true }
        requires room { (k : ℕ) → is_linked self.now.nodelets self.now.number k ≡ true → 1 ≤ O.spare out.old k }
        ensures sent { (code : Code) →
            SentMore code self.now.nodelets self.now.number self.now.stamp (to_all self.now.nodelets (Issued name (item_of item))) (O.sent out.old) (O.sent out.new) }
        ensures reaches { (k : ℕ) → O.reaches out.new k ≡ O.reaches out.old k }
        ensures made { (k : ℕ) → O.made out.new k ≡ O.made out.old k }
    {
        for k in 0..self.nodelets {
            if k != self.number {
                out.send(
                    k,
                    Packet {
                        stamp: self.stamp,
                        body: body_of(name, item),
                    },
                );
            }
        }
    }
}
