//! Which packets can come to a nodelet.

ghost use Rattle.std.specs.Prelude.{◌≡◌, ◌&&◌, nat_lt};
ghost use Rattle.core_model.specs.Takes as takes;

use crate::nodelet::Nodelet;
use data_layout::{owner, valid};
use threadlet_code::Verified;
use threadlet_state::{Body, Context, Packet, fits};
use word_ops::{Name, Ticket};

impl Nodelet {
    ghost use Rattle.std.specs.Prelude.{◌≡◌, not, ◌&&◌, ◌==◌, nat_lt, is_some};
    ghost use Rattle.data_layout.specs.Address.{is_valid, owner_of};
    ghost use Rattle.threadlet_code.specs.declared.code.Code.{Code};
    ghost use Rattle.core_model.specs.Takes as takes;
    ghost use Rattle.core_model.specs.Contexts.{Arrival, context_of};
    ghost use Rattle.nodelet_core.specs.Carried.{context_in, body_in};
    ghost use Rattle.nodelet_core.specs.Kept.{node_of, setup_of, body_fits};

    /// Whether a packet from nodelet `origin` can be delivered here, stamps aside, and a context in it fits the
    /// code (docs/machine.md, "Nodelets"). Takes no memory.
    pub fn can_take(&self, code: &Verified, origin: u32, packet: &Packet) -> bool
        ensures { result ≡ (nat_lt origin self.now.nodelets && not (origin == self.now.number)
            && takes.can_come (setup_of code.now.code self.now) self.now.number (node_of code.now.code self.now) (body_in code.now.code packet.now.body)
            && body_fits code.now.code packet.now.body) }
    {
        origin < self.nodelets && origin != self.number && self.can_come(code, &packet.body)
    }

    /// What a packet carries can come here, and fits the code.
    fn can_come(&self, code: &Verified, body: &Body) -> bool
        ensures { result ≡ (takes.can_come (setup_of code.now.code self.now) self.now.number (node_of code.now.code self.now) (body_in code.now.code body.now)
            && body_fits code.now.code body.now) }
    {
        match body {
            Body::Ctx(x) => self.can_join(x) && fits(x, code),
            Body::Op { address, .. } => self.owns(*address),
            Body::Ack { name, .. } => !self.under_way.is_clear(*name),
            Body::Done { ticket, .. } => {
                ticket.home == self.number
                    && !self.joins.has(ticket.parent, ticket.depth, ticket.order)
            }
            Body::Grant { .. } => true,
        }
    }

    /// A context can come that is not here, whose name was given and whose nodelets are there.
    fn can_join(&self, x: &Context) -> bool
        ensures { (code : Code) → result ≡ takes.can_come (setup_of code self.now) self.now.number (node_of code self.now) (Arrival (context_in code x.now)) }
    {
        if self.is_here(x.name) {
            return false;
        }
        if !self.has_given(x.name) {
            return false;
        }
        are_there(self.nodelets, x)
    }

    /// The context of a name is here.
    fn is_here(&self, name: Name) -> bool
        ensures { (code : Code) → result ≡ is_some (context_of name (node_of code self.now).contexts) }
    {
        match self.standing.find(name) {
            None => false,
            Some(_) => true,
        }
    }

    /// An address is valid, and this nodelet has the word.
    fn owns(&self, address: i64) -> bool
        ensures { result ≡ (is_valid address self.now.nodelets && owner_of address self.now.number self.now.nodelets == self.now.number) }
    {
        valid(address, self.nodelets) && owner(address, self.number, self.nodelets) == self.number
    }

    /// A name is one of another nodelet, or was given here.
    fn has_given(&self, name: Name) -> bool
        ensures { (code : Code) → result ≡ takes.is_given self.now.number (node_of code self.now) name }
    {
        if name.nodelet != self.number {
            return true;
        }
        // Nodelet 0 gave number 0 to main.
        if self.number == 0 {
            name.number <= self.spawned
        } else {
            name.number < self.spawned
        }
    }
}

/// The nodelets that a context names are among n.
fn are_there(n: u32, x: &Context) -> bool
    ensures { result ≡ (nat_lt x.now.place n && nat_lt x.now.home n && takes.has_home n x.now.ticket) }
{
    x.place < n && x.home < n && has_home(n, x.ticket)
}

/// A ticket's home is one of n nodelets.
fn has_home(n: u32, ticket: Option<Ticket>) -> bool
    ensures { result ≡ takes.has_home n ticket }
{
    match ticket {
        None => true,
        Some(ticket) => ticket.home < n,
    }
}
