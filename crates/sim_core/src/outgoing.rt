ghost use Rattle.sim_core.specs.code.Links as links;

use crate::link::Link;
use std::alloc::{AllocError, Global};
use threadlet_state::{Outlet, Packet};

/// The links from one nodelet: at each number the link to that nodelet. The one to the nodelet itself stays
/// empty (docs/machine.md, "The core").
#[derive(Drop)]
pub(crate) struct Outgoing {
    pub(crate) links: Vec<Link>,
}

impl Outgoing {
    ghost use Rattle.std.specs.Prelude.{◌≡◌, ◌≢◌, ◌≤◌, ℕ, ◌∷◌, true, length, drop, slice_get, IsSome, IfOk};
    ghost use Rattle.std.specs.Option.{option_copied};
    ghost use Rattle.sim_core.specs.code.Links.{has_links, are_clear, reaches, packets_to, spare_to};

    /// Links to `n` nodelets, with no packet on them; they grow on `alloc`.
    pub fn new(alloc: Global, n: u32) -> Result<Outgoing, AllocError>
        ensures links { IfOk result (λ it. has_links n it ≡ true) }
        ensures clear { IfOk result (λ it. are_clear it ≡ true) }
    {
        let mut links = Vec::new(alloc);
        for _ in 0..n {
            links.push(Link::new(alloc))?;
        }
        Ok(Outgoing { links })
    }

    /// The oldest packet on the link to the nodelet `to`, if there is one.
    pub fn first(&self, to: u32) -> Option<&Packet>
        requires { reaches self.now to ≡ true }
        ensures { option_copied result ≡ slice_get (packets_to self.now to) 0 }
    {
        self.links[to as usize].first()
    }

    /// Takes the oldest packet on the link to the nodelet `to`, if there is one; all other links stay, and no
    /// room is lost.
    pub fn take(&mut self, to: u32) -> Option<Packet>
        requires { reaches self.old to ≡ true }
        ensures first { result ≡ slice_get (packets_to self.old to) 0 }
        ensures rest { packets_to self.new to ≡ drop 1 (packets_to self.old to) }
        ensures elsewhere { (k : ℕ) → k ≢ to → packets_to self.new k ≡ packets_to self.old k }
        ensures room { (k : ℕ) → spare_to self.old k ≤ spare_to self.new k }
        ensures place { IsSome result → 1 ≤ spare_to self.new to }
        ensures count { length self.new.links.items ≡ length self.old.links.items }
    {
        self.links[to as usize].take()
    }

    /// Puts a packet back that was taken from the link to the nodelet `to`, where there is room: it is the oldest
    /// there again. It takes no memory.
    pub fn put_back(&mut self, to: u32, packet: Packet)
        requires reaches { reaches self.old to ≡ true }
        requires room { 1 ≤ spare_to self.old to }
        ensures packets { packets_to self.new to ≡ packet ∷ packets_to self.old to }
        ensures elsewhere { (k : ℕ) → k ≢ to → packets_to self.new k ≡ packets_to self.old k }
        ensures count { length self.new.links.items ≡ length self.old.links.items }
    {
        self.links[to as usize].put_back(packet);
    }
}

impl Outlet for Outgoing {
    ghost Way = { Unit };

    ghost reaches = { λ outgoing to. links.reaches outgoing to };

    ghost made = { λ outgoing to. tt };

    ghost sent = { λ outgoing to. links.packets_to outgoing to };

    ghost spare = { λ outgoing to. links.spare_to outgoing to };

    fn reserve(&mut self, to: u32, more: usize) -> Result<(), AllocError> {
        self.links[to as usize].reserve(more)
    }

    fn send(&mut self, to: u32, packet: Packet) {
        self.links[to as usize].send(packet);
    }
}
