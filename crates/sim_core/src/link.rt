use std::alloc::{AllocError, Global};
use std::collections::VecDeque;
use threadlet_state::Packet;

/// The link from one nodelet to another: the packets that were sent and not taken, oldest first
/// (docs/machine.md, "The core").
#[derive(Drop)]
pub(crate) struct Link {
    pub(crate) queue: VecDeque<Packet>,
}

impl Link {
    ghost use Rattle.std.specs.Prelude.{◌≡◌, ◌+◌, ◌≤◌, [], ◌∷◌, ◌++◌, drop, slice_get, IsSome, OnOk};
    ghost use Rattle.std.specs.Option.{option_copied};
    ghost use Rattle.sim_core.specs.code.Links.{packets_of, spare};

    /// No packet is on it; it grows on `alloc`.
    pub fn new(alloc: Global) -> Link
        ensures { packets_of result ≡ [] }
    {
        Link {
            queue: VecDeque::new(alloc),
        }
    }

    /// Makes room for at least `more` packets, and sends nothing. Want of memory leaves at least the room
    /// that there was.
    pub fn reserve(&mut self, more: usize) -> Result<(), AllocError>
        ensures room { OnOk result (more ≤ spare self.new) }
        ensures kept { spare self.old ≤ spare self.new }
        ensures packets { packets_of self.new ≡ packets_of self.old }
    {
        self.queue.reserve(more)
    }

    /// Sends a packet, where there is room: it is the last. It takes no memory.
    pub fn send(&mut self, packet: Packet)
        requires { 1 ≤ spare self.old }
        ensures packets { packets_of self.new ≡ packets_of self.old ++ packet ∷ [] }
        ensures spare { spare self.new + 1 ≡ spare self.old }
    {
        self.queue.push_back_reserved(packet);
    }

    /// The oldest packet, if there is one.
    pub fn first(&self) -> Option<&Packet>
        ensures { option_copied result ≡ slice_get (packets_of self.now) 0 }
    {
        self.queue.front()
    }

    /// Takes the oldest packet, if there is one, and no room.
    pub fn take(&mut self) -> Option<Packet>
        ensures first { result ≡ slice_get (packets_of self.old) 0 }
        ensures rest { packets_of self.new ≡ drop 1 (packets_of self.old) }
        ensures room { spare self.old ≤ spare self.new }
        ensures place { IsSome result → 1 ≤ spare self.new }
    {
        self.queue.pop_front()
    }

    /// Puts a packet back that was taken, where there is room: it is the oldest again. It takes no memory.
    pub fn put_back(&mut self, packet: Packet)
        requires { 1 ≤ spare self.old }
        ensures packets { packets_of self.new ≡ packet ∷ packets_of self.old }
    {
        self.queue.push_front(packet).unwrap();
    }
}
