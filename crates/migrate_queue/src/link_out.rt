ghost use Rattle.std.specs.Prelude.{◌≤◌};
ghost use Rattle.rtrb.specs.Ring.{producer_capacity};

use rtrb::Producer;
use std::alloc::AllocError;
use std::collections::VecDeque;
use threadlet_state::Packet;

/// The end of a link that sends. A packet that is sent waits in the outbox of this end until the ring
/// has a slot for it (docs/machine.md, "Links").
#[derive(Drop)]
pub struct LinkOut {
    pub(crate) outbox: VecDeque<Packet>,
    pub(crate) ring: Producer<Packet>,
    ghost has_slots: { 1 ≤ producer_capacity ring },
}

impl LinkOut {
    ghost use Rattle.std.specs.Prelude.{◌≡◌, ◌+◌, ◌≤◌, [], ◌∷◌, ◌++◌, ◌⊎◌, length, take, drop, OnOk};
    ghost use Rattle.migrate_queue.specs.Links.{outbox, pushed, sent, spare, free_slots, SameOut};

    /// Makes room for at least `more` packets, and sends nothing. Want of memory leaves at least the
    /// room that there was.
    pub fn reserve(&mut self, more: usize) -> Result<(), AllocError>
        ensures room { OnOk result (more ≤ spare self.new) }
        ensures kept { spare self.old ≤ spare self.new }
        ensures link { SameOut self.old self.new }
        ensures sent { sent self.new ≡ sent self.old }
        ensures stays { (pushed self.new ≡ pushed self.old) × (outbox self.new ≡ outbox self.old) }
        ensures free { free_slots self.new ≡ free_slots self.old }
    {
        self.outbox.reserve(more)
    }

    /// Sends a packet, where there is room: it is the last in the outbox. It takes no memory.
    pub fn send(&mut self, packet: Packet)
        requires { 1 ≤ spare self.old }
        ensures link { SameOut self.old self.new }
        ensures sent { sent self.new ≡ sent self.old ++ packet ∷ [] }
        ensures outbox { outbox self.new ≡ outbox self.old ++ packet ∷ [] }
        ensures stays { pushed self.new ≡ pushed self.old }
        ensures spare { spare self.new + 1 ≡ spare self.old }
        ensures free { free_slots self.new ≡ free_slots self.old }
    {
        self.outbox.push_back_reserved(packet);
    }

    /// Moves packets from the outbox to the ring, in order, until none is left or no slot of the ring is
    /// known to be free; how many it moved. It takes no memory.
    pub fn flush(&mut self) -> usize
        ensures link { SameOut self.old self.new }
        ensures sent { sent self.new ≡ sent self.old }
        ensures pushed { pushed self.new ≡ pushed self.old ++ take result (outbox self.old) }
        ensures outbox { outbox self.new ≡ drop result (outbox self.old) }
        ensures moved { result + length (outbox self.new) ≡ length (outbox self.old) }
        ensures stops { (outbox self.new ≡ []) ⊎ (free_slots self.new ≡ 0) }
        ensures spare { spare self.new ≡ spare self.old + result }
        ensures free { free_slots self.old ≤ free_slots self.new + result }
    {
        let mut moved = 0;
        while !self.ring.is_full() {
            let Some(packet) = self.outbox.pop_front() else {
                break;
            };
            self.ring.push_reserved(packet);
            moved += 1;
        }
        moved
    }

    /// How many packets are in the outbox.
    pub fn unsent(&self) -> usize
        ensures { result ≡ length (outbox self.now) }
    {
        self.outbox.len()
    }
}
