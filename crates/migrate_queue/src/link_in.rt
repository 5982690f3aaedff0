ghost use Rattle.std.specs.Prelude.{◌≡◌, ◌≤◌, ◌++◌, option_to_list};
ghost use Rattle.rtrb.specs.Ring.{received, consumer_capacity};
ghost use Rattle.migrate_queue.specs.PutBack.{still_taken};

use crate::link_out::LinkOut;
use rtrb::Consumer;
use threadlet_state::Packet;

/// The end of a link that takes. A packet that was taken and not delivered can be put back, and is then
/// the next to be taken (docs/machine.md, "Links").
#[derive(Drop)]
pub struct LinkIn {
    pub(crate) ring: Consumer<Packet>,
    pub(crate) back: Option<Packet>,
    // What the last look found in the ring, less what was popped since.
    pub(crate) seen: usize,
    ghost few: { seen ≤ consumer_capacity ring },
    ghost came_last: { still_taken (received ring) back ++ option_to_list back ≡ received ring },
}

impl LinkIn {
    ghost use Rattle.std.specs.Prelude.{◌≡◌, ◌+◌, ◌-◌, ◌≤◌, [], ◌∷◌, ◌++◌, length, option_to_list, IfSome, IfNone, Some, None};
    ghost use mathlib.Core.List.{IsPrefix};
    ghost use Rattle.world_model.specs.Step.{last_of};
    ghost use Rattle.migrate_queue.specs.Links.{outbox, pushed, sent, spare, slots, free_slots, taken, returned, known, ready, waits, IsLink, IsSettled, SameOut, SameIn};

    /// Takes the next packet: the one that was put back, or else the oldest in the ring. There is none
    /// only where none was put back and none is known to be in the ring. It takes no memory.
    pub fn take(&mut self) -> Option<Packet>
        ensures link { SameIn self.old self.new }
        ensures taken { taken self.new ≡ taken self.old ++ option_to_list result }
        ensures returned { returned self.new ≡ None }
        ensures next { IfSome result (λ packet. IsPrefix (ready self.old) (packet ∷ ready self.new)) }
        ensures none { IfNone result ((ready self.old ≡ []) × (ready self.new ≡ [])) }
        ensures waiting { waits self.new ≡ waits self.old - length (option_to_list result) }
    {
        if let Some(packet) = self.back.take() {
            return Some(packet);
        }
        let Ok(packet) = self.ring.pop() else {
            return None;
        };
        self.seen = self.seen.saturating_sub(1);
        Some(packet)
    }

    /// Puts back the packet that was taken last, where none is put back: it is then not taken, and the
    /// next to be taken. It takes no memory.
    pub fn put_back(&mut self, packet: Packet)
        requires none { returned self.old ≡ None }
        requires last { last_of (taken self.old) ≡ Some packet }
        ensures link { SameIn self.old self.new }
        ensures returned { returned self.new ≡ Some packet }
        ensures taken { taken self.old ≡ taken self.new ++ packet ∷ [] }
        ensures known { known self.new ≡ known self.old }
        ensures waiting { waits self.new ≡ waits self.old + 1 }
    {
        self.back = Some(packet);
    }

    /// How many packets are in the ring of the link whose sending end is `other`. What was sent is then
    /// what was taken, the packet put back, these packets and the outbox; and each slot of the ring that
    /// holds none of them is known to be free. It takes no memory.
    pub fn look(&mut self, other: &mut LinkOut) -> usize
        requires { IsLink other.old self.old }
        ensures value { result ≡ length (known self.new) }
        ensures settled { IsSettled other.new self.new }
        ensures free { (slots other.new ≤ free_slots other.new + result) × (free_slots other.old ≤ free_slots other.new) }
        ensures waiting { waits self.new ≡ result + length (option_to_list (returned self.new)) }
        ensures link { SameIn self.old self.new × SameOut other.old other.new }
        ensures taken { (taken self.new ≡ taken self.old) × (returned self.new ≡ returned self.old) }
        ensures sent { (pushed other.new ≡ pushed other.old) × (outbox other.new ≡ outbox other.old) }
        ensures spare { spare other.new ≡ spare other.old }
    {
        other.ring.slots_beside(&mut self.ring);
        self.seen = self.ring.slots_beside(&mut other.ring);
        self.seen
    }

    /// How many packets wait: as many as the last look found, or none where there was no look, less
    /// those that left the ring since, and one more where one is put back.
    pub fn waiting(&self) -> usize
        ensures { result ≡ waits self.now }
    {
        match self.back {
            Some(_) => self.seen + 1,
            None => self.seen,
        }
    }
}
