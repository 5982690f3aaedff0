ghost use Rattle.std.specs.Prelude.{◌≡◌, ◌≤◌, [], None, IfOk};
ghost use Rattle.migrate_queue.specs.Links.{outbox, pushed, slots, free_slots, taken, returned, known, waits, IsLink, IsSettled};

use crate::link_in::LinkIn;
use crate::link_out::LinkOut;
use rtrb::RingBuffer;
use std::alloc::{AllocError, Global};
use std::collections::VecDeque;

/// The two ends of a new link whose ring has `capacity` slots. No packet is on it
/// (docs/machine.md, "Links").
pub fn link(alloc: Global, capacity: usize) -> Result<(LinkOut, LinkIn), AllocError>
    requires { 1 ≤ capacity }
    ensures pair { IfOk result (λ ends. IsLink ends.0 ends.1) }
    ensures settled { IfOk result (λ ends. IsSettled ends.0 ends.1) }
    ensures out { IfOk result (λ ends. (pushed ends.0 ≡ []) × (outbox ends.0 ≡ [])) }
    ensures room { IfOk result (λ ends. (slots ends.0 ≡ capacity) × (free_slots ends.0 ≡ capacity)) }
    ensures inward { IfOk result (λ ends. (taken ends.1 ≡ []) × (returned ends.1 ≡ None) × (known ends.1 ≡ [])) }
    ensures waiting { IfOk result (λ ends. waits ends.1 ≡ 0) }
{
    let (producer, consumer) = RingBuffer::new(alloc, capacity)?;
    let out = LinkOut {
        outbox: VecDeque::new(alloc),
        ring: producer,
    };
    let inward = LinkIn {
        ring: consumer,
        back: None,
        seen: 0,
    };
    Ok((out, inward))
}
