ghost use Rattle.migrate_queue.specs.Links.{SameIn};

use super::{LinkIn, LinkOut, LinkOutlet, link};
use std::alloc::AllocError;
use threadlet_state::{Body, Outlet, Packet};
use word_ops::Name;

/// A packet that is known by its stamp.
fn packet(stamp: u64) -> Packet {
    Packet {
        stamp,
        body: Body::Ack {
            name: Name {
                nodelet: 0,
                number: 0,
            },
            late: None,
        },
    }
}

/// The stamp of the next packet, which is taken.
fn next_stamp(inward: &mut LinkIn) -> Option<u64>
    ensures { SameIn inward.old inward.new }
{
    let packet = inward.take()?;
    Some(packet.stamp)
}

/// Takes a packet and puts it back; its stamp.
#[tactic(auto, using(crate::proofs::LastOf::last_taken))]
fn stamp_in_front(inward: &mut LinkIn) -> Option<u64>
    ensures { SameIn inward.old inward.new }
{
    let packet = inward.take()?;
    let stamp = packet.stamp;
    inward.put_back(packet);
    Some(stamp)
}

#[test]
fn a_ring_of_one_slot_passes_packets_one_by_one(rt: HostRuntime) -> Result<(), AllocError> {
    let (mut out, mut inward) = link(rt.alloc(), 1)?;
    out.reserve(2)?;
    out.send(packet(7));
    out.send(packet(9));
    assert_eq!(rt; out.flush(), 1);
    assert_eq!(rt; out.unsent(), 1);
    assert_eq!(rt; next_stamp(&mut inward), Some(7));
    assert_eq!(rt; next_stamp(&mut inward), None);
    assert_eq!(rt; out.flush(), 1);
    assert_eq!(rt; next_stamp(&mut inward), Some(9));
    Ok(())
}

#[test]
fn packets_wait_from_the_look_that_found_them(rt: HostRuntime) -> Result<(), AllocError> {
    let (mut out, mut inward) = link(rt.alloc(), 2)?;
    out.reserve(3)?;
    out.send(packet(1));
    out.send(packet(2));
    out.send(packet(3));
    assert_eq!(rt; out.flush(), 2);
    assert_eq!(rt; inward.waiting(), 0);
    assert_eq!(rt; inward.look(&mut out), 2);
    assert_eq!(rt; inward.waiting(), 2);
    assert_eq!(rt; stamp_in_front(&mut inward), Some(1));
    assert_eq!(rt; inward.waiting(), 2);
    assert_eq!(rt; next_stamp(&mut inward), Some(1));
    assert_eq!(rt; next_stamp(&mut inward), Some(2));
    assert_eq!(rt; inward.waiting(), 0);
    assert_eq!(rt; out.flush(), 1);
    assert_eq!(rt; stamp_in_front(&mut inward), Some(3));
    assert_eq!(rt; inward.waiting(), 1);
    assert_eq!(rt; inward.look(&mut out), 0);
    assert_eq!(rt; next_stamp(&mut inward), Some(3));
    assert_eq!(rt; inward.waiting(), 0);
    Ok(())
}

#[test]
fn an_outlet_sends_on_the_link_to_a_nodelet(rt: HostRuntime) -> Result<(), AllocError> {
    let (out, mut inward) = link(rt.alloc(), 1)?;
    let mut outlet = LinkOutlet {
        links: vec![in rt.alloc(); None, Some(out)]?,
    };
    outlet.reserve(1, 1)?;
    outlet.send(1, packet(5));
    for link in &mut outlet.links {
        if let Some(out) = link {
            assert_eq!(rt; out.flush(), 1);
        }
    }
    assert_eq!(rt; next_stamp(&mut inward), Some(5));
    Ok(())
}

fn can_move_between_threads<T: Send>() {}

#[test]
fn the_ends_of_a_link_cross_threads() {
    can_move_between_threads::<LinkOut>();
    can_move_between_threads::<LinkIn>();
    can_move_between_threads::<LinkOutlet>();
}
