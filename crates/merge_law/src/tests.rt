use super::*;
use std::alloc::{AllocError, Global};
use std::test::Fail;
use word_ops::{Entry, List, Name, NodeEvent, Step};

fn act(nodelet: u32, number: u64) -> Step {
    Step::Act {
        name: Name { nodelet, number },
        child: None,
    }
}

/// An entry of a run that did an action of the strand `nodelet.number`.
fn did(stamp: u64, nodelet: u32, number: u64) -> Entry {
    Entry {
        stamp,
        event: NodeEvent::Run {
            name: Name { nodelet, number },
            count: 1,
        },
        step: Some(act(nodelet, number)),
    }
}

/// An entry of a take that did no step.
fn took(stamp: u64, origin: u32) -> Entry {
    Entry {
        stamp,
        event: NodeEvent::Take { origin },
        step: None,
    }
}

fn part(alloc: Global, entries: &[Entry]) -> Result<List<Entry>, AllocError> {
    let mut part = List::new(alloc);
    part.extend_from_slice(entries)?;
    Ok(part)
}

#[test]
fn by_stamp_then_nodelet_then_place(rt: HostRuntime) -> Result<(), Fail> {
    let alloc = rt.alloc();
    let mut parts = List::new(alloc);
    parts.add(part(alloc, &[did(1, 0, 0), took(4, 1), did(6, 0, 1)])?)?;
    parts.add(part(alloc, &[did(1, 1, 0), did(4, 1, 1), did(5, 1, 2)])?)?;
    parts.add(part(alloc, &[])?)?;
    parts.add(part(alloc, &[did(4, 3, 0), did(4, 3, 1)])?)?;
    let steps = merge(alloc, &parts)?;
    let wanted = [
        act(0, 0),
        act(1, 0),
        act(1, 1),
        act(3, 0),
        act(3, 1),
        act(1, 2),
        act(0, 1),
    ];
    assert_eq!(rt; steps.as_slice(), wanted.as_slice());
    Ok(())
}

#[test]
fn stamps_are_whole_numbers_of_64_bits(rt: HostRuntime) -> Result<(), Fail> {
    let alloc = rt.alloc();
    let mut parts = List::new(alloc);
    parts.add(part(alloc, &[did(u64::MAX, 0, 0)])?)?;
    parts.add(part(alloc, &[did(1 << 32, 1, 0), did(1 << 63, 1, 1)])?)?;
    parts.add(part(alloc, &[did(3, 2, 0)])?)?;
    let steps = merge(alloc, &parts)?;
    let wanted = [act(2, 0), act(1, 0), act(1, 1), act(0, 0)];
    assert_eq!(rt; steps.as_slice(), wanted.as_slice());
    Ok(())
}

#[test]
fn laws_hold_at_any_types() {
    law_merged_order();
    law_merged_legal::<u64, Event, Entry>();
    law_replay::<List<u64>, (), Step>();
    law_stamps::<(), Vec<Event>, u8>();
}
