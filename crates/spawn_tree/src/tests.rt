use super::Joins;
use std::alloc::AllocError;
use word_ops::{Name, Ticket};

const MAIN: Name = Name {
    nodelet: 0,
    number: 0,
};

#[test]
fn results_come_in_spawn_order_and_go(rt: HostRuntime) -> Result<(), AllocError> {
    let mut joins = Joins::new(rt.alloc());
    for (order, result) in [(2, 30), (0, 10), (1, 20)] {
        assert!(rt; !joins.has(MAIN, 1, order));
        assert!(rt; !joins.ready(MAIN, 1, 3));
        let ticket = Ticket {
            parent: MAIN,
            home: 0,
            depth: 1,
            order,
        };
        joins.add(ticket, result)?;
        assert!(rt; joins.has(MAIN, 1, order));
    }
    assert!(rt; !joins.ready(MAIN, 2, 1));
    assert!(rt; joins.ready(MAIN, 2, 0));
    assert!(rt; joins.ready(MAIN, 1, 3));
    let results = joins.collect(MAIN, 1, 3)?;
    assert_eq!(rt; results.as_slice(), [10, 20, 30].as_slice());
    assert!(rt; !joins.ready(MAIN, 1, 1));
    Ok(())
}

#[test]
fn a_missing_result_is_found_soon(rt: HostRuntime) {
    let joins = Joins::new(rt.alloc());
    assert!(rt; !joins.ready(MAIN, 1, u64::MAX));
}

#[test]
fn many_children_may_end_in_any_order(rt: HostRuntime) -> Result<(), AllocError> {
    let mut joins = Joins::new(rt.alloc());
    // Each number under 40 comes once: 7 has no factor in common with 40.
    for turn in 0..40u64 {
        assert!(rt; !joins.ready(MAIN, 3, 40));
        let order = turn * 7 % 40;
        assert!(rt; !joins.has(MAIN, 3, order));
        let ticket = Ticket {
            parent: MAIN,
            home: 0,
            depth: 3,
            order,
        };
        joins.add(ticket, order as i64)?;
    }
    assert!(rt; joins.ready(MAIN, 3, 40));
    assert!(rt; !joins.ready(MAIN, 3, 41));
    let results = joins.collect(MAIN, 3, 40)?;
    assert_eq!(rt; results.len(), 40);
    assert!(rt; joins.ready(MAIN, 3, 0));
    assert!(rt; !joins.ready(MAIN, 3, 40));
    Ok(())
}
