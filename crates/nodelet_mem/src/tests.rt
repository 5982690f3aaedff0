use super::Words;
use std::alloc::AllocError;

/// A word beyond which nothing was stored.
const BASE: i64 = 35_184_372_088_832;

fn wants_send<T: Send>(_item: &T) {}

fn pairs(words: &Words) -> Result<Vec<(i64, i64)>, AllocError> {
    Ok(words.listed()?.into_vec())
}

#[test]
fn words_are_listed_across_pages(rt: HostRuntime) {
    let mut words = Words::new(rt.alloc());
    for offset in [1023, 0, 512, 511] {
        words.store(BASE + offset, 1).expect(&rt, "memory");
    }
    let all = pairs(&words).expect(&rt, "memory");
    assert_eq!(rt;
        all.as_slice(),
        [
            (BASE, 1),
            (BASE + 511, 1),
            (BASE + 512, 1),
            (BASE + 1023, 1)
        ]
        .as_slice()
    );
    words.store(BASE + 512, 0).expect(&rt, "memory");
    let rest = pairs(&words).expect(&rt, "memory");
    assert_eq!(rt;
        rest.as_slice(),
        [(BASE, 1), (BASE + 511, 1), (BASE + 1023, 1)].as_slice()
    );
}

#[test]
fn words_stand_at_any_address(rt: HostRuntime) {
    let mut words = Words::new(rt.alloc());
    for (address, word) in [
        (i64::MAX, 3),
        (-1, -7),
        (i64::MIN, 2),
        (0, 5),
        (-512, 9),
        (-513, 8),
    ] {
        assert_eq!(rt; words.load(address), 0);
        words.store(address, word).expect(&rt, "memory");
    }
    assert_eq!(rt; words.load(-1), -7);
    let all = pairs(&words).expect(&rt, "memory");
    assert_eq!(rt;
        all.as_slice(),
        [
            (i64::MIN, 2),
            (-513, 8),
            (-512, 9),
            (-1, -7),
            (0, 5),
            (i64::MAX, 3)
        ]
        .as_slice()
    );
}

#[test]
fn a_grant_has_its_addresses_alone(rt: HostRuntime) {
    let mut words = Words::new(rt.alloc());
    words.reserve_grant().expect(&rt, "memory");
    words.grant(8, 2).expect(&rt, "memory");
    for (address, granted) in [(7, false), (8, true), (9, true), (10, false)] {
        assert_eq!(rt; words.granted(address), granted, "at {address}");
    }
    words.grant(10, 1).expect(&rt, "memory");
    words.grant(20, 0).expect(&rt, "memory");
    words.grant(i64::MAX, u64::MAX).expect(&rt, "memory");
    for (address, granted) in [
        (8, true),
        (10, true),
        (11, false),
        (20, false),
        (i64::MIN, false),
        (i64::MAX, true),
    ] {
        assert_eq!(rt; words.granted(address), granted, "at {address}");
    }
    assert_eq!(rt; words.load(8), 0);
    wants_send(&words);
}

#[test]
fn grants_come_in_any_order(rt: HostRuntime) {
    let mut words = Words::new(rt.alloc());
    for (first, count) in [
        (40, 2),
        (10, 2),
        (20, 1),
        (11, 3),
        (13, 10),
        (60, 1),
        (12, 30),
    ] {
        words.grant(first, count).expect(&rt, "memory");
    }
    for (address, granted) in [
        (9, false),
        (10, true),
        (22, true),
        (41, true),
        (42, false),
        (59, false),
        (60, true),
        (61, false),
    ] {
        assert_eq!(rt; words.granted(address), granted, "at {address}");
    }
}
