use super::{Cursors, owner, valid, view};

#[test]
fn blocks_are_dealt_round_robin(rt: HostRuntime) {
    let mut cursors = Cursors::new(4, 0, 0);
    let first = cursors.alloc_view(1, 8);
    assert_eq!(rt; first, 1_099_511_627_784);
    for (address, nodelet) in [
        (1_099_511_627_784, 0),
        (1_099_511_627_785, 0),
        (1_099_511_627_786, 1),
        (1_099_511_627_787, 1),
        (1_099_511_627_788, 2),
        (1_099_511_627_789, 2),
        (1_099_511_627_790, 3),
        (1_099_511_627_791, 3),
    ] {
        assert!(rt; valid(address, 4));
        assert_eq!(rt; owner(address, 0, 4), nodelet, "at {address}");
    }
    assert_eq!(rt; cursors.alloc_view(1, 1), 1_099_511_627_792);
    assert_eq!(rt; cursors.alloc_view(1, 0), 0);
}

#[test]
fn each_allocation_begins_a_row(rt: HostRuntime) {
    let mut cursors = Cursors::new(3, 0, 0);
    assert_eq!(rt; cursors.alloc_view(0, 4), 3);
    assert_eq!(rt; cursors.alloc_view(0, 1), 9);
}

#[test]
fn a_view_ends_at_its_offset_limit(rt: HostRuntime) {
    let mut cursors = Cursors::new(8, 0, 0);
    for count in [-1, i64::MIN, i64::MAX, 4_294_967_289] {
        assert_eq!(rt; cursors.alloc_view(0, count), 0, "{count} words");
    }
    assert_eq!(rt; cursors.alloc_view(0, 4_294_967_288), 8);
    assert_eq!(rt; cursors.alloc_view(0, 1), 0);
}

#[test]
fn globals_stand_before_what_is_allocated(rt: HostRuntime) {
    let mut cursors = Cursors::new(2, 5, 3);
    assert_eq!(rt; cursors.alloc_view(31, 2), 34_084_860_461_059);
    assert_eq!(rt; cursors.alloc_view(31, 1), 34_084_860_461_061);
    assert_eq!(rt; cursors.alloc_view(32, 2), 35_184_372_088_837);
    assert_eq!(rt; cursors.alloc_view(32, 1), 35_184_372_088_839);
    assert_eq!(rt; cursors.alloc_view(33, 1), 36_283_883_716_608);
    assert_eq!(rt; cursors.alloc_view(33, 1), 36_283_883_716_609);
}

#[test]
fn only_some_views_are_valid(rt: HostRuntime) {
    for (address, of_one, of_nine, of_all) in [
        (i64::MIN, false, false, false),
        (-1, false, false, false),
        (0, false, false, false),
        (1, true, true, true),
        (23_089_744_183_295, true, true, true),
        (23_089_744_183_296, false, false, false),
        (34_084_860_461_055, false, false, false),
        (34_084_860_461_056, true, true, true),
        (36_283_883_716_607, true, true, true),
        (36_283_883_716_608, false, true, true),
        (43_980_465_111_040, false, true, true),
        (45_079_976_738_816, false, false, true),
        (105_553_116_266_495, false, false, true),
        (105_553_116_266_496, false, false, false),
        (i64::MAX, false, false, false),
    ] {
        assert_eq!(rt; valid(address, 1), of_one, "{address} of 1 nodelet");
        assert_eq!(rt; valid(address, 9), of_nine, "{address} of 9 nodelets");
        assert_eq!(rt; valid(address, 64), of_all, "{address} of 64 nodelets");
    }
}

#[test]
fn owners_of_copies_and_local_words(rt: HostRuntime) {
    for (address, place, nodelet) in [
        (34_084_860_461_056, 2, 2),
        (34_084_860_461_056, 0, 0),
        (35_184_372_088_832, 2, 0),
        (36_283_883_716_608, 2, 1),
        (38_482_906_972_160, 1, 3),
    ] {
        assert!(rt; valid(address, 4));
        assert_eq!(rt; owner(address, place, 4), nodelet, "{address} from {place}");
    }
    assert_eq!(rt; view(i64::MAX), 8_388_607);
}
