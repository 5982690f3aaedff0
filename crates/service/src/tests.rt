use super::{AllocKind, Services, format, words_granted};
use std::test::Fail;
use word_ops::{List, Part};

fn wants_send<T: Send>(_item: &T) {}

#[test]
fn a_format_prints_its_bytes_and_the_words_in_order(rt: HostRuntime) -> Result<(), Fail> {
    let line = List::from_vec(vec![in rt.alloc(); Part::Long, Part::Byte(b'\n')]?);
    let least = List::from_vec(vec![in rt.alloc(); i64::MIN]?);
    assert_eq!(rt;
        format(rt.alloc(), &line, &least)?.as_slice(),
        b"-9223372036854775808\n".as_slice()
    );
    let two = List::from_vec(vec![in rt.alloc();
        Part::Byte(b'%'),
        Part::Long,
        Part::Byte(b' '),
        Part::Long,
    ]?);
    let words = List::from_vec(vec![in rt.alloc(); 2, -7]?);
    assert_eq!(rt;
        format(rt.alloc(), &two, &words)?.as_slice(),
        b"%2 -7".as_slice()
    );
    Ok(())
}

#[test]
fn pieces_stand_in_the_order_of_their_prints(rt: HostRuntime) -> Result<(), Fail> {
    let mut services = Services::new(rt.alloc(), 2, 0, 0);
    for text in [b"14", b"15"] {
        let count = services.pieces().len();
        if let Err(back) = services.print(List::from_vec(text.to_vec(rt.alloc())?)) {
            assert_eq!(rt; back.as_slice(), text.as_slice());
            assert_eq!(rt; services.pieces().len(), count);
            return Err("memory".into());
        }
    }
    let pieces = services.pieces();
    assert_eq!(rt; pieces.len(), 2);
    assert_eq!(rt; pieces.at(0).as_slice(), b"14".as_slice());
    assert_eq!(rt; pieces.at(1).as_slice(), b"15".as_slice());
    wants_send(&services);
    Ok(())
}

#[test]
fn blocks_begin_a_row_of_their_view(rt: HostRuntime) {
    let mut services = Services::new(rt.alloc(), 4, 0, 0);
    for (b, n, address) in [
        (4, 2, 1_099_511_627_784),
        (1, 3, 0),
        (1, 2, 1_099_511_627_792),
        (0, 2, 0),
        (-1, 2, 0),
        (4, -2, 0),
        (1, 1_048_576, 21_990_236_749_824),
        (1, 2_097_152, 0),
    ] {
        assert_eq!(rt;
            services.serve(AllocKind::Blocked, b, n),
            address,
            "{b} of {n}"
        );
    }
}

#[test]
fn no_product_of_blocks_is_cut_to_a_word(rt: HostRuntime) {
    let mut services = Services::new(rt.alloc(), 8, 0, 0);
    for (b, n) in [
        (1 << 60, 16),
        ((1 << 60) + 1, 16),
        (i64::MAX, 1_048_576),
        (i64::MAX, 1),
        (4096, 1_048_576),
    ] {
        assert_eq!(rt; services.serve(AllocKind::Blocked, b, n), 0, "{b} of {n}");
    }
    assert_eq!(rt;
        services.serve(AllocKind::Blocked, 1, 16),
        4_398_046_511_232
    );
    assert_eq!(rt; words_granted(AllocKind::Blocked, (1 << 60) + 1, 16), 0);
    assert_eq!(rt; words_granted(AllocKind::Blocked, 4, 2), 8);
}

#[test]
fn other_words_come_from_the_view_of_their_kind(rt: HostRuntime) {
    let mut services = Services::new(rt.alloc(), 8, 5, 3);
    let least = i64::MIN;
    assert_eq!(rt; services.serve(AllocKind::Striped, least, 4_294_967_288), 8);
    assert_eq!(rt; services.serve(AllocKind::Striped, 1, 1), 0);
    assert_eq!(rt;
        services.serve(AllocKind::Replicated, least, 2),
        34_084_860_461_059
    );
    assert_eq!(rt;
        services.serve(AllocKind::Replicated, 1, 1),
        34_084_860_461_061
    );
    let first = AllocKind::Local { nodelet: 0 };
    assert_eq!(rt; services.serve(first, least, 2), 35_184_372_088_837);
    let last = AllocKind::Local { nodelet: 7 };
    assert_eq!(rt; services.serve(last, least, 11), 42_880_953_483_264);
    assert_eq!(rt; services.serve(last, 1, 1), 42_880_953_483_275);
    assert_eq!(rt; words_granted(last, least, 11), 11);
    assert_eq!(rt; words_granted(AllocKind::Striped, 1, -1), 0);
    assert_eq!(rt;
        words_granted(AllocKind::Replicated, 1, 4_294_967_296),
        4_294_967_296
    );
}
