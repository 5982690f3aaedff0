use super::*;
use std::alloc::Global;
use std::test::Fail;

const LEAST: i64 = -9_223_372_036_854_775_808;

const GREATEST: i64 = 9_223_372_036_854_775_807;

#[test]
fn operators_answer_the_words_worked_out_by_hand(rt: HostRuntime) {
    let rows = [
        (BinaryOp::Add, GREATEST, 1, Ok(LEAST)),
        (BinaryOp::Sub, LEAST, 1, Ok(GREATEST)),
        (
            BinaryOp::Mul,
            6_364_136_223_846_793_005,
            3,
            Ok(645_664_597_830_827_399),
        ),
        (BinaryOp::Div, -7, 2, Ok(-3)),
        (BinaryOp::Rem, -7, 2, Ok(-1)),
        (BinaryOp::Div, LEAST, -1, Err(Divide)),
        (BinaryOp::Rem, LEAST, -1, Err(Divide)),
        (BinaryOp::Div, 1, 0, Err(Divide)),
        (BinaryOp::Shl, 1, 64, Ok(1)),
        (BinaryOp::Shr, -8, 1, Ok(-4)),
        (BinaryOp::Lt, -1, 0, Ok(1)),
        (BinaryOp::Ge, -1, 0, Ok(0)),
        (BinaryOp::Xor, -1, 1, Ok(-2)),
    ];
    for (op, x, y, wanted) in rows {
        assert_eq!(rt; binary(op, x, y), wanted, "{x} and {y}");
    }
    assert_eq!(rt; unary(UnaryOp::Neg, LEAST), LEAST);
    assert_eq!(rt; unary(UnaryOp::Not, 0), 1);
    assert_eq!(rt; unary(UnaryOp::Flip, 5), -6);
}

fn decimal(alloc: Global, x: i64) -> Result<List<u8>, std::alloc::AllocError> {
    let mut out = List::new(alloc);
    push_decimal(&mut out, x)?;
    Ok(out)
}

#[test]
fn decimal_text_is_the_shortest(rt: HostRuntime) -> Result<(), Fail> {
    assert_eq!(rt; decimal(rt.alloc(), 0)?.as_slice(), b"0".as_slice());
    assert_eq!(rt; decimal(rt.alloc(), 14)?.as_slice(), b"14".as_slice());
    assert_eq!(rt;
        decimal(rt.alloc(), LEAST)?.as_slice(),
        b"-9223372036854775808".as_slice()
    );
    Ok(())
}

#[test]
fn counts_are_one_to_twenty_digits_in_their_range(rt: HostRuntime) {
    assert_eq!(rt; read_count(b"08", 1, 64), Some(8));
    assert_eq!(rt; read_count(b"65", 1, 64), None);
    assert_eq!(rt; read_count(b"", 0, 64), None);
    assert_eq!(rt; read_count(b"-1", 0, 64), None);
    assert_eq!(rt;
        read_count(b"18446744073709551615", 0, u64::MAX),
        Some(u64::MAX)
    );
    assert_eq!(rt; read_count(b"18446744073709551616", 0, u64::MAX), None);
    assert_eq!(rt; read_count(b"000000000000000000001", 0, 64), None);
}

#[test]
fn a_list_is_built_changed_and_taken_apart(rt: HostRuntime) -> Result<(), Fail> {
    let mut list = List::from_vec(vec![in rt.alloc(); 4u64, 5]?);
    assert_eq!(rt; list.push(6), Ok(()));
    assert_eq!(rt; list.len(), 3);
    assert_eq!(rt; list.set(1, 7), 5);
    *list.at_mut(0) = 9;
    assert_eq!(rt; *list.at(0), 9);
    assert_eq!(rt; List::<u64>::new(list.allocator()).len(), 0);
    assert_eq!(rt; list.pop(), Some(6));
    assert_eq!(rt; list.len(), 2);
    assert_eq!(rt;
        List::from_vec(list.into_vec()).as_slice(),
        [9, 7].as_slice()
    );
    Ok(())
}

#[test]
fn names_are_written_with_a_dot_and_ordered_by_nodelet_first(rt: HostRuntime) -> Result<(), Fail> {
    let low = Name {
        nodelet: 0,
        number: 12,
    };
    let high = Name {
        nodelet: 1,
        number: 3,
    };
    assert_eq!(rt; low.to_string(rt.alloc())?.as_str(), "0.12");
    assert!(rt; low < high);
    Ok(())
}

fn can_move_between_threads<T: Send + Drop>(_value: T) {}

fn can_be_shared_by_threads<T: Sync>(_value: &T) {}

#[test]
fn lists_and_boxes_cross_threads(rt: HostRuntime) -> Result<(), Fail> {
    let boxed = Box::new(rt.alloc(), 5u64)?;
    let list: List<Box<u64>> = List::new(rt.alloc());
    can_be_shared_by_threads(&boxed);
    can_be_shared_by_threads(&list);
    can_move_between_threads(boxed);
    can_move_between_threads(list);
    Ok(())
}
