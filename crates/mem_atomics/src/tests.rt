use super::{FetchOp, Op, apply, fetch};

#[test]
fn operations_leave_their_word(rt: HostRuntime) {
    for (op, old, v, new) in [
        (Op::Store, 5, -3, -3),
        (Op::Add, 10, 3, 13),
        (Op::Add, i64::MAX, 1, i64::MIN),
        (Op::Add, i64::MIN, -1, i64::MAX),
        (Op::And, 12, 10, 8),
        (Op::And, -1, -7, -7),
        (Op::Or, 12, 10, 14),
        (Op::Or, i64::MIN, 1, -9_223_372_036_854_775_807),
        (Op::Xor, 12, 10, 6),
        (Op::Xor, -1, 0, -1),
        (Op::Min, 7, 2, 2),
        (Op::Min, 2, 7, 2),
        (Op::Min, 3, -8, -8),
        (Op::Max, 7, 2, 7),
        (Op::Max, 2, 7, 7),
        (Op::Max, -8, 3, 3),
    ] {
        assert_eq!(rt; apply(op, old, v), new, "{op:?} of {old} and {v}");
    }
}

#[test]
fn fetches_leave_their_word(rt: HostRuntime) {
    for (f, old, new) in [
        (FetchOp::Add { by: 3 }, 10, 13),
        (FetchOp::Add { by: 1 }, i64::MAX, i64::MIN),
        (FetchOp::Swap { to: 7 }, 1, 7),
        (
            FetchOp::Cas {
                expected: 13,
                to: 1,
            },
            13,
            1,
        ),
        (
            FetchOp::Cas {
                expected: 13,
                to: 1,
            },
            12,
            12,
        ),
        (
            FetchOp::Cas {
                expected: 13,
                to: 1,
            },
            -13,
            -13,
        ),
    ] {
        assert_eq!(rt; fetch(f, old), new, "{f:?} of {old}");
    }
}
