ghost use Rattle.std.specs.Prelude.{◌≡◌, IfOk};

use super::{
    Cell, End, Name, Pos, SpentCause, Traffic, TrapKind, ending_text, report_text, words_text,
};
use std::alloc::{AllocError, Global};
use word_ops::List;

fn numbers(alloc: Global, all: &[u64]) -> Result<List<u64>, AllocError>
    ensures { IfOk result (λ list. list ≡ all.now) }
{
    let mut list = List::new(alloc);
    list.extend_from_slice(all)?;
    Ok(list)
}

#[test]
fn a_report_of_one_nodelet(rt: HostRuntime) -> Result<(), AllocError> {
    let alloc = rt.alloc();
    let traffic = Traffic {
        n: 1,
        moves: numbers(alloc, &[0])?,
        births: numbers(alloc, &[0])?,
        posts: numbers(alloc, &[4])?,
        dones: numbers(alloc, &[0])?,
        turns: numbers(alloc, &[11])?,
        applied: numbers(alloc, &[4])?,
    };
    let text = report_text(alloc, &traffic)?;
    assert_eq!(rt;
        text.as_slice(),
        b"traffic\npost 0 0 4\nnodelet 0 turns 11 applied 4\n".as_slice()
    );
    Ok(())
}

#[test]
fn a_report_of_each_kind(rt: HostRuntime) -> Result<(), AllocError> {
    let alloc = rt.alloc();
    let traffic = Traffic {
        n: 2,
        moves: numbers(alloc, &[0, 3, 1, 0])?,
        births: numbers(alloc, &[0, 2, 0, 0])?,
        posts: numbers(alloc, &[5, 0, 0, u64::MAX])?,
        dones: numbers(alloc, &[0, 0, 2, 0])?,
        turns: numbers(alloc, &[7, 2])?,
        applied: numbers(alloc, &[5, 0])?,
    };
    let text = report_text(alloc, &traffic)?;
    let moved = "traffic\nmove 0 1 3\nmove 1 0 1\nbirth 0 1 2\n";
    let posted = "post 0 0 5\npost 1 1 18446744073709551615\ndone 1 0 2\n";
    let want = format!(in alloc;
        "{moved}{posted}nodelet 0 turns 7 applied 5\nnodelet 1 turns 2 applied 0\n"
    )?;
    assert_eq!(rt; text.as_slice(), want.as_bytes());
    Ok(())
}

#[test]
fn words_stand_one_a_line(rt: HostRuntime) -> Result<(), AllocError> {
    let alloc = rt.alloc();
    let mut cells: List<Cell> = List::new(alloc);
    let none = words_text(alloc, &cells)?;
    assert_eq!(rt; none.as_slice(), b"words\n".as_slice());
    let copies = [
        Cell {
            nodelet: 0,
            address: 34_084_860_461_056,
            word: 9,
        },
        Cell {
            nodelet: 1,
            address: 34_084_860_461_056,
            word: -9,
        },
    ];
    cells.extend_from_slice(copies.as_slice())?;
    let text = words_text(alloc, &cells)?;
    assert_eq!(rt;
        text.as_slice(),
        b"words\n0 34084860461056 9\n1 34084860461056 -9\n".as_slice()
    );
    Ok(())
}

#[test]
fn each_end_has_its_line(rt: HostRuntime) -> Result<(), AllocError> {
    let alloc = rt.alloc();
    let trapped = End::Trap {
        kind: TrapKind::BadAddress,
        pos: Pos {
            line: 1,
            column: 23,
        },
        name: Name {
            nodelet: 0,
            number: 0,
        },
    };
    let spent = End::Spent {
        nodelet: 0,
        cause: SpentCause::Turns,
    };
    for (end, line) in [
        (End::Done { value: -5 }, "end: done -5\n"),
        (trapped, "end: trap BadAddress 1:23 strand 0.0\n"),
        (spent, "end: spent turns at nodelet 0\n"),
    ] {
        let text = ending_text(alloc, end)?;
        assert_eq!(rt; text.as_slice(), line.as_bytes());
    }
    Ok(())
}
