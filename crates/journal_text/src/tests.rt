use super::{Journal, JournalFault, JournalKind, JournalRefusal, List, Name, Step, read, write};
use std::alloc::AllocError;

const MAIN: Name = Name {
    nodelet: 0,
    number: 0,
};

const NINE_LINES: &str =
    "emu-journal 2\nnodelets 8\nturns 1000000\nsource 24\nint main() { return 0; }\nsteps 2\nact 0.0\nact 0.0\nend\n";

#[test]
fn the_nine_lines_of_a_run_that_returns_at_once(rt: HostRuntime) -> Result<(), AllocError> {
    let alloc = rt.alloc();
    let mut text: List<u8> = List::new(alloc);
    text.extend_from_slice(b"int main() { return 0; }")?;
    let mut steps: List<Step> = List::new(alloc);
    steps.add(Step::Act {
        name: MAIN,
        child: None,
    })?;
    steps.add(Step::Act {
        name: MAIN,
        child: None,
    })?;
    let journal = Journal {
        version: 2,
        n: 8,
        turns: 1_000_000,
        text,
        steps,
    };
    let bytes = write(alloc, &journal)?;
    assert_eq!(rt; bytes.as_slice(), NINE_LINES.as_bytes());
    Ok(())
}

#[test]
fn the_first_broken_line_and_its_kind(rt: HostRuntime) -> Result<(), AllocError> {
    let alloc = rt.alloc();
    let head = "emu-journal 2\nnodelets 8\nturns 1\n";
    for (bytes, line, kind) in [
        ("emu-journal 3\n", 1, JournalKind::BadHead),
        ("emu-journal 2\nnodelets 65\n", 2, JournalKind::BadNodelets),
        ("emu-journal 2\nnodelets 08\n", 2, JournalKind::BadNodelets),
        ("emu-journal 2\nnodelets 8\n", 3, JournalKind::BadTurns),
        (
            "emu-journal 2\nnodelets 8\nturns 1\nsource 23\nint main() { return 0; }\nsteps 0\nend\n",
            5,
            JournalKind::ShortSource,
        ),
    ] {
        let refusal = read(alloc, bytes.as_bytes()).err();
        assert!(rt; refusal == Some(JournalRefusal::Fault(JournalFault { line, kind })));
    }
    for (rest, line, kind) in [
        ("source 1048577\n", 4, JournalKind::BadLength),
        ("source 1\nab\n", 5, JournalKind::ShortSource),
        ("source 3\n\n\n", 7, JournalKind::ShortSource),
        ("source 1\n\n\nsteps -1\n", 7, JournalKind::BadCount),
        (
            "source 1\na\nsteps 1\napply 9.0 8\n",
            7,
            JournalKind::BadStep,
        ),
        ("source 1\na\nsteps 0\nend", 7, JournalKind::BadEnd),
        ("source 1\na\nsteps 0\nend\n ", 8, JournalKind::BadEnd),
    ] {
        let bytes = format!(in alloc; "{head}{rest}")?;
        let refusal = read(alloc, bytes.as_bytes()).err();
        assert!(rt; refusal == Some(JournalRefusal::Fault(JournalFault { line, kind })));
    }
    Ok(())
}

#[test]
fn what_is_read_is_written_again(rt: HostRuntime) -> Result<(), AllocError> {
    let alloc = rt.alloc();
    let steps = "act 9.18446744073709551615 spawn 4294967295.0\napply 9.0 7\nact 0.0\n";
    let given = format!(in alloc;
        "emu-journal 1\nnodelets 8\nturns 1099511627776\nsource 0\n\nsteps 3\n{steps}end\n"
    )?;
    match read(alloc, given.as_bytes()) {
        Ok(journal) => {
            let bytes = write(alloc, &journal)?;
            assert_eq!(rt; bytes.as_slice(), given.as_bytes());
            Ok(())
        }
        Err(JournalRefusal::OutOfMemory) => Err(AllocError),
        Err(JournalRefusal::Fault(_)) => {
            assert!(rt; false);
            Ok(())
        }
    }
}
