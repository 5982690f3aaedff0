use crate::{Asked, Mode, WordsRefusal, read};
use std::test::Fail;

const RUN: Asked = Asked {
    mode: Mode::Run,
    n: 8,
    turns: 1_000_000,
    serial: None,
    report: false,
    memory: false,
    journal: false,
    workload: None,
    watch: false,
};

// What the words of a line ask for; one space stands between two words.
fn answer(rt: HostRuntime, line: &str) -> Result<Result<Asked, WordsRefusal>, Fail> {
    let mut words: Vec<String> = Vec::new(rt.alloc());
    if !line.is_empty() {
        for word in line.split(' ') {
            words.push(String::from_str(rt.alloc(), word)?)?;
        }
    }
    Ok(read(rt.alloc(), words.as_slice()))
}

#[test]
fn each_mode_has_its_word(rt: HostRuntime) -> Result<(), Fail> {
    let modes = [
        ("check", Mode::Check),
        ("emit", Mode::Emit),
        ("run", Mode::Run),
        ("replay", Mode::Replay),
        ("audit", Mode::Audit),
        ("exec", Mode::Exec),
        ("time", Mode::Time),
        ("upgrade", Mode::Upgrade),
    ];
    for (line, mode) in modes {
        assert!(rt; answer(rt, line)? == Ok(Asked { mode, ..RUN }), "{line}");
    }
    let mode = Mode::Gen;
    let workload = Some(0);
    assert!(rt;
        answer(rt, "gen")?
            == Ok(Asked {
                mode,
                workload,
                ..RUN
            })
    );
    Ok(())
}

#[test]
fn nodelets_and_turns_are_read(rt: HostRuntime) -> Result<(), Fail> {
    let n = 64;
    let turns = 1_099_511_627_776;
    let rows = [
        ("run --nodelets 64", Asked { n, ..RUN }),
        ("--nodelets=1 run", Asked { n: 1, ..RUN }),
        ("run --nodelets 08", RUN),
        ("run --nodelets 00000000000000000064", Asked { n, ..RUN }),
        ("run --turns 1", Asked { turns: 1, ..RUN }),
        ("run --turns 1099511627776", Asked { turns, ..RUN }),
    ];
    for (line, wanted) in rows {
        assert!(rt; answer(rt, line)? == Ok(wanted), "{line}");
    }
    Ok(())
}

#[test]
fn seeds_and_workloads_are_read(rt: HostRuntime) -> Result<(), Fail> {
    let serial = Some(0);
    let last = Some(u64::MAX);
    let workload = Some(1_000_000);
    let rows = [
        ("run --serial 0", Asked { serial, ..RUN }),
        (
            "run --serial 18446744073709551615",
            Asked {
                serial: last,
                ..RUN
            },
        ),
        ("run --workload 1000000", Asked { workload, ..RUN }),
    ];
    for (line, wanted) in rows {
        assert!(rt; answer(rt, line)? == Ok(wanted), "{line}");
    }
    Ok(())
}

#[test]
fn flags_are_read(rt: HostRuntime) -> Result<(), Fail> {
    let report = true;
    let memory = true;
    let journal = true;
    let watch = true;
    let rows = [
        ("run --report", Asked { report, ..RUN }),
        ("--memory run", Asked { memory, ..RUN }),
        ("run --record", Asked { journal, ..RUN }),
        ("run --watch", Asked { watch, ..RUN }),
        ("-- run", RUN),
        ("--report -- run", Asked { report, ..RUN }),
    ];
    for (line, wanted) in rows {
        assert!(rt; answer(rt, line)? == Ok(wanted), "{line}");
    }
    Ok(())
}

#[test]
fn options_of_other_modes_are_kept(rt: HostRuntime) -> Result<(), Fail> {
    let check = Asked {
        mode: Mode::Check,
        workload: Some(7),
        ..RUN
    };
    let text = Asked {
        mode: Mode::Gen,
        n: 2,
        workload: Some(19),
        ..RUN
    };
    let rows = [
        ("check --workload 7", check),
        ("gen --workload 19 --nodelets 2", text),
    ];
    for (line, wanted) in rows {
        assert!(rt; answer(rt, line)? == Ok(wanted), "{line}");
    }
    Ok(())
}

#[test]
fn other_words_ask_for_nothing(rt: HostRuntime) -> Result<(), Fail> {
    let lines = [
        "",
        "bogus",
        "Run",
        "run gen",
        "run -- gen",
        "-- --report",
        "--report",
        "--help",
        "-h",
        "run --help",
        "help",
        "--version",
        "-V",
        "run --unknown",
        "run --reports",
        "run --rep",
        "run -r",
        "run --report --report",
        "run --report=true",
        "run --serial 1 --serial 1",
        "run --nodelets",
        "run --nodelets=",
        "run --nodelets 0",
        "run --nodelets 65",
        "run --nodelets +4",
        "run --nodelets -4",
        "run --nodelets=-4",
        "run --nodelets 0x4",
        "run --nodelets 000000000000000000008",
        "run --nodelets --report",
        "run --turns 0",
        "run --turns 1099511627777",
        "run --serial 18446744073709551616",
        "run --workload 1000001",
        "check --nodelets 65",
        "upgrade --workload 1000001",
    ];
    for line in lines {
        assert!(rt; answer(rt, line)? == Err(WordsRefusal::BadWords), "{line}");
    }
    Ok(())
}
