ghost use Rattle.std.specs.Prelude.{◌<◌, ◌^◌, length, IfOk};
ghost use Rattle.threadlet_code.specs.Verdict.{IsShort};

use super::{Code, FuncCode, Instr, Rule, VerifyRefusal, verify};
use mem_atomics::Op;
use std::alloc::{AllocError, Global};
use word_ops::{Format, List, Part, Pos};

const HERE: Pos = Pos { line: 1, column: 1 };

/// A code with main alone, which has no parameters and names no format.
fn main_alone(
    alloc: Global,
    slots: u32,
    height: u32,
    spawns: bool,
    body: &[Instr],
) -> Result<Code, AllocError>
    requires { length body.now < 2 ^ 32 }
    ensures { IfOk result IsShort }
{
    main_with(alloc, List::new(alloc), slots, height, spawns, body)
}

/// The same with formats.
fn main_with(
    alloc: Global,
    formats: List<Format>,
    slots: u32,
    height: u32,
    spawns: bool,
    body: &[Instr],
) -> Result<Code, AllocError>
    requires body { length body.now < 2 ^ 32 }
    requires formats { length formats < 2 ^ 32 }
    ensures { IfOk result IsShort }
{
    let mut instrs = List::new(alloc);
    instrs.extend_from_slice(body)?;
    let places = List::from_vec(vec![in alloc; HERE; body.len()]?);
    let mut functions = List::new(alloc);
    functions.add(FuncCode {
        params: 0,
        slots,
        height,
        spawns,
        body: instrs,
        places,
    })?;
    Ok(Code {
        functions,
        main: 0,
        formats,
        globals: 0,
        replicated: 0,
    })
}

/// The first rule that a code breaks, with its place.
fn broken(alloc: Global, code: Code) -> Result<Option<(u32, u32, Rule)>, AllocError>
    requires { IsShort code }
{
    match verify(alloc, code) {
        Ok(_) => Ok(None),
        Err(
            VerifyRefusal::Bad {
                function,
                place,
                rule,
                ..
            },
        ) => Ok(Some((function, place, rule))),
        Err(VerifyRefusal::OutOfMemory { .. }) => Err(AllocError),
    }
}

#[test]
fn each_rule_at_its_place(rt: HostRuntime) -> Result<(), AllocError> {
    let turn = Instr::Turn;
    let word = Instr::Push(0);
    let back = Instr::Return;
    let child = Instr::Spawn {
        function: 0,
        target: None,
        hinted: false,
    };
    let elsewhere = Instr::Spawn {
        function: 0,
        target: Some(3),
        hinted: false,
    };
    let nothing: &[Instr] = &[];
    let turnless: &[Instr] = &[word, back];
    let slotless: &[Instr] = &[turn, Instr::Get(1), back];
    let uncalled: &[Instr] = &[turn, Instr::Call(1), back];
    let unformatted: &[Instr] = &[turn, Instr::Print(0), word, back];
    let outward: &[Instr] = &[turn, Instr::Jump(2)];
    let looping: &[Instr] = &[turn, word, Instr::Pop, Instr::Jump(1)];
    let falling: &[Instr] = &[turn, word];
    let lacking: &[Instr] = &[turn, Instr::Pop, word, back];
    let uneven: &[Instr] = &[turn, word, Instr::JumpZero(4), word, word, back];
    let high: &[Instr] = &[turn, word, word, Instr::Pop, back];
    let untold: &[Instr] = &[turn, child, word, back];
    let both: &[Instr] = &[turn, elsewhere, word, back];
    for (body, place, rule) in [
        (nothing, 0, Rule::NoEntryTurn),
        (turnless, 0, Rule::NoEntryTurn),
        (slotless, 1, Rule::BadSlot),
        (uncalled, 1, Rule::BadFunction),
        (unformatted, 1, Rule::BadFormat),
        (outward, 1, Rule::BadTarget),
        (looping, 3, Rule::LoopWithoutTurn),
        (falling, 1, Rule::FallsOff),
        (lacking, 1, Rule::Underflow),
        (uneven, 4, Rule::HeightDiffers),
        (high, 3, Rule::TooHigh),
        (untold, 1, Rule::SpawnUntold),
        (both, 1, Rule::BadSlot),
    ] {
        assert!(rt; body.len() < 100);
        let code = main_alone(rt.alloc(), 1, 1, false, body)?;
        assert!(rt; broken(rt.alloc(), code)? == Some((0, place, rule)));
    }
    Ok(())
}

#[test]
fn returns_of_a_function_that_spawns(rt: HostRuntime) -> Result<(), AllocError> {
    let (turn, word, sync, back) = (Instr::Turn, Instr::Push(0), Instr::Sync, Instr::Return);
    let bare: &[Instr] = &[turn, word, back];
    let jumped: &[Instr] = &[turn, word, word, Instr::JumpZero(5), sync, back];
    let synced: &[Instr] = &[turn, word, sync, back];
    for (body, place) in [(bare, Some(2)), (jumped, Some(5)), (synced, None)] {
        assert!(rt; body.len() < 100);
        let code = main_alone(rt.alloc(), 0, 2, true, body)?;
        let expected = place.map(|at| (0, at, Rule::ReturnUnsynced));
        assert!(rt; broken(rt.alloc(), code)? == expected);
    }
    Ok(())
}

#[test]
fn main_and_functions_that_are_not_there(rt: HostRuntime) -> Result<(), AllocError> {
    let body: &[Instr] = &[Instr::Turn, Instr::Push(0), Instr::Return];
    let mut missing = main_alone(rt.alloc(), 0, 1, false, body)?;
    missing.main = 1;
    assert!(rt; broken(rt.alloc(), missing)? == Some((0, 0, Rule::BadFunction)));
    let none = Code {
        functions: List::new(rt.alloc()),
        main: 0,
        formats: List::new(rt.alloc()),
        globals: 0,
        replicated: 0,
    };
    assert!(rt; broken(rt.alloc(), none)? == Some((0, 0, Rule::BadFunction)));
    Ok(())
}

/// Two ways of as many instructions come to place 11, and only the lower one goes on, to a Pop at place 3.
#[test]
fn the_least_of_the_shortest_ways_goes_on(rt: HostRuntime) -> Result<(), AllocError> {
    let (turn, word) = (Instr::Turn, Instr::Push(0));
    let body: &[Instr] = &[
        turn,
        Instr::Jump(5),
        turn,
        Instr::Pop,
        Instr::Jump(0),
        word,
        Instr::JumpZero(9),
        word,
        Instr::Jump(11),
        turn,
        Instr::Jump(11),
        Instr::Jump(2),
    ];
    let code = main_alone(rt.alloc(), 0, 9, false, body)?;
    assert!(rt; broken(rt.alloc(), code)? == Some((0, 3, Rule::Underflow)));
    Ok(())
}

fn can_be_shared_by_threads<T: Sync>(_value: &T) {}

#[test]
fn heights_of_two_stores_and_a_load(rt: HostRuntime) -> Result<(), AllocError> {
    let store = Instr::Post(Op::Store);
    let body: &[Instr] = &[
        Instr::Turn,
        Instr::Push(37383395344384),
        Instr::Dup,
        Instr::Push(1),
        store,
        Instr::Dup,
        Instr::Push(2),
        store,
        Instr::Load,
        Instr::Return,
        Instr::Return,
    ];
    let code = main_alone(rt.alloc(), 0, 3, false, body)?;
    match verify(rt.alloc(), code) {
        Err(_) => Err(AllocError),
        Ok(verified) => {
            can_be_shared_by_threads(&verified);
            for (place, height) in [
                (0, 0),
                (1, 0),
                (2, 1),
                (3, 2),
                (4, 3),
                (5, 1),
                (6, 2),
                (7, 3),
                (8, 1),
                (9, 1),
            ] {
                assert!(rt; verified.height(0, place) == Some(height));
            }
            assert!(rt; verified.height(0, 10) == None);
            assert!(rt; verified.height(0, 11) == None);
            assert!(rt; verified.height(1, 0) == None);
            assert!(rt; verified.code().functions.len() == 1);
            Ok(())
        }
    }
}

/// A printed word, with a newline: the code keeps all rules, and without its Turn the first one is broken.
#[test]
fn a_print_with_and_without_its_turn(rt: HostRuntime) -> Result<(), AllocError> {
    let whole: &[Instr] = &[
        Instr::Turn,
        Instr::Push(14),
        Instr::Print(0),
        Instr::Push(0),
        Instr::Return,
    ];
    for (body, expected) in [
        (whole, None),
        (&whole[1..], Some((0, 0, Rule::NoEntryTurn))),
    ] {
        assert!(rt; body.len() < 100);
        let mut format = List::new(rt.alloc());
        format.extend_from_slice(&[Part::Long, Part::Byte(b'\n')])?;
        let mut formats = List::new(rt.alloc());
        formats.add(format)?;
        let code = main_with(rt.alloc(), formats, 0, 1, false, body)?;
        assert!(rt; broken(rt.alloc(), code)? == expected);
    }
    Ok(())
}
