//! Programs for tests.

ghost use Rattle.std.specs.Prelude.{◌≡◌, ◌<◌, ◌^◌, Some, length, IfOk};
ghost use Rattle.threadlet_code.specs.Operands.{params_of};
ghost use Rattle.threadlet_code.specs.Verdict.{IsShort};

use std::alloc::{AllocError, Global};
use threadlet_code::{Code, FuncCode, Instr};
use word_ops::{BinaryOp, List, Pos, UnaryOp};

const HERE: Pos = Pos { line: 1, column: 1 };

/// A function that spawns nothing, with a stack of two words at most.
fn function(alloc: Global, params: u32, slots: u32, body: &[Instr]) -> Result<FuncCode, AllocError>
    requires { length body.now < 2 ^ 32 }
    ensures params { IfOk result (λ f. f.params ≡ params) }
    ensures short { IfOk result (λ f. length f.body < 2 ^ 32) }
{
    let mut instrs = List::new(alloc);
    instrs.extend_from_slice(body)?;
    let places = List::from_vec(vec![in alloc; HERE; body.len()]?);
    Ok(FuncCode {
        params,
        slots,
        height: 2,
        spawns: false,
        body: instrs,
        places,
    })
}

/// Main takes 3 from 9 in a function of its own, keeps the difference in its slot, and negates it.
pub(super) fn difference(alloc: Global) -> Result<Code, AllocError>
    ensures short { IfOk result IsShort }
    ensures main { IfOk result (λ code. params_of code 0 ≡ Some 0) }
{
    let main = [
        Instr::Turn,
        Instr::Push(9),
        Instr::Push(3),
        Instr::Call(1),
        Instr::Dup,
        Instr::Set(0),
        Instr::JumpZero(9),
        Instr::Get(0),
        Instr::Jump(10),
        Instr::Push(1),
        Instr::Un(UnaryOp::Neg),
        Instr::Dup,
        Instr::Pop,
        Instr::Return,
    ];
    let less = [
        Instr::Turn,
        Instr::Get(0),
        Instr::Get(1),
        Instr::Bin(BinaryOp::Sub),
        Instr::Return,
    ];
    program(function(alloc, 0, 1, &main)?, function(alloc, 2, 2, &less)?)
}

/// Main takes a word that it loads from 7, spawns three children, and has two of them put their results into
/// its slots.
pub(super) fn family(alloc: Global) -> Result<Code, AllocError>
    ensures short { IfOk result IsShort }
    ensures main { IfOk result (λ code. params_of code 0 ≡ Some 0) }
{
    let body = [
        Instr::Turn,
        Instr::Push(7),
        Instr::Push(40),
        Instr::Load,
        Instr::Bin(BinaryOp::Sub),
        Instr::Push(1),
        spawn(Some(1)),
        Instr::Push(2),
        spawn(None),
        Instr::Push(3),
        spawn(Some(0)),
        Instr::Sync,
        Instr::Return,
    ];
    let child = [Instr::Turn, Instr::Get(0), Instr::Return];
    let mut main = function(alloc, 0, 2, &body)?;
    main.spawns = true;
    program(main, function(alloc, 1, 1, &child)?)
}

/// Spawns function 1.
fn spawn(target: Option<u32>) -> Instr {
    Instr::Spawn {
        function: 1,
        target,
        hinted: false,
    }
}

/// A program of two functions, the first of which is main.
fn program(main: FuncCode, other: FuncCode) -> Result<Code, AllocError>
    requires main { length main.body < 2 ^ 32 }
    requires other { length other.body < 2 ^ 32 }
    ensures short { IfOk result IsShort }
    ensures main { IfOk result (λ code. params_of code 0 ≡ Some main.params) }
{
    let alloc = main.body.allocator();
    let mut functions = List::new(alloc);
    functions.add(main)?;
    functions.add(other)?;
    Ok(Code {
        functions,
        main: 0,
        formats: List::new(alloc),
        globals: 0,
        replicated: 0,
    })
}
