ghost use Rattle.std.specs.Prelude.{◌≡◌, ◌≤◌, ◌^◌, ◌∷◌, [], IfOk, IsTrue};
ghost use Rattle.cilk_ast.specs.Kept.{keeps};
ghost use Rattle.cilk_ast.specs.Nodes.{node_count};

mod expressions;
mod rounds;

use super::compile;
use cilk_ast::{Expr, Function, Program, Stmt};
use std::alloc::{AllocError, Global};
use threadlet_code::{Instr, Verified};
use word_ops::{BinaryOp, Box, List, Pos};

const HERE: Pos = Pos { line: 1, column: 1 };

/// A list of these items.
fn list<T: Drop, const N: usize>(alloc: Global, items: [T; N]) -> Result<List<T>, AllocError>
    ensures { IfOk result (λ l. l ≡ items) }
{
    Ok(List::from_vec(Vec::from_array(alloc, items)?))
}

/// An operator between two expressions.
fn between(alloc: Global, op: BinaryOp, left: Expr, right: Expr) -> Result<Expr, AllocError>
    ensures { IfOk result (λ e. e ≡ Expr.Bin (record { line = 1; column = 1 }) op left right) }
{
    Ok(Expr::Bin {
        pos: HERE,
        op,
        left: Box::new(alloc, left)?,
        right: Box::new(alloc, right)?,
    })
}

/// A break where slot 0 is not 0, and else a continue.
fn way_out(alloc: Global) -> Result<Stmt, AllocError>
    ensures { IfOk result (λ s. s ≡ Stmt.If (Expr.Slot 0) Stmt.Break Stmt.Continue) }
{
    Ok(Stmt::If {
        test: Expr::Slot(0),
        yes: Box::new(alloc, Stmt::Break)?,
        no: Box::new(alloc, Stmt::Continue)?,
    })
}

/// A function without a name.
fn nameless(alloc: Global, params: u32, slots: u32, spawns: bool, body: Stmt) -> Function
    ensures { result ≡ record { name = []; params = params; slots = slots; spawns = spawns; body = body } }
{
    Function {
        name: List::new(alloc),
        params,
        slots,
        spawns,
        body,
    }
}

/// A main that counts slot 0 up to 10: it breaks where the slot is not 0, and else continues.
fn counting(alloc: Global) -> Result<List<Function>, AllocError>
    ensures kept { IfOk result (λ functions. IsTrue (keeps functions 0)) }
    ensures small { IfOk result (λ functions. node_count functions ≤ 2 ^ 28) }
{
    let test = between(alloc, BinaryOp::Lt, Expr::Slot(0), Expr::Word(10))?;
    let value = between(alloc, BinaryOp::Add, Expr::Slot(0), Expr::Word(1))?;
    let body = Box::new(alloc, way_out(alloc)?)?;
    let round = Stmt::Loop {
        test,
        step: Box::new(alloc, Stmt::Set { slot: 0, value })?,
        body,
    };
    let body = list(alloc, [round, Stmt::Return(Expr::Slot(0))])?;
    list(alloc, [nameless(alloc, 0, 1, false, Stmt::Block(body))])
}

/// A main that spawns two children, one with a target and one with a hint, and the function of both.
fn spawning(alloc: Global) -> Result<List<Function>, AllocError>
    ensures kept { IfOk result (λ functions. IsTrue (keeps functions 0)) }
    ensures small { IfOk result (λ functions. node_count functions ≤ 2 ^ 28) }
{
    let alone = list(alloc, [Expr::Word(5)])?;
    let behind = list(alloc, [Expr::Word(6)])?;
    let first = Stmt::Spawn {
        pos: HERE,
        target: Some(0),
        function: 1,
        hint: None,
        args: alone,
    };
    let second = Stmt::Spawn {
        pos: HERE,
        target: None,
        function: 1,
        hint: Some(Expr::Word(7)),
        args: behind,
    };
    let body = list(
        alloc,
        [first, Stmt::Sync, second, Stmt::Return(Expr::Slot(0))],
    )?;
    let main = nameless(alloc, 0, 1, true, Stmt::Block(body));
    let child = nameless(alloc, 1, 1, false, Stmt::Return(Expr::Slot(0)));
    list(alloc, [main, child])
}

/// The code of these functions, of which the first is main.
fn compiled(alloc: Global, functions: List<Function>) -> Result<Verified, AllocError>
    requires kept { IsTrue (keeps functions 0) }
    requires small { node_count functions ≤ 2 ^ 28 }
{
    let program = Program {
        functions,
        main: 0,
        globals: 0,
        replicated: 0,
    };
    compile(alloc, &program)
}

/// Function `i` has these instructions.
fn has_body(verified: &Verified, i: usize, wanted: &[Instr]) -> bool {
    match verified.code().functions.as_slice().get(i) {
        None => false,
        Some(f) => f.body.as_slice() == wanted,
    }
}

#[test]
fn a_loop_breaks_continues_and_steps(rt: HostRuntime) -> Result<(), AllocError> {
    let verified = compiled(rt.alloc(), counting(rt.alloc())?)?;
    let wanted: &[Instr] = &[
        Instr::Turn,
        Instr::Turn,
        Instr::Get(0),
        Instr::Push(10),
        Instr::Bin(BinaryOp::Lt),
        Instr::JumpZero(16),
        Instr::Get(0),
        Instr::JumpZero(10),
        Instr::Jump(16),
        Instr::Jump(11),
        Instr::Jump(11),
        Instr::Get(0),
        Instr::Push(1),
        Instr::Bin(BinaryOp::Add),
        Instr::Set(0),
        Instr::Jump(1),
        Instr::Get(0),
        Instr::Return,
        Instr::Push(0),
        Instr::Return,
    ];
    assert!(rt; has_body(&verified, 0, wanted));
    assert_eq!(rt; verified.height(0, 4), Some(2));
    assert_eq!(rt; verified.height(0, 18), None);
    Ok(())
}

#[test]
fn children_have_targets_and_hints(rt: HostRuntime) -> Result<(), AllocError> {
    let verified = compiled(rt.alloc(), spawning(rt.alloc())?)?;
    let targeted = Instr::Spawn {
        function: 1,
        target: Some(0),
        hinted: false,
    };
    let hinted = Instr::Spawn {
        function: 1,
        target: None,
        hinted: true,
    };
    let main: &[Instr] = &[
        Instr::Turn,
        Instr::Push(5),
        targeted,
        Instr::Sync,
        Instr::Push(7),
        Instr::Push(6),
        hinted,
        Instr::Get(0),
        Instr::Sync,
        Instr::Return,
        Instr::Push(0),
        Instr::Sync,
        Instr::Return,
    ];
    let child: &[Instr] = &[
        Instr::Turn,
        Instr::Get(0),
        Instr::Return,
        Instr::Push(0),
        Instr::Return,
    ];
    assert!(rt; has_body(&verified, 0, main));
    assert!(rt; has_body(&verified, 1, child));
    Ok(())
}
