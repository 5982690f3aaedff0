ghost use Rattle.std.specs.Prelude.{◌≡◌, ◌≤◌, ◌^◌, ◌∷◌, [], IfOk, IsTrue};
ghost use Rattle.cilk_ast.specs.Kept.{keeps};
ghost use Rattle.cilk_ast.specs.Nodes.{node_count};

use super::{HERE, compiled, has_body, list, nameless};
use cilk_ast::{Expr, Function, Stmt};
use mem_atomics::Op;
use std::alloc::{AllocError, Global};
use threadlet_code::Instr;
use word_ops::{BinaryOp, Box, List, Part};

/// A test of slot 0 that nothing follows.
fn idle_test(alloc: Global) -> Result<Stmt, AllocError>
    ensures { IfOk result (λ s. s ≡ Stmt.If (Expr.Slot 0) Stmt.Nothing Stmt.Nothing) }
{
    Ok(Stmt::If {
        test: Expr::Slot(0),
        yes: Box::new(alloc, Stmt::Nothing)?,
        no: Box::new(alloc, Stmt::Nothing)?,
    })
}

/// A print of slot 0.
fn print(alloc: Global) -> Result<Expr, AllocError>
    ensures { IfOk result (λ e. e ≡ Expr.Print (Part.Long ∷ []) (Expr.Slot 0 ∷ [])) }
{
    Ok(Expr::Print {
        format: list(alloc, [Part::Long])?,
        args: list(alloc, [Expr::Slot(0)])?,
    })
}

/// A body that stores, adds, prints and tests.
fn busy(alloc: Global) -> Result<List<Stmt>, AllocError>
    ensures { IfOk result (λ body. body ≡ Stmt.Store (record { line = 1; column = 1 }) (Expr.Slot 1) (Expr.Slot 0) ∷ Stmt.AddTo (record { line = 1; column = 1 }) (Expr.Slot 1) (Expr.Slot 0) ∷ Stmt.Eval (Expr.Print (Part.Long ∷ []) (Expr.Slot 0 ∷ [])) ∷ Stmt.If (Expr.Slot 0) Stmt.Nothing Stmt.Nothing ∷ []) }
{
    let print = print(alloc)?;
    let test = idle_test(alloc)?;
    let store = Stmt::Store {
        pos: HERE,
        address: Expr::Slot(1),
        value: Expr::Slot(0),
    };
    let sum = Stmt::AddTo {
        pos: HERE,
        address: Expr::Slot(1),
        value: Expr::Slot(0),
    };
    list(alloc, [store, sum, Stmt::Eval(print), test])
}

/// A main with a `cilk_for`, and its body.
fn rounds(alloc: Global) -> Result<List<Function>, AllocError>
    ensures kept { IfOk result (λ functions. IsTrue (keeps functions 0)) }
    ensures small { IfOk result (λ functions. node_count functions ≤ 2 ^ 28) }
{
    let copies = list(alloc, [0])?;
    let child = busy(alloc)?;
    let body = Stmt::Each {
        pos: HERE,
        low: Expr::Word(0),
        high: Expr::Word(3),
        function: 1,
        copies,
    };
    let main = nameless(alloc, 0, 1, true, body);
    list(
        alloc,
        [main, nameless(alloc, 2, 2, false, Stmt::Block(child))],
    )
}

#[test]
fn a_cilk_for_keeps_its_variable_and_its_bound(rt: HostRuntime) -> Result<(), AllocError> {
    let verified = compiled(rt.alloc(), rounds(rt.alloc())?)?;
    let child = Instr::Spawn {
        function: 1,
        target: None,
        hinted: false,
    };
    let main: &[Instr] = &[
        Instr::Turn,
        Instr::Push(0),
        Instr::Set(1),
        Instr::Push(3),
        Instr::Set(2),
        Instr::Turn,
        Instr::Get(1),
        Instr::Get(2),
        Instr::Bin(BinaryOp::Lt),
        Instr::JumpZero(18),
        Instr::Get(1),
        Instr::Get(0),
        child,
        Instr::Get(1),
        Instr::Push(1),
        Instr::Bin(BinaryOp::Add),
        Instr::Set(1),
        Instr::Jump(5),
        Instr::Sync,
        Instr::Push(0),
        Instr::Sync,
        Instr::Return,
    ];
    let body: &[Instr] = &[
        Instr::Turn,
        Instr::Get(1),
        Instr::Get(0),
        Instr::Post(Op::Store),
        Instr::Get(1),
        Instr::Dup,
        Instr::Load,
        Instr::Get(0),
        Instr::Bin(BinaryOp::Add),
        Instr::Post(Op::Store),
        Instr::Get(0),
        Instr::Print(0),
        Instr::Push(0),
        Instr::Pop,
        Instr::Get(0),
        Instr::JumpZero(17),
        Instr::Jump(17),
        Instr::Push(0),
        Instr::Return,
    ];
    assert!(rt; has_body(&verified, 0, main));
    assert!(rt; has_body(&verified, 1, body));
    assert_eq!(rt; verified.code().formats.len(), 1);
    Ok(())
}
