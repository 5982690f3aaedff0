ghost use Rattle.std.specs.Prelude.{◌≡◌, ◌≤◌, IfOk};
ghost use Rattle.cilk_ast.specs.Nodes.{expression_nodes};

use super::{Draft, emit, measure};
use cilk_ast::Expr;
use std::alloc::{AllocError, Global};
use threadlet_code::Instr;
use word_ops::{BinaryOp, Box, List, Pos};

const HERE: Pos = Pos { line: 1, column: 1 };

/// An operator between two expressions.
fn between(alloc: Global, op: BinaryOp, left: Expr, right: Expr) -> Result<Expr, AllocError>
    ensures { IfOk result (λ e. e ≡ Expr.Bin (record { line = 1; column = 1 }) op left right) }
{
    Ok(Expr::Bin {
        pos: HERE,
        op,
        left: Box::new(alloc, left)?,
        right: Box::new(alloc, right)?,
    })
}

/// `x || y`, where x is slot 0 and y slot 1.
fn choice(alloc: Global) -> Result<Expr, AllocError>
    ensures { IfOk result (λ e. e ≡ Expr.Either (record { line = 1; column = 1 }) (Expr.Slot 0) (Expr.Slot 1)) }
{
    Ok(Expr::Either {
        pos: HERE,
        left: Box::new(alloc, Expr::Slot(0))?,
        right: Box::new(alloc, Expr::Slot(1))?,
    })
}

/// A draft with the code of an expression alone.
fn drafted(alloc: Global, e: &Expr) -> Result<Draft, AllocError>
    requires { expression_nodes e.now ≤ 5 }
{
    let mut draft = Draft {
        function: 0,
        depth: 0,
        height: 0,
        slots: 2,
        body: List::new(alloc),
        places: List::new(alloc),
        formats: List::new(alloc),
    };
    emit(alloc, &mut draft, e)?;
    Ok(draft)
}

#[test]
fn operands_come_before_their_operator(rt: HostRuntime) -> Result<(), AllocError> {
    let product = between(rt.alloc(), BinaryOp::Mul, Expr::Word(2), Expr::Slot(0))?;
    let e = between(rt.alloc(), BinaryOp::Add, Expr::Word(1), product)?;
    let draft = drafted(rt.alloc(), &e)?;
    let wanted: &[Instr] = &[
        Instr::Push(1),
        Instr::Push(2),
        Instr::Get(0),
        Instr::Bin(BinaryOp::Mul),
        Instr::Bin(BinaryOp::Add),
    ];
    assert!(rt; draft.body.as_slice() == wanted);
    assert_eq!(rt; measure(&e), 5);
    assert_eq!(rt; draft.depth, 1);
    assert_eq!(rt; draft.height, 3);
    Ok(())
}

#[test]
fn the_second_part_is_left_out(rt: HostRuntime) -> Result<(), AllocError> {
    let e = choice(rt.alloc())?;
    let draft = drafted(rt.alloc(), &e)?;
    let wanted: &[Instr] = &[
        Instr::Get(0),
        Instr::JumpZero(4),
        Instr::Push(1),
        Instr::Jump(9),
        Instr::Get(1),
        Instr::JumpZero(8),
        Instr::Push(1),
        Instr::Jump(9),
        Instr::Push(0),
    ];
    assert!(rt; draft.body.as_slice() == wanted);
    assert_eq!(rt; draft.height, 1);
    Ok(())
}
