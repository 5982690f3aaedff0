ghost use Rattle.std.specs.Prelude.{◌≡◌, ◌≤◌, ◌^◌, ◌∷◌, [], pos, IfOk, IsTrue};
ghost use Rattle.cilk_ast.specs.Kept.{keeps};
ghost use Rattle.cilk_ast.specs.Nodes.{node_count};
ghost use Rattle.word_ops.specs.declared.place.Pos.{Pos};

use super::{HERE, compiled, has_body, list, nameless};
use cilk_ast::{Builtin, Expr, Function, Stmt};
use mem_atomics::Op;
use std::alloc::{AllocError, Global};
use threadlet_code::{AllocCode, Instr};
use word_ops::{Box, List, UnaryOp};

/// Slot `i` as a part.
fn part(alloc: Global, i: u32) -> Result<Box<Expr>, AllocError>
    ensures { IfOk result (λ e. e ≡ Expr.Slot i) }
{
    Ok(Box::new(alloc, Expr::Slot(i))?)
}

/// Slots 0 and 1 as parts.
fn two(alloc: Global) -> Result<(Box<Expr>, Box<Expr>), AllocError>
    ensures { IfOk result (λ both. both ≡ (Expr.Slot 0, Expr.Slot 1)) }
{
    let first = part(alloc, 0)?;
    Ok((first, part(alloc, 1)?))
}

/// A fetch that compares, of slots 0, 1 and 0.
fn comparing(alloc: Global) -> Result<Expr, AllocError>
    ensures { IfOk result (λ e. e ≡ Expr.Cas (record { line = 1; column = 1 }) (Expr.Slot 0) (Expr.Slot 1) (Expr.Slot 0)) }
{
    let (address, expected) = two(alloc)?;
    Ok(Expr::Cas {
        pos: HERE,
        address,
        expected,
        value: part(alloc, 0)?,
    })
}

/// Both, one, and the opposite.
fn choosing(alloc: Global) -> Result<List<Stmt>, AllocError>
    ensures { let here : Pos = record { line = 1; column = 1 } in IfOk result (λ body. body ≡ Stmt.Eval (Expr.Un here UnaryOp.Neg (Expr.Slot 0)) ∷ Stmt.Eval (Expr.Both here (Expr.Slot 0) (Expr.Slot 1)) ∷ Stmt.Eval (Expr.Either here (Expr.Slot 0) (Expr.Slot 1)) ∷ []) }
{
    let negative = Expr::Un {
        pos: HERE,
        op: UnaryOp::Neg,
        inner: part(alloc, 0)?,
    };
    let (left, right) = two(alloc)?;
    let both = Expr::Both {
        pos: HERE,
        left,
        right,
    };
    let (left, right) = two(alloc)?;
    let either = Expr::Either {
        pos: HERE,
        left,
        right,
    };
    list(
        alloc,
        [Stmt::Eval(negative), Stmt::Eval(both), Stmt::Eval(either)],
    )
}

/// What answers the word of a cell.
fn fetching(alloc: Global) -> Result<List<Stmt>, AllocError>
    ensures { let here : Pos = record { line = 1; column = 1 } in IfOk result (λ body. body ≡ Stmt.Eval (Expr.Add here (Expr.Slot 0) (Expr.Slot 1)) ∷ Stmt.Eval (Expr.Swap here (Expr.Slot 0) (Expr.Slot 1)) ∷ Stmt.Eval (Expr.Cas here (Expr.Slot 0) (Expr.Slot 1) (Expr.Slot 0)) ∷ Stmt.Eval (Expr.Load here (Expr.Slot 0)) ∷ []) }
{
    let (address, value) = two(alloc)?;
    let sum = Expr::Add {
        pos: HERE,
        address,
        value,
    };
    let (address, value) = two(alloc)?;
    let swap = Expr::Swap {
        pos: HERE,
        address,
        value,
    };
    let cas = comparing(alloc)?;
    let load = Expr::Load {
        pos: HERE,
        address: part(alloc, 0)?,
    };
    list(
        alloc,
        [
            Stmt::Eval(sum),
            Stmt::Eval(swap),
            Stmt::Eval(cas),
            Stmt::Eval(load),
        ],
    )
}

/// Actions that answer no word, and the place.
fn acting(alloc: Global) -> Result<List<Stmt>, AllocError>
    ensures { let here : Pos = record { line = 1; column = 1 } in IfOk result (λ body. body ≡ Stmt.Eval (Expr.Post here Op.Max (Expr.Slot 0) (Expr.Slot 1)) ∷ Stmt.Eval (Expr.Init here (Expr.Slot 0) (Expr.Slot 1)) ∷ Stmt.Eval (Expr.Move here (Expr.Slot 0)) ∷ Stmt.Eval Expr.Fence ∷ Stmt.Eval Expr.Where ∷ []) }
{
    let (address, value) = two(alloc)?;
    let post = Expr::Post {
        pos: HERE,
        op: Op::Max,
        address,
        value,
    };
    let (address, value) = two(alloc)?;
    let init = Expr::Init {
        pos: HERE,
        address,
        value,
    };
    let go = Expr::Move {
        pos: HERE,
        address: part(alloc, 0)?,
    };
    list(
        alloc,
        [
            Stmt::Eval(post),
            Stmt::Eval(init),
            Stmt::Eval(go),
            Stmt::Eval(Expr::Fence),
            Stmt::Eval(Expr::Where),
        ],
    )
}

/// An allocation and a call.
fn asking(alloc: Global) -> Result<List<Stmt>, AllocError>
    ensures { let here : Pos = record { line = 1; column = 1 } in IfOk result (λ body. body ≡ Stmt.Eval (Expr.Alloc here Builtin.MwLocalmalloc (Expr.Word (pos 8) ∷ Expr.Slot 0 ∷ [])) ∷ Stmt.Eval (Expr.Call here 1 (Expr.Slot 1 ∷ Expr.Word (pos 9) ∷ [])) ∷ []) }
{
    let words = Expr::Alloc {
        pos: HERE,
        which: Builtin::MwLocalmalloc,
        args: list(alloc, [Expr::Word(8), Expr::Slot(0)])?,
    };
    let call = Expr::Call {
        pos: HERE,
        function: 1,
        args: list(alloc, [Expr::Slot(1), Expr::Word(9)])?,
    };
    list(alloc, [Stmt::Eval(words), Stmt::Eval(call)])
}

/// A main and three functions with these bodies, all of two slots.
fn functions(alloc: Global) -> Result<List<Function>, AllocError>
    ensures kept { IfOk result (λ functions. IsTrue (keeps functions 0)) }
    ensures small { IfOk result (λ functions. node_count functions ≤ 2 ^ 28) }
{
    let main = nameless(alloc, 0, 2, false, Stmt::Block(choosing(alloc)?));
    let fetches = nameless(alloc, 2, 2, false, Stmt::Block(fetching(alloc)?));
    let acts = nameless(alloc, 2, 2, false, Stmt::Block(acting(alloc)?));
    let asks = nameless(alloc, 2, 2, false, Stmt::Block(asking(alloc)?));
    list(alloc, [main, fetches, acts, asks])
}

#[test]
fn choices_leave_their_second_part_out(rt: HostRuntime) -> Result<(), AllocError> {
    let verified = compiled(rt.alloc(), functions(rt.alloc())?)?;
    let wanted: &[Instr] = &[
        Instr::Turn,
        Instr::Get(0),
        Instr::Un(UnaryOp::Neg),
        Instr::Pop,
        Instr::Get(0),
        Instr::JumpZero(10),
        Instr::Get(1),
        Instr::JumpZero(10),
        Instr::Push(1),
        Instr::Jump(11),
        Instr::Push(0),
        Instr::Pop,
        Instr::Get(0),
        Instr::JumpZero(16),
        Instr::Push(1),
        Instr::Jump(21),
        Instr::Get(1),
        Instr::JumpZero(20),
        Instr::Push(1),
        Instr::Jump(21),
        Instr::Push(0),
        Instr::Pop,
        Instr::Push(0),
        Instr::Return,
    ];
    assert!(rt; has_body(&verified, 0, wanted));
    Ok(())
}

#[test]
fn fetches_have_their_words_in_order(rt: HostRuntime) -> Result<(), AllocError> {
    let verified = compiled(rt.alloc(), functions(rt.alloc())?)?;
    let wanted: &[Instr] = &[
        Instr::Turn,
        Instr::Get(0),
        Instr::Get(1),
        Instr::FetchAdd,
        Instr::Pop,
        Instr::Get(0),
        Instr::Get(1),
        Instr::FetchSwap,
        Instr::Pop,
        Instr::Get(0),
        Instr::Get(1),
        Instr::Get(0),
        Instr::FetchCas,
        Instr::Pop,
        Instr::Get(0),
        Instr::Load,
        Instr::Pop,
        Instr::Push(0),
        Instr::Return,
    ];
    assert!(rt; has_body(&verified, 1, wanted));
    Ok(())
}

#[test]
fn actions_without_a_word_leave_zero(rt: HostRuntime) -> Result<(), AllocError> {
    let verified = compiled(rt.alloc(), functions(rt.alloc())?)?;
    let wanted: &[Instr] = &[
        Instr::Turn,
        Instr::Get(0),
        Instr::Get(1),
        Instr::Post(Op::Max),
        Instr::Push(0),
        Instr::Pop,
        Instr::Get(0),
        Instr::Get(1),
        Instr::Init,
        Instr::Push(0),
        Instr::Pop,
        Instr::Get(0),
        Instr::Move,
        Instr::Push(0),
        Instr::Pop,
        Instr::Fence,
        Instr::Push(0),
        Instr::Pop,
        Instr::Where,
        Instr::Pop,
        Instr::Push(0),
        Instr::Return,
    ];
    assert!(rt; has_body(&verified, 2, wanted));
    Ok(())
}

#[test]
fn arguments_stand_in_their_order(rt: HostRuntime) -> Result<(), AllocError> {
    let verified = compiled(rt.alloc(), functions(rt.alloc())?)?;
    let wanted: &[Instr] = &[
        Instr::Turn,
        Instr::Push(8),
        Instr::Get(0),
        Instr::Alloc(AllocCode::Local),
        Instr::Pop,
        Instr::Get(1),
        Instr::Push(9),
        Instr::Call(1),
        Instr::Pop,
        Instr::Push(0),
        Instr::Return,
    ];
    assert!(rt; has_body(&verified, 3, wanted));
    assert_eq!(rt; verified.height(3, 3), Some(2));
    Ok(())
}
