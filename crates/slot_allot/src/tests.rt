ghost use Rattle.std.specs.Prelude.{◌≡◌, ◌≤◌, ◌^◌, ◌∷◌, [], pos, true, false, Some, None, IfOk, IsTrue};
ghost use Rattle.cilk_ast.specs.Kept.{keeps};
ghost use Rattle.cilk_ast.specs.Nodes.{node_count};

use super::narrow;
use cilk_ast::{Expr, Function, Program, Stmt};
use codegen_stmt::compile;
use std::alloc::{AllocError, Global};
use word_ops::{BinaryOp, Box, List, Part, Pos};

const HERE: Pos = Pos { line: 1, column: 1 };

/// A list of these items.
fn list<T: Drop, const N: usize>(alloc: Global, items: [T; N]) -> Result<List<T>, AllocError>
    ensures { IfOk result (λ l. l ≡ items) }
{
    Ok(List::from_vec(Vec::from_array(alloc, items)?))
}

/// An operator between two expressions.
fn between(alloc: Global, op: BinaryOp, left: Expr, right: Expr) -> Result<Expr, AllocError>
    ensures { IfOk result (λ e. e ≡ Expr.Bin (record { line = 1; column = 1 }) op left right) }
{
    Ok(Expr::Bin {
        pos: HERE,
        op,
        left: Box::new(alloc, left)?,
        right: Box::new(alloc, right)?,
    })
}

/// `if (n < 2) return n;`
fn ending(alloc: Global) -> Result<Stmt, AllocError>
    ensures { IfOk result (λ s. s ≡ Stmt.If (Expr.Bin (record { line = 1; column = 1 }) BinaryOp.Lt (Expr.Slot 0) (Expr.Word (pos 2))) (Stmt.Return (Expr.Slot 0)) Stmt.Nothing) }
{
    Ok(Stmt::If {
        test: between(alloc, BinaryOp::Lt, Expr::Slot(0), Expr::Word(2))?,
        yes: Box::new(alloc, Stmt::Return(Expr::Slot(0)))?,
        no: Box::new(alloc, Stmt::Nothing)?,
    })
}

/// `n - less`, as the only argument.
fn argument(alloc: Global, less: i64) -> Result<List<Expr>, AllocError>
    ensures { IfOk result (λ l. l ≡ Expr.Bin (record { line = 1; column = 1 }) BinaryOp.Sub (Expr.Slot 0) (Expr.Word less) ∷ []) }
{
    list(
        alloc,
        [between(alloc, BinaryOp::Sub, Expr::Slot(0), Expr::Word(less))?],
    )
}

/// `if (n < 2) return n; long x = cilk_spawn fib(n - 1); long y = fib(n - 2); cilk_sync; return x + y;`
fn body(alloc: Global) -> Result<List<Stmt>, AllocError>
    ensures { IfOk result (λ body. body ≡ Stmt.If (Expr.Bin (record { line = 1; column = 1 }) BinaryOp.Lt (Expr.Slot 0) (Expr.Word (pos 2))) (Stmt.Return (Expr.Slot 0)) Stmt.Nothing ∷ Stmt.Set 1 (Expr.Word (pos 0)) ∷ Stmt.Spawn (record { line = 1; column = 1 }) (Some 1) 0 None (Expr.Bin (record { line = 1; column = 1 }) BinaryOp.Sub (Expr.Slot 0) (Expr.Word (pos 1)) ∷ []) ∷ Stmt.Set 2 (Expr.Call (record { line = 1; column = 1 }) 0 (Expr.Bin (record { line = 1; column = 1 }) BinaryOp.Sub (Expr.Slot 0) (Expr.Word (pos 2)) ∷ [])) ∷ Stmt.Sync ∷ Stmt.Return (Expr.Bin (record { line = 1; column = 1 }) BinaryOp.Add (Expr.Slot 1) (Expr.Slot 2)) ∷ []) }
{
    let child = Stmt::Spawn {
        pos: HERE,
        target: Some(1),
        function: 0,
        hint: None,
        args: argument(alloc, 1)?,
    };
    let called = Expr::Call {
        pos: HERE,
        function: 0,
        args: argument(alloc, 2)?,
    };
    let x = Stmt::Set {
        slot: 1,
        value: Expr::Word(0),
    };
    let y = Stmt::Set {
        slot: 2,
        value: called,
    };
    let sum = between(alloc, BinaryOp::Add, Expr::Slot(1), Expr::Slot(2))?;
    let statements = [ending(alloc)?, x, child, y, Stmt::Sync, Stmt::Return(sum)];
    list(alloc, statements)
}

/// `printf("%ld\n", fib(10)); return 0;`
fn printing(alloc: Global) -> Result<List<Stmt>, AllocError>
    ensures { IfOk result (λ body. body ≡ Stmt.Eval (Expr.Print (Part.Long ∷ Part.Byte 10 ∷ []) (Expr.Call (record { line = 1; column = 1 }) 0 (Expr.Word (pos 10) ∷ []) ∷ [])) ∷ Stmt.Return (Expr.Word (pos 0)) ∷ []) }
{
    let called = Expr::Call {
        pos: HERE,
        function: 0,
        args: list(alloc, [Expr::Word(10)])?,
    };
    let print = Expr::Print {
        format: list(alloc, [Part::Long, Part::Byte(10)])?,
        args: list(alloc, [called])?,
    };
    let statements = [Stmt::Eval(print), Stmt::Return(Expr::Word(0))];
    list(alloc, statements)
}

/// A function without a name.
fn nameless(alloc: Global, params: u32, slots: u32, spawns: bool, body: Stmt) -> Function
    ensures { result ≡ record { name = []; params = params; slots = slots; spawns = spawns; body = body } }
{
    Function {
        name: List::new(alloc),
        params,
        slots,
        spawns,
        body,
    }
}

/// fib and main, of these statements.
fn both(alloc: Global, fib: List<Stmt>, main: List<Stmt>) -> Result<List<Function>, AllocError>
    ensures { IfOk result (λ functions. functions ≡ record { name = []; params = 1; slots = 3; spawns = true; body = Stmt.Block fib } ∷ record { name = []; params = 0; slots = 0; spawns = false; body = Stmt.Block main } ∷ []) }
{
    let fib = nameless(alloc, 1, 3, true, Stmt::Block(fib));
    let main = nameless(alloc, 0, 0, false, Stmt::Block(main));
    list(alloc, [fib, main])
}

/// fib, and a main that prints fib(10).
fn functions(alloc: Global) -> Result<List<Function>, AllocError>
    ensures kept { IfOk result (λ functions. IsTrue (keeps functions 1)) }
    ensures small { IfOk result (λ functions. node_count functions ≤ 2 ^ 28) }
{
    let fib = body(alloc)?;
    both(alloc, fib, printing(alloc)?)
}

#[test]
fn fib_has_five_words(rt: HostRuntime) -> Result<(), AllocError> {
    let program = Program {
        functions: functions(rt.alloc())?,
        main: 1,
        globals: 0,
        replicated: 0,
    };
    let compiled = compile(rt.alloc(), &program)?;
    let narrowed = narrow(rt.alloc(), &program, &compiled)?;
    let fib = narrowed.code().functions.as_slice().first();
    assert_eq!(rt; fib.map(|f| (f.params, f.slots, f.height)), Some((1, 3, 2)));
    assert_eq!(rt; narrowed.code().main, 1);
    assert_eq!(rt; narrowed.code().formats.len(), 1);
    Ok(())
}
