ghost use Rattle.std.specs.Prelude.{◌≤◌, length};

use cilk_ast::{Expr, Function, Program, Stmt, TextRefusal};
use cilk_lexer::lex;
use cilk_parser::parse;
use cilk_types::check;
use std::alloc::{AllocError, Global};
use word_ops::Pos;

/// The program of a text; none where a rule is broken.
fn program_of(alloc: Global, text: &[u8]) -> Result<Option<Program>, AllocError> {
    if text.len() > 1_048_576 {
        return Ok(None);
    }
    match compiled(alloc, text) {
        Ok(program) => Ok(Some(program)),
        Err(TextRefusal::Fault(_)) => Ok(None),
        Err(TextRefusal::OutOfMemory) => Err(AllocError),
    }
}

fn compiled(alloc: Global, text: &[u8]) -> Result<Program, TextRefusal>
    requires { length text.now ≤ 1048576 }
{
    let tokens = match lex(alloc, text) {
        Ok(tokens) => tokens,
        Err(refusal) => return Err(refusal),
    };
    match parse(alloc, text, &tokens) {
        Ok(tree) => check(alloc, &tree),
        Err(refusal) => Err(refusal),
    }
}

fn at(column: u32) -> Pos {
    Pos { line: 1, column }
}

/// A function is named for main, has so many parameters and slots, and a body that spawns or not.
fn has_head(f: &Function, params: u32, slots: u32, spawns: bool) -> bool {
    f.name.as_slice() == b"main".as_slice()
        && f.params == params
        && f.slots == slots
        && f.spawns == spawns
}

fn statements_of(f: &Function) -> &[Stmt] {
    match &f.body {
        Stmt::Block(body) => body.as_slice(),
        _ => &[],
    }
}

/// `first; second;`, two slots.
fn reads(body: &[Stmt], first: u32, second: u32) -> bool {
    match body {
        [Stmt::Eval(Expr::Slot(one)), Stmt::Eval(Expr::Slot(other))] => {
            *one == first && *other == second
        }
        _ => false,
    }
}

/// The functions of three nested bodies: the last one reads its copies of `i` and `j`.
fn are_nested(functions: &[Function]) -> bool {
    match functions {
        [main, outer, inner, last] => {
            has_head(main, 0, 0, true)
                && has_head(outer, 1, 1, true)
                && has_head(inner, 2, 2, true)
                && has_head(last, 3, 3, false)
                && reads(statements_of(last), 2, 1)
        }
        _ => false,
    }
}

#[test]
fn bodies_in_bodies_get_copies(rt: HostRuntime) -> Result<(), AllocError> {
    let text =
        b"int main() { cilk_for (long i = 0; i < 2; i++) cilk_for (long j = 0; j < 2; j++) cilk_for (long k = 0; k < 2; k++) { i; j; } }";
    let good = match program_of(rt.alloc(), text)? {
        Some(program) => program.main == 0 && are_nested(program.functions.as_slice()),
        None => false,
    };
    assert!(rt; good);
    Ok(())
}

/// The statements of its `main`; the first plain global is the first word of view 32.
fn stores_and_returns(body: &[Stmt]) -> bool {
    match body {
        [
            Stmt::Set {
                slot,
                value: Expr::Word(value),
            },
            Stmt::Store {
                pos,
                address: Expr::Word(address),
                value: Expr::Slot(stored),
            },
            Stmt::Return(Expr::Slot(returned)),
        ] => {
            *slot == 0
                && *value == 5
                && *pos == at(34)
                && *address == 35184372088832
                && *stored == 0
                && *returned == 0
        }
        _ => false,
    }
}

#[test]
fn a_global_is_a_word_and_a_local_a_slot(rt: HostRuntime) -> Result<(), AllocError> {
    let text = b"long g; int main() { long x = 5; g = x; return x; }";
    let program = program_of(rt.alloc(), text)?;
    let good = match &program {
        Some(program) => match program.functions.as_slice() {
            [main] => {
                program.main == 0
                    && program.globals == 1
                    && program.replicated == 0
                    && has_head(main, 0, 1, false)
                    && stores_and_returns(statements_of(main))
            }
            _ => false,
        },
        None => false,
    };
    assert!(rt; good);
    Ok(())
}

/// The statements of its `main`, whose local goes to the body.
fn hands_on(body: &[Stmt]) -> bool {
    match body {
        [
            Stmt::Set {
                slot,
                value: Expr::Word(value),
            },
            Stmt::Each {
                pos,
                low: Expr::Word(low),
                high: Expr::Word(high),
                function,
                copies,
            },
        ] => {
            *slot == 0
                && *value == 7
                && *pos == at(41)
                && *low == 0
                && *high == 2
                && *function == 1
                && copies.as_slice() == [0u32].as_slice()
        }
        _ => false,
    }
}

#[test]
fn a_body_is_a_function_behind_main(rt: HostRuntime) -> Result<(), AllocError> {
    let text = b"int main() { long s = 7; cilk_for (long i = 0; i < 2; i++) { i; s; } }";
    let program = program_of(rt.alloc(), text)?;
    let good = match &program {
        Some(program) => match program.functions.as_slice() {
            [main, body] => {
                program.main == 0
                    && program.globals == 0
                    && program.replicated == 0
                    && has_head(main, 0, 1, true)
                    && hands_on(statements_of(main))
                    && has_head(body, 2, 2, false)
                    && reads(statements_of(body), 0, 1)
            }
            _ => false,
        },
        None => false,
    };
    assert!(rt; good);
    Ok(())
}
