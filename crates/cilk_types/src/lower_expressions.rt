//! What expressions are in a program.

ghost use Rattle.std.specs.Prelude.{◌≡◌, IfOk};
ghost use Rattle.std.specs.Option.{option_map};
ghost use Rattle.cilk_model.specs.ExpressionLowering.{slot_in as slot_of, variable as variable_word, address_of as address_where, index_of as index_where, built_in as built_in_of};
ghost use Rattle.cilk_ast.specs.declared.program.Expr as program;
ghost use Rattle.cilk_types.specs.Lowered.{lowered, lowered_list, format_in};
ghost use Rattle.cilk_types.specs.Shown.{names_of, meaning_of};
ghost use Rattle.word_ops.specs.declared.operators.BinaryOp.TheVariants as by;

use crate::counts::one_more;
use crate::formats::format as parts;
use crate::lookup::meaning;
use crate::lower_builtins::{init, on_none, on_one, on_three, on_two};
use crate::owned::boxed;
use crate::scopes::{Meaning, Scopes};
use cilk_ast::{Builtin, Expr, TExpr};
use std::alloc::{AllocError, Global};
use word_ops::{BinaryOp, Box, List, Pos};

/// The slot of a local in a frame, by its number.
pub fn slot_in(frame: &[u32], number: u32) -> Result<u32, AllocError>
    ensures { IfOk result (λ s. s ≡ slot_of frame.now number) }
{
    let mut slot = 0u32;
    for other in frame {
        if *other == number {
            return Ok(slot);
        }
        slot = one_more(slot)?;
    }
    Ok(slot)
}

/// The address of a global.
pub fn address_of(meaning: Option<Meaning<'_>>) -> i64
    ensures { result ≡ address_where (option_map meaning_of meaning.entry) }
{
    match meaning {
        Some(Meaning::Global(global)) => global.address,
        _ => 0,
    }
}

/// Which function a name calls.
pub fn index_of(meaning: Option<Meaning<'_>>) -> u32
    ensures { result ≡ index_where (option_map meaning_of meaning.entry) }
{
    match meaning {
        Some(Meaning::Function(written)) => written.index,
        _ => 0,
    }
}

/// The word of a variable.
fn variable(
    alloc: Global,
    frame: &[u32],
    at: Pos,
    meaning: Option<Meaning<'_>>,
) -> Result<Expr, AllocError>
    ensures { IfOk result (λ e. e ≡ variable_word frame.now at (option_map meaning_of meaning.entry)) }
{
    match meaning {
        Some(Meaning::Local(local)) => Ok(Expr::Slot(slot_in(frame, local.number)?)),
        other => {
            let word = load(alloc, at, Expr::Word(address_of(other)))?;
            Ok(word)
        }
    }
}

/// The sum of two words.
pub fn sum(alloc: Global, at: Pos, left: Expr, right: Expr) -> Result<Expr, AllocError>
    ensures { IfOk result (λ e. e ≡ program.Bin at by.Add left right) }
{
    let left = Box::new(alloc, left)?;
    let right = Box::new(alloc, right)?;
    Ok(Expr::Bin {
        pos: at,
        op: BinaryOp::Add,
        left,
        right,
    })
}

/// The word at an address.
fn load(alloc: Global, at: Pos, address: Expr) -> Result<Expr, AllocError>
    ensures { IfOk result (λ e. e ≡ program.Load at address) }
{
    let address = Box::new(alloc, address)?;
    Ok(Expr::Load { pos: at, address })
}

#[tactic(auto, using(crate::proofs::LowerForms::lowered_forms))]
/// An expression in a function with a frame.
#[cycle(lowering)]
pub fn expression(
    alloc: Global,
    scopes: &Scopes<'_, '_>,
    frame: &[u32],
    e: &TExpr,
) -> Result<Expr, AllocError>
    ensures { IfOk result (λ x. x ≡ lowered (names_of scopes.now) frame.now e.now) }
{
    match e {
        TExpr::Number { value, .. } => Ok(Expr::Word(*value)),
        TExpr::Var { pos, name } => {
            let word = variable(alloc, frame, *pos, meaning(scopes, name.as_slice()))?;
            Ok(word)
        }
        TExpr::Paren { inner, .. } | TExpr::Cast { inner, .. } => {
            let inner = expression(alloc, scopes, frame, inner.get())?;
            Ok(inner)
        }
        TExpr::Un { pos, op, inner } => Ok(Expr::Un {
            pos: *pos,
            op: *op,
            inner: part(alloc, scopes, frame, inner.get())?,
        }),
        TExpr::Deref { pos, inner } => Ok(Expr::Load {
            pos: *pos,
            address: part(alloc, scopes, frame, inner.get())?,
        }),
        TExpr::Index { pos, base, index } => {
            let base = expression(alloc, scopes, frame, base.get())?;
            let index = expression(alloc, scopes, frame, index.get())?;
            let word = load(alloc, *pos, sum(alloc, *pos, base, index)?)?;
            Ok(word)
        }
        TExpr::Bin {
            pos,
            op,
            left,
            right,
        } => Ok(Expr::Bin {
            pos: *pos,
            op: *op,
            left: part(alloc, scopes, frame, left.get())?,
            right: part(alloc, scopes, frame, right.get())?,
        }),
        TExpr::Both { pos, left, right } => Ok(Expr::Both {
            pos: *pos,
            left: part(alloc, scopes, frame, left.get())?,
            right: part(alloc, scopes, frame, right.get())?,
        }),
        TExpr::Either { pos, left, right } => Ok(Expr::Either {
            pos: *pos,
            left: part(alloc, scopes, frame, left.get())?,
            right: part(alloc, scopes, frame, right.get())?,
        }),
        TExpr::Call { pos, name, args } => Ok(Expr::Call {
            pos: *pos,
            function: index_of(meaning(scopes, name.as_slice())),
            args: expressions(alloc, scopes, frame, args.as_slice())?,
        }),
        TExpr::Builtin { pos, which, args } => {
            let made = built_in(alloc, scopes, frame, *pos, *which, args.as_slice())?;
            Ok(made)
        }
        TExpr::Print { format, args, .. } => Ok(Expr::Print {
            format: parts(alloc, format.as_slice())?,
            args: expressions(alloc, scopes, frame, args.as_slice())?,
        }),
        TExpr::InitAt {
            pos,
            name,
            value,
            ..
        } => {
            let value = expression(alloc, scopes, frame, value.get())?;
            let address = Expr::Word(address_of(meaning(scopes, name.as_slice())));
            let made = init(alloc, *pos, address, value)?;
            Ok(made)
        }
    }
}

/// An expression on the heap.
#[cycle(lowering)]
fn part(
    alloc: Global,
    scopes: &Scopes<'_, '_>,
    frame: &[u32],
    e: &TExpr,
) -> Result<Box<Expr>, AllocError>
    ensures { IfOk result (λ x. x ≡ lowered (names_of scopes.now) frame.now e.now) }
{
    let made = expression(alloc, scopes, frame, e)?;
    boxed(alloc, made)
}

/// Expressions in a list.
#[cycle(lowering)]
pub fn expressions(
    alloc: Global,
    scopes: &Scopes<'_, '_>,
    frame: &[u32],
    es: &[TExpr],
) -> Result<List<Expr>, AllocError>
    ensures { IfOk result (λ xs. xs ≡ lowered_list (names_of scopes.now) frame.now es.now) }
{
    let mut made = List::new(alloc);
    for i in 0..es.len() {
        made.add(expression(alloc, scopes, frame, &es[i])?)?;
    }
    Ok(made)
}

/// A built-in on its arguments.
#[cycle(lowering)]
fn built_in(
    alloc: Global,
    scopes: &Scopes<'_, '_>,
    frame: &[u32],
    at: Pos,
    which: Builtin,
    args: &[TExpr],
) -> Result<Expr, AllocError>
    ensures { IfOk result (λ e. e ≡ built_in_of at which (lowered_list (names_of scopes.now) frame.now args.now)) }
{
    match args {
        [] => Ok(on_none(alloc, at, which)),
        [p] => {
            let p = expression(alloc, scopes, frame, p)?;
            let made = on_one(alloc, at, which, p)?;
            Ok(made)
        }
        [p, v] => {
            let p = expression(alloc, scopes, frame, p)?;
            let v = expression(alloc, scopes, frame, v)?;
            let made = on_two(alloc, at, which, p, v)?;
            Ok(made)
        }
        [p, expected, v] => {
            let p = expression(alloc, scopes, frame, p)?;
            let expected = expression(alloc, scopes, frame, expected)?;
            let v = expression(alloc, scopes, frame, v)?;
            let made = on_three(alloc, at, which, p, expected, v)?;
            Ok(made)
        }
        [_, _, _, _, ..] => Ok(Expr::Alloc {
            pos: at,
            which,
            args: expressions(alloc, scopes, frame, args)?,
        }),
    }
}
