//! What the functions of a file are in a program.

ghost use Rattle.std.specs.Prelude.{◌≡◌, ◌++◌, ◌+◌, IfOk, OnOk};
ghost use Rattle.word_ops.specs.Report.{below as numbers_below};
ghost use Rattle.cilk_model.specs.Lowering.{lowered as lowered_function};
ghost use Rattle.cilk_model.specs.StatementLowering.{bodies_of};
ghost use Rattle.cilk_types.specs.Making.{walked_of, whole_made, IsPast};
ghost use Rattle.cilk_types.specs.Functions.{head_of};
ghost use Rattle.cilk_types.specs.Shown.{file_of};

use crate::items::{declare_params, function_scopes};
use crate::lower_bodies::passed;
use crate::lower_statements::{boxed_statement, statements};
use crate::owned::boxed;
use crate::scopes::FileNames;
use crate::walk::{Walk, index};
use cilk_ast::{Function, Param, Stmt, TStmt};
use std::alloc::{AllocError, Global};
use word_ops::{Box, List};

/// Functions of a program: one that is written; those that bodies of `cilk_for` have become so far; and
/// the index of the next one.
#[derive(Drop)]
pub struct Outlined {
    pub function: Function,
    pub bodies: List<Function>,
    pub next: u32,
}

/// The numbers under `n`, in order.
fn below(alloc: Global, n: usize) -> Result<List<u32>, AllocError>
    ensures { IfOk result (λ ns. ns ≡ numbers_below n) }
{
    let mut numbers = List::new(alloc);
    for i in 0..n {
        numbers.add(index(i)?)?;
    }
    Ok(numbers)
}

/// The outermost block of a function, whose scope is already open.
fn whole<'a>(
    alloc: Global,
    walk: &mut Walk<'_, 'a>,
    body: &'a TStmt,
) -> Result<Box<Stmt>, AllocError>
    ensures made { IfOk result (λ s. s ≡ whole_made body.now (walked_of walk.old)) }
    ensures past { OnOk result (IsPast body.now (walked_of walk.old) (walked_of walk.new)) }
{
    match body {
        TStmt::Block(list) => {
            let made = statements(alloc, walk, list.as_slice())?;
            let block = boxed(alloc, Stmt::Block(made))?;
            Ok(block)
        }
        _ => {
            let made = boxed_statement(alloc, walk, body)?;
            Ok(made)
        }
    }
}

/// The head of a function: its parameters have the first slots.
fn head<'f, 'a>(
    alloc: Global,
    file: &'f FileNames<'a>,
    name: &'a [u8],
    params: &'a [Param],
    bodies: List<Function>,
    next: u32,
) -> Result<Walk<'f, 'a>, AllocError>
    ensures { IfOk result (λ w. walked_of w ≡ head_of (file_of file.now) name.now params.now bodies next) }
{
    let mut scopes = function_scopes(alloc, file)?;
    let _ = declare_params(&mut scopes, params)?;
    let frame = below(alloc, params.len())?;
    Ok(Walk {
        name,
        scopes,
        frame,
        next,
        bodies,
    })
}

/// A function in a file, behind so many bodies.
pub fn function<'a>(
    alloc: Global,
    file: &FileNames<'a>,
    name: &'a [u8],
    params: &'a [Param],
    body: &'a TStmt,
    bodies: List<Function>,
    next: u32,
) -> Result<Outlined, AllocError>
    ensures function { IfOk result (λ f. f.function ≡ (lowered_function (file_of file.now) name.now params.now body.now next).function) }
    ensures bodies { IfOk result (λ f. f.bodies ≡ bodies ++ (lowered_function (file_of file.now) name.now params.now body.now next).bodies) }
    ensures next { IfOk result (λ f. f.next ≡ next + bodies_of body.now) }
{
    let count = index(params.len())?;
    let mut walk = head(alloc, file, name, params, bodies, next)?;
    let made = whole(alloc, &mut walk, body)?;
    let written = passed(alloc, &walk, count, made)?;
    let Walk {
        name: _,
        scopes: _,
        frame: _,
        next,
        bodies,
    } = walk;
    Ok(Outlined {
        function: written,
        bodies,
        next,
    })
}
