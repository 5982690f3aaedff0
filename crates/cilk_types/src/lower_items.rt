//! What the items of a file are in a program.

ghost use Rattle.std.specs.Prelude.{◌≡◌, [], List, ◌∷◌, ◌++◌, IfOk};
ghost use Rattle.cilk_ast.specs.declared.tree.Item.{Item};
ghost use Rattle.cilk_model.specs.Breaks.{entries_from, functions_of};
ghost use Rattle.cilk_model.specs.Lowering.{main_of};
ghost use Rattle.cilk_types.specs.Functions.{with_item as item_with, with_items, main_with, AreCounted};
ghost use Rattle.cilk_types.specs.Shown.{file_of};

use crate::counts::{Counts, one_more};
use crate::items::is_main;
use crate::lower_functions::{Outlined, function};
use crate::names::{count, file_names, pass};
use crate::scopes::FileNames;
use cilk_ast::{Function, Item};
use std::alloc::{AllocError, Global};
use word_ops::List;

/// The functions that are written; those that bodies of `cilk_for` have become; and the index of the
/// next one.
#[derive(Drop)]
pub struct Functions {
    pub written: List<Function>,
    pub bodies: List<Function>,
    pub next: u32,
}

/// The functions with one more that is written.
fn with_outlined(written: List<Function>, one: Outlined) -> Result<Functions, AllocError>
    ensures { IfOk result (λ f. f ≡ record { written = written ++ one.function ∷ []; bodies = one.bodies; next = one.next }) }
{
    let Outlined {
        function,
        bodies,
        next,
    } = one;
    let mut written = written;
    written.add(function)?;
    Ok(Functions {
        written,
        bodies,
        next,
    })
}

/// The functions with those of an item.
fn with_item<'a>(
    alloc: Global,
    file: &FileNames<'a>,
    item: &'a Item,
    functions: Functions,
) -> Result<Functions, AllocError>
    ensures { IfOk result (λ f. f ≡ item_with (file_of file.now) item.now functions) }
{
    match item {
        Item::Global {
            pos: _,
            name: _,
            kind: _,
            replicated: _,
        } => Ok(functions),
        Item::Function {
            pos: _,
            result: _,
            name_pos: _,
            name,
            params,
            body,
        } => {
            let Functions {
                written,
                bodies,
                next,
            } = functions;
            let title = name.as_slice();
            let given = params.as_slice();
            let one = function(alloc, file, title, given, body, bodies, next)?;
            let all = with_outlined(written, one)?;
            Ok(all)
        }
    }
}

/// The functions of a file, whose first body has this index.
pub fn functions_from(alloc: Global, items: &[Item], next: u32) -> Result<Functions, AllocError>
    ensures { IfOk result (λ f. f ≡ with_items (entries_from 0 0 0 items.now) 0 items.now (record { written = []; bodies = []; next = next })) }
{
    let mut file = file_names(alloc, items)?;
    let mut counts = Counts {
        functions: 0,
        plain: 0,
        replicated: 0,
    };
    let mut functions = Functions {
        written: List::new(alloc),
        bodies: List::new(alloc),
        next,
    };
    for i in 0..items.len() {
        let item = &items[i];
        functions = with_item(alloc, &file, item, functions)?;
        let _ = pass(&mut file, counts, item)?;
        counts = count(counts, item)?;
    }
    Ok(functions)
}

/// Functions behind others.
pub fn joined(first: List<Function>, second: List<Function>) -> Result<List<Function>, AllocError>
    ensures { IfOk result (λ fs. fs ≡ first ++ second) }
{
    let mut all = first;
    for function in second.into_vec() {
        all.add(function)?;
    }
    Ok(all)
}

/// How many functions and globals items have.
pub fn counted(items: &[Item]) -> Result<Counts, AllocError>
    ensures { IfOk result (λ c. AreCounted c items.now) }
{
    let mut counts = Counts {
        functions: 0,
        plain: 0,
        replicated: 0,
    };
    for i in 0..items.len() {
        counts = count(counts, &items[i])?;
    }
    Ok(counts)
}

/// Whether an item is main, if it is a function.
fn main_or_not(item: &Item) -> Option<bool>
    ensures { (rest : List Item) → main_of (functions_of (item.now ∷ rest)) ≡ main_with result (main_of (functions_of rest)) }
{
    match item {
        Item::Global {
            pos: _,
            name: _,
            kind: _,
            replicated: _,
        } => None,
        Item::Function {
            pos: _,
            result: _,
            name_pos: _,
            name,
            params: _,
            body: _,
        } => Some(is_main(name.as_slice())),
    }
}

/// Which of the functions main is.
pub fn main_index(items: &[Item]) -> Result<u32, AllocError>
    ensures { IfOk result (λ n. n ≡ main_of (functions_of items.now)) }
{
    let mut n = 0;
    for i in 0..items.len() {
        match main_or_not(&items[i]) {
            Some(true) => return Ok(n),
            Some(false) => n = one_more(n)?,
            None => {}
        }
    }
    Ok(n)
}
