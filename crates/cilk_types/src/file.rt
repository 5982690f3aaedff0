//! The rules that are broken in a file.

ghost use Rattle.std.specs.Prelude.{◌≡◌, ◌||◌, List, ◌∷◌, ◌++◌, map, OnOk, IfOk};
ghost use Rattle.cilk_ast.specs.declared.tree.Item.{Item};
ghost use Rattle.cilk_model.specs.Breaks.{entries_from, functions_of, has_main as main_there, item_place};
ghost use Rattle.cilk_model.specs.Checked.{tree_fault as fault_of};
ghost use Rattle.cilk_types.specs.Checking.{found_from};

use crate::counts::Counts;
use crate::first::earlier;
use crate::items::{is_main, item_fault, too_many};
use crate::names::{count, file_names, pass};
use crate::rules::broken_if;
use cilk_ast::{FaultKind, Item, TextFault, Tree};
use std::alloc::{AllocError, Global};
use word_ops::{List, Pos};

const MAX_FUNCTIONS: usize = 1000;

/// The place of an item's name.
fn place_of(item: &Item) -> Pos
    ensures { result ≡ item_place item.now }
{
    match item {
        Item::Global {
            pos,
            name: _,
            kind: _,
            replicated: _,
        } => *pos,
        Item::Function {
            pos: _,
            result: _,
            name_pos,
            name: _,
            params: _,
            body: _,
        } => *name_pos,
    }
}

/// Adds the place of an item's name, if it is a function.
fn add_function_place(places: &mut List<Pos>, item: &Item) -> Result<(), AllocError>
    ensures { OnOk result ((rest : List Item) → places.old ++ map (λ f. f.0) (functions_of (item.now ∷ rest)) ≡ places.new ++ map (λ f. f.0) (functions_of rest)) }
{
    match item {
        Item::Global {
            pos: _,
            name: _,
            kind: _,
            replicated: _,
        } => Ok(()),
        Item::Function {
            pos: _,
            result: _,
            name_pos,
            name: _,
            params: _,
            body: _,
        } => {
            places.add(*name_pos)?;
            Ok(())
        }
    }
}

/// The places of the functions' names.
fn function_places(alloc: Global, items: &[Item]) -> Result<List<Pos>, AllocError>
    ensures { IfOk result (λ ps. ps ≡ map (λ f. f.0) (functions_of items.now)) }
{
    let mut places = List::new(alloc);
    for i in 0..items.len() {
        add_function_place(&mut places, &items[i])?;
    }
    Ok(places)
}

/// Whether an item is main.
fn is_main_function(item: &Item) -> bool
    ensures { (rest : List Item) → main_there (functions_of (item.now ∷ rest)) ≡ (result || main_there (functions_of rest)) }
{
    match item {
        Item::Global {
            pos: _,
            name: _,
            kind: _,
            replicated: _,
        } => false,
        Item::Function {
            pos: _,
            result: _,
            name_pos: _,
            name,
            params: _,
            body: _,
        } => { is_main(name.as_slice()) }
    }
}

/// Whether main is written.
fn has_main(items: &[Item]) -> bool
    ensures { result ≡ main_there (functions_of items.now) }
{
    for i in 0..items.len() {
        if is_main_function(&items[i]) {
            return true;
        }
    }
    false
}

/// The first fault in the items of a file.
fn items_fault(alloc: Global, items: &[Item]) -> Result<Option<TextFault>, AllocError>
    ensures { IfOk result (λ f. f ≡ found_from (entries_from 0 0 0 items.now) 0 items.now) }
{
    let mut file = file_names(alloc, items)?;
    let mut counts = Counts {
        functions: 0,
        plain: 0,
        replicated: 0,
    };
    let mut worst = None;
    for i in 0..items.len() {
        let item = &items[i];
        let inner = item_fault(alloc, &file, item)?;
        let twice = pass(&mut file, counts, item)?;
        counts = count(counts, item)?;
        let again = broken_if(twice, FaultKind::Twice, place_of(item));
        worst = earlier(worst, earlier(again, inner));
    }
    Ok(worst)
}

/// The first fault of a tree, if a rule is broken in it.
pub fn tree_fault(alloc: Global, tree: &Tree) -> Result<Option<TextFault>, AllocError>
    ensures { IfOk result (λ f. f ≡ fault_of tree.now) }
{
    let items = tree.items.as_slice();
    let inner = items_fault(alloc, items)?;
    let over = too_many(MAX_FUNCTIONS, function_places(alloc, items)?.as_slice());
    let there = has_main(items);
    let none = broken_if(!there, FaultKind::NoMain, tree.end);
    Ok(earlier(earlier(inner, over), none))
}
