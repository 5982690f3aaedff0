//! The names that a file declares.

ghost use Rattle.std.specs.Prelude.{◌≡◌, ◌∷◌, ◌++◌, [], List, map, is_some, OnOk, IfOk};
ghost use Rattle.std.specs.Option.{option_map};
ghost use Rattle.std.specs.Map.{lookup};
ghost use Rattle.std.specs.Str.{bytes_eq};
ghost use Rattle.cilk_model.specs.Breaks.{Entry, entries_from, item_name};
ghost use Rattle.cilk_types.specs.Shown.{bare, global_of};
ghost use Rattle.cilk_types.specs.Files.{entry_of, counted_with, word_in, IsBefore, AreFunctions, Keeps};

use crate::counts::{Counts, one_more};
use crate::naming::insert_new;
use crate::scopes::{FileNames, GlobalWord, Written};
use cilk_ast::{Item, Kind, Param};
use indexmap::IndexMap;
use std::alloc::{AllocError, Global};
use word_ops::List;

/// The first words of the replicated globals and of the plain ones: views 31 and 32.
const REPLICATED: i64 = 34084860461056;

const PLAIN: i64 = 35184372088832;

/// How many functions and globals there are behind an item.
pub fn count(counts: Counts, item: &Item) -> Result<Counts, AllocError>
    ensures { IfOk result (λ c. c ≡ counted_with counts item.now) }
{
    let mut counts = counts;
    match item {
        Item::Global {
            pos: _,
            name: _,
            kind: _,
            replicated,
        } => {
            if *replicated {
                counts.replicated = one_more(counts.replicated)?;
            } else {
                counts.plain = one_more(counts.plain)?;
            }
        }
        Item::Function {
            pos: _,
            result: _,
            name_pos: _,
            name: _,
            params: _,
            body: _,
        } => {
            counts.functions = one_more(counts.functions)?;
        }
    }
    Ok(counts)
}

fn kinds(alloc: Global, params: &[Param]) -> Result<List<Kind>, AllocError>
    ensures { IfOk result (λ ks. ks ≡ map (λ p. p.kind) params.now) }
{
    let mut kinds = List::new(alloc);
    for param in params {
        kinds.add(param.kind)?;
    }
    Ok(kinds)
}

/// The name of an item.
pub fn name_of(item: &Item) -> &[u8]
    ensures { result.now ≡ item_name item.now }
{
    match item {
        Item::Global {
            pos: _,
            name,
            kind: _,
            replicated: _,
        } => name.as_slice(),
        Item::Function {
            pos: _,
            result: _,
            name_pos: _,
            name,
            params: _,
            body: _,
        } => { name.as_slice() }
    }
}

/// The global that an item is, if it is one.
fn word_of(counts: Counts, item: &Item) -> Option<GlobalWord>
    ensures { option_map global_of result ≡ word_in (entry_of counts item.now).1 }
{
    match item {
        Item::Global {
            pos: _,
            name: _,
            kind,
            replicated,
        } => {
            let address = if *replicated {
                REPLICATED + i64::from(counts.replicated)
            } else {
                PLAIN + i64::from(counts.plain)
            };
            Some(GlobalWord {
                kind: *kind,
                replicated: *replicated,
                address,
            })
        }
        Item::Function {
            pos: _,
            result: _,
            name_pos: _,
            name: _,
            params: _,
            body: _,
        } => None,
    }
}

/// Keeps an item that is a function.
fn add_function<'a>(
    alloc: Global,
    found: &mut IndexMap<&'a [u8], Written>,
    counts: Counts,
    item: &'a Item,
) -> Result<(), AllocError>
    ensures { OnOk result ((rest all : List Entry) → Keeps (bare found.old.entries) (entry_of counts item.now ∷ rest) all → Keeps (bare found.new.entries) rest all) }
{
    match item {
        Item::Global {
            pos: _,
            name: _,
            kind: _,
            replicated: _,
        } => Ok(()),
        Item::Function {
            pos: _,
            result,
            name_pos: _,
            name,
            params,
            body: _,
        } => {
            let written = Written {
                result: *result,
                params: kinds(alloc, params.as_slice())?,
                index: counts.functions,
            };
            let _ = insert_new(found, name.as_slice(), written)?;
            Ok(())
        }
    }
}

/// The functions of a file.
fn functions<'a>(
    alloc: Global,
    items: &'a [Item],
) -> Result<IndexMap<&'a [u8], Written>, AllocError>
    ensures { IfOk result (λ m. AreFunctions (bare m.entries) (entries_from 0 0 0 items.now)) }
{
    let mut found = IndexMap::new(alloc);
    let mut counts = Counts {
        functions: 0,
        plain: 0,
        replicated: 0,
    };
    for i in 0..items.len() {
        add_function(alloc, &mut found, counts, &items[i])?;
        counts = count(counts, &items[i])?;
    }
    Ok(found)
}

/// What a file knows at its first item.
pub fn file_names<'a>(alloc: Global, items: &'a [Item]) -> Result<FileNames<'a>, AllocError>
    ensures before { IfOk result (λ f. bare f.before.entries ≡ []) }
    ensures functions { IfOk result (λ f. AreFunctions (bare f.functions.entries) (entries_from 0 0 0 items.now)) }
{
    let functions = functions(alloc, items)?;
    Ok(FileNames {
        before: IndexMap::new(alloc),
        functions,
    })
}

/// Goes behind an item, and says whether its name is declared before.
pub fn pass<'a>(
    file: &mut FileNames<'a>,
    counts: Counts,
    item: &'a Item,
) -> Result<bool, AllocError>
    ensures twice { IfOk result (λ twice. (entries : List Entry) → IsBefore (bare file.old.before.entries) entries → twice ≡ is_some (lookup (bytes_eq (item_name item.now)) entries)) }
    ensures before { OnOk result ((entries : List Entry) → IsBefore (bare file.old.before.entries) entries → IsBefore (bare file.new.before.entries) (entries ++ entry_of counts item.now ∷ [])) }
    ensures functions { OnOk result (file.new.functions ≡ file.old.functions) }
{
    insert_new(&mut file.before, name_of(item), word_of(counts, item))
}
