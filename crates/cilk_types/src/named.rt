//! The locals that expressions and statements name.

ghost use Rattle.std.specs.Prelude.{◌≡◌, ◌++◌, OnOk, IfOk};
ghost use Rattle.std.specs.Option.{option_map};
ghost use Rattle.cilk_model.specs.Copies.{number_of, named_in, copies_of};
ghost use Rattle.cilk_model.specs.Scopes.{opened, closed};
ghost use Rattle.cilk_model.specs.Locals.{in_body};
ghost use Rattle.cilk_types.specs.Named.{named_of, named_of_list, named_of_option, named_of_spawn, named_of_value, named_of_initial, named_within, named_within_part, named_within_list};
ghost use Rattle.cilk_types.specs.Shown.{meaning_of, names_of, scopes_of};
ghost use Rattle.cilk_types.specs.Walking.{left_by, left_by_part, left_by_list};

use crate::lookup::meaning;
use crate::scopes::{Meaning, Scopes};
use cilk_ast::{TExpr, TSpawn, TValue};
use std::alloc::AllocError;
use word_ops::List;

/// Adds the number of a local.
fn add_number(meaning: Option<Meaning<'_>>, named: &mut List<u32>) -> Result<(), AllocError>
    ensures { OnOk result (named.new ≡ named.old ++ number_of (option_map meaning_of meaning.entry)) }
{
    match meaning {
        Some(Meaning::Local(local)) => named.add(local.number),
        _ => Ok(()),
    }
}

#[tactic(auto, using(crate::proofs::NamedForms::named_forms))]
/// Adds the numbers of the locals that an expression names.
#[cycle(naming)]
pub fn add_named(
    scopes: &Scopes<'_, '_>,
    e: &TExpr,
    named: &mut List<u32>,
) -> Result<(), AllocError>
    ensures { OnOk result (named.new ≡ named.old ++ named_of (names_of scopes.now) e.now) }
{
    match e {
        TExpr::Number { .. } => Ok(()),
        TExpr::Var { name, .. } => add_number(meaning(scopes, name.as_slice()), named),
        TExpr::Paren { inner, .. } => add_named(scopes, inner.get(), named),
        TExpr::Un { inner, .. } => add_named(scopes, inner.get(), named),
        TExpr::Deref { inner, .. } => add_named(scopes, inner.get(), named),
        TExpr::Cast { inner, .. } => add_named(scopes, inner.get(), named),
        TExpr::Index { base, index, .. } => {
            add_named(scopes, base.get(), named)?;
            add_named(scopes, index.get(), named)
        }
        TExpr::Bin { left, right, .. } => {
            add_named(scopes, left.get(), named)?;
            add_named(scopes, right.get(), named)
        }
        TExpr::Both { left, right, .. } => {
            add_named(scopes, left.get(), named)?;
            add_named(scopes, right.get(), named)
        }
        TExpr::Either { left, right, .. } => {
            add_named(scopes, left.get(), named)?;
            add_named(scopes, right.get(), named)
        }
        TExpr::Call { args, .. } => add_all_named(scopes, args.as_slice(), named),
        TExpr::Builtin { args, .. } => add_all_named(scopes, args.as_slice(), named),
        TExpr::Print { args, .. } => add_all_named(scopes, args.as_slice(), named),
        TExpr::InitAt { value, .. } => add_named(scopes, value.get(), named),
    }
}

/// Adds those of expressions in a list.
#[cycle(naming)]
fn add_all_named(
    scopes: &Scopes<'_, '_>,
    es: &[TExpr],
    named: &mut List<u32>,
) -> Result<(), AllocError>
    ensures { OnOk result (named.new ≡ named.old ++ named_of_list (names_of scopes.now) es.now) }
{
    for i in 0..es.len() {
        add_named(scopes, &es[i], named)?;
    }
    Ok(())
}

/// Adds those of an expression that may be missing.
pub fn add_named_option(
    scopes: &Scopes<'_, '_>,
    e: &Option<TExpr>,
    named: &mut List<u32>,
) -> Result<(), AllocError>
    ensures { OnOk result (named.new ≡ named.old ++ named_of_option (names_of scopes.now) e.now) }
{
    match e {
        None => Ok(()),
        Some(e) => add_named(scopes, e, named),
    }
}

/// Adds those of a spawn.
pub fn add_named_spawn(
    scopes: &Scopes<'_, '_>,
    spawn: &TSpawn,
    named: &mut List<u32>,
) -> Result<(), AllocError>
    ensures { OnOk result (named.new ≡ named.old ++ named_of_spawn (names_of scopes.now) spawn.now) }
{
    add_named_option(scopes, &spawn.hint, named)?;
    add_all_named(scopes, spawn.args.as_slice(), named)
}

/// Adds those of a value.
pub fn add_named_value(
    scopes: &Scopes<'_, '_>,
    value: &TValue,
    named: &mut List<u32>,
) -> Result<(), AllocError>
    ensures { OnOk result (named.new ≡ named.old ++ named_of_value (names_of scopes.now) value.now) }
{
    match value {
        TValue::Plain(e) => add_named(scopes, e, named),
        TValue::Spawned(spawn) => add_named_spawn(scopes, spawn, named),
    }
}

/// Adds those of a value that may be missing.
pub fn add_named_initial(
    scopes: &Scopes<'_, '_>,
    value: &Option<TValue>,
    named: &mut List<u32>,
) -> Result<(), AllocError>
    ensures { OnOk result (named.new ≡ named.old ++ named_of_initial (names_of scopes.now) value.now) }
{
    match value {
        None => Ok(()),
        Some(value) => add_named_value(scopes, value, named),
    }
}
