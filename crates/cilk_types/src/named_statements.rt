//! The locals that statements name.

ghost use Rattle.std.specs.Prelude.{◌≡◌, ◌++◌, OnOk};
ghost use Rattle.cilk_model.specs.Scopes.{declared, opened, closed};
ghost use Rattle.cilk_model.specs.Locals.{in_body};
ghost use Rattle.cilk_types.specs.Named.{named_of_initial, named_within, named_within_part, named_within_list};
ghost use Rattle.cilk_types.specs.Shown.{names_of, scopes_of};
ghost use Rattle.cilk_types.specs.Walking.{left_by, left_by_part, left_by_list};

use crate::named::{
    add_named, add_named_initial, add_named_option, add_named_spawn, add_named_value,
};
use crate::naming::{close_scope, declare, open_scope};
use crate::scopes::Scopes;
use crate::statements::enter_body;
use cilk_ast::{Kind, TStmt, TValue};
use std::alloc::{AllocError, Global};
use word_ops::{Box, List};

#[tactic(auto, using(crate::proofs::NamedStatementForms::named_statement_forms))]
/// Adds the numbers of the locals that a statement names, those of its `cilk_for`s included, and goes
/// behind it.
#[cycle(naming)]
pub fn add_named_in<'a>(
    alloc: Global,
    scopes: &mut Scopes<'_, 'a>,
    s: &'a TStmt,
    named: &mut List<u32>,
) -> Result<(), AllocError>
    ensures named { OnOk result (named.new ≡ named.old ++ named_within s.now (scopes_of scopes.old)) }
    ensures scopes { OnOk result (scopes_of scopes.new ≡ left_by s.now (scopes_of scopes.old)) }
{
    match s {
        TStmt::Block(body) => block(alloc, scopes, body.as_slice(), named),
        TStmt::Local {
            kind,
            name,
            value,
            ..
        } => local(scopes, *kind, name.as_slice(), value, named),
        TStmt::Eval(e) => add_named(scopes, e, named),
        TStmt::Assign { left, value, .. } => {
            add_named(scopes, left, named)?;
            add_named_value(scopes, value, named)
        }
        TStmt::AddTo { left, value, .. } => {
            add_named(scopes, left, named)?;
            add_named(scopes, value, named)
        }
        TStmt::Up { left } | TStmt::Down { left } => add_named(scopes, left, named),
        TStmt::Spawn(spawn) => add_named_spawn(scopes, spawn, named),
        TStmt::If { test, yes, no } => {
            add_named(scopes, test, named)?;
            add_named_in(alloc, scopes, yes.get(), named)?;
            part(alloc, scopes, no, named)?;
            Ok(())
        }
        TStmt::While { test, body } => {
            add_named(scopes, test, named)?;
            add_named_in(alloc, scopes, body.get(), named)
        }
        TStmt::For {
            init,
            test,
            step,
            body,
        } => {
            open_scope(alloc, scopes)?;
            part(alloc, scopes, init, named)?;
            add_named_option(scopes, test, named)?;
            part(alloc, scopes, step, named)?;
            add_named_in(alloc, scopes, body.get(), named)?;
            close_scope(scopes);
            Ok(())
        }
        TStmt::CilkFor {
            name,
            low,
            high,
            body,
            ..
        } => {
            add_named(scopes, low, named)?;
            add_named(scopes, high, named)?;
            cilk_for_body(alloc, scopes, name.as_slice(), body.get(), named)
        }
        TStmt::Return { value, .. } => add_named_option(scopes, value, named),
        TStmt::Empty | TStmt::Break { .. } | TStmt::Continue { .. } | TStmt::Sync => Ok(()),
    }
}

/// A declaration of a local.
fn local<'a>(
    scopes: &mut Scopes<'_, 'a>,
    kind: Kind,
    name: &'a [u8],
    value: &Option<TValue>,
    named: &mut List<u32>,
) -> Result<(), AllocError>
    ensures named { OnOk result (named.new ≡ named.old ++ named_of_initial (names_of scopes.old) value.now) }
    ensures scopes { OnOk result (scopes_of scopes.new ≡ declared name.now kind (scopes_of scopes.old)) }
{
    add_named_initial(scopes, value, named)?;
    let _ = declare(scopes, name, kind)?;
    Ok(())
}

/// A block, with a scope of its own.
#[cycle(naming)]
fn block<'a>(
    alloc: Global,
    scopes: &mut Scopes<'_, 'a>,
    body: &'a [TStmt],
    named: &mut List<u32>,
) -> Result<(), AllocError>
    ensures named { OnOk result (named.new ≡ named.old ++ named_within_list body.now (opened (scopes_of scopes.old))) }
    ensures scopes { OnOk result (scopes_of scopes.new ≡ closed (left_by_list body.now (opened (scopes_of scopes.old)))) }
{
    open_scope(alloc, scopes)?;
    add_all_named_in(alloc, scopes, body, named)?;
    close_scope(scopes);
    Ok(())
}

/// Statements one after the other.
#[cycle(naming)]
fn add_all_named_in<'a>(
    alloc: Global,
    scopes: &mut Scopes<'_, 'a>,
    body: &'a [TStmt],
    named: &mut List<u32>,
) -> Result<(), AllocError>
    ensures named { OnOk result (named.new ≡ named.old ++ named_within_list body.now (scopes_of scopes.old)) }
    ensures scopes { OnOk result (scopes_of scopes.new ≡ left_by_list body.now (scopes_of scopes.old)) }
{
    for i in 0..body.len() {
        add_named_in(alloc, scopes, &body[i], named)?;
    }
    Ok(())
}

/// A statement that may be missing.
#[cycle(naming)]
fn part<'a>(
    alloc: Global,
    scopes: &mut Scopes<'_, 'a>,
    s: &'a Option<Box<TStmt>>,
    named: &mut List<u32>,
) -> Result<(), AllocError>
    ensures named { OnOk result (named.new ≡ named.old ++ named_within_part s.now (scopes_of scopes.old)) }
    ensures scopes { OnOk result (scopes_of scopes.new ≡ left_by_part s.now (scopes_of scopes.old)) }
{
    match s {
        None => Ok(()),
        Some(s) => add_named_in(alloc, scopes, s.get(), named),
    }
}

/// The body of a `cilk_for`, with its variable.
#[cycle(naming)]
fn cilk_for_body<'a>(
    alloc: Global,
    scopes: &mut Scopes<'_, 'a>,
    name: &'a [u8],
    body: &'a TStmt,
    named: &mut List<u32>,
) -> Result<(), AllocError>
    ensures named { OnOk result (named.new ≡ named.old ++ named_within body.now (in_body name.now (scopes_of scopes.old))) }
    ensures scopes { OnOk result (scopes_of scopes.new ≡ record (closed (left_by body.now (in_body name.now (scopes_of scopes.old)))) { level = scopes.old.level }) }
{
    let level = scopes.level;
    enter_body(alloc, scopes, name)?;
    add_named_in(alloc, scopes, body, named)?;
    close_scope(scopes);
    scopes.level = level;
    Ok(())
}
