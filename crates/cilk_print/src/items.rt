//! Items on a page.

ghost use Rattle.std.specs.Prelude.{◌≡◌, ◌≤◌, length, drop, OnOk};
ghost use Rattle.cilk_print.specs.Printing.{printed_result, printed_param, params_behind, params_between, printed_replicated, printed_item, printed_items};

use crate::page::{close_round, open_round, operator, plain, semicolon, tight, word};
use crate::simple::declared;
use crate::statements::statement;
use cilk_ast::{Item, Kind, Param};
use cilk_model::Page;
use std::alloc::{AllocError, Global};

#[tactic(auto, unfolding(crate::specs::Printing::printed_result))]
/// The result of a function.
fn result_kind(page: &mut Page, kind: Kind) -> Result<(), AllocError>
    ensures { OnOk result (page.new ≡ printed_result page.old kind) }
{
    match kind {
        Kind::Long => word(page, "long"),
        Kind::Ptr => {
            word(page, "long")?;
            operator(page, "*")
        }
        Kind::Void => word(page, "void"),
        Kind::Int => word(page, "int"),
    }
}

#[tactic(auto, using(crate::proofs::ItemSteps::param_step))]
fn param(page: &mut Page, param: &Param) -> Result<(), AllocError>
    ensures { OnOk result (page.new ≡ printed_param page.old param.now) }
{
    declared(page, param.kind, param.name.as_slice())
}

/// Parameters from the one at `first` on, with a comma before each.
fn behind_commas(page: &mut Page, params: &[Param], first: usize) -> Result<(), AllocError>
    requires { first ≤ length params.now }
    ensures { OnOk result (page.new ≡ params_behind page.old (drop first params.now)) }
{
    for i in first..params.len() {
        tight(page, ",")?;
        param(page, &params[i])?;
    }
    Ok(())
}

/// Parameters with a comma between two.
fn between_commas(page: &mut Page, params: &[Param]) -> Result<(), AllocError>
    ensures { OnOk result (page.new ≡ params_between page.old params.now) }
{
    if params.is_empty() {
        return Ok(());
    }
    param(page, &params[0])?;
    behind_commas(page, params, 1)
}

#[tactic(auto, unfolding(crate::specs::Printing::printed_replicated))]
fn replicated_word(page: &mut Page, replicated: bool) -> Result<(), AllocError>
    ensures { OnOk result (page.new ≡ printed_replicated page.old replicated) }
{
    if replicated {
        word(page, "replicated")
    } else {
        Ok(())
    }
}

#[tactic(auto, using(crate::proofs::ItemSteps::global_step))]
/// A declarator of a global, or a function.
fn item(alloc: Global, page: &mut Page, item: &Item) -> Result<(), AllocError>
    ensures { OnOk result (page.new ≡ printed_item page.old item.now) }
{
    match item {
        Item::Global {
            pos: _,
            name,
            kind,
            replicated,
        } => {
            replicated_word(page, *replicated)?;
            declared(page, *kind, name.as_slice())?;
            semicolon(page)
        }
        Item::Function {
            pos: _,
            result,
            name_pos: _,
            name,
            params,
            body,
        } => {
            result_kind(page, *result)?;
            plain(page, name.as_slice())?;
            open_round(page)?;
            between_commas(page, params.as_slice())?;
            close_round(page)?;
            statement(alloc, page, body)
        }
    }
}

/// The items of a tree.
pub fn items(alloc: Global, page: &mut Page, items: &[Item]) -> Result<(), AllocError>
    ensures { OnOk result (page.new ≡ printed_items page.old items.now) }
{
    for i in 0..items.len() {
        item(alloc, page, &items[i])?;
    }
    Ok(())
}
