//! The rules that are broken in the items of a file.

ghost use Rattle.std.specs.Prelude.{◌≡◌, ◌||◌, [], map, OnOk, IfOk};
ghost use Rattle.cilk_model.specs.Sorts.{same_kind as are_same};
ghost use Rattle.cilk_model.specs.FirstFault.{first_fault};
ghost use Rattle.cilk_model.specs.Scopes.{is_twice};
ghost use Rattle.cilk_model.specs.Locals.{after_params};
ghost use Rattle.cilk_model.specs.StatementBreaks.{faults_in_body};
ghost use Rattle.cilk_model.specs.Breaks.{is_main as named_main, head_faults, has_params as params_there, param_faults, at_head, too_many as over};
ghost use Rattle.cilk_types.specs.Shown.{scopes_of, file_of};
ghost use Rattle.cilk_types.specs.Places.{places_in};
ghost use Rattle.cilk_types.specs.Checking.{function_found, item_found};

use crate::first::earlier;
use crate::kinds::same_kind;
use crate::locals::add_places;
use crate::naming::{declare, open_scope};
use crate::rules::broken_if;
use crate::scopes::{FileNames, Scopes};
use crate::statements::{statement, statements};
use cilk_ast::{FaultKind, Item, Kind, Param, TStmt, TextFault};
use std::alloc::{AllocError, Global};
use word_ops::{List, Pos};

const MAX_PARAMS: usize = 8;

const MAX_LOCALS: usize = 250;

/// The fault of the first place that is over a limit.
pub fn too_many(limit: usize, places: &[Pos]) -> Option<TextFault>
    ensures { result ≡ first_fault (over limit places.now) }
{
    match places.get(limit) {
        None => None,
        Some(at) => broken_if(true, FaultKind::TooMany, *at),
    }
}

/// Whether a name is main's.
pub fn is_main(name: &[u8]) -> bool
    ensures { result ≡ named_main name.now }
{
    name == b"main".as_slice()
}

/// Whether a result is none that main may have.
fn is_no_word(gives: Kind) -> bool
    ensures { result ≡ (are_same Kind.Void gives || are_same Kind.Ptr gives) }
{
    same_kind(Kind::Void, gives) || same_kind(Kind::Ptr, gives)
}

fn has_params(params: &[Param]) -> bool
    ensures { result ≡ params_there params.now }
{
    match params {
        [] => false,
        [_, ..] => true,
    }
}

#[tactic(auto, using(crate::proofs::FaultOrder::first_fault_append))]
/// The first fault in the head of a function.
fn head_fault(
    at: Pos,
    gives: Kind,
    name_at: Pos,
    name: &[u8],
    params: &[Param],
) -> Option<TextFault>
    ensures { result ≡ first_fault (head_faults at gives name_at name.now params.now) }
{
    if is_main(name) {
        earlier(
            broken_if(is_no_word(gives), FaultKind::WrongType, at),
            broken_if(has_params(params), FaultKind::WrongCount, name_at),
        )
    } else {
        broken_if(same_kind(Kind::Int, gives), FaultKind::WrongType, at)
    }
}

/// Declares the parameters of a function, and finds the first that is there already.
pub fn declare_params<'a>(
    scopes: &mut Scopes<'_, 'a>,
    params: &'a [Param],
) -> Result<Option<TextFault>, AllocError>
    ensures fault { IfOk result (λ f. f ≡ first_fault (param_faults params.now (scopes_of scopes.old))) }
    ensures scopes { OnOk result (scopes_of scopes.new ≡ after_params params.now (scopes_of scopes.old)) }
{
    let mut worst = None;
    for i in 0..params.len() {
        let param = &params[i];
        let twice = declare(scopes, param.name.as_slice(), param.kind)?;
        worst = earlier(worst, broken_if(twice, FaultKind::Twice, param.pos));
    }
    Ok(worst)
}

fn param_places(alloc: Global, params: &[Param]) -> Result<List<Pos>, AllocError>
    ensures { IfOk result (λ ps. ps ≡ map (λ p. p.pos) params.now) }
{
    let mut places = List::new(alloc);
    for param in params {
        places.add(param.pos)?;
    }
    Ok(places)
}

/// The first fault in the outermost block of a function.
fn body_fault<'a>(
    alloc: Global,
    scopes: &mut Scopes<'_, 'a>,
    gives: Kind,
    body: &'a TStmt,
) -> Result<Option<TextFault>, AllocError>
    ensures { IfOk result (λ f. f ≡ first_fault (faults_in_body gives body.now (scopes_of scopes.old))) }
{
    match body {
        TStmt::Block(list) => {
            let fault = statements(alloc, scopes, gives, list.as_slice(), false)?;
            Ok(fault)
        }
        _ => {
            let fault = statement(alloc, scopes, gives, body, false)?;
            Ok(fault)
        }
    }
}

fn local_places(alloc: Global, body: &TStmt) -> Result<List<Pos>, AllocError>
    ensures { IfOk result (λ ps. ps ≡ places_in body.now) }
{
    let mut places = List::new(alloc);
    add_places(&mut places, body)?;
    Ok(places)
}

/// The head of a function in a file.
pub fn function_scopes<'f, 'a>(
    alloc: Global,
    file: &'f FileNames<'a>,
) -> Result<Scopes<'f, 'a>, AllocError>
    ensures { IfOk result (λ s. scopes_of s ≡ at_head (file_of file.now)) }
{
    let mut scopes = Scopes {
        file,
        around: List::new(alloc),
        count: 0,
        level: 0,
    };
    open_scope(alloc, &mut scopes)?;
    Ok(scopes)
}

/// The first fault in a function.
fn function_fault<'a>(
    alloc: Global,
    file: &FileNames<'a>,
    gives: Kind,
    params: &'a [Param],
    body: &'a TStmt,
) -> Result<Option<TextFault>, AllocError>
    ensures { IfOk result (λ f. f ≡ function_found (file_of file.now) gives params.now body.now) }
{
    let mut scopes = function_scopes(alloc, file)?;
    let twice = declare_params(&mut scopes, params)?;
    let params_over = too_many(MAX_PARAMS, param_places(alloc, params)?.as_slice());
    let inner = body_fault(alloc, &mut scopes, gives, body)?;
    let locals_over = too_many(MAX_LOCALS, local_places(alloc, body)?.as_slice());
    Ok(earlier(earlier(earlier(twice, params_over), inner), locals_over))
}

#[tactic(auto, using(crate::proofs::ItemForms::item_forms))]
/// The first fault in an item of a file.
pub fn item_fault<'a>(
    alloc: Global,
    file: &FileNames<'a>,
    item: &'a Item,
) -> Result<Option<TextFault>, AllocError>
    ensures { IfOk result (λ f. f ≡ item_found (file_of file.now) item.now) }
{
    match item {
        Item::Global {
            pos: _,
            name: _,
            kind: _,
            replicated: _,
        } => Ok(None),
        Item::Function {
            pos,
            result,
            name_pos,
            name,
            params,
            body,
        } => {
            let head = head_fault(*pos, *result, *name_pos, name.as_slice(), params.as_slice());
            let more = function_fault(alloc, file, *result, params.as_slice(), body)?;
            Ok(earlier(head, more))
        }
    }
}
