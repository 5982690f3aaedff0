//! The copies that a body of `cilk_for` gets of outer locals.

ghost use Rattle.std.specs.Prelude.{◌≡◌, ◌==◌, OnOk, IfOk};
ghost use Rattle.std.specs.List.{list_any};
ghost use Rattle.std.specs.List.Sorted.{IsNonDecreasing};
ghost use Rattle.cilk_model.specs.Copies.{named_in, copies_of};
ghost use Rattle.cilk_model.specs.Locals.{in_body};
ghost use Rattle.cilk_types.specs.Named.{named_within};
ghost use Rattle.cilk_types.specs.Shown.{scopes_of};

use crate::named_statements::add_named_in;
use crate::naming::close_scope;
use crate::scopes::Scopes;
use crate::statements::enter_body;
use cilk_ast::TStmt;
use std::alloc::{AllocError, Global};
use word_ops::List;

/// The locals of a frame, by their numbers, that the body of a `cilk_for` with this variable names
/// (docs/language.md, "Meaning"). The scopes are afterwards as they were.
pub fn copies<'a>(
    alloc: Global,
    scopes: &mut Scopes<'_, 'a>,
    frame: &[u32],
    name: &'a [u8],
    body: &'a TStmt,
) -> Result<List<u32>, AllocError>
    ensures copies { IfOk result (λ c. c ≡ copies_of frame.now (named_in body.now (in_body name.now (scopes_of scopes.old)))) }
    ensures scopes { OnOk result (scopes_of scopes.new ≡ scopes_of scopes.old) }
{
    let named = named_in_body(alloc, scopes, name, body)?;
    among(alloc, frame, named)
}

/// The numbers of the locals that the body of a `cilk_for` with this variable names.
fn named_in_body<'a>(
    alloc: Global,
    scopes: &mut Scopes<'_, 'a>,
    name: &'a [u8],
    body: &'a TStmt,
) -> Result<List<u32>, AllocError>
    ensures named { IfOk result (λ n. n ≡ named_within body.now (in_body name.now (scopes_of scopes.old))) }
    ensures scopes { OnOk result (scopes_of scopes.new ≡ scopes_of scopes.old) }
{
    let level = scopes.level;
    let count = scopes.count;
    let mut named = List::new(alloc);
    enter_body(alloc, scopes, name)?;
    add_named_in(alloc, scopes, body, &mut named)?;
    close_scope(scopes);
    scopes.level = level;
    scopes.count = count;
    Ok(named)
}

/// The numbers of a frame that are among those named. Both can be long, so that the named ones are sorted.
fn among(alloc: Global, frame: &[u32], named: List<u32>) -> Result<List<u32>, AllocError>
    ensures { IfOk result (λ c. c ≡ copies_of frame.now named) }
{
    let mut sorted = named.into_vec();
    sorted.sort_unstable();
    let mut copies = List::new(alloc);
    for number in frame {
        if has_number(sorted.as_slice(), *number) {
            copies.add(*number)?;
        }
    }
    Ok(copies)
}

fn has_number(sorted: &[u32], number: u32) -> bool
    requires { IsNonDecreasing sorted.now }
    ensures { result ≡ list_any (λ other. other == number) sorted.now }
{
    sorted.binary_search(&number).is_ok()
}
