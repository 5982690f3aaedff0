//! How far the lowering of a function has come.

ghost use Rattle.std.specs.Prelude.{◌≡◌, IfOk, OnOk};
ghost use Rattle.cilk_model.specs.Sorts.{begins_at};
ghost use Rattle.cilk_types.specs.Making.{walked_of, within, without, word_at, words_at, called_at, variable_at};
ghost use Rattle.cilk_model.specs.Scopes.{Names};
ghost use Rattle.cilk_model.specs.StatementLowering.{variable_side as side_where};
ghost use Rattle.cilk_types.specs.Shown.{meaning_of};
ghost use Rattle.cilk_types.specs.Sides.{side_of};
ghost use Rattle.std.specs.Option.{option_map};

use crate::expressions::judge;
use crate::lookup::meaning;
use crate::lower_expressions::{address_of, expression, expressions, index_of, slot_in};
use crate::naming::{close_scope, open_scope};
use crate::scopes::{Meaning, Scopes};
use cilk_ast::{Expr, Function, TExpr};
use std::alloc::{AllocError, Global};
use word_ops::{List, Pos};

/// The function's name; what is known; the locals that have slots so far; the index of the function that
/// the next body of `cilk_for` becomes; and the functions that bodies have become.
#[derive(Drop)]
pub struct Walk<'f, 'a> {
    pub name: &'a [u8],
    pub scopes: Scopes<'f, 'a>,
    pub frame: List<u32>,
    pub next: u32,
    pub bodies: List<Function>,
}

/// A left side: a slot, or a word in memory, which is stored to at a place in the text.
#[derive(Drop)]
pub enum Side {
    Slot(u32),
    Cell { pos: Pos, address: Expr },
}

/// Opens a scope.
pub fn open(alloc: Global, walk: &mut Walk<'_, '_>) -> Result<(), AllocError>
    ensures { OnOk result (walked_of walk.new ≡ within (walked_of walk.old)) }
{
    open_scope(alloc, &mut walk.scopes)?;
    Ok(())
}

/// Closes the innermost scope.
pub fn close(walk: &mut Walk<'_, '_>)
    ensures { walked_of walk.new ≡ without (walked_of walk.old) }
{
    close_scope(&mut walk.scopes);
}

/// The word of an expression.
pub fn word(alloc: Global, walk: &Walk<'_, '_>, e: &TExpr) -> Result<Expr, AllocError>
    ensures { IfOk result (λ x. x ≡ word_at (walked_of walk.now) e.now) }
{
    let frame = walk.frame.as_slice();
    let word = expression(alloc, &walk.scopes, frame, e)?;
    Ok(word)
}

/// The words of expressions.
pub fn words(alloc: Global, walk: &Walk<'_, '_>, es: &[TExpr]) -> Result<List<Expr>, AllocError>
    ensures { IfOk result (λ xs. xs ≡ words_at (walked_of walk.now) es.now) }
{
    let frame = walk.frame.as_slice();
    let words = expressions(alloc, &walk.scopes, frame, es)?;
    Ok(words)
}

/// Which function a name calls.
pub fn called(walk: &Walk<'_, '_>, name: &[u8]) -> u32
    ensures { result ≡ called_at (walked_of walk.now) name.now }
{
    let found = meaning(&walk.scopes, name);
    let index = index_of(found);
    index
}

/// The first token of an expression.
pub fn first_token(walk: &Walk<'_, '_>, e: &TExpr) -> Pos
    ensures { result ≡ begins_at e.now }
{
    let judgement = judge(&walk.scopes, e);
    judgement.at
}

/// The side that something is which a name stands for.
fn side_for(frame: &[u32], at: Pos, meaning: Option<Meaning<'_>>) -> Result<Side, AllocError>
    ensures { IfOk result (λ s. (names : Names) → side_of s ≡ side_where names frame.now at (option_map meaning_of meaning.entry)) }
{
    match meaning {
        Some(Meaning::Local(local)) => Ok(Side::Slot(slot_in(frame, local.number)?)),
        other => Ok(Side::Cell {
            pos: at,
            address: Expr::Word(address_of(other)),
        }),
    }
}

/// The side that a variable is.
pub fn variable_side(walk: &Walk<'_, '_>, at: Pos, name: &[u8]) -> Result<Side, AllocError>
    ensures { IfOk result (λ s. side_of s ≡ variable_at (walked_of walk.now) at name.now) }
{
    let frame = walk.frame.as_slice();
    let found = meaning(&walk.scopes, name);
    let side = side_for(frame, at, found)?;
    Ok(side)
}

/// Slots and parameters, counted as code counts them.
pub fn index(n: usize) -> Result<u32, AllocError>
    ensures { IfOk result (λ i. i ≡ n) }
{
    match u32::try_from(n) {
        Ok(i) => Ok(i),
        Err(_) => Err(AllocError),
    }
}
