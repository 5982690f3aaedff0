ghost use Rattle.std.specs.Prelude.{◌≡◌, ◌<◌, ◌+◌, ◌^◌, length, slice_get, MatchOption, None, Some};
ghost use Rattle.codegen_stmt.specs.Parts.{children_of, hint_of, is_simple, own_size, words_of};

use crate::around::Around;
use cilk_ast::{Expr, Stmt};

#[tactic(auto, using(crate::proofs::PartForms::hint_by_form))]
/// The hint of `s`, if it is a spawn that has one.
pub fn hint(s: &Stmt) -> Option<&Expr>
    ensures { MatchOption result (hint_of s.now ≡ None) (λ e. hint_of s.now ≡ Some e.now) }
{
    match s {
        Stmt::Spawn { hint, .. } => hint.as_ref(),
        Stmt::Nothing | Stmt::Block(_) | Stmt::Break | Stmt::Continue | Stmt::Sync => None,
        Stmt::Eval(_) | Stmt::Set { .. } | Stmt::Store { .. } | Stmt::AddTo { .. } => None,
        Stmt::If { .. } | Stmt::Loop { .. } | Stmt::Each { .. } | Stmt::Return(_) => None,
    }
}

#[tactic(auto, using(crate::proofs::PartForms::words_by_form))]
/// How many expressions `s` has besides its hint, those of the statements in it left out.
pub fn words(s: &Stmt) -> usize
    ensures { result ≡ length (words_of s.now) }
{
    match s {
        Stmt::Nothing | Stmt::Block(_) | Stmt::Break | Stmt::Continue | Stmt::Sync => 0,
        Stmt::Eval(_) | Stmt::Set { .. } | Stmt::Return(_) => 1,
        Stmt::If { .. } | Stmt::Loop { .. } => 1,
        Stmt::Store { .. } | Stmt::AddTo { .. } | Stmt::Each { .. } => 2,
        Stmt::Spawn { args, .. } => args.len(),
    }
}

#[tactic(auto, using(crate::proofs::PartForms::words_by_form))]
/// Expression `i` of `s`, from 0, without its hint. None exactly where there is none.
pub fn word(s: &Stmt, i: usize) -> Option<&Expr>
    requires { i < length (words_of s.now) }
    ensures { MatchOption result (length (words_of s.now) ≡ 0) (λ e. slice_get (words_of s.now) i ≡ Some e.now) }
{
    match s {
        Stmt::Eval(value) | Stmt::Return(value) => Some(value),
        Stmt::Set { value, .. } => Some(value),
        Stmt::If { test, .. } | Stmt::Loop { test, .. } => Some(test),
        Stmt::Store { address, value, .. } | Stmt::AddTo { address, value, .. } => {
            Some(if i == 0 { address } else { value })
        }
        Stmt::Each { low, high, .. } => Some(if i == 0 { low } else { high }),
        Stmt::Spawn { args, .. } => Some(args.at(i)),
        Stmt::Nothing | Stmt::Block(_) | Stmt::Break | Stmt::Continue | Stmt::Sync => None,
    }
}

#[tactic(auto, using(crate::proofs::PartForms::children_by_form))]
/// How many statements `s` has.
pub fn children(s: &Stmt) -> usize
    ensures { result ≡ length (children_of s.now) }
{
    match s {
        Stmt::Block(body) => body.len(),
        Stmt::If { .. } | Stmt::Loop { .. } => 2,
        Stmt::Nothing | Stmt::Break | Stmt::Continue | Stmt::Sync | Stmt::Eval(_) => 0,
        Stmt::Set { .. } | Stmt::Store { .. } | Stmt::AddTo { .. } | Stmt::Return(_) => 0,
        Stmt::Spawn { .. } | Stmt::Each { .. } => 0,
    }
}

#[tactic(auto, using(crate::proofs::PartForms::children_by_form))]
/// Statement `i` of `s`, from 0.
pub fn child(s: &Stmt, i: usize) -> &Stmt
    requires { i < length (children_of s.now) }
    ensures { slice_get (children_of s.now) i ≡ Some result.now }
{
    match s {
        Stmt::Block(body) => body.at(i),
        Stmt::If { yes, no, .. } => { if i == 0 { yes } else { no } }
        Stmt::Loop { step, body, .. } => { if i == 0 { body } else { step } }
        Stmt::Nothing | Stmt::Break | Stmt::Continue | Stmt::Sync | Stmt::Eval(_) => s,
        Stmt::Set { .. } | Stmt::Store { .. } | Stmt::AddTo { .. } | Stmt::Return(_) => s,
        Stmt::Spawn { .. } | Stmt::Each { .. } => s,
    }
}

#[tactic(auto, using(crate::proofs::PartForms::size_by_form))]
/// How many instructions `s` has besides those of its expressions and statements.
pub fn own_instructions(around: Around, s: &Stmt) -> u32
    requires { own_size around s.now < 2 ^ 32 }
    ensures { result ≡ own_size around s.now }
{
    match s {
        Stmt::Nothing | Stmt::Block(_) => 0,
        Stmt::Eval(_) | Stmt::Set { .. } | Stmt::Store { .. } | Stmt::Spawn { .. } => 1,
        Stmt::Break | Stmt::Continue | Stmt::Sync => 1,
        Stmt::AddTo { .. } => 4,
        Stmt::If { .. } => 2,
        Stmt::Loop { .. } => 3,
        Stmt::Each { copies, .. } => copies.len() as u32 + 15,
        Stmt::Return(_) => { if around.spawns { 2 } else { 1 } }
    }
}
