//! The program of a tree in which no rule is broken.

ghost use Rattle.std.specs.Prelude.{◌≡◌, ◌≤◌, ◌^◌, None, IfOk, IfErr};
ghost use Rattle.cilk_ast.specs.Nodes.{node_count};
ghost use Rattle.cilk_model.specs.Checked.{Checked, parts_of, tree_fault as fault_of};
ghost use Rattle.cilk_model.specs.Lowering.{lower as lowered_tree};
ghost use Rattle.cilk_types.specs.Checks.{IsSpelled, IsRefused};

use crate::file::tree_fault;
use crate::lower_items::{counted, functions_from, joined, main_index};
use cilk_ast::{Program, TextRefusal, Tree};
use std::alloc::{AllocError, Global};

/// The program of a tree in which no rule is broken.
pub(crate) fn lower(alloc: Global, tree: &Tree) -> Result<Program, AllocError>
    requires { fault_of tree.now ≡ None }
    ensures { IfOk result (λ p. parts_of p ≡ lowered_tree tree.now) }
{
    let items = tree.items.as_slice();
    let counts = counted(items)?;
    let main = main_index(items)?;
    let made = functions_from(alloc, items, counts.functions)?;
    let functions = joined(made.written, made.bodies)?;
    Ok(Program {
        functions,
        main,
        globals: counts.plain,
        replicated: counts.replicated,
    })
}

/// The program that a tree is, or the first rule that is broken in it (docs/language.md, "Faults" and
/// "Meaning"). The tree is one that a text spells.
pub fn check(alloc: Global, tree: &Tree) -> Result<Program, TextRefusal>
    requires { IsSpelled tree.now }
    ensures program { IfOk result (λ p. Checked tree.now p) }
    ensures nodes { IfOk result (λ p. node_count p.functions ≤ 2 ^ 28) }
    ensures refused { IfErr result (λ refusal. IsRefused tree.now refusal) }
{
    match tree_fault(alloc, tree)? {
        Some(fault) => Err(TextRefusal::Fault(fault)),
        None => {
            let program = lower(alloc, tree)?;
            Ok(program)
        }
    }
}
