//! Code with no more slots and no higher stacks than its program needs (docs/machine.md, "Compiled code").
#![tactic(auto)]

#[cfg(test)]
mod tests;

ghost use Rattle.std.specs.Prelude.{◌≡◌, ◌≤◌, ◌^◌, All, Contains, IfOk};
ghost use Rattle.cilk_ast.specs.Nodes.{node_count};
ghost use Rattle.codegen_expr.specs.Implements.{Implements};
ghost use Rattle.codegen_stmt.specs.Heights.{IsNarrow};
ghost use Rattle.codegen_stmt.specs.Prints.{prints_in_functions};

use cilk_ast::Program;
use codegen_stmt::compile;
use std::alloc::{AllocError, Global};
use threadlet_code::Verified;

/// Narrow code of the program that `code` implements: it implements the program too, with no more slots and no
/// higher stacks than that needs. It has the formats of the program's prints and no others, so that they are
/// among those of `code` wherever `code` has the prints' formats (docs/machine.md, "Compiled code"). Only want
/// of memory is refused.
pub fn narrow(alloc: Global, program: &Program, code: &Verified) -> Result<Verified, AllocError>
    requires implements { Implements code.now.code program.now }
    requires nodes { node_count program.now.functions ≤ 2 ^ 28 }
    ensures implements { IfOk result (λ narrowed. Implements narrowed.code program.now) }
    ensures narrow { IfOk result (λ narrowed. IsNarrow narrowed.code program.now) }
    ensures formats { IfOk result (λ narrowed. narrowed.code.formats ≡ prints_in_functions program.now.functions) }
    ensures among { IfOk result (λ narrowed. All (Contains code.now.code.formats) (prints_in_functions program.now.functions) → All (Contains code.now.code.formats) narrowed.code.formats) }
{
    compile(alloc, program)
}
