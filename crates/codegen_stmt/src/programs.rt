ghost use Rattle.std.specs.Prelude.{◌≡◌, ◌≤◌, ◌^◌, IfOk, IsTrue};
ghost use Rattle.std.specs.List.{All, list_all};
ghost use Rattle.word_ops.specs.Formats.{is_printable};
ghost use Rattle.cilk_ast.specs.Nodes.{node_count};
ghost use Rattle.codegen_expr.specs.Implements.{Implements};
ghost use Rattle.codegen_stmt.specs.Heights.{IsNarrow};
ghost use Rattle.codegen_stmt.specs.Prints.{prints_in_functions};
ghost use Rattle.codegen_stmt.specs.Whole.{code_of};

use crate::functions::function;
use cilk_ast::Program;
use std::alloc::{AllocError, Global};
use threadlet_code::{Code, Verified, VerifyRefusal, verify};
use word_ops::List;

/// Compiles a program: the code implements it, with no more slots and no higher stacks than it needs, and has
/// the formats of its prints and no others, whose bytes are newline and 0x20 to 0x7E (docs/machine.md, "Code").
/// Only want of memory is refused.
pub fn compile(alloc: Global, program: &Program) -> Result<Verified, AllocError>
    requires { node_count program.now.functions ≤ 2 ^ 28 }
    ensures implements { IfOk result (λ verified. Implements verified.code program.now) }
    ensures narrow { IfOk result (λ verified. IsNarrow verified.code program.now) }
    ensures printable { IfOk result (λ verified. All (λ format. IsTrue (list_all is_printable format)) verified.code.formats) }
    ensures formats { IfOk result (λ verified. verified.code.formats ≡ prints_in_functions program.now.functions) }
{
    let code = write(alloc, program)?;
    match verify(alloc, code) {
        Ok(verified) => Ok(verified),
        Err(VerifyRefusal::OutOfMemory { .. }) => Err(AllocError),
        Err(VerifyRefusal::Bad { .. }) => unreachable!(),
    }
}

/// The code of a program, not verified yet.
fn write(alloc: Global, program: &Program) -> Result<Code, AllocError>
    requires { node_count program.now.functions ≤ 2 ^ 28 }
    ensures { IfOk result (λ code. code ≡ code_of program.now) }
{
    let mut functions = List::new(alloc);
    let mut formats = List::new(alloc);
    for i in 0..program.functions.len() {
        let written = function(alloc, i as u32, program.functions.at(i), formats)?;
        functions.add(written.code)?;
        formats = written.formats;
    }
    Ok(Code {
        functions,
        main: program.main,
        formats,
        globals: program.globals,
        replicated: program.replicated,
    })
}
