//! The program that a text spells, its canonical text, and its code.

ghost use Rattle.std.specs.Prelude.{◌≡◌, ◌≤◌, ◌^◌, length, IfOk, IfErr};
ghost use Rattle.cilk_ast.specs.Nodes.{node_count};
ghost use Rattle.cilk_model.specs.Texts.{SpellsTree};
ghost use Rattle.cilk_model.specs.Canonical.{canonical_text};
ghost use Rattle.cilk_model.specs.Checked.{Checked};
ghost use Rattle.emu_top.specs.Causes.{RefusesText};
ghost use Rattle.emu_top.specs.Sources.{text_limit};
ghost use Rattle.emu_top.specs.code.Judged.{IsEmitted};

use crate::verdict::Verdict;
use cilk_ast::{Program, TextRefusal, Tree};
use cilk_lexer::lex;
use cilk_parser::parse;
use cilk_print::print;
use cilk_types::check;
use codegen_stmt::compile;
use std::alloc::{AllocError, Global};

/// A tree in which no rule is broken, and the program that it is.
#[derive(Debug, Drop)]
pub(crate) struct Spelled {
    pub tree: Tree,
    pub program: Program,
}

/// The tree and the program that a text spells, or the text's first fault.
pub(crate) fn read(alloc: Global, text: &[u8]) -> Result<Spelled, TextRefusal>
    requires { length text.now ≤ text_limit }
    ensures tree { IfOk result (λ spelled. SpellsTree text.now spelled.tree) }
    ensures program { IfOk result (λ spelled. Checked spelled.tree spelled.program) }
    ensures nodes { IfOk result (λ spelled. node_count spelled.program.functions ≤ 2 ^ 28) }
    ensures refused { IfErr result (RefusesText text.now) }
{
    let tokens = match lex(alloc, text) {
        Ok(tokens) => tokens,
        Err(refusal) => return Err(refusal),
    };
    let tree = match parse(alloc, text, &tokens) {
        Ok(tree) => tree,
        Err(refusal) => return Err(refusal),
    };
    match check(alloc, &tree) {
        Ok(program) => Ok(Spelled { tree, program }),
        Err(refusal) => Err(refusal),
    }
}

/// What a program's tree comes to in a check: its canonical text.
pub(crate) fn printed(alloc: Global, spelled: &Spelled) -> Result<Verdict, AllocError>
    ensures { IfOk result (λ verdict. verdict ≡ Verdict.Printed (canonical_text spelled.now.tree)) }
{
    let text = print(alloc, &spelled.tree)?;
    Ok(Verdict::Printed(text))
}

/// What a program comes to of which the code was asked for.
pub(crate) fn emitted(alloc: Global, spelled: &Spelled) -> Result<Verdict, AllocError>
    requires { node_count spelled.now.program.functions ≤ 2 ^ 28 }
    ensures { IfOk result (IsEmitted spelled.now.program) }
{
    let code = compile(alloc, &spelled.program)?;
    let text = code_text::write(alloc, &code)?;
    Ok(Verdict::Emitted { code, text })
}
