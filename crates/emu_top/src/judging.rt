//! What the words and the source come to.

ghost use Rattle.std.specs.Prelude.{◌≡◌, ◌≤◌, ◌^◌, ◌≢◌, ℕ, List as Seq, true, length, IfOk, map, string_bytes};
ghost use Rattle.cilk_ast.specs.Nodes.{node_count};
ghost use Rattle.cilk_model.specs.Texts.{SpellsTree};
ghost use Rattle.cilk_model.specs.Checked.{Checked};
ghost use Rattle.emu_words.specs.Asking.{InRange};
ghost use Rattle.emu_words.specs.declared.asked.Mode.TheVariants.{Gen};
ghost use Rattle.emu_top.specs.Words.{is_built};
ghost use Rattle.emu_top.specs.Sources.{text_limit};
ghost use Rattle.emu_top.specs.Causes.{HasCause, JudgesText};

use crate::checking::{Spelled, emitted, printed, read};
use crate::running::run;
use crate::sources::source_text;
use crate::verdict::Verdict;
use crate::words::request;
use cilk_ast::TextRefusal;
use emu_io::{ReadRefusal, Source};
use emu_words::{Asked, Mode};
use std::alloc::{AllocError, Global};
use word_ops::List;

/// What a program comes to, as the words ask for it: in a check its canonical text, else its code or its run.
fn judge_program(alloc: Global, asked: &Asked, spelled: &Spelled) -> Result<Verdict, AllocError>
    requires built { is_built asked.now ≡ true }
    requires read { asked.now.mode ≢ Gen }
    requires range { InRange asked.now }
    requires program { Checked spelled.now.tree spelled.now.program }
    requires nodes { node_count spelled.now.program.functions ≤ 2 ^ 28 }
    ensures { (text : Seq ℕ) → SpellsTree text spelled.now.tree → IfOk result (JudgesText asked.now text) }
{
    match asked.mode {
        Mode::Check => printed(alloc, spelled),
        Mode::Emit => emitted(alloc, spelled),
        _ => run(alloc, asked, &spelled.program),
    }
}

/// What a text comes to, as the words ask for it.
fn judge_text(alloc: Global, asked: &Asked, text: List<u8>) -> Result<Verdict, AllocError>
    requires built { is_built asked.now ≡ true }
    requires range { InRange asked.now }
    requires short { length text ≤ text_limit }
    ensures { IfOk result (JudgesText asked.now text) }
{
    if asked.mode == Mode::Gen {
        return Ok(Verdict::Printed(text));
    }
    match read(alloc, text.as_slice()) {
        Ok(spelled) => judge_program(alloc, asked, &spelled),
        Err(TextRefusal::Fault(fault)) => Ok(Verdict::Refused(fault)),
        Err(TextRefusal::OutOfMemory) => Err(AllocError),
    }
}

/// What the words and the source come to.
pub(crate) fn judge<S: Source>(
    alloc: Global,
    words: &[String],
    source: &mut S,
) -> Result<Verdict, AllocError>
    ensures { IfOk result (HasCause (map string_bytes words.now) (S.faults source.old) (S.faults source.new) (S.left source.old) (S.left source.new)) }
{
    match request(alloc, words)? {
        None => Ok(Verdict::BadWords),
        Some(asked) => match source_text(alloc, &asked, source) {
            Ok(text) => judge_text(alloc, &asked, text),
            Err(ReadRefusal::Fault) => Ok(Verdict::Unread),
            Err(ReadRefusal::TooLong) => Ok(Verdict::TooLong),
            Err(ReadRefusal::OutOfMemory) => Err(AllocError),
        },
    }
}
