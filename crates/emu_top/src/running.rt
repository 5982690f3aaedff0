//! The run of a program, and what is written of it.

ghost use Rattle.std.specs.Prelude.{◌≡◌, ◌++◌, ◌≤◌, ◌^◌, true, IfOk, OnOk};
ghost use Rattle.std.specs.List.{concat};
ghost use Rattle.word_ops.specs.Ending.{ending_line};
ghost use Rattle.cilk_ast.specs.Nodes.{node_count};
ghost use Rattle.word_ops.specs.Report.{words_text as words_of, report_of};
ghost use Rattle.cilk_model.specs.Written.{results_text, when};
ghost use Rattle.emu_words.specs.Asking.{InRange};
ghost use Rattle.emu_top.specs.Runs.{asked_wanted};
ghost use Rattle.emu_top.specs.Words.{is_built};
ghost use Rattle.emu_top.specs.code.Judged.{HasRunOf, HasEachCount};

use crate::verdict::Verdict;
use cilk_ast::Program;
use codegen_stmt::compile;
use emu_words::Asked;
use serial_sim::run_serial;
use std::alloc::{AllocError, Global};
use traffic_report::{Ran, ending_text, report_text, words_text};
use word_ops::{End, List, Rules};

/// What a program comes to of which a run was asked for: its code, the run, and what is written of that.
pub(crate) fn run(alloc: Global, asked: &Asked, program: &Program) -> Result<Verdict, AllocError>
    requires built { is_built asked.now ≡ true }
    requires range { InRange asked.now }
    requires nodes { node_count program.now.functions ≤ 2 ^ 28 }
    ensures { IfOk result (HasRunOf asked.now program.now) }
{
    let code = compile(alloc, program)?;
    let seed = asked.serial.unwrap_or(0);
    let ran = run_serial(alloc, &code, asked.n, asked.turns, seed, Rules::Checked)?;
    let text = written(alloc, asked, &ran)?;
    Ok(Verdict::HasRun { code, ran, text })
}

/// What is written of a run: its output, its ending and, after one that is done, the words and the report that the
/// words ask for.
fn written(alloc: Global, asked: &Asked, ran: &Ran) -> Result<List<u8>, AllocError>
    requires { HasEachCount ran.now.traffic }
    ensures { IfOk result (λ text. text ≡ concat ran.now.out ++ ending_line ran.now.end ++ results_text (asked_wanted asked.now) ran.now.cells ran.now.traffic ran.now.end) }
{
    let mut text = joined(alloc, ran.out.as_slice())?;
    let last = ending_text(alloc, ran.end)?;
    text.extend_from_slice(last.as_slice())?;
    match ran.end {
        End::Done { .. } => add_results(alloc, asked, ran, &mut text)?,
        End::Trap { .. } | End::Spent { .. } => {}
    }
    Ok(text)
}

/// All pieces, one after the other.
fn joined(alloc: Global, pieces: &[List<u8>]) -> Result<List<u8>, AllocError>
    ensures { IfOk result (λ text. text ≡ concat pieces.now) }
{
    let mut text = List::new(alloc);
    for piece in pieces {
        text.extend_from_slice(piece.as_slice())?;
    }
    Ok(text)
}

/// Adds the words and the report of a run that is done, where they are asked for.
fn add_results(
    alloc: Global,
    asked: &Asked,
    ran: &Ran,
    text: &mut List<u8>,
) -> Result<(), AllocError>
    requires { HasEachCount ran.now.traffic }
    ensures { OnOk result (text.new ≡ text.old ++ (when asked.now.memory (words_of ran.now.cells) ++ when asked.now.report (report_of ran.now.traffic))) }
{
    if asked.memory {
        let words = words_text(alloc, &ran.cells)?;
        text.extend_from_slice(words.as_slice())?;
    }
    if asked.report {
        let report = report_text(alloc, &ran.traffic)?;
        text.extend_from_slice(report.as_slice())?;
    }
    Ok(())
}
