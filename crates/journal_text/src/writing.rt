ghost use Rattle.std.specs.Prelude.{◌≡◌, ◌++◌, OnOk, IfOk, flat_map};
ghost use Rattle.word_ops.specs.Ending.{line};
ghost use Rattle.word_ops.specs.Journal.{count_line, step_line};
ghost use Rattle.journal_text.specs.Journals.{IsJournal, text_of};

use crate::journal::Journal;
use std::alloc::{AllocError, Global};
use word_ops::{List, Step};

/// The bytes of the journal `j` (docs/outputs.md, "Journal").
pub fn write(alloc: Global, j: &Journal) -> Result<List<u8>, AllocError>
    requires { IsJournal j.now }
    ensures { IfOk result (λ bytes. bytes ≡ text_of j.now) }
{
    let mut out = List::new(alloc);
    push_count(alloc, &mut out, "emu-journal", u64::from(j.version))?;
    push_count(alloc, &mut out, "nodelets", u64::from(j.n))?;
    push_count(alloc, &mut out, "turns", j.turns)?;
    push_count(alloc, &mut out, "source", j.text.len() as u64)?;
    push_line(&mut out, j.text.as_slice())?;
    push_count(alloc, &mut out, "steps", j.steps.len() as u64)?;
    push_steps(alloc, &mut out, &j.steps)?;
    push_line(&mut out, b"end")?;
    Ok(out)
}

/// Appends a line of these bytes.
fn push_line(out: &mut List<u8>, text: &[u8]) -> Result<(), AllocError>
    ensures { OnOk result (out.new ≡ out.old ++ line text.now) }
{
    out.extend_from_slice(text)?;
    out.add(b'\n')
}

/// Appends a line of a word and a number.
fn push_count(alloc: Global, out: &mut List<u8>, word: &str, n: u64) -> Result<(), AllocError>
    ensures { OnOk result (out.new ≡ out.old ++ count_line word.now n) }
{
    let text = format!(in alloc; "{word} {n}")?;
    push_line(out, text.as_bytes())
}

/// Appends the lines of the steps.
fn push_steps(alloc: Global, out: &mut List<u8>, steps: &List<Step>) -> Result<(), AllocError>
    ensures { OnOk result (out.new ≡ out.old ++ flat_map step_line steps.now) }
{
    for step in steps.as_slice() {
        push_step(alloc, out, *step)?;
    }
    Ok(())
}

/// Appends the line of a step.
fn push_step(alloc: Global, out: &mut List<u8>, step: Step) -> Result<(), AllocError>
    ensures { OnOk result (out.new ≡ out.old ++ step_line step) }
{
    let text = match step {
        Step::Act { name, child: None } => format!(in alloc; "act {name}")?,
        Step::Act {
            name,
            child: Some(child),
        } => format!(in alloc; "act {name} spawn {child}")?,
        Step::Apply { name, nodelet } => format!(in alloc; "apply {name} {nodelet}")?,
    };
    push_line(out, text.as_bytes())
}
