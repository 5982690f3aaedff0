ghost use Rattle.std.specs.Prelude.{◌≡◌, IfOk};
ghost use Rattle.word_ops.specs.Ending.{ending_line, trap_text, cause_text};
ghost use Rattle.word_ops.specs.Report.{words_text as text_of_words};

use std::alloc::{AllocError, Global};
use std::fmt::Write;
use word_ops::{Cell, End, List, SpentCause, TrapKind};

/// The words that a run left (docs/outputs.md, "Words").
pub fn words_text(alloc: Global, cells: &List<Cell>) -> Result<List<u8>, AllocError>
    ensures { IfOk result (λ text. text ≡ text_of_words cells.now) }
{
    let mut out = String::new(alloc);
    out.push_str("words\n")?;
    for cell in cells.as_slice() {
        writeln!(out, "{} {} {}", cell.nodelet, cell.address, cell.word)?;
    }
    Ok(List::from_vec(out.into_bytes()))
}

/// The line that says how a run ended (docs/outputs.md, "Ending").
pub fn ending_text(alloc: Global, end: End) -> Result<List<u8>, AllocError>
    ensures { IfOk result (λ text. text ≡ ending_line end) }
{
    let text = match end {
        End::Done { value } => format!(in alloc; "end: done {value}\n")?,
        End::Trap { kind, pos, name } => {
            let kind = trap_name(kind);
            format!(in alloc;
                "end: trap {kind} {}:{} strand {name}\n",
                pos.line, pos.column
            )?
        }
        End::Spent { nodelet, cause } => {
            let cause = cause_name(cause);
            format!(in alloc; "end: spent {cause} at nodelet {nodelet}\n")?
        }
    };
    Ok(List::from_vec(text.into_bytes()))
}

fn trap_name(kind: TrapKind) -> &'static str
    ensures { result.now ≡ trap_text kind }
{
    match kind {
        TrapKind::Divide => "Divide",
        TrapKind::BadAddress => "BadAddress",
        TrapKind::Depth => "Depth",
        TrapKind::OutOfBounds => "OutOfBounds",
    }
}

fn cause_name(cause: SpentCause) -> &'static str
    ensures { result.now ≡ cause_text cause }
{
    match cause {
        SpentCause::Turns => "turns",
        SpentCause::Stamps => "stamps",
    }
}
