ghost use Rattle.std.specs.Prelude.{◌≡◌, IfOk, if◌then◌else◌};
ghost use Rattle.emu_top.specs.Verdicts.{end_status as end_status_of, status_of, text_of, ran_of, fault_of, code_of};

use crate::ended::{Ended, SourceFault};
use crate::texts::fault;
use cilk_ast::TextFault;
use std::alloc::{AllocError, Global};
use threadlet_code::Verified;
use traffic_report::Ran;
use word_ops::{End, List};

/// What a call comes to before anything is written.
#[derive(Debug, Drop)]
pub enum Verdict {
    /// The words ask for nothing.
    BadWords,
    /// The source failed.
    Unread,
    /// The source gave more than a text can have.
    TooLong,
    /// The text is refused.
    Refused(TextFault),
    /// The text is a program: its canonical text; or it was made, and is this.
    Printed(List<u8>),
    /// The text is a program: its code, and the text of that.
    Emitted {
        code: Verified,
        text: List<u8>,
    },
    /// The text was run: its code, the run, and what is written of it.
    HasRun {
        code: Verified,
        ran: Ran,
        text: List<u8>,
    },
}

fn copied(alloc: Global, bytes: &[u8]) -> Result<List<u8>, AllocError>
    ensures { IfOk result (λ text. text ≡ bytes.now) }
{
    let mut text = List::new(alloc);
    text.extend_from_slice(bytes)?;
    Ok(text)
}

/// The bytes that are to be written.
pub(crate) fn text(alloc: Global, verdict: &Verdict) -> Result<List<u8>, AllocError>
    ensures { IfOk result (λ text. text ≡ text_of verdict.now) }
{
    match verdict {
        Verdict::BadWords => copied(alloc, b"fault: words\n"),
        Verdict::Unread => copied(alloc, b"fault: read\n"),
        Verdict::TooLong => copied(alloc, b"fault: too long\n"),
        Verdict::Refused(text_fault) => fault(alloc, *text_fault),
        Verdict::Printed(canonical) => copied(alloc, canonical.as_slice()),
        Verdict::Emitted { text, .. } => copied(alloc, text.as_slice()),
        Verdict::HasRun { text, .. } => copied(alloc, text.as_slice()),
    }
}

fn end_status(end: End) -> u8
    ensures { result ≡ end_status_of end }
{
    match end {
        End::Done { .. } => 0,
        End::Trap { .. } => 3,
        End::Spent { .. } => 4,
    }
}

/// What a call came to, where its bytes were written whole or not.
pub(crate) fn ended(verdict: Verdict, whole: bool) -> Ended
    ensures status { result.status ≡ (if whole then status_of verdict else 6) }
    ensures ran { result.ran ≡ ran_of verdict }
    ensures fault { result.fault ≡ fault_of verdict }
    ensures code { result.code ≡ code_of verdict }
{
    let (status, ran, fault, code) = match verdict {
        Verdict::BadWords => (2, None, None, None),
        Verdict::Unread => (5, None, None, None),
        Verdict::TooLong => (1, None, Some(SourceFault::TooLong), None),
        Verdict::Refused(text_fault) => (1, None, Some(SourceFault::Text(text_fault)), None),
        Verdict::Printed(_text) => (0, None, None, None),
        Verdict::Emitted { code, text: _text } => (0, None, None, Some(code)),
        Verdict::HasRun {
            code,
            ran,
            text: _text,
        } => (end_status(ran.end), Some(ran), None, Some(code)),
    };
    let status = if whole { status } else { 6 };
    Ended {
        status,
        ran,
        fault,
        code,
    }
}
