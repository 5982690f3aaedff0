ghost use Rattle.std.specs.Prelude.{◌≡◌, ◌++◌, IfOk, OnOk};
ghost use Rattle.word_ops.specs.Ending.{place_text};
ghost use Rattle.cilk_model.specs.Faults.{fault_name, fault_line};

use cilk_ast::{FaultKind, TextFault};
use std::alloc::{AllocError, Global};
use word_ops::{List, Pos, push_decimal};

/// Appends line and column with a colon between them.
fn push_place(text: &mut List<u8>, pos: Pos) -> Result<(), AllocError>
    ensures { OnOk result (text.new ≡ text.old ++ place_text pos) }
{
    push_decimal(text, i64::from(pos.line))?;
    text.add(b':')?;
    push_decimal(text, i64::from(pos.column))?;
    Ok(())
}

fn kind_name(kind: FaultKind) -> &'static [u8]
    ensures { result.now ≡ fault_name kind }
{
    match kind {
        FaultKind::BadByte => b"BadByte",
        FaultKind::BadLiteral => b"BadLiteral",
        FaultKind::OpenComment => b"OpenComment",
        FaultKind::OpenText => b"OpenText",
        FaultKind::TooDeep => b"TooDeep",
        FaultKind::Unexpected => b"Unexpected",
        FaultKind::Unknown => b"Unknown",
        FaultKind::Twice => b"Twice",
        FaultKind::WrongType => b"WrongType",
        FaultKind::WrongCount => b"WrongCount",
        FaultKind::NotAPlace => b"NotAPlace",
        FaultKind::BadFormat => b"BadFormat",
        FaultKind::AssignsOuter => b"AssignsOuter",
        FaultKind::Escapes => b"Escapes",
        FaultKind::TooMany => b"TooMany",
        FaultKind::NoMain => b"NoMain",
    }
}

/// The line of a text's fault.
pub(crate) fn fault(alloc: Global, fault: TextFault) -> Result<List<u8>, AllocError>
    ensures { IfOk result (λ text. text ≡ fault_line fault) }
{
    let mut text = List::new(alloc);
    text.extend_from_slice(b"fault: ")?;
    push_place(&mut text, fault.pos)?;
    text.add(b' ')?;
    text.extend_from_slice(kind_name(fault.kind))?;
    text.add(b'\n')?;
    Ok(text)
}
