//! How many words an instruction takes off the stack.

ghost use Rattle.std.specs.Prelude.{◌≡◌, Some, count_by};
ghost use Rattle.threadlet_code.specs.Operands.{operands, own_operands};
ghost use Rattle.threadlet_state.specs.Answered.{NamesWhatIsThere, is_word};
ghost use Rattle.word_ops.specs.Formats.{words_in};

use threadlet_code::{AllocCode, Code, Instr};
use word_ops::{Format, Part};

/// How many words an instruction takes off the stack, where the function and the format that it names are there
/// (docs/machine.md, "Code"). Takes no memory.
pub fn operand_count(code: &Code, instr: Instr) -> usize
    requires { NamesWhatIsThere code.now instr }
    ensures { operands code.now instr ≡ Some result }
{
    match instr {
        Instr::Call(function) => code.functions.at(function as usize).params as usize,
        Instr::Spawn {
            function,
            hinted,
            ..
        } => {
            let params = code.functions.at(function as usize).params as usize;
            if hinted { params + 1 } else { params }
        }
        Instr::Print(format) => word_count(code.formats.at(format as usize)),
        instr => own_count(instr),
    }
}

/// The same of one that names neither.
fn own_count(instr: Instr) -> usize
    ensures { result ≡ own_operands instr }
{
    match instr {
        Instr::Set(_) | Instr::Pop | Instr::Dup | Instr::Un(_) => 1,
        Instr::JumpZero(_) | Instr::Return | Instr::Load | Instr::Move => 1,
        Instr::Bin(_) | Instr::Post(_) | Instr::FetchAdd | Instr::FetchSwap | Instr::Init => 2,
        Instr::FetchCas => 3,
        Instr::Alloc(AllocCode::Striped | AllocCode::Replicated) => 1,
        Instr::Alloc(AllocCode::Blocked | AllocCode::Local) => 2,
        _ => 0,
    }
}

/// How many words a format prints.
fn word_count(format: &Format) -> usize
    ensures { result ≡ words_in format.now }
{
    count_words(format.as_slice())
}

/// How many parts of a format print a word.
fn count_words(format: &[Part]) -> usize
    ensures { result ≡ count_by is_word format.now }
{
    format
        .iter()
        .filter(|part| matches!(part, Part::Long))
        .count()
}
