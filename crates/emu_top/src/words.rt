ghost use Rattle.std.specs.Prelude.{◌≡◌, true, IfOk, IfSome, MatchOption, None, Some, map, string_bytes};
ghost use Rattle.emu_words.specs.Asking.{InRange};
ghost use Rattle.emu_top.specs.Words.{is_built as is_built_now, is_built_mode as is_built_mode_now, request_in};

use emu_words::{Asked, Mode, WordsRefusal, read};
use std::alloc::{AllocError, Global};

/// Whether a mode is built so far.
fn is_built_mode(mode: Mode) -> bool
    ensures { result ≡ is_built_mode_now mode }
{
    match mode {
        Mode::Check | Mode::Emit | Mode::Run | Mode::Gen => true,
        Mode::Replay | Mode::Audit | Mode::Exec | Mode::Time | Mode::Upgrade => false,
    }
}

/// Whether it is built so far: these modes, without a journal and without live counters (docs/language.md, "What is
/// built").
fn is_built(asked: &Asked) -> bool
    ensures { result ≡ is_built_now asked.now }
{
    is_built_mode(asked.mode) && !asked.journal && !asked.watch
}

/// What the words ask for, where it is built (docs/outputs.md, "Command line").
pub(crate) fn request(alloc: Global, words: &[String]) -> Result<Option<Asked>, AllocError>
    ensures asked { IfOk result (λ request. MatchOption request (request_in (map string_bytes words.now) ≡ None)
        (λ asked. request_in (map string_bytes words.now) ≡ Some asked)) }
    ensures built { IfOk result (λ request. IfSome request (λ asked. is_built_now asked ≡ true)) }
    ensures range { IfOk result (λ request. IfSome request InRange) }
{
    match read(alloc, words) {
        Ok(asked) => {
            if is_built(&asked) {
                Ok(Some(asked))
            } else {
                Ok(None)
            }
        }
        Err(WordsRefusal::BadWords) => Ok(None),
        Err(WordsRefusal::OutOfMemory) => Err(AllocError),
    }
}
