//! The nesting levels of tokens (docs/language.md, "Nesting").

ghost use Rattle.std.specs.Prelude.{◌≡◌, ◌≤◌, IfOk, length, drop};
ghost use Rattle.cilk_model.specs.Lexemes.{lexemes_of};
ghost use Rattle.cilk_model.specs.Levels.{deep_part};
ghost use Rattle.cilk_parser.specs.NestingOf.{else_behind};

use crate::lexemes::is_word;
use crate::nesting::Nesting;
use cilk_ast::Token;
use std::alloc::{AllocError, Global};

/// The greatest level that a token may have.
const LIMIT: usize = 64;

/// An `else` stands behind the first `n` tokens.
fn is_else_behind(text: &[u8], tokens: &[Token], n: usize) -> bool
    ensures { result ≡ else_behind text.now tokens.now n }
{
    n < tokens.len() && is_word(text, tokens[n], b"else")
}

/// How many tokens stand before the first one that is too deep; all of them where none is.
pub fn shallow_length(alloc: Global, text: &[u8], tokens: &[Token]) -> Result<usize, AllocError>
    ensures within { IfOk result (λ n. n ≤ length tokens.now) }
    ensures rest { IfOk result (λ n. drop n (lexemes_of text.now tokens.now) ≡ deep_part (lexemes_of text.now tokens.now)) }
{
    let mut here = Nesting::new(alloc);
    let mut at = 0;
    'tokens: while at < tokens.len() {
        let else_next = is_else_behind(text, tokens, at + 1);
        here.pass(text, tokens[at], else_next)?;
        if here.level > LIMIT {
            return Ok(at);
        }
        at += 1;
    }
    Ok(at)
}
