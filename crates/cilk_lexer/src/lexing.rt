ghost use Rattle.std.specs.Prelude.{◌≡◌, ◌≤◌, length, IfOk, IfErr};
ghost use Rattle.cilk_model.specs.Tokens.{Tokens, RefusesTokens};

use crate::pieces::front;
use crate::spots::{START, moved, token};
use cilk_ast::{TextFault, TextRefusal, Token, TokenKind};
use cilk_model::Piece;
use std::alloc::Global;
use word_ops::List;

/// The tokens of `text`, the end of the text last (docs/language.md, "Tokens"). A Fault comes exactly
/// where the text has no tokens, and is its first lexical fault.
pub fn lex(alloc: Global, text: &[u8]) -> Result<List<Token>, TextRefusal>
    requires { length text.now ≤ 1048576 }
    ensures tokens { IfOk result (λ tokens. Tokens text.now tokens) }
    ensures refused { IfErr result (λ refusal. RefusesTokens text.now refusal) }
{
    let mut tokens = List::new(alloc);
    let mut spot = START;
    while spot.at < text.len() {
        let rest = &text[spot.at..];
        match front(spot.fresh, rest) {
            Piece::Skipped(n) => spot = moved(spot, &rest[..n]),
            Piece::Found(kind, n) => {
                tokens.add(token(kind, spot, n))?;
                spot = moved(spot, &rest[..n]);
            }
            Piece::Bad(kind, n) => {
                let pos = moved(spot, &rest[..n]).pos;
                return Err(TextRefusal::Fault(TextFault { pos, kind }));
            }
        }
    }
    tokens.add(token(TokenKind::Finish, spot, 0))?;
    Ok(tokens)
}
