ghost use Rattle.std.specs.Prelude.{◌≡◌, IfOk, IfErr};
ghost use Rattle.cilk_model.specs.Lexemes.{lexemes_of};
ghost use Rattle.cilk_model.specs.Syntax.{Spelled};
ghost use Rattle.cilk_model.specs.Tokens.{Tokens};
ghost use Rattle.cilk_parser.specs.Refused.{RefusesTree};

use crate::cursor::Cursor;
use crate::levels::shallow_length;
use crate::stop::Stop;
use cilk_ast::{FaultKind, TextFault, TextRefusal, Token, Tree};
use std::alloc::Global;
use word_ops::List;

/// The fault of this kind at a token.
fn refused(token: Token, kind: FaultKind) -> TextRefusal
    ensures { result ≡ TextRefusal.Fault (record { pos = token.pos; kind = kind }) }
{
    TextRefusal::Fault(TextFault {
        pos: token.pos,
        kind,
    })
}

/// The tree that the tokens of `text` spell (docs/language.md, "Grammar"). A Fault comes exactly where
/// they spell none: TooDeep or Unexpected at the first token that is too deep or with which they begin
/// no file, whichever comes first.
pub fn parse(alloc: Global, text: &[u8], tokens: &List<Token>) -> Result<Tree, TextRefusal>
    requires { Tokens text.now tokens.now }
    ensures tree { IfOk result (λ tree. Spelled (lexemes_of text.now tokens.now) tree) }
    ensures refused { IfErr result (λ refusal. RefusesTree (lexemes_of text.now tokens.now) refusal) }
{
    let all = tokens.as_slice();
    let shallow = shallow_length(alloc, text, all)?;
    let mut cursor = Cursor::new(alloc, text, &all[..shallow]);
    match cursor.file() {
        Ok(tree) => Ok(tree),
        Err(Stop::OutOfMemory) => Err(TextRefusal::OutOfMemory),
        Err(Stop::Unexpected) => {
            let left = cursor.len();
            if left == 0 {
                Err(refused(all[shallow], FaultKind::TooDeep))
            } else {
                Err(refused(all[shallow - left], FaultKind::Unexpected))
            }
        }
    }
}
