//! Operators and built-in words by their spelling (docs/language.md, "Expressions", "Built-ins").

ghost use Rattle.std.specs.Prelude.{◌≡◌, ◌||◌, map, is_some, MatchOption, Some, None};
ghost use Rattle.cilk_model.specs.Lexemes.{lexeme_of};
ghost use Rattle.cilk_model.specs.Tests.{prefix_of, infix_of as operator_of};
ghost use Rattle.cilk_parser.specs.Kinds.{a_prefix, an_infix, a_builtin};
ghost use Rattle.cilk_parser.specs.Lookup.{meaning_of, is_spelled_in};
ghost use Rattle.cilk_parser.specs.Meanings.{meant_before, meant_between};

use crate::lexemes::{mark_of, word_of};
use cilk_ast::{Builtin, Token};
use word_ops::{BinaryOp, UnaryOp};

/// An operator before its operand.
#[derive(Clone, Copy, Debug)]
pub enum Prefix {
    Unary(UnaryOp),
    Contents,
}

/// An operator between its operands.
#[derive(Clone, Copy, Debug)]
pub enum Infix {
    Either,
    Both,
    Binary(BinaryOp),
}

/// The operators between two operands, each with how loosely it binds.
const INFIXES: [(u32, &[u8], Infix); 18] = [
    (9, b"||", Infix::Either),
    (8, b"&&", Infix::Both),
    (7, b"|", Infix::Binary(BinaryOp::Or)),
    (6, b"^", Infix::Binary(BinaryOp::Xor)),
    (5, b"&", Infix::Binary(BinaryOp::And)),
    (4, b"==", Infix::Binary(BinaryOp::Eq)),
    (4, b"!=", Infix::Binary(BinaryOp::Ne)),
    (3, b"<", Infix::Binary(BinaryOp::Lt)),
    (3, b"<=", Infix::Binary(BinaryOp::Le)),
    (3, b">", Infix::Binary(BinaryOp::Gt)),
    (3, b">=", Infix::Binary(BinaryOp::Ge)),
    (2, b"<<", Infix::Binary(BinaryOp::Shl)),
    (2, b">>", Infix::Binary(BinaryOp::Shr)),
    (1, b"+", Infix::Binary(BinaryOp::Add)),
    (1, b"-", Infix::Binary(BinaryOp::Sub)),
    (0, b"*", Infix::Binary(BinaryOp::Mul)),
    (0, b"/", Infix::Binary(BinaryOp::Div)),
    (0, b"%", Infix::Binary(BinaryOp::Rem)),
];

/// The operators before an operand.
const PREFIXES: [(u32, &[u8], Prefix); 4] = [
    (0, b"-", Prefix::Unary(UnaryOp::Neg)),
    (0, b"!", Prefix::Unary(UnaryOp::Not)),
    (0, b"~", Prefix::Unary(UnaryOp::Flip)),
    (0, b"*", Prefix::Contents),
];

/// All built-in words but `mw_replicated_init`, whose address may be a name.
const BUILTINS: [(u32, &[u8], Builtin); 16] = [
    (0, b"mw_malloc1dlong", Builtin::MwMalloc1dlong),
    (0, b"mw_malloc2dlong", Builtin::MwMalloc2dlong),
    (0, b"mw_localmalloc", Builtin::MwLocalmalloc),
    (0, b"mw_mallocrepl", Builtin::MwMallocrepl),
    (0, b"REMOTE_ADD", Builtin::RemoteAdd),
    (0, b"REMOTE_AND", Builtin::RemoteAnd),
    (0, b"REMOTE_OR", Builtin::RemoteOr),
    (0, b"REMOTE_XOR", Builtin::RemoteXor),
    (0, b"REMOTE_MIN", Builtin::RemoteMin),
    (0, b"REMOTE_MAX", Builtin::RemoteMax),
    (0, b"ATOMIC_ADDMS", Builtin::AtomicAddms),
    (0, b"ATOMIC_SWAP", Builtin::AtomicSwap),
    (0, b"ATOMIC_CAS", Builtin::AtomicCas),
    (0, b"FENCE", Builtin::Fence),
    (0, b"MIGRATE", Builtin::Migrate),
    (0, b"NODE_ID", Builtin::NodeId),
];

/// What the first entry of this class and spelling means.
fn meaning<T: Copy>(table: &[(u32, &[u8], T)], class: u32, spelling: &[u8]) -> Option<T>
    ensures { result ≡ meaning_of class spelling.now (map (λ entry. (entry.0, entry.1.now, entry.2)) table.now) }
{
    for (in_class, spelled, means) in table {
        if *in_class == class && spelling == *spelled {
            return Some(*means);
        }
    }
    None
}

/// An entry has this spelling.
fn spells<T: Copy>(table: &[(u32, &[u8], T)], spelling: &[u8]) -> bool
    ensures { result ≡ is_spelled_in spelling.now (map (λ entry. (entry.0, entry.1.now, entry.2)) table.now) }
{
    for (_, spelled, _) in table {
        if spelling == *spelled {
            return true;
        }
    }
    false
}

/// The operator before an operand that a token is.
pub fn prefix_at(text: &[u8], token: Token) -> Option<Prefix>
    ensures { MatchOption result (a_prefix (lexeme_of text.now token) ≡ None) (λ op. a_prefix (lexeme_of text.now token) ≡ Some (token.pos, meant_before op)) }
{
    match mark_of(text, token) {
        Some(spelling) => meaning(&PREFIXES, 0, spelling),
        None => None,
    }
}

/// The operator between two operands that a token is, if it binds so loosely: from 0
/// for products to 9 for `||`.
pub fn infix_at(looseness: u32, text: &[u8], token: Token) -> Option<Infix>
    ensures { MatchOption result (an_infix looseness (lexeme_of text.now token) ≡ None) (λ op. an_infix looseness (lexeme_of text.now token) ≡ Some (token.pos, meant_between op)) }
{
    match mark_of(text, token) {
        Some(spelling) => meaning(&INFIXES, looseness, spelling),
        None => None,
    }
}

/// The token is an operator, before an operand or between two.
pub fn is_operator(text: &[u8], token: Token) -> bool
    ensures { result ≡ is_some (prefix_of (lexeme_of text.now token)) || is_some (operator_of (lexeme_of text.now token)) }
{
    match mark_of(text, token) {
        Some(spelling) => spells(&PREFIXES, spelling) || spells(&INFIXES, spelling),
        None => false,
    }
}

/// The built-in word that a token is, `mw_replicated_init` aside.
pub fn builtin_at(text: &[u8], token: Token) -> Option<Builtin>
    ensures { MatchOption result (a_builtin (lexeme_of text.now token) ≡ None) (λ which. a_builtin (lexeme_of text.now token) ≡ Some (token.pos, which)) }
{
    match word_of(text, token) {
        Some(spelling) => meaning(&BUILTINS, 0, spelling),
        None => None,
    }
}
