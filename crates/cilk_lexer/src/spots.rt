//! Spots in a text: where the walk stands (docs/language.md, "Tokens").

ghost use Rattle.std.specs.Prelude.{◌≡◌, ◌<◌, ◌≤◌, ◌+◌, ◌^◌, length};
ghost use Rattle.cilk_model.specs.Tokens.{first_spot, next_spot, moved as spot_behind, token as token_at};

use crate::bytes::is_space;
use cilk_ast::{Token, TokenKind};
use cilk_model::Spot;
use word_ops::Pos;

/// The start of a text.
pub const START: Spot = Spot {
    at: 0,
    pos: Pos { line: 1, column: 1 },
    fresh: true,
};

/// The spot behind a byte.
fn next(spot: Spot, byte: u8) -> Spot
    requires at { spot.at + 1 < 2 ^ 64 }
    requires pos { (spot.pos.line + 1 < 2 ^ 32) × (spot.pos.column + 1 < 2 ^ 32) }
    ensures { result ≡ next_spot spot byte }
{
    let Spot { at, pos, fresh } = spot;
    let pos = if byte == b'\n' {
        Pos {
            line: pos.line + 1,
            column: 1,
        }
    } else {
        Pos {
            line: pos.line,
            column: pos.column + 1,
        }
    };
    Spot {
        at: at + 1,
        pos,
        fresh: byte == b'\n' || (fresh && is_space(byte)),
    }
}

/// The spot behind some bytes.
pub fn moved(spot: Spot, bytes: &[u8]) -> Spot
    requires at { spot.at + length bytes.now < 2 ^ 64 }
    requires pos { spot.pos.line + spot.pos.column + length bytes.now < 2 ^ 32 }
    requires column { 1 ≤ spot.pos.column }
    ensures { result ≡ spot_behind spot bytes.now }
{
    let mut spot = spot;
    for byte in bytes {
        spot = next(spot, *byte);
    }
    spot
}

/// A token of `n` bytes at a spot.
pub fn token(kind: TokenKind, spot: Spot, n: usize) -> Token
    requires { spot.at + n < 2 ^ 64 }
    ensures { result ≡ token_at kind spot n }
{
    Token {
        kind,
        start: spot.at,
        stop: spot.at + n,
        pos: spot.pos,
    }
}
