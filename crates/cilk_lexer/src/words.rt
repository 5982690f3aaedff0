//! Runs that are words (docs/language.md, "Tokens").

ghost use Rattle.std.specs.Prelude.{◌≡◌, length, map};
ghost use Rattle.cilk_model.specs.Words.{is_one_of as is_word_of, reserved_words, skipped_words, word_piece};

use cilk_ast::TokenKind;
use cilk_model::Piece;

const RESERVED: [&[u8]; 33] = [
    b"long",
    b"int",
    b"void",
    b"replicated",
    b"if",
    b"else",
    b"while",
    b"for",
    b"break",
    b"continue",
    b"return",
    b"cilk_spawn",
    b"cilk_spawn_at",
    b"cilk_sync",
    b"cilk_for",
    b"printf",
    b"mw_malloc1dlong",
    b"mw_malloc2dlong",
    b"mw_localmalloc",
    b"mw_mallocrepl",
    b"mw_replicated_init",
    b"REMOTE_ADD",
    b"REMOTE_AND",
    b"REMOTE_OR",
    b"REMOTE_XOR",
    b"REMOTE_MIN",
    b"REMOTE_MAX",
    b"ATOMIC_ADDMS",
    b"ATOMIC_SWAP",
    b"ATOMIC_CAS",
    b"FENCE",
    b"MIGRATE",
    b"NODE_ID",
];

const SKIPPED: [&[u8]; 4] = [b"volatile", b"const", b"static", b"inline"];

/// The run is one of the words.
fn is_one_of(words: &[&[u8]], run: &[u8]) -> bool
    ensures { result ≡ is_word_of (map (λ word. word.now) words.now) run.now }
{
    for word in words {
        if run == *word {
            return true;
        }
    }
    false
}

/// The run is a reserved word, which is no name.
fn is_reserved(run: &[u8]) -> bool
    ensures { result ≡ is_word_of reserved_words run.now }
{
    is_one_of(&RESERVED, run)
}

/// The run is a word that is skipped as a blank is.
fn is_skipped(run: &[u8]) -> bool
    ensures { result ≡ is_word_of skipped_words run.now }
{
    is_one_of(&SKIPPED, run)
}

/// What a run that begins with a letter or `_` is.
pub fn word(run: &[u8]) -> Piece
    ensures { result ≡ word_piece run.now }
{
    if is_skipped(run) {
        Piece::Skipped(run.len())
    } else if is_reserved(run) {
        Piece::Found(TokenKind::Word, run.len())
    } else {
        Piece::Found(TokenKind::Name, run.len())
    }
}
