//! Where a text has come to: its level, its open brackets and the tokens just before (docs/language.md,
//! "Nesting").

ghost use Rattle.std.specs.Prelude.{◌≡◌, ◌≤◌, ◌<◌, ◌∷◌, ◌-◌, ℕ, List, [], Some, None, MatchOption, OnOk, length, map, reverse, take};
ghost use Rattle.cilk_model.specs.Lexemes.{lexeme_of};
ghost use Rattle.cilk_model.specs.Levels.{after, outermost, in_head, among_statements, restored, around, is_declaring as declares, is_bounding as bounds, is_naming as names, ends_cast as casts, opens as opens_bracket, closes as closes_bracket, is_heavy as weighs, adds_one as adds, opened as bracket_opened, closed_level as level_closed, level_after as next_level, one_more as counted_up, counted, brackets_after};
ghost use Rattle.cilk_model.specs.Tests.{starts, is_name as names_something};
ghost use Rattle.cilk_model.specs.Levels.{behind_two};
ghost use Rattle.cilk_parser.specs.NestingOf.{nesting_of, bracket_of, inside_of, bracket_at, kept, kept_inside, kept_brackets, Unmoved};
ghost use Rattle.cilk_parser.specs.Spelled.{is_marked, is_worded};

use crate::lexemes::{is_mark, is_name, is_word};
use crate::signs::is_operator;
use cilk_ast::Token;
use std::alloc::{AllocError, Global};
use word_ops::List;

/// What a bracket is round: statements, a part of the head of a `cilk_for`, or anything else.
#[derive(Clone, Copy, Debug)]
pub enum Inside {
    Statements,
    First,
    Test,
    Step,
    Other,
}

/// An open bracket, and the level before it.
#[derive(Clone, Copy, Debug)]
pub struct Bracket {
    pub outside: u32,
    pub inside: Inside,
}

/// The level, the open brackets, innermost last, and the last two tokens.
#[derive(Drop)]
pub struct Nesting {
    pub level: usize,
    pub brackets: List<Bracket>,
    pub last: Option<Token>,
    pub second_last: Option<Token>,
}

/// The part of a head behind one more `;`.
fn one_more(inside: Inside) -> Inside
    ensures { inside_of result ≡ kept_inside (counted_up (inside_of inside)) }
{
    match inside {
        Inside::First => Inside::Test,
        Inside::Test => Inside::Step,
        other => other,
    }
}

/// The token is an opening bracket.
fn opens(text: &[u8], token: Token) -> bool
    ensures { result ≡ opens_bracket (lexeme_of text.now token) }
{
    is_mark(text, token, b"(") || is_mark(text, token, b"[") || is_mark(text, token, b"{")
}

/// The token is a closing bracket.
fn closes(text: &[u8], token: Token) -> bool
    ensures { result ≡ closes_bracket (lexeme_of text.now token) }
{
    is_mark(text, token, b")") || is_mark(text, token, b"]") || is_mark(text, token, b"}")
}

/// The token is an operator, or the word of a statement that has a part in brackets.
fn is_heavy(text: &[u8], token: Token) -> bool
    ensures { result ≡ weighs (lexeme_of text.now token) }
{
    is_operator(text, token)
        || is_word(text, token, b"if")
        || is_word(text, token, b"while")
        || is_word(text, token, b"for")
        || is_word(text, token, b"cilk_for")
}

impl Nesting {
    /// At the start of a text.
    pub fn new(alloc: Global) -> Nesting
        ensures { (text : List ℕ) → nesting_of text result ≡ outermost }
    {
        Nesting {
            level: 0,
            brackets: List::new(alloc),
            last: None,
            second_last: None,
        }
    }

    /// The innermost open bracket.
    fn innermost(&self) -> Option<Bracket>
        ensures { MatchOption result (reverse self.now.brackets ≡ []) (λ b. reverse self.now.brackets ≡ b ∷ reverse (take (length self.now.brackets - 1) self.now.brackets)) }
    {
        let depth = self.brackets.len();
        if depth == 0 {
            None
        } else {
            Some(*self.brackets.at(depth - 1))
        }
    }

    /// Statements or items stand here.
    fn is_among_statements(&self) -> bool
        ensures { result ≡ among_statements (map bracket_of (reverse self.now.brackets)) }
    {
        match self.innermost() {
            Some(bracket) => match bracket.inside {
                Inside::Statements => true,
                _ => false,
            },
            None => true,
        }
    }

    /// The first part of the head of a `cilk_for` stands here.
    fn is_in_first(&self) -> bool
        ensures { result ≡ in_head 0 (map bracket_of (reverse self.now.brackets)) }
    {
        match self.innermost() {
            Some(bracket) => match bracket.inside {
                Inside::First => true,
                _ => false,
            },
            None => false,
        }
    }

    /// The test in the head of a `cilk_for` stands here.
    fn is_in_test(&self) -> bool
        ensures { result ≡ in_head 1 (map bracket_of (reverse self.now.brackets)) }
    {
        match self.innermost() {
            Some(bracket) => match bracket.inside {
                Inside::Test => true,
                _ => false,
            },
            None => false,
        }
    }

    /// The level before the innermost bracket.
    fn outside(&self) -> usize
        ensures result { result ≡ restored (map bracket_of (reverse self.now.brackets)) }
        ensures small { result < 4294967296 }
    {
        match self.innermost() {
            Some(bracket) => bracket.outside as usize,
            None => 0,
        }
    }

    /// The last token is this mark.
    fn behind_mark(&self, text: &[u8], spelled: &[u8]) -> bool
        ensures { result ≡ starts (is_marked spelled.now) (nesting_of text.now self.now).before }
    {
        match self.last {
            Some(token) => is_mark(text, token, spelled),
            None => false,
        }
    }

    /// The last token is this word.
    fn behind_word(&self, text: &[u8], spelled: &[u8]) -> bool
        ensures { result ≡ starts (is_worded spelled.now) (nesting_of text.now self.now).before }
    {
        match self.last {
            Some(token) => is_word(text, token, spelled),
            None => false,
        }
    }

    /// The last two tokens are this word and this mark.
    fn behind_word_and_mark(&self, text: &[u8], word: &[u8], mark: &[u8]) -> bool
        ensures { result ≡ behind_two (is_marked mark.now) (is_worded word.now) (nesting_of text.now self.now).before }
    {
        match self.last {
            Some(last) => match self.second_last {
                Some(second) => is_mark(text, last, mark) && is_word(text, second, word),
                None => false,
            },
            None => false,
        }
    }

    /// The last two tokens are a `;` and a name.
    fn behind_end_and_name(&self, text: &[u8]) -> bool
        ensures { result ≡ behind_two names_something (is_marked (59 ∷ [])) (nesting_of text.now self.now).before }
    {
        match self.last {
            Some(last) => match self.second_last {
                Some(second) => is_name(text, last) && is_mark(text, second, b";"),
                None => false,
            },
            None => false,
        }
    }

    /// The token is the `*` of a declarator, a result or a cast.
    fn is_declaring(&self, text: &[u8], token: Token) -> bool
        ensures { result ≡ declares (nesting_of text.now self.now) (lexeme_of text.now token) }
    {
        is_mark(text, token, b"*")
            && (self.behind_word(text, b"long") && !self.is_in_first()
                || self.behind_mark(text, b",") && self.is_among_statements())
    }

    /// The token is the `<` of a `cilk_for`.
    fn is_bounding(&self, text: &[u8], token: Token) -> bool
        ensures { result ≡ bounds (nesting_of text.now self.now) (lexeme_of text.now token) }
    {
        is_mark(text, token, b"<") && self.is_in_test() && self.behind_end_and_name(text)
    }

    /// The token is the `&` before the name of a replicated global.
    fn is_naming(&self, text: &[u8], token: Token) -> bool
        ensures { result ≡ names (nesting_of text.now self.now) (lexeme_of text.now token) }
    {
        is_mark(text, token, b"&") && self.behind_word_and_mark(text, b"mw_replicated_init", b"(")
    }

    /// A `)` here is of a cast.
    fn ends_cast(&self, text: &[u8]) -> bool
        ensures { result ≡ casts (nesting_of text.now self.now) }
    {
        self.behind_word(text, b"long") || self.behind_word_and_mark(text, b"long", b"*")
    }

    /// The token adds one to the level.
    fn adds_one(&self, text: &[u8], token: Token) -> bool
        ensures { result ≡ adds (nesting_of text.now self.now) (lexeme_of text.now token) }
    {
        is_heavy(text, token)
            && !(self.is_declaring(text, token)
                || self.is_bounding(text, token)
                || self.is_naming(text, token))
    }

    /// What a bracket that opens here is round.
    fn opened(&self, text: &[u8], token: Token) -> Inside
        ensures { inside_of result ≡ bracket_opened (nesting_of text.now self.now) (lexeme_of text.now token) }
    {
        if is_mark(text, token, b"{") {
            Inside::Statements
        } else if self.behind_word(text, b"cilk_for") {
            Inside::First
        } else {
            Inside::Other
        }
    }

    /// The level behind a closing bracket.
    fn closed_level(&self, text: &[u8], token: Token, else_next: bool) -> usize
        ensures { result ≡ level_closed (nesting_of text.now self.now) (lexeme_of text.now token) else_next }
    {
        if is_mark(text, token, b"}") && !else_next {
            self.brackets.len().saturating_sub(1)
        } else if is_mark(text, token, b")") && self.ends_cast(text) {
            self.outside() + 1
        } else {
            self.outside()
        }
    }

    /// The level behind a token, where an `else` is next or is not.
    fn level_after(&self, text: &[u8], token: Token, else_next: bool) -> usize
        requires { self.now.level ≤ 64 }
        ensures { result ≡ next_level (nesting_of text.now self.now) (lexeme_of text.now token) else_next }
    {
        if opens(text, token) {
            self.level + 1
        } else if closes(text, token) {
            self.closed_level(text, token, else_next)
        } else if is_mark(text, token, b",") || is_mark(text, token, b";") && !else_next {
            self.brackets.len()
        } else if self.adds_one(text, token) {
            self.level + 1
        } else {
            self.level
        }
    }

    /// Counts a `;` in the head of a `cilk_for`.
    fn count_end(&mut self)
        ensures brackets { map bracket_of (reverse self.new.brackets) ≡ kept_brackets (counted (map bracket_of (reverse self.old.brackets))) }
        ensures rest { Unmoved self.new self.old }
    {
        let depth = self.brackets.len();
        if depth == 0 {
            return;
        }
        let bracket = *self.brackets.at(depth - 1);
        let inside = one_more(bracket.inside);
        let outside = bracket.outside;
        let _before = self.brackets.set(depth - 1, Bracket { outside, inside });
    }

    /// Opens a bracket.
    fn open(&mut self, text: &[u8], token: Token) -> Result<(), AllocError>
        requires { self.old.level ≤ 64 }
        ensures brackets { OnOk result (map bracket_of (reverse self.new.brackets) ≡ bracket_at (nesting_of text.now self.old) (lexeme_of text.now token) ∷ map bracket_of (reverse self.old.brackets)) }
        ensures rest { Unmoved self.new self.old }
    {
        let inside = self.opened(text, token);
        let outside = self.level as u32;
        self.brackets.add(Bracket { outside, inside })
    }

    /// Closes the innermost bracket.
    fn close(&mut self)
        ensures brackets { map bracket_of (reverse self.new.brackets) ≡ around (map bracket_of (reverse self.old.brackets)) }
        ensures rest { Unmoved self.new self.old }
    {
        let _innermost = self.brackets.pop();
    }

    /// Opens, closes or counts what the token says of brackets.
    fn pass_bracket(&mut self, text: &[u8], token: Token) -> Result<(), AllocError>
        requires { self.old.level ≤ 64 }
        ensures brackets { OnOk result (map bracket_of (reverse self.new.brackets) ≡ kept_brackets (brackets_after (nesting_of text.now self.old) (lexeme_of text.now token))) }
        ensures rest { Unmoved self.new self.old }
    {
        if opens(text, token) {
            self.open(text, token)
        } else if closes(text, token) {
            self.close();
            Ok(())
        } else if is_mark(text, token, b";") {
            self.count_end();
            Ok(())
        } else {
            Ok(())
        }
    }

    /// Passes a token, with an `else` behind it or not.
    pub fn pass(&mut self, text: &[u8], token: Token, else_next: bool) -> Result<(), AllocError>
        requires { self.old.level ≤ 64 }
        ensures { OnOk result (nesting_of text.now self.new ≡ kept (after (nesting_of text.now self.old) (lexeme_of text.now token) else_next)) }
    {
        let level = self.level_after(text, token, else_next);
        self.pass_bracket(text, token)?;
        self.level = level;
        self.second_last = self.last;
        self.last = Some(token);
        Ok(())
    }
}
