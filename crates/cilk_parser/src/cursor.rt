//! The tokens that are still to be read, and the ways to take them.

ghost use Rattle.std.specs.Prelude.{◌≡◌, ◌≤◌, ◌<◌, length, List, [], IfOk, IfErr, OnOk, MatchOption, Some, None, option_and_then};
ghost use Rattle.cilk_model.specs.Lexemes.{Lexeme, lexemes_of};
ghost use Rattle.cilk_model.specs.Tests.{starts, is_name as names, is_finish as finishes};
ghost use Rattle.cilk_parser.specs.Parsers.{seen, behind, take};
ghost use Rattle.cilk_parser.specs.Kinds.{a_name, a_literal, a_text, a_finish, a_prefix, an_infix, a_builtin};
ghost use Rattle.cilk_parser.specs.Gives.{Gives, left_behind, OnSome};
ghost use Rattle.cilk_parser.specs.Meanings.{meant_before, meant_between};
ghost use Rattle.cilk_parser.specs.Spelled.{number_node, is_marked, is_worded, a_marked, a_worded};

use crate::lexemes::{is_finish, is_mark, is_name, is_word, literal_of, name_of, text_of};
use crate::signs::{Infix, Prefix, builtin_at, infix_at, prefix_at};
use crate::stop::Stop;
use cilk_ast::{Builtin, TExpr, Token};
use std::alloc::Global;
use std::marker::Model;
use word_ops::{Box, List, Pos};

/// The tokens that are still to be read. Contracts see what they say.
#[derive(Drop)]
pub struct Cursor<'a> {
    alloc: Global,
    text: &'a [u8],
    rest: &'a [Token],
}

impl<'a> Model for Cursor<'a> {
    ghost Value = { List Lexeme };

    ghost view = { λ cursor. lexemes_of cursor.text.now cursor.rest.now };
}

impl<'a> Cursor<'a> {
    /// All of the tokens, which are the text's.
    pub fn new(alloc: Global, text: &'a [u8], tokens: &'a [Token]) -> Cursor<'a>
        ensures { result ≡ lexemes_of text.now tokens.now }
    {
        Cursor {
            alloc,
            text,
            rest: tokens,
        }
    }

    /// How many tokens are left.
    pub fn len(&self) -> usize
        ensures { result ≡ length self.now }
    {
        self.rest.len()
    }

    /// An empty list.
    pub fn list<T>(&self) -> List<T>
        ensures { result ≡ [] }
    {
        List::new(self.alloc)
    }

    /// `part`, on the heap.
    pub fn boxed<T: Drop>(&self, part: T) -> Result<Box<T>, Stop>
        ensures ok { IfOk result (λ boxed. boxed ≡ part) }
        ensures err { IfErr result (λ stop. stop ≡ Stop.OutOfMemory) }
    {
        let boxed = Box::new(self.alloc, part)?;
        Ok(boxed)
    }

    /// The bytes, on the heap.
    fn copied(&self, bytes: &[u8]) -> Result<List<u8>, Stop>
        ensures ok { IfOk result (λ copy. copy ≡ bytes.now) }
        ensures err { IfErr result (λ stop. stop ≡ Stop.OutOfMemory) }
    {
        let mut copy = List::new(self.alloc);
        copy.extend_from_slice(bytes)?;
        Ok(copy)
    }

    /// The next token is this mark.
    pub fn at_mark(&self, spelled: &[u8]) -> bool
        ensures { result ≡ starts (is_marked spelled.now) self.now }
    {
        match self.rest {
            [token, ..] => is_mark(self.text, *token, spelled),
            [] => false,
        }
    }

    /// The next token is this word.
    pub fn at_word(&self, spelled: &[u8]) -> bool
        ensures { result ≡ starts (is_worded spelled.now) self.now }
    {
        match self.rest {
            [token, ..] => is_word(self.text, *token, spelled),
            [] => false,
        }
    }

    /// The next token is a name.
    pub fn at_name(&self) -> bool
        ensures { result ≡ starts (names) self.now }
    {
        match self.rest {
            [token, ..] => is_name(self.text, *token),
            [] => false,
        }
    }

    /// The next token is the end of the text.
    pub fn at_finish(&self) -> bool
        ensures { result ≡ starts (finishes) self.now }
    {
        match self.rest {
            [token, ..] => is_finish(self.text, *token),
            [] => false,
        }
    }

    /// Takes this mark, if it is next.
    pub fn mark(&mut self, spelled: &[u8]) -> Option<Pos>
        ensures found { MatchOption result (seen (a_marked spelled.now) self.old ≡ None) (λ it. seen (a_marked spelled.now) self.old ≡ Some it) }
        ensures left { self.new ≡ left_behind result self.old }
        ensures shrinks { length self.new ≤ length self.old }
        ensures strict { OnSome result (length self.new < length self.old) }
    {
        match self.rest {
            [token, rest @ ..] if is_mark(self.text, *token, spelled) => {
                self.rest = rest;
                Some(token.pos)
            }
            _ => None,
        }
    }

    /// Takes this word, if it is next.
    pub fn word(&mut self, spelled: &[u8]) -> Option<Pos>
        ensures found { MatchOption result (seen (a_worded spelled.now) self.old ≡ None) (λ it. seen (a_worded spelled.now) self.old ≡ Some it) }
        ensures left { self.new ≡ left_behind result self.old }
        ensures shrinks { length self.new ≤ length self.old }
        ensures strict { OnSome result (length self.new < length self.old) }
    {
        match self.rest {
            [token, rest @ ..] if is_word(self.text, *token, spelled) => {
                self.rest = rest;
                Some(token.pos)
            }
            _ => None,
        }
    }

    /// Takes the end of the text, if it is next.
    pub fn finish(&mut self) -> Option<Pos>
        ensures found { MatchOption result (seen (a_finish) self.old ≡ None) (λ it. seen (a_finish) self.old ≡ Some it) }
        ensures left { self.new ≡ left_behind result self.old }
        ensures shrinks { length self.new ≤ length self.old }
        ensures strict { OnSome result (length self.new < length self.old) }
    {
        match self.rest {
            [token, rest @ ..] if is_finish(self.text, *token) => {
                self.rest = rest;
                Some(token.pos)
            }
            _ => None,
        }
    }

    /// Takes this mark.
    pub fn take_mark(&mut self, spelled: &[u8]) -> Result<Pos, Stop>
        ensures reads { Gives result self.new (take (a_marked spelled.now) self.old) }
        ensures shrinks { length self.new ≤ length self.old }
        ensures strict { OnOk result (length self.new < length self.old) }
    {
        match self.mark(spelled) {
            Some(pos) => Ok(pos),
            None => Err(Stop::Unexpected),
        }
    }

    /// Takes this word.
    pub fn take_word(&mut self, spelled: &[u8]) -> Result<Pos, Stop>
        ensures reads { Gives result self.new (take (a_worded spelled.now) self.old) }
        ensures shrinks { length self.new ≤ length self.old }
        ensures strict { OnOk result (length self.new < length self.old) }
    {
        match self.word(spelled) {
            Some(pos) => Ok(pos),
            None => Err(Stop::Unexpected),
        }
    }

    /// Takes the end of the text.
    pub fn take_finish(&mut self) -> Result<Pos, Stop>
        ensures reads { Gives result self.new (take (a_finish) self.old) }
        ensures shrinks { length self.new ≤ length self.old }
        ensures strict { OnOk result (length self.new < length self.old) }
    {
        match self.finish() {
            Some(pos) => Ok(pos),
            None => Err(Stop::Unexpected),
        }
    }

    /// Takes a name.
    pub fn take_name(&mut self) -> Result<(Pos, List<u8>), Stop>
        ensures reads { Gives result self.new (take (a_name) self.old) }
        ensures shrinks { length self.new ≤ length self.old }
        ensures strict { OnOk result (length self.new < length self.old) }
    {
        match self.rest {
            [token, rest @ ..] => match name_of(self.text, *token) {
                Some(bytes) => {
                    let copy = self.copied(bytes)?;
                    self.rest = rest;
                    Ok((token.pos, copy))
                }
                None => Err(Stop::Unexpected),
            },
            [] => Err(Stop::Unexpected),
        }
    }

    /// Takes a text literal: the bytes between its quotes.
    pub fn take_text(&mut self) -> Result<(Pos, List<u8>), Stop>
        ensures reads { Gives result self.new (take (a_text) self.old) }
        ensures shrinks { length self.new ≤ length self.old }
        ensures strict { OnOk result (length self.new < length self.old) }
    {
        match self.rest {
            [token, rest @ ..] => match text_of(self.text, *token) {
                Some(bytes) => {
                    let copy = self.copied(bytes)?;
                    self.rest = rest;
                    Ok((token.pos, copy))
                }
                None => Err(Stop::Unexpected),
            },
            [] => Err(Stop::Unexpected),
        }
    }

    /// Takes a literal, if one is next: the node that it is.
    pub fn number(&mut self) -> Option<TExpr>
        ensures found { MatchOption result (seen a_literal self.old ≡ None) (λ it. option_and_then number_node (seen a_literal self.old) ≡ Some it) }
        ensures left { self.new ≡ left_behind result self.old }
        ensures shrinks { length self.new ≤ length self.old }
        ensures strict { OnSome result (length self.new < length self.old) }
    {
        match self.rest {
            [token, rest @ ..] => match literal_of(self.text, *token) {
                Some(value) => {
                    self.rest = rest;
                    Some(TExpr::Number {
                        pos: token.pos,
                        value,
                    })
                }
                None => None,
            },
            [] => None,
        }
    }

    /// Takes a built-in word other than `mw_replicated_init`, if one is next.
    pub fn builtin(&mut self) -> Option<(Pos, Builtin)>
        ensures found { MatchOption result (seen (a_builtin) self.old ≡ None) (λ it. seen (a_builtin) self.old ≡ Some it) }
        ensures left { self.new ≡ left_behind result self.old }
        ensures shrinks { length self.new ≤ length self.old }
        ensures strict { OnSome result (length self.new < length self.old) }
    {
        match self.rest {
            [token, rest @ ..] => match builtin_at(self.text, *token) {
                Some(which) => {
                    self.rest = rest;
                    Some((token.pos, which))
                }
                None => None,
            },
            [] => None,
        }
    }

    /// Takes an operator before an operand, if one is next.
    pub fn prefix(&mut self) -> Option<(Pos, Prefix)>
        ensures found { MatchOption result (seen a_prefix self.old ≡ None) (λ it. seen a_prefix self.old ≡ Some (it.0, meant_before it.1)) }
        ensures left { self.new ≡ left_behind result self.old }
        ensures shrinks { length self.new ≤ length self.old }
        ensures strict { OnSome result (length self.new < length self.old) }
    {
        match self.rest {
            [token, rest @ ..] => match prefix_at(self.text, *token) {
                Some(op) => {
                    self.rest = rest;
                    Some((token.pos, op))
                }
                None => None,
            },
            [] => None,
        }
    }

    /// Takes an operator between operands that binds so loosely, if one is next.
    pub fn infix(&mut self, looseness: u32) -> Option<(Pos, Infix)>
        ensures found { MatchOption result (seen (an_infix looseness) self.old ≡ None) (λ it. seen (an_infix looseness) self.old ≡ Some (it.0, meant_between it.1)) }
        ensures left { self.new ≡ left_behind result self.old }
        ensures shrinks { length self.new ≤ length self.old }
        ensures strict { OnSome result (length self.new < length self.old) }
    {
        match self.rest {
            [token, rest @ ..] => match infix_at(looseness, self.text, *token) {
                Some(op) => {
                    self.rest = rest;
                    Some((token.pos, op))
                }
                None => None,
            },
            [] => None,
        }
    }
}
