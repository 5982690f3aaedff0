//! One page of words.

ghost use Rattle.std.specs.Prelude.{◌≡◌, ℕ, ℤ, pos, ◌<◌, ◌^◌, ◌+ℤ◌, ◌≤ℤ◌, ◌++◌, IfOk, OnOk, length, slice_set, slice_index_or};
ghost use Rattle.nodelet_mem.specs.Listing.{words_from};

use std::alloc::{AllocError, Global};
use std::boxed::Box;
use std::marker::Model;

/// How many words a page has.
pub const WORDS: usize = 512;

/// 512 words at successive addresses.
#[derive(Debug, Drop)]
pub struct Page {
    words: Box<[i64; WORDS]>,
}

impl Model for Page {
    ghost use Rattle.std.specs.Prelude.{◌≡◌, List, ℤ, length};

    ghost Value = { List ℤ };

    ghost view = { λ p. p.words.value };

    ghost invariant = { λ p. length p.words.value ≡ 512 };
}

impl Page {
    /// A page of words that are 0.
    pub fn blank(alloc: Global) -> Result<Page, AllocError>
        ensures words { IfOk result (λ p. (i : ℕ) → slice_index_or p i (pos 0) ≡ pos 0) }
        ensures size { IfOk result (λ p. length p ≡ 512) }
    {
        Ok(Page {
            words: Box::new(alloc, [0; WORDS])?,
        })
    }

    /// Word `i`, from 0.
    pub fn word(&self, i: usize) -> i64
        requires { i < 512 }
        ensures { result ≡ slice_index_or self.now i (pos 0) }
    {
        self.words[i]
    }

    /// Puts `word` in the place of word `i`.
    pub fn set(&mut self, i: usize, word: i64)
        requires { i < 512 }
        ensures words { self.new ≡ slice_set self.old i word }
        ensures size { length self.new ≡ 512 }
    {
        self.words[i] = word;
    }

    /// Puts the words that are not 0 behind `found`, where the page begins at the address `first`.
    pub fn list(&self, first: i64, found: &mut Vec<(i64, i64)>) -> Result<(), AllocError>
        requires { (first +ℤ pos 512) ≤ℤ pos (2 ^ 63) }
        ensures { OnOk result (found.new.items ≡ found.old.items ++ words_from first self.now) }
    {
        for (i, word) in self.words.iter().enumerate() {
            if *word != 0 {
                found.push((first + i as i64, *word))?;
            }
        }
        Ok(())
    }
}
