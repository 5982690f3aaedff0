//! Words by address, kept in pages.

ghost use Rattle.std.specs.Prelude.{◌≡◌, ◌≢◌, ℤ, pos, ◌<◌, if◌then◌else◌, None, IfOk, OnOk, OnErr};
ghost use Rattle.word_ops.specs.Operators.{same_word};
ghost use Rattle.nodelet_mem.specs.Listing.{AreWords};
ghost use Rattle.nodelet_mem.specs.Pages.{word_at, page_of, place_of, page_numbered, IsPageNumber};

use super::page::{Page, WORDS};
use std::alloc::{AllocError, Global};
use std::collections::BTreeMap;
use std::marker::Model;
use word_ops::List;

/// The words of all addresses: those of a page that is not kept are 0.
#[derive(Debug, Drop)]
pub struct Pages {
    alloc: Global,
    by_number: BTreeMap<i64, Page>,
}

impl Model for Pages {
    ghost use Rattle.std.specs.Prelude.{List, ℤ};

    ghost Value = { List (ℤ × List ℤ) };

    ghost use Rattle.nodelet_mem.specs.Pages.{ArePages};

    ghost view = { λ p. p.by_number.entries };

    ghost invariant = { λ p. ArePages p.by_number.entries };
}

impl Pages {
    /// Pages whose words are all 0, which grow on `alloc`.
    pub fn new(alloc: Global) -> Pages
        ensures { (a : ℤ) → word_at result a ≡ pos 0 }
    {
        Pages {
            alloc,
            by_number: BTreeMap::new(alloc),
        }
    }

    /// The word at `address`.
    pub fn load(&self, address: i64) -> i64
        ensures { result ≡ word_at self.now address }
    {
        match self.by_number.get(&page_of(address)) {
            Some(page) => page.word(place_of(address)),
            None => 0,
        }
    }

    /// Puts `word` at `address`. Want of memory changes nothing, and comes only where a word that is 0 is to be
    /// another.
    pub fn store(&mut self, address: i64, word: i64) -> Result<(), AllocError>
        ensures ok { OnOk result ((a : ℤ) → word_at self.new a ≡ (if same_word a address then word else word_at self.old a)) }
        ensures err { OnErr result (self.new ≡ self.old) }
        ensures full { OnErr result ((word_at self.old address ≡ pos 0) × (word ≢ pos 0)) }
    {
        match self.by_number.get_mut(&page_of(address)) {
            Some(page) => {
                page.set(place_of(address), word);
                Ok(())
            }
            None => self.store_apart(address, word),
        }
    }

    /// The words that are not 0, each behind its address; the addresses ascend.
    pub fn listed(&self) -> Result<List<(i64, i64)>, AllocError>
        ensures { IfOk result (AreWords (word_at self.now)) }
    {
        let mut found = Vec::new(self.alloc);
        for (number, page) in self.by_number.iter() {
            page.list(*number * WORDS as i64, &mut found)?;
        }
        Ok(List::from_vec(found))
    }

    /// Puts `word` at an address whose page is not kept yet; a 0 stands there already.
    fn store_apart(&mut self, address: i64, word: i64) -> Result<(), AllocError>
        requires none { page_numbered self.old (page_of address) ≡ None }
        ensures ok { OnOk result ((a : ℤ) → word_at self.new a ≡ (if same_word a address then word else word_at self.old a)) }
        ensures err { OnErr result (self.new ≡ self.old) }
        ensures full { OnErr result (word ≢ pos 0) }
    {
        if word == 0 {
            return Ok(());
        }
        let mut page = Page::blank(self.alloc)?;
        page.set(place_of(address), word);
        self.by_number.insert(page_of(address), page)?;
        Ok(())
    }
}

/// The number of the page with `address`.
fn page_of(address: i64) -> i64
    ensures number { result ≡ page_of address }
    ensures range { IsPageNumber result }
{
    address.div_euclid(WORDS as i64)
}

/// The place of `address` in its page.
fn place_of(address: i64) -> usize
    ensures place { result ≡ place_of address }
    ensures bound { result < 512 }
{
    address.rem_euclid(WORDS as i64) as usize
}
