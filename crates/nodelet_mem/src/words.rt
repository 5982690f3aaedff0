//! The words of one nodelet, and its grants.

ghost use Rattle.std.specs.Prelude.{◌≡◌, ◌≢◌, ◌≤◌, ℤ, pos, ◌+ℤ◌, false, ◌||◌, if◌then◌else◌, IfOk, OnOk, OnErr};
ghost use Rattle.word_ops.specs.Operators.{same_word};
ghost use Rattle.nodelet_mem.specs.Grants.{is_within};
ghost use Rattle.nodelet_mem.specs.Listing.{AreWords};
ghost use Rattle.nodelet_mem.specs.Words.{word_of, is_granted, grant_room};

use super::grants::Grants;
use super::pages::Pages;
use std::alloc::{AllocError, Global};
use word_ops::List;

/// The words that one nodelet has, by address, and the addresses that were granted there. Each word is 0 until
/// another is stored (docs/machine.md, "Words").
#[derive(Debug, Drop)]
pub struct Words {
    pages: Pages,
    grants: Grants,
}

impl Words {
    /// Words that are all 0, with no grants; they grow on `alloc`.
    pub fn new(alloc: Global) -> Words
        ensures words { (a : ℤ) → word_of result a ≡ pos 0 }
        ensures grants { (a : ℤ) → is_granted result a ≡ false }
    {
        Words {
            pages: Pages::new(alloc),
            grants: Grants::new(alloc),
        }
    }

    /// The word at an address.
    pub fn load(&self, a: i64) -> i64
        ensures { result ≡ word_of self.now a }
    {
        self.pages.load(a)
    }

    /// Puts `w` at an address. Want of memory changes nothing, and comes only where a word that is 0 is to be
    /// another.
    pub fn store(&mut self, a: i64, w: i64) -> Result<(), AllocError>
        ensures word { OnOk result ((b : ℤ) → word_of self.new b ≡ (if same_word b a then w else word_of self.old b)) }
        ensures grants { (b : ℤ) → is_granted self.new b ≡ is_granted self.old b }
        ensures err { OnErr result (self.new ≡ self.old) }
        ensures full { OnErr result ((word_of self.old a ≡ pos 0) × (w ≢ pos 0)) }
    {
        self.pages.store(a, w)
    }

    /// The words that are not 0, each behind its address; the addresses ascend.
    pub fn listed(&self) -> Result<List<(i64, i64)>, AllocError>
        ensures { IfOk result (AreWords (word_of self.now)) }
    {
        self.pages.listed()
    }

    /// Grants the `count` addresses from `first` on, which may pass the greatest one. Want of memory changes
    /// nothing, and comes only where there is no room for a grant.
    pub fn grant(&mut self, first: i64, count: u64) -> Result<(), AllocError>
        ensures granted { OnOk result ((a : ℤ) → is_granted self.new a ≡ (is_granted self.old a || is_within first (first +ℤ pos count) a)) }
        ensures words { (a : ℤ) → word_of self.new a ≡ word_of self.old a }
        ensures err { OnErr result (self.new ≡ self.old) }
        ensures full { OnErr result (grant_room self.old ≡ 0) }
    {
        self.grants.add(first, count)
    }

    /// Makes room for one grant, which then takes no memory. Want of memory changes nothing.
    pub fn reserve_grant(&mut self) -> Result<(), AllocError>
        ensures room { OnOk result (1 ≤ grant_room self.new) }
        ensures words { (a : ℤ) → word_of self.new a ≡ word_of self.old a }
        ensures grants { (a : ℤ) → is_granted self.new a ≡ is_granted self.old a }
        ensures err { OnErr result (self.new ≡ self.old) }
    {
        self.grants.reserve()
    }

    /// Whether an address is in a grant.
    pub fn granted(&self, a: i64) -> bool
        ensures { result ≡ is_granted self.now a }
    {
        self.grants.contains(a)
    }
}
