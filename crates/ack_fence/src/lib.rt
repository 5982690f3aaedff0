//! How many operations of each strand wait for their acknowledgement.
#![tactic(auto)]

ghost use Rattle.std.specs.Prelude.{◌≡◌, ◌≢◌, ◌+◌, ◌-◌, ◌≤◌, ◌↔◌, if◌then◌else◌, IsTrue, OnOk, OnErr, Some};
ghost use Rattle.std.specs.BTreeMap.{get};
ghost use Rattle.word_ops.specs.Naming.{same_name};
ghost use Rattle.word_ops.specs.declared.name.Name.{Name as StrandName};
ghost use Rattle.word_ops.specs.contracts.name.NameOrd.TheImpl.{ghosts as by};

use std::alloc::{AllocError, Global};
use std::collections::BTreeMap;
use word_ops::Name;

/// How many operations of each strand are under way: issued, and not yet acknowledged
/// (docs/machine.md, "Operations"). A strand with none takes no room.
#[derive(Debug, Drop)]
pub struct Counts {
    by_name: BTreeMap<Name, u64>,
    ghost no_zero: { (q : StrandName) → get by.cmp by_name q ≢ Some 0 },
}

impl Counts {
    ghost use Rattle.ack_fence.specs.Counting.{count_of};

    /// No operation is under way. The counts grow on `alloc`.
    pub fn new(alloc: Global) -> Counts
        ensures { (q : StrandName) → count_of result q ≡ 0 }
    {
        Counts {
            by_name: BTreeMap::new(alloc),
        }
    }

    /// One more operation of `name` is under way. Want of memory changes nothing.
    pub fn issue(&mut self, name: Name) -> Result<(), AllocError>
        ensures ok { OnOk result ((q : StrandName) → count_of self.new q ≡ (if same_name q name then count_of self.old q + 1 else count_of self.old q)) }
        ensures err { OnErr result ((q : StrandName) → count_of self.new q ≡ count_of self.old q) }
    {
        self.issue_many(name, 1)
    }

    /// So many operations more of `name` are under way. Want of memory changes nothing.
    pub fn issue_many(&mut self, name: Name, more: u64) -> Result<(), AllocError>
        ensures ok { OnOk result ((q : StrandName) → count_of self.new q ≡ (if same_name q name then count_of self.old q + more else count_of self.old q)) }
        ensures err { OnErr result ((q : StrandName) → count_of self.new q ≡ count_of self.old q) }
    {
        if more == 0 {
            return Ok(());
        }
        let under_way = self.by_name.get(&name).copied().unwrap_or(0);
        // Each operation under way is a packet somewhere, and no memory holds 2^64 of them.
        let Some(all) = under_way.checked_add(more) else {
            return Err(AllocError);
        };
        self.by_name.insert(name, all)?;
        Ok(())
    }

    /// One operation of `name` is acknowledged.
    pub fn ack(&mut self, name: Name)
        requires { 1 ≤ count_of self.old name }
        ensures { (q : StrandName) → count_of self.new q ≡ (if same_name q name then count_of self.old q - 1 else count_of self.old q) }
    {
        if let Some(under_way) = self.by_name.get_mut(&name) {
            if *under_way > 1 {
                *under_way -= 1;
                return;
            }
        }
        self.by_name.remove(&name);
    }

    /// All operations of `name` are acknowledged.
    pub fn is_clear(&self, name: Name) -> bool
        ensures { IsTrue result ↔ (count_of self.now name ≡ 0) }
    {
        !self.by_name.contains_key(&name)
    }
}

#[cfg(test)]
mod tests;
