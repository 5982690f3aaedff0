//! The grants of a nodelet: which addresses were given out.

ghost use Rattle.std.specs.Prelude.{◌≡◌, ℕ, ℤ, pos, true, false, ◌||◌, ◌+ℤ◌, ◌≤ℤ◌, ◌<ℤ◌, ◌+◌, ◌-◌, ◌<◌, ◌≤◌, vec_len, vec_capacity, length, slice_index_or, OnOk, OnErr};
ghost use Rattle.std.specs.List.{insert};
ghost use Rattle.nodelet_mem.specs.Grants.{is_within, is_granted_by, run_up_to, AreOrdered, IsPlace, AreRaised, EndsInOrder};
ghost use Rattle.nodelet_mem.specs.declared.grants.Run.{Run as GrantRun};

use std::alloc::{AllocError, Global};
use std::marker::Model;

/// The addresses from `first` up to the one before `end`.
#[derive(Clone, Copy, Debug)]
struct Run {
    first: i64,
    end: i128,
}

impl Run {
    fn contains(&self, address: i64) -> bool
        ensures { result ≡ is_within self.now.first self.now.end address }
    {
        self.first <= address && i128::from(address) < self.end
    }

    /// This run, up to `end` where it is shorter.
    fn up_to(self, end: i128) -> Run
        ensures { result ≡ run_up_to self end }
    {
        Run {
            first: self.first,
            end: self.end.max(end),
        }
    }
}

/// Runs that together have the granted addresses, by their first ones; no run ends before an earlier one. A
/// grant that touches a run makes it longer, so that allocations in a row are one run.
#[derive(Debug, Drop)]
pub struct Grants {
    runs: Vec<Run>,
}

impl Model for Grants {
    ghost use Rattle.std.specs.Prelude.{◌-◌, vec_len, vec_capacity};
    ghost use Rattle.nodelet_mem.specs.GrantsState.{GrantsState};
    ghost use Rattle.nodelet_mem.specs.Grants.{AreOrdered};

    ghost Value = { GrantsState };

    ghost view = { λ g. record { runs = g.runs.items; spare = vec_capacity g.runs - vec_len g.runs } };

    ghost invariant = { λ g. AreOrdered g.runs.items };
}

impl Grants {
    /// No grants; they grow on `alloc`.
    pub fn new(alloc: Global) -> Grants
        ensures { (a : ℤ) → is_granted_by result.runs a ≡ false }
    {
        Grants {
            runs: Vec::new(alloc),
        }
    }

    /// Adds the `count` addresses from `first` on. Want of memory changes nothing.
    pub fn add(&mut self, first: i64, count: u64) -> Result<(), AllocError>
        ensures ok { OnOk result ((a : ℤ) → is_granted_by self.new.runs a ≡ (is_granted_by self.old.runs a || is_within first (first +ℤ pos count) a)) }
        ensures err { OnErr result (self.new ≡ self.old) }
        ensures full { OnErr result (self.old.spare ≡ 0) }
    {
        let end = i128::from(first) + i128::from(count);
        let place = place_of(&self.runs, first);
        if is_touched(&self.runs, place, first) {
            raise(&mut self.runs, place - 1, end);
            return Ok(());
        }
        self.runs.reserve(1)?;
        put(&mut self.runs, place, Run { first, end });
        raise(&mut self.runs, place + 1, end);
        Ok(())
    }

    /// Makes room for one more run. Want of memory changes nothing.
    pub fn reserve(&mut self) -> Result<(), AllocError>
        ensures runs { self.new.runs ≡ self.old.runs }
        ensures room { OnOk result (1 ≤ self.new.spare) }
        ensures err { OnErr result (self.new ≡ self.old) }
    {
        self.runs.reserve(1)
    }

    /// Whether `address` was granted.
    pub fn contains(&self, address: i64) -> bool
        ensures { result ≡ is_granted_by self.now.runs address }
    {
        let place = place_of(&self.runs, address);
        place > 0 && self.runs[place - 1].contains(address)
    }
}

/// How many runs begin at `address` or before it.
fn place_of(runs: &[Run], address: i64) -> usize
    requires { AreOrdered runs.now }
    ensures { IsPlace runs.now address result }
{
    let mut low = 0;
    let mut high = runs.len();
    while low < high {
        let middle = low + (high - low) / 2;
        if runs[middle].first <= address {
            low = middle + 1;
        } else {
            high = middle;
        }
    }
    low
}

/// Whether the run before a place is continued or overlapped by one that begins at `first`.
fn is_touched(runs: &[Run], place: usize, first: i64) -> bool
    requires within { place ≤ length runs.now }
    requires ordered { AreOrdered runs.now }
    ensures yes { result ≡ true → (0 < place) × ((d : GrantRun) → first ≤ℤ (slice_index_or runs.now (place - 1) d).end) }
    ensures no { result ≡ false → (k : ℕ) (d : GrantRun) → k < place → (slice_index_or runs.now k d).end <ℤ first }
{
    place > 0 && i128::from(first) <= runs[place - 1].end
}

/// Puts a run at a place, for which there is room.
fn put(runs: &mut Vec<Run>, place: usize, run: Run)
    requires place { place ≤ vec_len runs.old }
    requires room { vec_len runs.old < vec_capacity runs.old }
    ensures items { runs.new.items ≡ insert runs.old.items place run }
{
    match runs.insert(place, run) {
        Ok(()) => {}
        Err(_) => unreachable!(),
    }
}

/// Makes the runs from `from` on longer, up to `end`; those behind one that ends there or later do too.
fn raise(runs: &mut Vec<Run>, from: usize, end: i128)
    requires { EndsInOrder runs.old.items from }
    ensures { AreRaised runs.old.items from end runs.new.items }
{
    for i in from..runs.len() {
        if end <= runs[i].end {
            return;
        }
        runs[i] = runs[i].up_to(end);
    }
}
