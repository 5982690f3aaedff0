//! The cursors from which views are allocated.

ghost use Rattle.std.specs.Prelude.{◌≡◌, ℕ, ◌+◌, ◌*◌, ◌^◌, ◌<◌, ◌≤◌, IsTrue};
ghost use Rattle.data_layout.specs.Address.{is_view};
ghost use Rattle.data_layout.specs.Cursor.{first_cursor, fits_view, cursor_after, allocated_at, cursors_after, IsLeastMultiple};
ghost use Rattle.data_layout.specs.CursorTable.{cursor_of};

use super::views::{FIRST_LOCAL, LAST_BLOCKS, REPLICATED, address};
use std::marker::Model;

/// One more than the last view of 64 nodelets. The numbers under it that are no view have a cursor that stays.
const VIEWS: usize = 96;

/// Every allocated word has an offset under this one.
const END: u64 = 1 << 32;

/// For each view the offset at which its next allocation starts (docs/machine.md, "Allocation").
#[derive(Debug, Drop)]
pub struct Cursors {
    nodelets: u32,
    by_view: [u64; VIEWS],
}

impl Model for Cursors {
    ghost use Rattle.std.specs.Prelude.{◌≤◌};
    ghost use Rattle.data_layout.specs.CursorTable.{CursorTable};

    ghost Value = { CursorTable };

    ghost view = { λ c. record { nodelets = c.nodelets; by_view = c.by_view } };

    ghost invariant = { λ c. (1 ≤ c.nodelets) × (c.nodelets ≤ 64) };
}

impl Cursors {
    /// The cursors of `n` nodelets before any allocation, where `globals` words of plain globals stand at
    /// nodelet 0 and `replicated` words of replicated ones at each (docs/machine.md, "Allocation").
    pub fn new(n: u32, globals: u32, replicated: u32) -> Cursors
        requires nodelets { (1 ≤ n) × (n ≤ 64) }
        ensures nodelets { result.nodelets ≡ n }
        ensures cursors { (v : ℕ) → cursor_of result v ≡ first_cursor n globals replicated v }
    {
        let mut by_view = [0; VIEWS];
        for (view, cursor) in by_view.iter_mut().enumerate() {
            *cursor = first(view as u32, n, globals, replicated);
        }
        Cursors {
            nodelets: n,
            by_view,
        }
    }

    /// Allocates `count` words from a view. The answer is the address of the first, or 0 where none is asked
    /// for or the view has no room, and then no cursor moves (docs/machine.md, "Allocation").
    pub fn alloc_view(&mut self, view: u32, count: i64) -> i64
        requires { IsTrue (is_view view self.old.nodelets) }
        ensures address { result ≡ allocated_at (cursor_of self.old) view count }
        ensures cursors { (v : ℕ) →
            cursor_of self.new v ≡ cursors_after self.old.nodelets (cursor_of self.old) view count v }
        ensures nodelets { self.new.nodelets ≡ self.old.nodelets }
    {
        let cursor = self.by_view[view as usize];
        if !fits(cursor, count) {
            return 0;
        }
        self.by_view[view as usize] = after(view, self.nodelets, cursor, count as u64);
        address(view, cursor)
    }
}

/// The cursor of a view before any allocation.
fn first(view: u32, n: u32, globals: u32, replicated: u32) -> u64
    requires nodelets { (1 ≤ n) × (n ≤ 64) }
    ensures { result ≡ first_cursor n globals replicated view }
{
    match view {
        0..=LAST_BLOCKS => row(view, n),
        REPLICATED => u64::from(replicated),
        FIRST_LOCAL => u64::from(globals),
        _ => 0,
    }
}

/// Whether a view has room for `count` words from `cursor` on, and there is one at all.
fn fits(cursor: u64, count: i64) -> bool
    ensures { result ≡ fits_view cursor count }
{
    count >= 1 && cursor <= END && count as u64 <= END - cursor
}

/// The cursor of a view behind `count` words from `cursor` on.
fn after(view: u32, n: u32, cursor: u64, count: u64) -> u64
    requires nodelets { (1 ≤ n) × (n ≤ 64) }
    requires fits { cursor + count ≤ 2 ^ 32 }
    ensures cursor { result ≡ cursor_after view n cursor count }
    ensures row { view ≤ 20 → IsLeastMultiple (n * 2 ^ view) (cursor + count) result }
{
    let behind = cursor + count;
    if view <= LAST_BLOCKS {
        behind.next_multiple_of(row(view, n))
    } else {
        behind
    }
}

/// The words of a row: one block of a view at each of `n` nodelets.
#[tactic(auto, using(crate::proofs::RowBound::row_bound))]
fn row(view: u32, n: u32) -> u64
    requires nodelets { (1 ≤ n) × (n ≤ 64) }
    requires view { view ≤ 20 }
    ensures words { result ≡ n * 2 ^ view }
    ensures some { 0 < result }
    ensures few { result ≤ 2 ^ 26 }
{
    u64::from(n) << view
}
