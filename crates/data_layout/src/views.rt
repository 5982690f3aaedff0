//! The parts of an address.

ghost use Rattle.std.specs.Prelude.{◌≡◌, ◌/◌, ◌%◌, ◌^◌, ◌<◌, ◌≤◌, ◌≤ℤ◌, pos, IsTrue};
ghost use Rattle.data_layout.specs.Address.{view_of, offset_of, address_at, is_view as is_view_of, is_valid, owner_of};

/// How many words each view has room for.
const VIEW_WORDS: i64 = 1 << 40;

/// The last of the views that are dealt in blocks; view v has blocks of 2^v words.
pub(crate) const LAST_BLOCKS: u32 = 20;
/// The view of which each nodelet has its own copy.
pub(crate) const REPLICATED: u32 = 31;
/// The view of nodelet 0 alone; those of the other nodelets follow.
pub(crate) const FIRST_LOCAL: u32 = 32;

/// Whether `n` nodelets have a word at the address `a`: it is above 0, and its view is one of theirs
/// (docs/machine.md, "Views").
pub fn valid(a: i64, n: u32) -> bool
    requires nodelets { (1 ≤ n) × (n ≤ 64) }
    ensures { result ≡ is_valid a n }
{
    a > 0 && is_view(view(a) as u32, n)
}

/// The view of the address `a`, which is not negative (docs/machine.md, "Views").
pub fn view(a: i64) -> i64
    requires not_negative { pos 0 ≤ℤ a }
    ensures { result ≡ pos (view_of a) }
{
    a / VIEW_WORDS
}

/// The nodelet that owns the word at the address `a`, for a strand at the nodelet `place`
/// (docs/machine.md, "Views").
pub fn owner(a: i64, place: u32, n: u32) -> u32
    requires nodelets { (1 ≤ n) × (n ≤ 64) }
    requires valid { IsTrue (is_valid a n) }
    requires place { place < n }
    ensures owner { result ≡ owner_of a place n }
    ensures nodelet { result < n }
{
    match view(a) as u32 {
        v @ 0..=LAST_BLOCKS => dealt_to(v, offset(a), n),
        REPLICATED => place,
        v => v - FIRST_LOCAL,
    }
}

/// The address at an offset of a view.
pub(crate) fn address(view: u32, offset: u64) -> i64
    requires view { view < 96 }
    requires offset { offset < 2 ^ 40 }
    ensures { result ≡ address_at view offset }
{
    i64::from(view) * VIEW_WORDS + offset as i64
}

/// The offset of an address in its view.
fn offset(a: i64) -> u64
    requires not_negative { pos 0 ≤ℤ a }
    ensures offset { result ≡ offset_of a }
    ensures in_view { result < 2 ^ 40 }
{
    (a % VIEW_WORDS) as u64
}

/// The nodelet to which the word at an offset is dealt, in a view of blocks.
fn dealt_to(view: u32, offset: u64, n: u32) -> u32
    requires nodelets { (1 ≤ n) × (n ≤ 64) }
    requires view { view ≤ 20 }
    ensures nodelet { result ≡ offset / 2 ^ view % n }
    ensures there { result < n }
{
    ((offset >> view) % u64::from(n)) as u32
}

/// Whether a view is one of those of `n` nodelets.
fn is_view(view: u32, n: u32) -> bool
    requires nodelets { (1 ≤ n) × (n ≤ 64) }
    ensures { result ≡ is_view_of view n }
{
    view <= LAST_BLOCKS || view == REPLICATED || (FIRST_LOCAL <= view && view < FIRST_LOCAL + n)
}
