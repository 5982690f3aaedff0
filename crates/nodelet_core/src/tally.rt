ghost use Rattle.std.specs.Prelude.{◌≡◌, ℕ, ◌+◌, ◌<◌, ◌^◌, length, slice_index, slice_set, IfOk};
ghost use Rattle.nodelet_core.specs.code.Tallied.{IsBlank};

use std::alloc::{AllocError, Global};
use word_ops::List;

/// In the steps done at a nodelet, by the other nodelet: the moves from there to here, and the births, posts
/// and dones from here to there. Each list has a number for each nodelet (docs/machine.md, "Traffic").
#[derive(Debug, Drop)]
pub struct Tally {
    pub moves: List<u64>,
    pub births: List<u64>,
    pub posts: List<u64>,
    pub dones: List<u64>,
}

impl Tally {
    /// Nothing is counted, of `n` nodelets.
    pub(crate) fn new(alloc: Global, n: u32) -> Result<Tally, AllocError>
        ensures { IfOk result (IsBlank n) }
    {
        Ok(Tally {
            moves: zeros(alloc, n)?,
            births: zeros(alloc, n)?,
            posts: zeros(alloc, n)?,
            dones: zeros(alloc, n)?,
        })
    }
}

/// A 0 for each of `n` nodelets.
fn zeros(alloc: Global, n: u32) -> Result<List<u64>, AllocError>
    ensures zero { IfOk result (λ counts. (k : ℕ) → slice_index counts k ≡ 0) }
    ensures size { IfOk result (λ counts. length counts ≡ n) }
{
    Ok(List::from_vec(vec![in alloc; 0; n as usize]?))
}

/// One more at number `k`.
pub(crate) fn count_one(counts: &mut List<u64>, k: u32)
    requires there { k < length counts.old }
    requires room { slice_index counts.old k + 1 < 2 ^ 64 }
    ensures { counts.new ≡ slice_set counts.old k (slice_index counts.old k + 1) }
{
    let count = *counts.at(k as usize);
    let _ = counts.set(k as usize, count + 1);
}
