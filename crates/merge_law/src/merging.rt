ghost use Rattle.std.specs.Prelude.{◌≡◌, List, flat_map, filter_map, IfOk, OnOk};
ghost use Rattle.word_ops.specs.declared.step.Entry.{Entry};
ghost use Rattle.merge_law.specs.Order.{by_key};
ghost use Rattle.merge_law.specs.Merge.{merged, steps_of};

use std::alloc::{AllocError, Global};
use word_ops::{Entry, List, Step};

/// The steps of all entries, ordered by stamp, then nodelet, then place in the part; part `k` is that of
/// nodelet `k` (docs/machine.md, "Merged entries").
pub fn merge(alloc: Global, parts: &List<List<Entry>>) -> Result<List<Step>, AllocError>
    ensures { IfOk result (λ steps. steps ≡ steps_of (merged parts.now)) }
{
    let mut entries = all_entries(alloc, parts)?;
    sort_by_stamp(&mut entries)?;
    let found = steps(alloc, entries.as_slice())?;
    Ok(List::from_vec(found))
}

/// The entries of all parts, one part after the other.
fn all_entries(alloc: Global, parts: &List<List<Entry>>) -> Result<Vec<Entry>, AllocError>
    ensures { IfOk result (λ entries. entries.items ≡ flat_map (λ part. part) parts.now) }
{
    let mut entries = Vec::new(alloc);
    for part in parts.as_slice() {
        entries.extend_from_slice(part.as_slice())?;
    }
    Ok(entries)
}

/// Puts entries into the order of their stamps; those of one stamp keep their order.
fn sort_by_stamp(entries: &mut Vec<Entry>) -> Result<(), AllocError>
    ensures { OnOk result (entries.new.items ≡ by_key (λ (e : Entry). e.stamp) entries.old.items) }
{
    entries.sort_by_key(|e| e.stamp)?;
    Ok(())
}

/// The steps that entries have.
fn steps(alloc: Global, entries: &[Entry]) -> Result<Vec<Step>, AllocError>
    ensures { IfOk result (λ found. found.items ≡ filter_map (λ (e : Entry). e.step) entries.now) }
{
    entries.iter().filter_map(|e| e.step).collect(alloc)
}
