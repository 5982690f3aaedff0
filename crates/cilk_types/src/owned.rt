//! Values on the heap.

ghost use Rattle.std.specs.Prelude.{◌≡◌, [], ◌∷◌, IfOk};

use std::alloc::{AllocError, Global};
use word_ops::{Box, List};

/// A value on the heap.
pub fn boxed<T: Drop>(alloc: Global, value: T) -> Result<Box<T>, AllocError>
    ensures { IfOk result (λ b. b ≡ value) }
{
    let boxed = Box::new(alloc, value)?;
    Ok(boxed)
}

/// Two values in a list.
pub fn pair<T: Drop>(alloc: Global, first: T, second: T) -> Result<List<T>, AllocError>
    ensures { IfOk result (λ both. both ≡ first ∷ second ∷ []) }
{
    let mut both = List::new(alloc);
    both.add(first)?;
    both.add(second)?;
    Ok(both)
}

/// A copy of bytes.
pub fn copied(alloc: Global, bytes: &[u8]) -> Result<List<u8>, AllocError>
    ensures { IfOk result (λ copy. copy ≡ bytes.now) }
{
    let mut copy = List::new(alloc);
    copy.extend_from_slice(bytes)?;
    Ok(copy)
}
