//! Lists that keep their memory for what comes after.

ghost use Rattle.std.specs.Prelude.{◌≡◌, [], OnOk};

use std::alloc::AllocError;
use word_ops::List;

/// Empties a list, which keeps its memory.
pub(crate) fn clear<T: Drop>(list: &mut List<T>)
    ensures { list.new ≡ [] }
{
    let nothing = List::new(list.allocator());
    let mut items = std::mem::replace(list, nothing).into_vec();
    items.clear();
    *list = List::from_vec(items);
}

/// Makes a list a copy of items, in the memory that it has where that is enough.
pub(crate) fn refill<T: Copy + Drop>(list: &mut List<T>, items: &[T]) -> Result<(), AllocError>
    ensures { OnOk result (list.new ≡ items.now) }
{
    clear(list);
    list.extend_from_slice(items)
}
