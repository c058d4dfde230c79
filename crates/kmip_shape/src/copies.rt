//! Copies of lists whose items are `Copy`.

ghost use Rattle.std.specs.Prelude.{◌≡◌, IfOk};

use kmip_wire::{List, OutOfMemory};
use std::alloc::Global;

/// A copy of a list whose items are `Copy`.
pub fn copy_list<T: Copy + Drop>(list: &List<T>, alloc: Global) -> Result<List<T>, OutOfMemory>
    ensures { IfOk result (λ made. made ≡ list.now) }
{
    let items = list.as_slice();
    let mut made = Vec::new(alloc);
    for item in items {
        made.push(*item)?;
    }
    Ok(List::of_vec(made))
}

/// A copy of such a list, or none where there is none.
pub fn copy_optional_list<T: Copy + Drop>(
    list: &Option<List<T>>,
    alloc: Global,
) -> Result<Option<List<T>>, OutOfMemory>
    ensures { IfOk result (λ made. made ≡ list.now) }
{
    match list {
        Some(list) => Ok(Some(copy_list(list, alloc)?)),
        None => Ok(None),
    }
}
