//! Lists whose length is known.

ghost use Rattle.std.specs.Prelude.{◌≡◌, [], IfOk};

use base_kit::{List, NoMemory};
use std::alloc::Global;

/// An empty list with room for so many items.
pub(crate) fn list_with_room<T: Drop>(alloc: Global, count: usize) -> Result<List<T>, NoMemory>
    ensures { IfOk result (λ list. list ≡ []) }
{
    let items = Vec::with_capacity(alloc, count)?;
    Ok(List::from_vec(items))
}
