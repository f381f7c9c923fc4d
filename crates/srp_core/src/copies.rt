//! Copies of what a problem is made of.

ghost use Rattle.std.specs.Prelude.{◌≡◌, IfOk};

use crate::route::Act;
use base_kit::{List, NoMemory, Text};
use std::alloc::Global;

/// The same acts.
///
/// # Errors
/// Out of memory.
pub fn acts_copy(alloc: Global, acts: &[Act]) -> Result<List<Act>, NoMemory>
    ensures { IfOk result (λ copies. copies ≡ acts.now) }
{
    let mut copies = List::new(alloc);
    for act in acts {
        copies.push(act.copy(alloc)?)?;
    }
    Ok(copies)
}

/// The same names.
///
/// # Errors
/// Out of memory.
pub fn names_copy(alloc: Global, names: &[Text]) -> Result<List<Text>, NoMemory>
    ensures { IfOk result (λ copies. copies ≡ names.now) }
{
    let mut copies = List::new(alloc);
    for name in names {
        copies.push(Text::copy_of(alloc, name.as_str())?)?;
    }
    Ok(copies)
}
