//! A value put last, if there is one.

ghost use Rattle.std.specs.Prelude.{◌≡◌, ◌++◌, OnOk, option_to_list};

use base_kit::NoMemory;

/// Puts the item last, if there is one.
pub(crate) fn push_some<T>(found: &mut Vec<T>, item: Option<T>) -> Result<(), NoMemory>
where
    T: Drop,
    ensures { OnOk result (found.new.items ≡ found.old.items ++ option_to_list item) }
{
    if let Some(item) = item {
        found.push(item)?;
    }
    Ok(())
}
