//! Lists that grow with little room to spare.

ghost use Rattle.std.specs.Prelude.{◌≡◌, ◌++◌, ◌∷◌, [], IfOk};

use base_kit::{List, NoMemory};

/// The list with one more item behind. Its room grows by a quarter of what is there, and not to twice
/// as much: a text may have very many lists of a few items.
pub fn pushed<T: Drop>(items: List<T>, item: T) -> Result<List<T>, NoMemory>
    ensures { IfOk result (λ all. all ≡ items ++ item ∷ []) }
{
    let mut items = items.into_vec();
    let count = items.len();
    if count == items.capacity() {
        items.reserve_exact(count / 4 + 1)?;
    }
    items.push(item)?;
    Ok(List::from_vec(items))
}

/// The items as a list, which gives spare room back.
pub fn fitted<T: Drop>(items: Vec<T>) -> List<T>
    ensures { result ≡ items.items }
{
    let mut items = items;
    items.shrink_to_fit();
    List::from_vec(items)
}
