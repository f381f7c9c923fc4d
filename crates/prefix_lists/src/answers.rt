//! What a prefix list permits.

ghost use Rattle.std.specs.Prelude.{◌≡◌, ◌≤◌};
ghost use Rattle.cfg_ast.specs.meaning.PrefixLists.{leading_bits, length_fits, prefix_entry_holds, prefix_list_permits};

use base_kit::Prefix;
use cfg_ast::{PrefixEntry, PrefixList};

fn leading_bits(count: u8, addr: u32) -> u64
    requires { count ≤ 32 }
    ensures { result ≡ leading_bits count addr }
{
    addr as u64 >> (32 - count)
}

fn length_fits(entry: &PrefixEntry, len: u8) -> bool
    requires { len ≤ 32 }
    ensures { result ≡ length_fits entry.now.prefix.len entry.now.ge entry.now.le len }
{
    match (entry.ge, entry.le) {
        (None, None) => len == entry.prefix.len(),
        (Some(ge), None) => ge <= len && len <= 32,
        (None, Some(le)) => entry.prefix.len() <= len && len <= le,
        (Some(ge), Some(le)) => ge <= len && len <= le,
    }
}

fn holds(entry: &PrefixEntry, p: Prefix) -> bool
    ensures { result ≡ prefix_entry_holds entry.now p }
{
    let count = entry.prefix.len();
    leading_bits(count, p.addr()) == leading_bits(count, entry.prefix.addr())
        && length_fits(entry, p.len())
}

/// Whether the list permits the prefix: the first entry that holds for it decides. An entry without
/// options holds for exactly its own length, one with `ge` from there to 32, one with `le` from its own
/// length to that, and one with both from the one to the other.
pub fn permits(list: &PrefixList, p: Prefix) -> bool
    ensures { result ≡ prefix_list_permits list.now p }
{
    for entry in list.entries.as_slice() {
        if holds(entry, p) {
            return entry.permit;
        }
    }
    false
}
