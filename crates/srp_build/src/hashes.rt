//! Hashes of maps, by which maps that are the same are found. On a hash hangs the time that this takes, and no answer.

use base_kit::NumSet;
use cfg_ast::{Change, CommunityList};
use route_maps::{Plain, PlainEntry};
use std::hash::{DefaultHasher, Hasher};

fn write_set(hasher: &mut DefaultHasher, set: &NumSet) {
    let numbers = set.as_slice();
    hasher.write_usize(numbers.len());
    for number in numbers {
        hasher.write_u32(*number);
    }
}

fn write_list(hasher: &mut DefaultHasher, list: &CommunityList) {
    hasher.write_usize(list.lines.len());
    for line in list.lines.as_slice() {
        hasher.write_u8(u8::from(line.permit));
        write_set(hasher, &line.comms);
    }
}

fn write_lists(hasher: &mut DefaultHasher, lists: &[CommunityList]) {
    hasher.write_usize(lists.len());
    for list in lists {
        write_list(hasher, list);
    }
}

fn write_match(hasher: &mut DefaultHasher, entry: &PlainEntry) {
    match &entry.lists {
        Some(lists) => {
            hasher.write_u8(1);
            hasher.write_u8(u8::from(entry.exact));
            write_lists(hasher, lists.as_slice());
        }
        None => hasher.write_u8(0),
    }
}

fn write_change(hasher: &mut DefaultHasher, change: &Option<Change>) {
    match change {
        Some(Change::Clear) => hasher.write_u8(1),
        Some(Change::Replace(by)) => {
            hasher.write_u8(2);
            write_set(hasher, by);
        }
        Some(Change::Append(more)) => {
            hasher.write_u8(3);
            write_set(hasher, more);
        }
        None => hasher.write_u8(0),
    }
}

fn write_deletion(hasher: &mut DefaultHasher, delete: &Option<CommunityList>) {
    match delete {
        Some(list) => {
            hasher.write_u8(1);
            write_list(hasher, list);
        }
        None => hasher.write_u8(0),
    }
}

fn write_preference(hasher: &mut DefaultHasher, lp: Option<u32>) {
    match lp {
        Some(lp) => {
            hasher.write_u8(1);
            hasher.write_u32(lp);
        }
        None => hasher.write_u8(0),
    }
}

fn write_entry(hasher: &mut DefaultHasher, entry: &PlainEntry) {
    hasher.write_u32(entry.seq);
    hasher.write_u8(u8::from(entry.permit));
    write_match(hasher, entry);
    write_preference(hasher, entry.lp);
    write_change(hasher, &entry.change);
    write_deletion(hasher, &entry.delete);
    hasher.write_u8(entry.adds);
}

/// The hash of a map, without the names of its lists: SipHash, so that nobody can choose many maps of one
/// hash.
pub fn hash_of_map(map: &Plain) -> u64 {
    let mut hasher = DefaultHasher::new();
    hasher.write_usize(map.entries.len());
    for entry in map.entries.as_slice() {
        write_entry(&mut hasher, entry);
    }
    hasher.finish()
}
