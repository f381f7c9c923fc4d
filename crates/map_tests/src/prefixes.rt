//! Bounds of entries, at their ends.

use base_kit::{List, NoMemory, Prefix, Text};
use cfg_ast::{PrefixEntry, PrefixList};
use prefix_lists::permits;
use std::alloc::Global;

fn list_of(alloc: Global, entry: PrefixEntry) -> Result<PrefixList, NoMemory> {
    let mut entries = List::new(alloc);
    entries.push(entry)?;
    Ok(PrefixList {
        name: Text::new(alloc),
        entries,
    })
}

fn entry_of(prefix: Prefix, ge: Option<u8>, le: Option<u8>) -> PrefixEntry {
    PrefixEntry {
        seq: 5,
        permit: true,
        prefix,
        ge,
        le,
        line: 1,
    }
}

#[test]
fn up_to_32_permits_every_prefix(rt: HostRuntime) -> Result<(), NoMemory> {
    let list = list_of(rt.alloc(), entry_of(Prefix::new(0, 0), None, Some(32)))?;
    assert!(rt; permits(&list, Prefix::new(0, 0)));
    assert!(rt; permits(&list, Prefix::new(0xFFFF_FFFF, 32)));
    Ok(())
}

#[test]
fn from_32_permits_length_32_alone(rt: HostRuntime) -> Result<(), NoMemory> {
    let list = list_of(rt.alloc(), entry_of(Prefix::new(0, 0), Some(32), None))?;
    assert!(rt; permits(&list, Prefix::new(0x0A00_0001, 32)));
    assert!(rt; !permits(&list, Prefix::new(0x0A00_0000, 31)));
    Ok(())
}

#[test]
fn no_options_permit_one_length(rt: HostRuntime) -> Result<(), NoMemory> {
    let list = list_of(
        rt.alloc(),
        entry_of(Prefix::new(0x0A00_0000, 31), None, None),
    )?;
    assert!(rt; permits(&list, Prefix::new(0x0A00_0000, 31)));
    assert!(rt; !permits(&list, Prefix::new(0x0A00_0000, 32)));
    Ok(())
}
