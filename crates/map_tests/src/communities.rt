//! Lists that permit and deny, plainly and exactly.

use base_kit::{List, NoMemory, NumSet, Text};
use cfg_ast::{CommunityLine, CommunityList};
use community_lists::{permits, permits_alone, permits_exact};
use std::alloc::Global;

const ONE_ONE: u32 = 65537;

const ONE_TWO: u32 = 65538;

const THREE_THREE: u32 = 196611;

fn set_of(alloc: Global, comms: &[u32]) -> Result<NumSet, NoMemory> {
    let mut set = NumSet::new(alloc);
    for c in comms {
        set.add(*c)?;
    }
    Ok(set)
}

fn permitting(alloc: Global, comms: &[u32]) -> Result<CommunityList, NoMemory> {
    let mut lines = List::new(alloc);
    lines.push(CommunityLine {
        permit: true,
        comms: set_of(alloc, comms)?,
        line: 1,
    })?;
    Ok(CommunityList {
        name: Text::new(alloc),
        lines,
    })
}

#[test]
fn a_line_needs_all_of_its_communities(rt: HostRuntime) -> Result<(), NoMemory> {
    let alloc = rt.alloc();
    let list = permitting(alloc, &[ONE_ONE, ONE_TWO])?;
    assert!(rt; !permits(&list, &set_of(alloc, &[ONE_ONE])?));
    assert!(rt; permits(&list, &set_of(alloc, &[ONE_ONE, ONE_TWO, THREE_THREE])?));
    Ok(())
}

#[test]
fn an_exact_answer_takes_no_other_set(rt: HostRuntime) -> Result<(), NoMemory> {
    let alloc = rt.alloc();
    let list = permitting(alloc, &[ONE_ONE])?;
    assert!(rt; permits_exact(&list, &set_of(alloc, &[ONE_ONE])?));
    assert!(rt; !permits_exact(&list, &NumSet::new(alloc)));
    assert!(rt; !permits_exact(&list, &set_of(alloc, &[ONE_ONE, ONE_TWO])?));
    Ok(())
}

#[test]
fn one_community_is_answered_alone(rt: HostRuntime) -> Result<(), NoMemory> {
    let list = permitting(rt.alloc(), &[ONE_ONE])?;
    assert!(rt; permits_alone(&list, ONE_ONE));
    assert!(rt; !permits_alone(&list, THREE_THREE));
    Ok(())
}
