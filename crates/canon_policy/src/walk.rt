//! The fixings on which all is settled, in order.

ghost use Rattle.std.specs.Prelude.{◌≡◌, ◌≤◌, ◌++◌, ◌∷◌, [], IfOk, length};
ghost use Rattle.dd_core.specs.Sets.{Grows};
ghost use Rattle.canon_policy.specs.Fixings.{Asked, nothing_fixed, split, settled};
ghost use Rattle.canon_policy.specs.Hanging.{AskedHangsOn};
ghost use Rattle.canon_policy.specs.Nodes.{AreFunctionNodesInside, AreNodesOf, IsWalked, IsWalkedFromNothing};

use crate::fixed::fixed;
use crate::fixing::Fixing;
use crate::lists::CanonRefusal;
use crate::parts::{Nodes, split_by};
use base_kit::List;
use dd_core::Store;
use std::alloc::Global;

// A list has at most so many entries, which are numbered from 1.
pub const MOST_ENTRIES: usize = 65535;

// A line names at most so many communities.
pub const MOST_NAMES: usize = 32;

fn push_settled(found: &mut List<Fixing>, fixing: Fixing) -> Result<(), CanonRefusal>
    ensures { IsWalked found.old found.new result (fixing ∷ []) }
{
    if found.len() >= MOST_ENTRIES {
        return Err(CanonRefusal::NoCanon);
    }
    found.push(fixing)?;
    Ok(())
}

/// Puts last the settled fixings into which a fixing is split, those with a community before those
/// without it.
fn walk(
    alloc: Global,
    store: &mut Store,
    depth: usize,
    nodes: &Nodes,
    fixing: Fixing,
    found: &mut List<Fixing>,
) -> Result<(), CanonRefusal>
    requires inside { AreFunctionNodesInside store.old nodes.now }
    requires narrow { length fixing.present ≤ 32 }
    ensures grows { Grows store.old store.new }
    ensures walked { (asked : Asked) → AskedHangsOn store.old.universe asked → AreNodesOf store.old fixing nodes.now asked → IsWalked found.old found.new result (settled depth (split store.old.universe asked) fixing) }
{
    if depth == 0 {
        return push_settled(found, fixing);
    }
    match split_by(alloc, store, nodes)? {
        None => push_settled(found, fixing),
        Some(community) => {
            if fixing.present.as_slice().len() >= MOST_NAMES {
                return Err(CanonRefusal::NoCanon);
            }
            let alone = Fixing::new(alloc).with_present(community.0)?;
            let high = fixed(alloc, store, nodes, &alone)?;
            let with = fixing.with_present(community.0)?;
            let first = walk(alloc, store, depth - 1, &high, with, found);
            if first.is_err() {
                return first;
            }
            let other = Fixing::new(alloc).with_absent(community.0)?;
            let low = fixed(alloc, store, nodes, &other)?;
            let without = fixing.with_absent(community.0)?;
            walk(alloc, store, depth - 1, &low, without, found)
        }
    }
}

/// The settled fixings, in order.
pub fn settled_fixings(
    alloc: Global,
    store: &mut Store,
    nodes: &Nodes,
) -> Result<List<Fixing>, CanonRefusal>
    requires { AreFunctionNodesInside store.old nodes.now }
    ensures grows { Grows store.old store.new }
    ensures walked { (asked : Asked) → AskedHangsOn store.old.universe asked → AreNodesOf store.old nothing_fixed nodes.now asked → IsWalkedFromNothing result (settled (length store.old.universe) (split store.old.universe asked) nothing_fixed) }
{
    let depth = store.universe().as_slice().len();
    let mut found = List::new(alloc);
    walk(alloc, store, depth, nodes, Fixing::new(alloc), &mut found)?;
    Ok(found)
}
