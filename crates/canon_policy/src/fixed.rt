//! Nodes of a function under one more fixed community.

ghost use Rattle.std.specs.Prelude.{◌≡◌, ◌<◌, IfOk, length};
ghost use Rattle.std.specs.List.{AllByRecursion};
ghost use Rattle.dd_core.specs.Sets.{Grows};
ghost use Rattle.canon_policy.specs.Nodes.{AreInside, IsPartInside, AreFunctionNodesInside, IsFixed, AreFixed, IsPartFixed, ArePartsFixed, AreNodesFixed, IsFixingWithin};

use crate::fixing::Fixing;
use crate::parts::{Nodes, PartNodes};
use base_kit::{List, NoMemory};
use dd_core::{NodeId, Store};
use std::alloc::Global;

// The diagram of the sets that are made to agree.
fn fixed_node(store: &mut Store, node: NodeId, alone: &Fixing) -> Result<NodeId, NoMemory>
    requires node { node < length store.old.nodes }
    requires alone { IsFixingWithin store.old.universe alone.now }
    ensures grows { Grows store.old store.new }
    ensures fixed { IfOk result (λ made. IsFixed store.old store.new alone.now node made) }
{
    store.restrict(node, &alone.present, &alone.absent)
}

fn fixed_nodes(
    alloc: Global,
    store: &mut Store,
    nodes: &[NodeId],
    alone: &Fixing,
) -> Result<List<NodeId>, NoMemory>
    requires nodes { AreInside store.old nodes.now }
    requires alone { IsFixingWithin store.old.universe alone.now }
    ensures grows { Grows store.old store.new }
    ensures fixed { IfOk result (λ made. AreFixed store.old store.new alone.now nodes.now made) }
{
    let mut made = List::new(alloc);
    for node in nodes {
        let one = fixed_node(store, *node, alone)?;
        made.push(one)?;
    }
    Ok(made)
}

fn fixed_part(
    alloc: Global,
    store: &mut Store,
    part: &PartNodes,
    alone: &Fixing,
) -> Result<PartNodes, NoMemory>
    requires part { IsPartInside store.old part.now }
    requires alone { IsFixingWithin store.old.universe alone.now }
    ensures grows { Grows store.old store.new }
    ensures fixed { IfOk result (λ made. IsPartFixed store.old store.new alone.now part.now made) }
{
    match part {
        PartNodes::Told(nodes) => {
            let made = fixed_nodes(alloc, store, nodes.as_slice(), alone)?;
            Ok(PartNodes::Told(made))
        }
        PartNodes::Carried(community, node) => {
            let made = fixed_node(store, *node, alone)?;
            Ok(PartNodes::Carried(*community, made))
        }
    }
}

fn fixed_parts(
    alloc: Global,
    store: &mut Store,
    parts: &[PartNodes],
    alone: &Fixing,
) -> Result<List<PartNodes>, NoMemory>
    requires parts { AllByRecursion (IsPartInside store.old) parts.now }
    requires alone { IsFixingWithin store.old.universe alone.now }
    ensures grows { Grows store.old store.new }
    ensures fixed { IfOk result (λ made. ArePartsFixed store.old store.new alone.now parts.now made) }
{
    let mut made = List::new(alloc);
    for part in parts {
        let one = fixed_part(alloc, store, part, alone)?;
        made.push(one)?;
    }
    Ok(made)
}

/// The nodes of the sets that are made to agree with a fixing.
pub fn fixed(
    alloc: Global,
    store: &mut Store,
    nodes: &Nodes,
    alone: &Fixing,
) -> Result<Nodes, NoMemory>
    requires nodes { AreFunctionNodesInside store.old nodes.now }
    requires alone { IsFixingWithin store.old.universe alone.now }
    ensures grows { Grows store.old store.new }
    ensures fixed { IfOk result (λ made. AreNodesFixed store.old store.new alone.now nodes.now made) }
{
    let permit = fixed_node(store, nodes.permit, alone)?;
    let rest = fixed_node(store, nodes.rest, alone)?;
    let parts = fixed_parts(alloc, store, nodes.parts.as_slice(), alone)?;
    Ok(Nodes {
        permit,
        rest,
        parts,
    })
}
