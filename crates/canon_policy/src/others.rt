//! Whether a function depends on communities that no line names, apart from keeping them or not.

ghost use Rattle.std.specs.Prelude.{◌≡◌, ◌++◌, ◌∷◌, [], ℕ, List as Items, Option, IfOk, OnOk, true, false};
ghost use Rattle.route_maps.specs.declared.plain.Imported.{Imported};
ghost use Rattle.policy_dd.specs.Edge.{IsEdgeFn, by_number};
ghost use Rattle.canon_policy.specs.Canonical.{depends_on_others};
ghost use Rattle.canon_policy.specs.Functions.{on_sets};
ghost use Rattle.canon_policy.specs.Made.{IsEdgeForm, nodes_of, told_nodes, SomeNeedsOthers, NoneNeedsOthers};
ghost use Rattle.canon_policy.specs.Nodes.{AreInside};
ghost use Rattle.canon_policy.specs.Plain.{IsPlain};

use base_kit::{Community, List, NoMemory};
use dd_core::{NodeId, Store};
use policy_dd::EdgeFn;
use std::alloc::Global;

/// Puts the nodes of a table of preferences last.
pub fn push_lps(nodes: &mut List<NodeId>, cases: &[(u32, NodeId)]) -> Result<(), NoMemory>
    ensures { OnOk result (nodes.new ≡ nodes.old ++ nodes_of cases.now) }
{
    for case in cases {
        nodes.push(case.1)?;
    }
    Ok(())
}

/// Puts the nodes of a table of counts last.
pub fn push_counts(nodes: &mut List<NodeId>, cases: &[(u8, NodeId)]) -> Result<(), NoMemory>
    ensures { OnOk result (nodes.new ≡ nodes.old ++ nodes_of cases.now) }
{
    for case in cases {
        nodes.push(case.1)?;
    }
    Ok(())
}

fn push_outs(nodes: &mut List<NodeId>, cases: &[(Community, NodeId)]) -> Result<(), NoMemory>
    ensures { OnOk result (nodes.new ≡ nodes.old ++ nodes_of (by_number cases.now)) }
{
    for case in cases {
        nodes.push(case.1)?;
    }
    Ok(())
}

fn nodes_told(alloc: Global, edge: &EdgeFn) -> Result<List<NodeId>, NoMemory>
    ensures { IfOk result (λ nodes. nodes ≡ told_nodes edge.now) }
{
    let mut nodes = List::new(alloc);
    nodes.push(edge.permit)?;
    push_lps(&mut nodes, edge.lps.as_slice())?;
    push_counts(&mut nodes, edge.adds.as_slice())?;
    push_outs(&mut nodes, edge.outs.as_slice())?;
    Ok(nodes)
}

fn any_needs_others(store: &Store, nodes: &[NodeId]) -> Result<bool, NoMemory>
    requires { AreInside store.now nodes.now }
    ensures some { IfOk result (λ any. any ≡ true → SomeNeedsOthers store.now nodes.now) }
    ensures none { IfOk result (λ any. any ≡ false → NoneNeedsOthers store.now nodes.now) }
{
    for node in nodes {
        let needed = store.needs_others(*node)?;
        if needed {
            return Ok(true);
        }
    }
    Ok(false)
}

/// Whether acceptance, the preference, the count, or whether a community of the universe is in the
/// result depends on communities that no line names.
pub fn depends_on_others(alloc: Global, store: &Store, edge: &EdgeFn) -> Result<bool, NoMemory>
    requires { IsEdgeForm store.now edge.now }
    ensures depends { (f : Items ℕ → Option Imported) → IsEdgeFn store.now edge.now f → IfOk result (λ depends. depends ≡ depends_on_others store.now.universe (on_sets f)) }
    ensures plain { (f : Items ℕ → Option Imported) → IsEdgeFn store.now edge.now f → IfOk result (λ depends. depends ≡ false → IsPlain store.now.universe (on_sets f)) }
{
    let _known = store.len();
    let nodes = nodes_told(alloc, edge)?;
    let depends = any_needs_others(store, nodes.as_slice())?;
    Ok(depends)
}
