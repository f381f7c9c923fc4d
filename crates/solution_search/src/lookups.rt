//! What the search looks up in a problem.

ghost use Rattle.std.specs.Prelude.{◌≡◌, ℕ, ◌<◌, ◌≤◌, List, Option, All, IfOk, length, true, slice_index_or};
ghost use Rattle.srp_core.specs.declared.route.Act.TheVariants.{Cost as a_cost};
ghost use Rattle.srp_core.specs.Problem.{count};
ghost use Rattle.solution_search.specs.Cases.{IsSure};
ghost use Rattle.solution_search.specs.Lookups.{GivesAtMost, IsHighest};

use base_kit::NoMemory;
use refine_partition::{Exports, exports_of};
use route_keys::{LoneNumbers, lone_numbers};
use route_maps::Plain;
use shared_routes::SharedLabels;
use srp_core::{Act, Srp, own_edges};
use std::alloc::Global;
use std::marker::Model;

/// A problem, the numbers of its lone routers, what each router exports, and for each act a preference
/// that no route over it exceeds.
#[derive(Drop)]
pub(crate) struct Lookups<'a> {
    pub(crate) alloc: Global,
    pub(crate) srp: &'a Srp,
    pub(crate) lone: LoneNumbers,
    pub(crate) exports: Exports,
    pub(crate) highest: Vec<u32>,
}

impl<'a> Model for Lookups<'a> {
    ghost use Rattle.srp_core.specs.Problem.{Problem};
    ghost use Rattle.route_keys.specs.Lone.{HasLoneNumbers};
    ghost use Rattle.solution_search.specs.Lookups.{AreTables};

    ghost Value = { Problem };

    ghost view = { λ g. g.srp.now };

    ghost invariant = { λ g. HasLoneNumbers g.srp.now g.lone × AreTables g.srp.now g.exports.imports.items g.highest.items };
}

// The highest preference that an entry of a map can give.
fn highest_of_map(map: &Plain) -> u32
    ensures { All (GivesAtMost result) map.now.entries }
{
    let mut highest = 0;
    for entry in map.entries.as_slice() {
        if entry.permit {
            highest = highest.max(entry.lp.unwrap_or(100));
        }
    }
    highest
}

// The highest preference that an act can give, 0 in OSPF.
fn highest_of_act(act: &Act) -> u32
    ensures { IsHighest act.now result }
{
    match act {
        Act::Import { into, .. } => highest_of_map(into),
        Act::Cost(_) => 0,
    }
}

fn highest_of_acts(alloc: Global, acts: &[Act]) -> Result<Vec<u32>, NoMemory>
    ensures total { IfOk result (λ highest. length highest.items ≡ length acts.now) }
    ensures each { IfOk result (λ highest. (i : ℕ) → i < length acts.now → IsHighest (slice_index_or acts.now i (a_cost 0)) (slice_index_or highest.items i 0)) }
{
    let mut highest = Vec::new(alloc);
    for act in acts {
        highest.push(highest_of_act(act))?;
    }
    Ok(highest)
}

/// Looks through the problem once.
pub(crate) fn lookups_of(alloc: Global, srp: &Srp) -> Result<Lookups<'_>, NoMemory>
    ensures { IfOk result (λ lookups. lookups ≡ srp.now) }
{
    let lone = lone_numbers(alloc, srp)?;
    let exports = exports_of(alloc, srp.count(), srp.edges())?;
    let highest = highest_of_acts(alloc, srp.acts())?;
    Ok(Lookups {
        alloc,
        srp,
        lone,
        exports,
        highest,
    })
}

/// Whether no edge from a router without a label can give this router a route of a higher preference.
pub(crate) fn is_sure(
    lookups: &Lookups,
    labels: &SharedLabels,
    router: u32,
    preference: u32,
) -> bool
    requires { length labels.now ≡ count lookups.now }
    ensures { result ≡ true → (waits : List (Option ℕ)) → IsSure lookups.now (record { labels = labels.now; waits = waits }) router preference }
{
    let _known = lookups.srp.count();
    let edges = lookups.srp.edges();
    let (first, end) = own_edges(edges, router);
    for place in first..end {
        let edge = edges[place];
        if labels.as_slice()[edge.exporter as usize].is_none()
            && preference < lookups.highest[edge.act as usize]
        {
            return false;
        }
    }
    true
}
