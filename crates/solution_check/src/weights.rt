//! A label weighed against the candidates of its router.

ghost use Rattle.std.specs.Prelude.{◌≡◌, ◌≤◌, ◌<◌, ◌||◌, ◌+◌, ◌^◌, suc, ℕ, IfOk, Some, All, [], filter_map, length, nat_lt, nat_eq, is_some};
ghost use Rattle.std.specs.HashSet.{contains};
ghost use Rattle.std.specs.List.{list_any};
ghost use Rattle.std.specs.Ordering.{nat_cmp, is_lt};
ghost use Rattle.std.specs.Cmp.Lexicographic.{slice_cmp};
ghost use Rattle.base_kit.specs.Sets.{with_number};
ghost use Rattle.srp_core.specs.Acts.{arrived};
ghost use Rattle.srp_core.specs.Problem.{count, number, initial, is_lone_number, IsEdgeOf};
ghost use Rattle.srp_core.specs.Routes.{path_of, chosen, compare_keys};
ghost use Rattle.srp_core.specs.Stability.{label, AreLabels};
ghost use Rattle.srp_core.specs.Candidates.{over};
ghost use Rattle.route_keys.specs.Keys.{key, key_with};
ghost use Rattle.route_offers.specs.declared.offers.Offer.TheVariants.{Import};
ghost use Rattle.route_offers.specs.Lone.{IsLoneOf};
ghost use Rattle.route_offers.specs.Offers.{offered, with_lone};
ghost use Rattle.solution_check.specs.Offers.{routes_of, is_label, beats_label, one, WeighsAs, both_weighed, always};

use base_kit::{Edge, NoMemory, NumSet};
use route_keys::{comms_of, preference_of, same_route, size_of};
use route_maps::Imported;
use route_offers::{Lone, Offer, grown, is_lengthened, offer_over};
use srp_core::{Labels, Route, Srp};
use std::alloc::Global;
use std::cmp::Ordering;

/// Whether the label is among some candidates, and whether one of them beats it.
#[derive(Clone, Copy, Debug, PartialEq, Eq)]
pub(crate) struct Weight {
    pub(crate) held: bool,
    pub(crate) beaten: bool,
}

// How the lone numbers of a path compare with others, where its first number is a lone router's or not.
fn compare_lone(
    is_lone: bool,
    number: u32,
    rest: &NumSet,
    other: &NumSet,
) -> Result<Ordering, NoMemory>
    ensures { IfOk result (λ order. order ≡ slice_cmp nat_cmp (with_lone is_lone number rest.now) other.now) }
{
    if !is_lone {
        return Ok(rest.cmp(other));
    }
    let mut set = rest.copy()?;
    set.add(number)?;
    Ok(set.cmp(other))
}

// Whether a route with these parts of its key beats the other. The numbers of lone routers are compared
// where all else is equal.
#[tactic(auto, unfolding(srp_core::specs::Routes::compare_keys))]
fn is_better(
    lp: u32,
    size: u128,
    comms: &[u32],
    is_lone: bool,
    number: u32,
    rest: &NumSet,
    route: &Route,
    other: &NumSet,
) -> Result<bool, NoMemory>
    ensures { IfOk result (λ better. better ≡ is_lt (compare_keys (key lp size comms.now (with_lone is_lone number rest.now)) (key_with route.now other.now))) }
{
    let preference = preference_of(route);
    if lp != preference {
        return Ok(preference < lp);
    }
    let other_size = u128::from(size_of(route));
    if size != other_size {
        return Ok(size < other_size);
    }
    match comms.cmp(&comms_of(route)) {
        Ordering::Less => Ok(true),
        Ordering::Greater => Ok(false),
        Ordering::Equal => {
            let order = compare_lone(is_lone, number, rest, other)?;
            Ok(order == Ordering::Less)
        }
    }
}

// What the import from a path weighs.
fn weigh_import(
    lone: &Lone,
    imported: &Imported,
    exporter: u32,
    path: &[u32],
    rest: &NumSet,
    route: &Route,
    other: &NumSet,
) -> Result<Weight, NoMemory>
    ensures { IfOk result (λ weight. (weight.held ≡ is_label route.now (arrived exporter path.now imported.now))
        × (weight.beaten ≡ is_lt (compare_keys (key imported.now.lp (length path.now + suc imported.now.adds) imported.now.comms (with_lone (contains nat_eq lone.now.numbers exporter) exporter rest.now)) (key_with route.now other.now)))) }
{
    let held = match route {
        Route::Bgp {
            lp,
            path: longer,
            comms,
        } => {
            imported.lp == *lp
                && is_lengthened(longer.as_slice(), exporter, imported.adds, path)
                && imported.comms.as_slice() == comms.as_slice()
        }
        Route::Ospf { .. } => false,
    };
    let is_lone = lone.numbers.contains(&exporter);
    let size = grown(path.len(), imported.adds);
    let beaten = is_better(
        imported.lp,
        size,
        imported.comms.as_slice(),
        is_lone,
        exporter,
        rest,
        route,
        other,
    )?;
    Ok(Weight { held, beaten })
}

// The weight of a route that has no lone router on its path.
fn weigh_bare(
    alloc: Global,
    candidate: &Route,
    route: &Route,
    other: &NumSet,
) -> Result<Weight, NoMemory>
    ensures { IfOk result (λ weight. (weight.held ≡ is_label route.now candidate.now)
        × (weight.beaten ≡ is_lt (compare_keys (key_with candidate.now []) (key_with route.now other.now)))) }
{
    let held = same_route(candidate, route);
    let rest = NumSet::new(alloc);
    let beaten = is_better(
        preference_of(candidate),
        u128::from(size_of(candidate)),
        comms_of(candidate),
        false,
        0,
        &rest,
        route,
        other,
    )?;
    Ok(Weight { held, beaten })
}

fn both(a: Weight, b: Weight) -> Weight
    ensures { result ≡ both_weighed a b }
{
    Weight {
        held: a.held || b.held,
        beaten: a.beaten || b.beaten,
    }
}

// What the import over an edge weighs, from the label of its exporter.
fn weigh_from(
    srp: &Srp,
    labels: &Labels,
    lone: &Lone,
    edge: &Edge,
    imported: &Imported,
    from: &Route,
    route: &Route,
    other: &NumSet,
) -> Result<Weight, NoMemory>
    requires edge { IsEdgeOf srp.now edge.now }
    requires labels { AreLabels srp.now labels.now }
    requires lone { IsLoneOf srp.now labels.now lone.now }
    requires from { label labels.now edge.now.exporter ≡ Some from.now }
    requires other { other.now ≡ chosen (is_lone_number srp.now) (path_of route.now) }
    ensures { IfOk result (WeighsAs srp.now route.now (one (offered (Import imported.now) (Some from.now) (number srp.now edge.now.exporter)))) }
{
    match from {
        Route::Bgp { path, .. } => {
            let exporter = srp.numbers()[edge.exporter as usize];
            let rest = &lone.paths.as_slice()[edge.exporter as usize];
            weigh_import(
                lone,
                imported,
                exporter,
                path.as_slice(),
                rest,
                route,
                other,
            )
        }
        Route::Ospf { .. } => Ok(Weight {
            held: false,
            beaten: false,
        }),
    }
}

// What the route of an edge weighs, if it gives one.
fn weigh_edge(
    alloc: Global,
    srp: &Srp,
    labels: &Labels,
    lone: &Lone,
    edge: &Edge,
    route: &Route,
    other: &NumSet,
) -> Result<Weight, NoMemory>
    requires edge { IsEdgeOf srp.now edge.now }
    requires labels { AreLabels srp.now labels.now }
    requires lone { IsLoneOf srp.now labels.now lone.now }
    requires other { other.now ≡ chosen (is_lone_number srp.now) (path_of route.now) }
    ensures { IfOk result (WeighsAs srp.now route.now (one (over srp.now labels.now edge.now))) }
{
    match offer_over(alloc, srp, labels, edge)? {
        Offer::Nothing => Ok(Weight {
            held: false,
            beaten: false,
        }),
        Offer::Cost(cost) => weigh_bare(alloc, &Route::Ospf { cost }, route, other),
        Offer::Import(imported) => match &labels.as_slice()[edge.exporter as usize] {
            Some(from) => weigh_from(srp, labels, lone, edge, &imported, from, route, other),
            None => Ok(Weight {
                held: false,
                beaten: false,
            }),
        },
    }
}

// What the initial route weighs, if there is one.
fn weigh_initial(
    alloc: Global,
    srp: &Srp,
    router: u32,
    route: &Route,
    other: &NumSet,
) -> Result<Weight, NoMemory>
    requires router { router < count srp.now }
    requires other { other.now ≡ chosen (is_lone_number srp.now) (path_of route.now) }
    ensures { IfOk result (WeighsAs srp.now route.now (one (initial srp.now router))) }
{
    let _known = srp.count();
    match &srp.init()[router as usize] {
        Some(candidate) => weigh_bare(alloc, candidate, route, other),
        None => Ok(Weight {
            held: false,
            beaten: false,
        }),
    }
}

// What the routes of some edges weigh, with what was weighed before.
fn weigh_edges(
    alloc: Global,
    srp: &Srp,
    labels: &Labels,
    lone: &Lone,
    edges: &[Edge],
    route: &Route,
    other: &NumSet,
    before: Weight,
) -> Result<Weight, NoMemory>
    requires edges { All (IsEdgeOf srp.now) edges.now }
    requires labels { AreLabels srp.now labels.now }
    requires lone { IsLoneOf srp.now labels.now lone.now }
    requires other { other.now ≡ chosen (is_lone_number srp.now) (path_of route.now) }
    ensures { IfOk result (λ weight. (weight.held ≡ before.held || list_any (is_label route.now) (filter_map (over srp.now labels.now) edges.now))
        × (weight.beaten ≡ before.beaten || list_any (beats_label srp.now route.now) (filter_map (over srp.now labels.now) edges.now))) }
{
    let mut weight = before;
    for edge in edges {
        weight = both(
            weight,
            weigh_edge(alloc, srp, labels, lone, edge, route, other)?,
        );
    }
    Ok(weight)
}

/// The weight of the initial route of a router and of the routes of its edges, compared with its label
/// and the lone numbers on the label's path.
pub(crate) fn weigh(
    alloc: Global,
    srp: &Srp,
    labels: &Labels,
    lone: &Lone,
    router: u32,
    edges: &[Edge],
    route: &Route,
) -> Result<Weight, NoMemory>
    requires router { router < count srp.now }
    requires edges { All (IsEdgeOf srp.now) edges.now }
    requires labels { AreLabels srp.now labels.now }
    requires lone { IsLoneOf srp.now labels.now lone.now }
    requires label { label labels.now router ≡ Some route.now }
    ensures { IfOk result (WeighsAs srp.now route.now (routes_of srp.now labels.now router edges.now)) }
{
    let other = &lone.paths.as_slice()[router as usize];
    let before = weigh_initial(alloc, srp, router, route, other)?;
    weigh_edges(alloc, srp, labels, lone, edges, route, other, before)
}

/// Whether a router has an initial route, or an edge that gives it one.
pub(crate) fn has_candidate(
    alloc: Global,
    srp: &Srp,
    labels: &Labels,
    router: u32,
    edges: &[Edge],
) -> Result<bool, NoMemory>
    requires router { router < count srp.now }
    requires edges { All (IsEdgeOf srp.now) edges.now }
    requires labels { AreLabels srp.now labels.now }
    ensures { IfOk result (λ has. has ≡ list_any always (routes_of srp.now labels.now router edges.now)) }
{
    let _known = srp.count();
    if srp.init()[router as usize].is_some() {
        return Ok(true);
    }
    for edge in edges {
        if offer_over(alloc, srp, labels, edge)?.gives() {
            return Ok(true);
        }
    }
    Ok(false)
}
