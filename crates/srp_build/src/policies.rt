//! Neighbour lines whose maps always say the same.

ghost use Rattle.std.specs.Prelude.{◌≡◌, ◌<◌, [], Some, IfOk, OnOk, length, slice_get};
ghost use Rattle.cfg_ast.specs.declared.network.Router.{Router};
ghost use Rattle.specialize.specs.Places.{ArePlacesOfRouter};
ghost use Rattle.srp_build.specs.LinePolicies.{AreFixedPolicies, AreLinePolicies, HasPolicies, HavePolicies, IsFixedPolicy, IsPolicyNumber, IsNewPolicy, IsSeenOrNumbered, PoliciesKept};
ghost use Rattle.srp_build.specs.ListPlaces.{HavePlaces};

use crate::fixed::is_fixed;
use crate::lines::{LinePlace, map_of_line, neighbors};
use crate::plains::Plains;
use crate::seen::Seen;
use base_kit::{List, NoMemory, Prefix};
use cfg_ast::{Neighbor, Router};
use route_maps::Plain;
use specialize::Places;
use std::alloc::Global;

/// The policies of all neighbour lines. Whatever the prefix, the maps of lines of one policy say the same:
/// either they name one map and one list of one router, or they are the same map for every prefix.
#[derive(Drop)]
pub struct LinePolicies {
    /// The first line of each policy.
    pub firsts: Vec<LinePlace>,
    /// The number of the policy of each line outbound, router by router.
    pub outs: List<List<usize>>,
    /// The same inbound.
    pub ins: List<List<usize>>,
}

// The first lines of policies, and the different maps of those policies whose map is the same for every
// prefix. They are needed only while policies are numbered.
#[derive(Drop)]
struct PolicyTable {
    pub firsts: Vec<LinePlace>,
    pub fixed: Plains,
    // The policy of each of the maps.
    pub policies: Vec<usize>,
}

impl PolicyTable {
    fn new(alloc: Global) -> Self
        ensures firsts { result.firsts.items ≡ [] }
        ensures maps { result.fixed.maps.items ≡ [] }
        ensures policies { result.policies.items ≡ [] }
    {
        PolicyTable {
            firsts: Vec::new(alloc),
            fixed: Plains::new(alloc),
            policies: Vec::new(alloc),
        }
    }

    // The number of a new policy, whose first line stands at the place.
    fn push(&mut self, first: LinePlace) -> Result<usize, NoMemory>
        ensures { IfOk result (IsNewPolicy self.old self.new first) }
    {
        let policy = self.firsts.len();
        self.firsts.push(first)?;
        Ok(policy)
    }

    // The policy that has the map with the number.
    fn policy_of_map(&self, number: usize) -> Option<usize>
        ensures { result ≡ slice_get self.now.policies.items number }
    {
        self.policies.get(number).copied()
    }

    // The number of the policy that has the map for every prefix, a new one where none has.
    fn number_fixed(
        &mut self,
        alloc: Global,
        first: LinePlace,
        map: Plain,
    ) -> Result<usize, NoMemory>
        ensures { IfOk result (IsFixedPolicy self.old self.new first map) }
    {
        let number = self.fixed.number(alloc, map)?;
        if let Some(policy) = self.policy_of_map(number) {
            return Ok(policy);
        }
        let policy = self.push(first)?;
        self.policies.push(policy)?;
        Ok(policy)
    }

    // The number of the policy of a line, which stands at the place.
    fn number(
        &mut self,
        alloc: Global,
        first: LinePlace,
        router: &Router,
        places: &Places,
        line: &Neighbor,
    ) -> Result<usize, NoMemory>
        requires { ArePlacesOfRouter router.now places.now }
        ensures { IfOk result (IsPolicyNumber self.old self.new first router.now line.now) }
    {
        if is_fixed(router, places, first.inbound, line) {
            let any = Prefix::new(0, 0);
            let map = map_of_line(alloc, any, router, places, first.inbound, line)?;
            return self.number_fixed(alloc, first, map);
        }
        self.push(first)
    }
}

// A router with the places of its lists and maps, and the numbers of the policies of its lines so far.
#[derive(Clone, Copy)]
struct RouterLines<'a, 'n> {
    pub router: &'a Router,
    pub places: &'a Places,
    pub numbers: &'n [usize],
}

// The number of the policy of the next line of a router, which stands at the place.
fn policy_of_line<'a>(
    alloc: Global,
    table: &mut PolicyTable,
    seen: &mut Seen<'a>,
    first: LinePlace,
    before: RouterLines<'a, '_>,
    line: &Neighbor,
) -> Result<usize, NoMemory>
    requires { ArePlacesOfRouter before.router.now before.places.now }
    ensures { IfOk result (IsSeenOrNumbered table.old table.new first before.entry.router.now before.entry.numbers.now line.now) }
{
    let lines = neighbors(before.router);
    let known = seen.known_number(first.inbound, lines, before.numbers, line)?;
    if let Some(number) = known {
        return Ok(number);
    }
    table.number(alloc, first, before.router, before.places, line)
}

// The numbers of the policies of the lines of the router at a place, inbound or outbound.
fn policies_of_router(
    alloc: Global,
    table: &mut PolicyTable,
    routers: &[Router],
    places: &[Places],
    at: usize,
    inbound: bool,
) -> Result<List<usize>, NoMemory>
    requires places { HavePlaces routers.now places.now }
    requires inside { at < length routers.now }
    requires fixed { AreFixedPolicies routers.now table.old }
    ensures fixed { OnOk result (AreFixedPolicies routers.now table.new) }
    ensures kept { OnOk result (PoliciesKept table.old.firsts.items table.new.firsts.items) }
    ensures policies { IfOk result (λ numbers. (router : Router) → slice_get routers.now at ≡ Some router → HasPolicies routers.now router inbound table.new.firsts.items numbers) }
{
    let router = &routers[at];
    let own = &places[at];
    let lines = neighbors(router);
    let mut seen = Seen::new(alloc, inbound, lines);
    let mut numbers = List::new(alloc);
    for i in 0..lines.len() {
        let first = LinePlace {
            router: at,
            item: i,
            inbound,
        };
        let line = &lines[i];
        let before = RouterLines {
            router,
            places: own,
            numbers: numbers.as_slice(),
        };
        let number = policy_of_line(alloc, table, &mut seen, first, before, line)?;
        numbers.push(number)?;
    }
    Ok(numbers)
}

// The numbers of the policies of all lines, inbound or outbound, router by router.
fn policies_by_router(
    alloc: Global,
    table: &mut PolicyTable,
    routers: &[Router],
    places: &[Places],
    inbound: bool,
) -> Result<List<List<usize>>, NoMemory>
    requires places { HavePlaces routers.now places.now }
    requires fixed { AreFixedPolicies routers.now table.old }
    ensures fixed { OnOk result (AreFixedPolicies routers.now table.new) }
    ensures kept { OnOk result (PoliciesKept table.old.firsts.items table.new.firsts.items) }
    ensures policies { IfOk result (HavePolicies routers.now inbound table.new.firsts.items routers.now) }
{
    let mut by_router = List::new(alloc);
    for at in 0..routers.len() {
        let numbers = policies_of_router(alloc, table, routers, places, at, inbound)?;
        by_router.push(numbers)?;
    }
    Ok(by_router)
}

/// The policies of all neighbour lines of the routers, by the places of their lists and maps.
pub fn policies_of(
    alloc: Global,
    routers: &[Router],
    places: &[Places],
) -> Result<LinePolicies, NoMemory>
    requires { HavePlaces routers.now places.now }
    ensures { IfOk result (AreLinePolicies routers.now) }
{
    let mut table = PolicyTable::new(alloc);
    let outs = policies_by_router(alloc, &mut table, routers, places, false)?;
    let ins = policies_by_router(alloc, &mut table, routers, places, true)?;
    Ok(LinePolicies {
        firsts: table.firsts,
        outs,
        ins,
    })
}
