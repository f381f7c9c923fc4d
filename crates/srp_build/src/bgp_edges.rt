//! The edges of a BGP problem.

ghost use Rattle.std.specs.Prelude.{◌≡◌, ◌+◌, ◌<◌, ◌≤◌, ◌^◌, [], true, None, Some, IfOk, IfSome, OnOk, List, length, map};
ghost use Rattle.cfg_ast.specs.declared.network.Router.{Router};
ghost use Rattle.dd_core.specs.Sets.{Grows};
ghost use Rattle.srp_build.specs.BgpEdges.{has_initial, IsImportInside, AreImportsInside, IsImportOf, IsLastImport, TakesHop, AreEdgesOfSessions};
ghost use Rattle.srp_build.specs.LinePolicies.{AreImportsOf};
ghost use Rattle.srp_build.specs.LineMaps.{LineMaps, line_maps, with_maps};
ghost use Rattle.srp_build.specs.Lines.{act_of_hop};
ghost use Rattle.srp_build.specs.ListPlaces.{HavePlaces};
ghost use Rattle.srp_build.specs.MetImports.{AreRight, AreMapsWithin, IsActOfImport, IsMaybeNew};

use crate::acts::{Acts, BgpAct};
use crate::hops::Hop;
use crate::imports::ImportByPolicies;
use crate::lines::act_of_hop;
use crate::met_imports::{MetImports, act_of_import};
use crate::policy_maps::{PolicyMaps, with_maps};
use crate::session_hops::SessionHops;
use base_kit::{Edge, List, NoMemory, Prefix};
use cfg_ast::Router;
use dd_core::Store;
use dd_core::laws::growth_adds_up;
use specialize::Places;
use srp_core::{Act, Route};
use std::alloc::Global;

/// The import of a direction, with its act unless it accepts nothing.
#[derive(Clone, Copy)]
pub struct LastImport {
    pub import: ImportByPolicies,
    pub act: Option<u32>,
}

/// The edges of sessions, their acts, the imports that were met, and the last of them.
#[derive(Drop)]
pub struct BgpEdges {
    pub acts: Acts,
    pub imports: MetImports,
    pub last: Option<LastImport>,
    pub edges: List<Edge>,
}

fn have_same_policies(a: &ImportByPolicies, b: &ImportByPolicies) -> bool
    ensures { result ≡ true → a.now ≡ b.now }
{
    a.out == b.out && a.sends == b.sends && a.into == b.into
}

// The last import, if it is this one.
fn last_if_same(last: Option<LastImport>, import: &ImportByPolicies) -> Option<LastImport>
    ensures last { IfSome result (λ known. last ≡ Some known) }
    ensures same { IfSome result (λ known. known.import ≡ import.now) }
{
    let known = last?;
    if !have_same_policies(&known.import, import) {
        return None;
    }
    Some(known)
}

fn originates(init: &[Option<Route>], router: u32) -> bool
    ensures { result ≡ has_initial init.now router }
{
    match init.get(router as usize) {
        Some(route) => route.is_some(),
        None => false,
    }
}

impl BgpEdges {
    // No edges yet, with room for so many.
    fn with_room(alloc: Global, count: usize) -> Result<Self, NoMemory>
        ensures acts { IfOk result (λ found. found.acts.acts.items ≡ []) }
        ensures imports { IfOk result (λ found. found.imports.met.items ≡ []) }
        ensures last { IfOk result (λ found. found.last ≡ None) }
        ensures edges { IfOk result (λ found. found.edges ≡ []) }
    {
        Ok(BgpEdges {
            acts: Acts::new(alloc),
            imports: MetImports::new(alloc),
            last: None,
            edges: List::from_vec(Vec::with_capacity(alloc, count)?),
        })
    }

    // The act of the import of a direction. A direction mostly imports as the one before it.
    fn act_of(
        &mut self,
        alloc: Global,
        store: &mut Store,
        maps: &PolicyMaps,
        hop: &Hop,
        import: &ImportByPolicies,
    ) -> Result<Option<u32>, NoMemory>
        requires inside { IsImportInside maps.now import.now }
        requires within { AreMapsWithin store.old.universe maps.now.maps.items }
        requires right { AreRight store.old maps.now.maps.items self.old.acts self.old.imports }
        requires last { IfSome self.old.last (IsLastImport maps.now self.old.acts.acts.items) }
        requires few { length self.old.acts.acts.items < 2 ^ 32 }
        ensures grows { Grows store.old store.new }
        ensures right { OnOk result (AreRight store.new maps.now.maps.items self.new.acts self.new.imports) }
        ensures last { OnOk result (IfSome self.new.last (IsLastImport maps.now self.new.acts.acts.items)) }
        ensures act { IfOk result (IsActOfImport maps.now.maps.items self.new.acts.acts.items (with_maps maps.now.numbers.items import.now)) }
        ensures came { IfOk result (IsMaybeNew self.old.acts.acts.items self.new.acts.acts.items hop.now (with_maps maps.now.numbers.items import.now)) }
        ensures edges { OnOk result (self.new.edges ≡ self.old.edges) }
    {
        if let Some(known) = last_if_same(self.last, import) {
            return Ok(known.act);
        }
        let met = with_maps(&maps.numbers, import);
        let act = act_of_import(
            alloc,
            store,
            &maps.maps,
            &mut self.acts,
            &mut self.imports,
            hop,
            &met,
        )?;
        self.last = Some(LastImport {
            import: *import,
            act,
        });
        Ok(act)
    }

    // Puts the edge of a direction last, unless the importer originates or accepts nothing.
    fn take(
        &mut self,
        alloc: Global,
        store: &mut Store,
        init: &[Option<Route>],
        maps: &PolicyMaps,
        hop: &Hop,
        import: &ImportByPolicies,
    ) -> Result<(), NoMemory>
        requires inside { IsImportInside maps.now import.now }
        requires within { AreMapsWithin store.old.universe maps.now.maps.items }
        requires right { AreRight store.old maps.now.maps.items self.old.acts self.old.imports }
        requires last { IfSome self.old.last (IsLastImport maps.now self.old.acts.acts.items) }
        requires few { length self.old.acts.acts.items < 2 ^ 32 }
        ensures grows { Grows store.old store.new }
        ensures right { OnOk result (AreRight store.new maps.now.maps.items self.new.acts self.new.imports) }
        ensures last { OnOk result (IfSome self.new.last (IsLastImport maps.now self.new.acts.acts.items)) }
        ensures grown { OnOk result (length self.new.acts.acts.items ≤ length self.old.acts.acts.items + 1) }
        ensures takes { OnOk result ((routers : List Router) (lines : LineMaps) → IsImportOf routers lines maps.now hop.now import.now → TakesHop routers init.now lines self.old self.new hop.now) }
    {
        if originates(init, hop.importer) {
            return Ok(());
        }
        let act = self.act_of(alloc, store, maps, hop, import)?;
        let Some(act) = act else {
            return Ok(());
        };
        self.edges.push(Edge {
            importer: hop.importer,
            exporter: hop.exporter,
            act,
            link: hop.link,
        })?;
        Ok(())
    }
}

/// The edges of all directions in which something is accepted, in order. Acts stand in the order of the
/// first edges that have them.
pub fn bgp_edges(
    alloc: Global,
    store: &mut Store,
    init: &[Option<Route>],
    directions: &SessionHops,
    maps: &PolicyMaps,
) -> Result<BgpEdges, NoMemory>
    requires total { length directions.now.imports.items ≡ length directions.now.hops.items }
    requires inside { AreImportsInside maps.now directions.now.imports.items }
    requires within { AreMapsWithin store.old.universe maps.now.maps.items }
    requires few { length directions.now.hops.items < 2 ^ 32 }
    ensures grows { Grows store.old store.new }
    ensures edges { IfOk result (λ found. (routers : List Router) → AreImportsOf routers directions.now.policies directions.now.hops.items directions.now.imports.items → AreEdgesOfSessions store.new routers init.now (line_maps directions.now.policies maps.now) directions.now.hops.items found) }
{
    growth_adds_up();
    let hops = directions.hops.as_slice();
    let mut found = BgpEdges::with_room(alloc, hops.len())?;
    let imports = directions.imports.as_slice();
    for i in 0..hops.len() {
        found.take(alloc, store, init, maps, &hops[i], &imports[i])?;
    }
    Ok(found)
}

/// The acts as maps: each has those of the first direction that has it.
pub fn written_acts(
    alloc: Global,
    p: Prefix,
    routers: &[Router],
    places: &[Places],
    acts: &[BgpAct],
) -> Result<List<Act>, NoMemory>
    requires { HavePlaces routers.now places.now }
    ensures { IfOk result (λ written. written ≡ map (λ (act : BgpAct). act_of_hop p routers.now act.first) acts.now) }
{
    let mut written = List::new(alloc);
    for act in acts {
        written.push(act_of_hop(alloc, p, routers, places, &act.first)?)?;
    }
    Ok(written)
}
