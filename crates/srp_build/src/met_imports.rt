//! Imports that were met, with their acts.

ghost use Rattle.std.specs.Prelude.{◌≡◌, ◌<◌, ◌^◌, [], ◌∷◌, ◌++◌, true, IfOk, OnOk, IfSome, Contains, length};
ghost use Rattle.dd_core.specs.Sets.{Grows};
ghost use Rattle.srp_build.specs.MetImports.{AreRight, IsActOfImport, IsMaybeNew, AreMapsWithin};

use crate::acts::Acts;
use crate::hops::Hop;
use crate::imports::ImportByMaps;
use base_kit::NoMemory;
use dd_core::Store;
use policy_dd::edge_fn;
use policy_dd::laws::edge_kept;
use route_maps::Plain;
use std::alloc::Global;
use std::collections::BTreeMap;

/// An import that was met, with its act unless it accepts nothing.
#[derive(Clone, Copy, Debug, PartialEq, Eq)]
pub struct Met {
    pub import: ImportByMaps,
    pub act: Option<u32>,
}

/// The imports that were met, and the place of each.
#[derive(Drop)]
pub struct MetImports {
    pub met: Vec<Met>,
    pub places: BTreeMap<ImportByMaps, usize>,
}

fn is_same_import(a: &ImportByMaps, b: &ImportByMaps) -> bool
    ensures { result ≡ true → a.now ≡ b.now }
{
    a.out == b.out && a.sends == b.sends && a.into == b.into
}

// The import as it was met, if it stands at this place.
fn met_at(met: &[Met], place: usize, import: &ImportByMaps) -> Option<Met>
    ensures within { IfSome result (Contains met.now) }
    ensures import { IfSome result (λ m. m.import ≡ import.now) }
{
    if let Some(m) = met.get(place) {
        if is_same_import(&m.import, import) {
            return Some(*m);
        }
    }
    None
}

// So many of the first imports are looked at before their places are asked.
const FEW: usize = 4;

// The import as it was met, among the first few.
fn met_early(met: &[Met], import: &ImportByMaps) -> Option<Met>
    ensures within { IfSome result (Contains met.now) }
    ensures import { IfSome result (λ m. m.import ≡ import.now) }
{
    for place in 0..met.len().min(FEW) {
        let m = met[place];
        if is_same_import(&m.import, import) {
            return Some(m);
        }
    }
    None
}

impl MetImports {
    /// No imports yet.
    pub fn new(alloc: Global) -> Self
        ensures { result.met.items ≡ [] }
    {
        MetImports {
            met: Vec::new(alloc),
            places: BTreeMap::new(alloc),
        }
    }

    fn look(&self, import: &ImportByMaps) -> Option<Met>
        ensures within { IfSome result (Contains self.now.met.items) }
        ensures import { IfSome result (λ m. m.import ≡ import.now) }
    {
        if let Some(met) = met_early(&self.met, import) {
            return Some(met);
        }
        let place = self.places.get(import)?;
        met_at(&self.met, *place, import)
    }

    fn push(&mut self, met: Met) -> Result<(), NoMemory>
        ensures { OnOk result (self.new.met.items ≡ self.old.met.items ++ met ∷ []) }
    {
        let place = self.met.len();
        self.met.push(met)?;
        self.places.insert(met.import, place)?;
        Ok(())
    }
}

/// The act of an import over these maps, none where it accepts nothing. An import that was met before
/// is not turned into diagrams again.
pub fn act_of_import(
    alloc: Global,
    store: &mut Store,
    maps: &[Plain],
    acts: &mut Acts,
    imports: &mut MetImports,
    hop: &Hop,
    import: &ImportByMaps,
) -> Result<Option<u32>, NoMemory>
    requires out { import.now.out < length maps.now }
    requires into { import.now.into < length maps.now }
    requires within { AreMapsWithin store.old.universe maps.now }
    requires right { AreRight store.old maps.now acts.old imports.old }
    requires few { length acts.old.acts.items < 2 ^ 32 }
    ensures grows { Grows store.old store.new }
    ensures right { OnOk result (AreRight store.new maps.now acts.new imports.new) }
    ensures act { IfOk result (IsActOfImport maps.now acts.new.acts.items import.now) }
    ensures came { IfOk result (IsMaybeNew acts.old.acts.items acts.new.acts.items hop.now import.now) }
{
    edge_kept();
    if let Some(met) = imports.look(import) {
        return Ok(met.act);
    }
    let out = &maps[import.out];
    let into = &maps[import.into];
    let function = edge_fn(alloc, store, out, import.sends, into)?;
    let act = acts.act_of_function(alloc, store, hop, import, function)?;
    imports.push(Met {
        import: *import,
        act,
    })?;
    Ok(act)
}
