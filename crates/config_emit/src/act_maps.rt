//! The maps that an act gives both ends of a link, by numbers.

ghost use Rattle.std.specs.Prelude.{◌≡◌, false, Some, None, IfOk, OnOk, option_copied};
ghost use Rattle.std.specs.Option.{option_map};
ghost use Rattle.config_emit.specs.LinkSteps.{act_by};
ghost use Rattle.config_emit.specs.Maps.{closed_map, act_in_map, act_out_map};
ghost use Rattle.config_emit.specs.MapNumbers.{maps_now, AreNumbers, IsGrown, IsKnown, map_number, act_maps, HasMaps, KnowsClosed, AreKnown, ArePolicies};
ghost use Rattle.srp_core.specs.declared.route.Act.TheVariants as act;

use crate::map_keys::map_key;
use crate::map_numbers::{MapNumbers, number_map};
use crate::written::is_whole;
use base_kit::NoMemory;
use number_hashing::{FEW, NumberDigest, NumberHashing};
use route_maps::Plain;
use srp_core::Act;
use std::alloc::Global;
use std::collections::HashMap;

/// The numbers of the maps that an act gives both ends, none for a map that is written as no line, and
/// whether the exporter sends communities.
#[derive(Clone, Copy, Debug, PartialEq, Eq)]
pub(crate) struct ActMaps {
    pub(crate) into: Option<usize>,
    pub(crate) out: Option<usize>,
    pub(crate) sends: bool,
}

/// The maps of the acts, by numbers: maps that say the same have one number. `closed` is the map that
/// denies all.
#[derive(Drop)]
pub(crate) struct Policies<'a> {
    pub(crate) acts: &'a [Act],
    pub(crate) closed: &'a Plain,
    pub(crate) maps: Vec<&'a Plain>,
    pub(crate) closed_number: usize,
    pub(crate) numbers: Vec<ActMaps>,
}

// The maps of a direction that carries nothing.
fn closed_maps(closed: usize) -> ActMaps
    ensures { result ≡ record { into = Some closed; out = None; sends = false } }
{
    ActMaps {
        into: Some(closed),
        out: None,
        sends: false,
    }
}

fn map_number<'a>(
    alloc: Global,
    known: &mut MapNumbers<'a>,
    plain: &'a Plain,
) -> Result<Option<usize>, NoMemory>
    requires { AreNumbers known.old.numbers (maps_now known.old.maps.items) }
    ensures known { OnOk result (AreNumbers known.new.numbers (maps_now known.new.maps.items)) }
    ensures grown { OnOk result (IsGrown (maps_now known.old.maps.items) (maps_now known.new.maps.items)) }
    ensures has { OnOk result (IsKnown (maps_now known.new.maps.items) plain.now) }
    ensures number { IfOk result (λ n. n ≡ map_number (maps_now known.new.maps.items) plain.now) }
{
    if is_whole(plain) {
        return Ok(None);
    }
    let number = number_map(alloc, known, plain)?;
    Ok(Some(number))
}

fn import_maps<'a>(
    alloc: Global,
    known: &mut MapNumbers<'a>,
    out: &'a Plain,
    sends: bool,
    into: &'a Plain,
) -> Result<ActMaps, NoMemory>
    requires { AreNumbers known.old.numbers (maps_now known.old.maps.items) }
    ensures known { OnOk result (AreNumbers known.new.numbers (maps_now known.new.maps.items)) }
    ensures grown { OnOk result (IsGrown (maps_now known.old.maps.items) (maps_now known.new.maps.items)) }
    ensures maps { IfOk result (HasMaps (maps_now known.new.maps.items) (act.Import out.now sends into.now)) }
{
    let into = map_number(alloc, known, into)?;
    let out = map_number(alloc, known, out)?;
    Ok(ActMaps { into, out, sends })
}

fn act_maps<'a>(
    alloc: Global,
    known: &mut MapNumbers<'a>,
    closed: usize,
    act: &'a Act,
) -> Result<ActMaps, NoMemory>
    requires known { AreNumbers known.old.numbers (maps_now known.old.maps.items) }
    requires closed { KnowsClosed (maps_now known.old.maps.items) closed }
    ensures known { OnOk result (AreNumbers known.new.numbers (maps_now known.new.maps.items)) }
    ensures grown { OnOk result (IsGrown (maps_now known.old.maps.items) (maps_now known.new.maps.items)) }
    ensures maps { IfOk result (HasMaps (maps_now known.new.maps.items) act.now) }
{
    match act {
        Act::Import { out, sends, into } => import_maps(alloc, known, out, *sends, into),
        Act::Cost(_) => Ok(closed_maps(closed)),
    }
}

fn maps_of_acts<'a>(
    alloc: Global,
    known: &mut MapNumbers<'a>,
    closed: usize,
    acts: &'a [Act],
) -> Result<Vec<ActMaps>, NoMemory>
    requires known { AreNumbers known.old.numbers (maps_now known.old.maps.items) }
    requires closed { KnowsClosed (maps_now known.old.maps.items) closed }
    ensures closed { OnOk result (KnowsClosed (maps_now known.new.maps.items) closed) }
    ensures acts { IfOk result (λ numbers. AreKnown (maps_now known.new.maps.items) acts.now numbers.items) }
{
    let mut numbers = Vec::new(alloc);
    for act in acts {
        numbers.push(act_maps(alloc, known, closed, act)?)?;
    }
    Ok(numbers)
}

fn add_maps(alloc: Global, numbers: &mut NumberDigest, act: &Act) -> Result<(), NoMemory> {
    if let Act::Import { out, into, .. } = act {
        numbers.add(&map_key(alloc, out)?);
        numbers.add(&map_key(alloc, into)?);
    }
    Ok(())
}

// The hash for a table of what the maps of the acts say.
fn hashing_of(alloc: Global, acts: &[Act]) -> Result<NumberHashing, NoMemory> {
    if acts.len() <= FEW {
        return Ok(NumberHashing::plain());
    }
    let mut numbers = NumberDigest::for_count(acts.len());
    for act in acts {
        add_maps(alloc, &mut numbers, act)?;
    }
    Ok(numbers.hashing())
}

/// The maps of the acts, by numbers.
pub(crate) fn policies_of<'a>(
    alloc: Global,
    closed: &'a Plain,
    acts: &'a [Act],
) -> Result<Policies<'a>, NoMemory>
    requires { closed.now ≡ closed_map }
    ensures policies { IfOk result ArePolicies }
    ensures acts { IfOk result (λ p. p.acts.now ≡ acts.now) }
{
    let hashing = hashing_of(alloc, acts)?;
    let mut known = MapNumbers {
        maps: Vec::new(alloc),
        numbers: HashMap::with_hasher(alloc, hashing),
    };
    let closed_number = number_map(alloc, &mut known, closed)?;
    let numbers = maps_of_acts(alloc, &mut known, closed_number, acts)?;
    Ok(Policies {
        acts,
        closed,
        maps: known.maps,
        closed_number,
        numbers,
    })
}

/// The maps of an act by its place, by numbers; where there is none, those of a direction that carries
/// nothing.
pub(crate) fn maps_at(policies: &Policies, place: Option<u32>) -> ActMaps
    requires { ArePolicies policies.now }
    ensures { result ≡ act_maps (maps_now policies.now.maps.items) (option_map (act_by policies.now.acts.now) place) }
{
    match place {
        Some(place) => match policies.numbers.get(place as usize) {
            Some(maps) => *maps,
            None => closed_maps(policies.closed_number),
        },
        None => closed_maps(policies.closed_number),
    }
}

/// The in map that an act gives its importer.
pub(crate) fn into_map<'a>(policies: &Policies<'a>, place: Option<u32>) -> &'a Plain
    requires { ArePolicies policies.now }
    ensures { result.now ≡ act_in_map (option_map (act_by policies.now.acts.now) place) }
{
    match place {
        Some(place) => match policies.acts.get(place as usize) {
            Some(Act::Import { into, .. }) => into,
            _ => policies.closed,
        },
        None => policies.closed,
    }
}

/// The out map that an act gives its exporter.
pub(crate) fn out_map<'a>(policies: &Policies<'a>, place: Option<u32>) -> Option<&'a Plain>
    ensures { option_copied result ≡ act_out_map (option_map (act_by policies.now.acts.now) place) }
{
    match policies.acts.get(place? as usize) {
        Some(Act::Import { out, .. }) => Some(out),
        _ => None,
    }
}
