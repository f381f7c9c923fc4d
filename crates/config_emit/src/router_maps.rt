//! The maps that a group uses, in the order of their use.

ghost use Rattle.std.specs.Prelude.{◌≡◌, [], map, flat_map, option_copied, IfOk, OnOk};
ghost use Rattle.std.specs.Option.{option_map};
ghost use Rattle.config_emit.specs.MapNumbers.{maps_now, ArePolicies};
ghost use Rattle.config_emit.specs.RouterMaps.{use_now, with_use, with_uses, listed_use, far_end, uses_on, AreUses, use_place, use_name};

use crate::act_links::ActLink;
use crate::act_maps::{Policies, into_map, maps_at, out_map};
use crate::written::map_name;
use base_kit::NoMemory;
use cfg_ast::Named;
use route_maps::Plain;
use std::alloc::Global;
use std::collections::HashMap;

/// A map that a router uses, with its number.
#[derive(Clone, Copy)]
pub(crate) struct MapUse<'a> {
    pub(crate) number: usize,
    pub(crate) plain: &'a Plain,
}

/// The maps of a router in the order of their first use, and the places of their numbers, from 1.
#[derive(Drop)]
pub(crate) struct RouterMaps<'a> {
    pub(crate) uses: Vec<MapUse<'a>>,
    pub(crate) places: HashMap<usize, usize>,
}

fn put_use<'a>(found: &mut RouterMaps<'a>, number: usize, plain: &'a Plain) -> Result<(), NoMemory>
    requires { AreUses found.old.places (map use_now found.old.uses.items) }
    ensures places { OnOk result (AreUses found.new.places (map use_now found.new.uses.items)) }
    ensures uses { OnOk result (map use_now found.new.uses.items ≡ with_use (number, plain.now) (map use_now found.old.uses.items)) }
{
    if let Some(_place) = found.places.get(&number) {
        return Ok(());
    }
    found.uses.push(MapUse { number, plain })?;
    let last = found.uses.as_slice().len();
    found.places.insert(number, last)?;
    Ok(())
}

fn put_some_use<'a>(
    found: &mut RouterMaps<'a>,
    number: Option<usize>,
    plain: Option<&'a Plain>,
) -> Result<(), NoMemory>
    requires { AreUses found.old.places (map use_now found.old.uses.items) }
    ensures places { OnOk result (AreUses found.new.places (map use_now found.new.uses.items)) }
    ensures uses { OnOk result (map use_now found.new.uses.items ≡ with_uses (listed_use number (option_copied plain.entry)) (map use_now found.old.uses.items)) }
{
    match (number, plain) {
        (Some(number), Some(plain)) => put_use(found, number, plain),
        _ => Ok(()),
    }
}

/// The end of a link that a group faces.
pub(crate) fn far_end(group: u32, link: &ActLink) -> u32
    ensures { result ≡ far_end group link.now }
{
    if link.low == group {
        link.high
    } else {
        link.low
    }
}

fn put_uses_on<'a>(
    found: &mut RouterMaps<'a>,
    policies: &Policies<'a>,
    group: u32,
    link: &ActLink,
) -> Result<(), NoMemory>
    requires policies { ArePolicies policies.now }
    requires places { AreUses found.old.places (map use_now found.old.uses.items) }
    ensures places { OnOk result (AreUses found.new.places (map use_now found.new.uses.items)) }
    ensures uses { OnOk result (map use_now found.new.uses.items ≡ with_uses (uses_on (maps_now policies.now.maps.items) policies.now.acts.now group link.now) (map use_now found.old.uses.items)) }
{
    let here = link.act_to(group);
    let there = link.act_to(far_end(group, link));
    put_some_use(
        found,
        maps_at(policies, here).into,
        Some(into_map(policies, here)),
    )?;
    put_some_use(
        found,
        maps_at(policies, there).out,
        out_map(policies, there),
    )?;
    Ok(())
}

/// The maps of a group with these links.
pub(crate) fn router_maps<'a>(
    alloc: Global,
    policies: &Policies<'a>,
    group: u32,
    links: &[ActLink],
) -> Result<RouterMaps<'a>, NoMemory>
    requires { ArePolicies policies.now }
    ensures places { IfOk result (λ found. AreUses found.places (map use_now found.uses.items)) }
    ensures uses { IfOk result (λ found. map use_now found.uses.items ≡ with_uses (flat_map (uses_on (maps_now policies.now.maps.items) policies.now.acts.now group) links.now) []) }
{
    let mut found = RouterMaps {
        uses: Vec::new(alloc),
        places: HashMap::new(alloc),
    };
    for link in links {
        put_uses_on(&mut found, policies, group, link)?;
    }
    Ok(found)
}

fn use_place(maps: &RouterMaps, number: usize) -> usize
    requires { AreUses maps.now.places (map use_now maps.now.uses.items) }
    ensures { result ≡ use_place (map use_now maps.now.uses.items) number }
{
    match maps.places.get(&number) {
        Some(place) => *place,
        None => maps.uses.as_slice().len() + 1,
    }
}

/// The name of the map with that number.
pub(crate) fn use_name(
    alloc: Global,
    maps: &RouterMaps,
    number: Option<usize>,
) -> Result<Option<Named>, NoMemory>
    requires { AreUses maps.now.places (map use_now maps.now.uses.items) }
    ensures { IfOk result (λ name. name ≡ option_map (use_name (map use_now maps.now.uses.items)) number) }
{
    match number {
        Some(number) => Ok(Some(Named {
            name: map_name(alloc, use_place(maps, number))?,
            line: 0,
        })),
        None => Ok(None),
    }
}
