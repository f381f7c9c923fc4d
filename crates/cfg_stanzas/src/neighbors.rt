//! The neighbours of a BGP process, found by their addresses.

ghost use Rattle.std.specs.Prelude.{ℕ, ◌≡◌, ◌<◌, ◌∷◌, ◌++◌, [], IfOk, OnOk, OnErr, length, false, nat_eq};
ghost use Rattle.std.specs.List.{position};
ghost use Rattle.cfg_ast.specs.declared.items.RouterItem.TheVariants as item;
ghost use Rattle.cfg_stanzas.specs.Neighbors.{change_at};
ghost use Rattle.cfg_stanzas.specs.Changes.{Sets};
ghost use Rattle.cfg_ast.specs.text.Stanzas.{has_neighbor, new_neighbor, set_neighbor, at_neighbor};

use crate::faults::{misplaced, once};
use base_kit::{List, NoMemory};
use cfg_ast::{Named, Neighbor, ReadRefusal, RouterItem};
use named_lists::pushed;
use std::alloc::Global;
use std::collections::BTreeMap;
use std::marker::Model;

/// The neighbours of a BGP process, with the place of each by its address. The lines of a neighbour
/// mostly follow its `remote-as` line, so the address and the place of the last one stand beside the map.
#[derive(Drop)]
pub(crate) struct Neighbors {
    items: Vec<Neighbor>,
    places: BTreeMap<u32, usize>,
    last: Option<(u32, usize)>,
}

impl Model for Neighbors {
    ghost use Rattle.std.specs.Prelude.{List};
    ghost use Rattle.cfg_ast.specs.declared.bgp.Neighbor.{Neighbor};
    ghost use Rattle.cfg_stanzas.specs.Indexes.{AreAddresses};

    ghost Value = { List Neighbor };

    ghost view = { λ a. a.items.items };

    ghost invariant = { λ a. AreAddresses a.places a.last a.items.items };
}

/// A neighbour with only its `remote-as` line so far.
pub(crate) fn new_neighbor(number: u32, addr: u32, remote: u32) -> Neighbor
    ensures { result ≡ new_neighbor number addr remote }
{
    Neighbor {
        addr,
        remote,
        line: number,
        shut: false,
        sends: false,
        list_in: None,
        list_out: None,
        map_in: None,
        map_out: None,
    }
}

#[tactic(auto, unfolding(cfg_ast::specs::text::Stanzas::set_neighbor))]
fn set_list(number: u32, list: Named, inward: bool, peer: &mut Neighbor) -> Result<(), ReadRefusal>
    ensures set { (addr : ℕ) → Sets result peer.new (set_neighbor number (item.PeerList addr list inward) peer.old) }
    ensures err { OnErr result (peer.new ≡ peer.old) }
    ensures addr { peer.new.addr ≡ peer.old.addr }
{
    if inward {
        once(number, peer.list_in.is_some())?;
        peer.list_in = Some(list);
    } else {
        once(number, peer.list_out.is_some())?;
        peer.list_out = Some(list);
    }
    Ok(())
}

#[tactic(auto, unfolding(cfg_ast::specs::text::Stanzas::set_neighbor))]
fn set_map(number: u32, map: Named, inward: bool, peer: &mut Neighbor) -> Result<(), ReadRefusal>
    ensures set { (addr : ℕ) → Sets result peer.new (set_neighbor number (item.PeerMap addr map inward) peer.old) }
    ensures err { OnErr result (peer.new ≡ peer.old) }
    ensures addr { peer.new.addr ≡ peer.old.addr }
{
    if inward {
        once(number, peer.map_in.is_some())?;
        peer.map_in = Some(map);
    } else {
        once(number, peer.map_out.is_some())?;
        peer.map_out = Some(map);
    }
    Ok(())
}

#[tactic(auto, unfolding(cfg_ast::specs::text::Stanzas::set_neighbor))]
fn set_neighbor(number: u32, item: RouterItem, peer: &mut Neighbor) -> Result<(), ReadRefusal>
    ensures set { Sets result peer.new (set_neighbor number item peer.old) }
    ensures err { OnErr result (peer.new ≡ peer.old) }
    ensures addr { peer.new.addr ≡ peer.old.addr }
{
    match item {
        RouterItem::PeerShut(_) => peer.shut = true,
        RouterItem::PeerSends(_) => peer.sends = true,
        RouterItem::PeerList { list, inward, .. } => return set_list(number, list, inward, peer),
        RouterItem::PeerMap { map, inward, .. } => return set_map(number, map, inward, peer),
        _ => {}
    }
    Ok(())
}

impl Neighbors {
    pub(crate) fn new(alloc: Global) -> Self
        ensures { result ≡ [] }
    {
        Neighbors {
            items: Vec::new(alloc),
            places: BTreeMap::new(alloc),
            last: None,
        }
    }

    fn place_of(&self, addr: u32) -> Option<usize>
        ensures { result ≡ position (λ p. nat_eq p.addr addr) self.now }
    {
        if let Some((last, place)) = self.last
            && last == addr
        {
            return Some(place);
        }
        match self.places.get(&addr) {
            Some(place) => Some(*place),
            None => None,
        }
    }

    /// Whether one of them has the address.
    pub(crate) fn has(&self, addr: u32) -> bool
        ensures { result ≡ has_neighbor self.now addr }
    {
        self.places.contains_key(&addr)
    }

    fn with(self, peer: Neighbor) -> Result<Neighbors, NoMemory>
        requires { has_neighbor self peer.addr ≡ false }
        ensures { IfOk result (λ all. all ≡ self ++ peer ∷ []) }
    {
        let Neighbors {
            items,
            mut places,
            ..
        } = self;
        let items = List::from_vec(items);
        let addr = peer.addr;
        let place = items.len();
        places.insert(addr, place)?;
        let items = pushed(items, peer)?;
        Ok(Neighbors {
            items: items.into_vec(),
            places,
            last: Some((addr, place)),
        })
    }

    /// Puts one of another address behind them.
    ///
    /// # Errors
    /// Out of memory: then none is left.
    pub(crate) fn add(&mut self, alloc: Global, peer: Neighbor) -> Result<(), NoMemory>
        requires { has_neighbor self.old peer.addr ≡ false }
        ensures ok { OnOk result (self.new ≡ self.old ++ peer ∷ []) }
        ensures err { OnErr result (self.new ≡ []) }
    {
        let others = std::mem::replace(self, Neighbors::new(alloc));
        *self = others.with(peer)?;
        Ok(())
    }

    fn change_at(&mut self, number: u32, item: RouterItem, place: usize) -> Result<(), ReadRefusal>
        requires { place < length self.old }
        ensures set { Sets result self.new (change_at number item self.old place) }
        ensures err { OnErr result (self.new ≡ self.old) }
    {
        set_neighbor(number, item, &mut self.items[place])?;
        Ok(())
    }

    /// Adds what a line says of the one of the address.
    pub(crate) fn change(
        &mut self,
        number: u32,
        addr: u32,
        item: RouterItem,
    ) -> Result<(), ReadRefusal>
        ensures set { Sets result self.new (at_neighbor number addr (set_neighbor number item) self.old) }
        ensures err { OnErr result (self.new ≡ self.old) }
    {
        match self.place_of(addr) {
            Some(place) => self.change_at(number, item, place),
            None => Err(misplaced(number)),
        }
    }

    pub(crate) fn into_list(self) -> List<Neighbor>
        ensures { result ≡ self }
    {
        let Neighbors { items, .. } = self;
        List::from_vec(items)
    }
}
