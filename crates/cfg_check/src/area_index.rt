//! A router's OSPF lines, by which its interfaces are looked up.

ghost use Rattle.std.specs.Prelude.{◌≡◌, ◌<◌, IfOk, length, bytes_eq};
ghost use Rattle.std.specs.List.{list_any};
ghost use Rattle.cfg_ast.specs.meaning.Topology.{is_in_area_interface, is_active_interface, is_passive_in};
ghost use Rattle.cfg_ast.specs.meaning.RouterFaults.{areas_of};
ghost use Rattle.cfg_check.specs.Items.{active_address_on};
ghost use Rattle.cfg_check.specs.NameSets.{HasNames};
ghost use Rattle.cfg_check.specs.AreaLines.{listed_of};

use crate::area_table::AreaTable;
use crate::processes::areas;
use base_kit::{NoMemory, Text};
use cfg_ast::{Address, Interface, Router};
use numbered_names::{NameHashing, NameSet};
use std::alloc::Global;

// So many names are compared one by one: to look one up in a set takes longer.
const FEW: usize = 4;

/// The OSPF lines of a router, by which its interfaces are looked up.
#[derive(Drop)]
pub struct AreaIndex<'a> {
    pub router: &'a Router,
    table: AreaTable<'a>,
    names: NameSet<'a>,
    pub ghost lines: { table.lines.now ≡ areas_of router.now },
    pub ghost listed: { 4 < length (listed_of router.now.ospf) → HasNames names (λ q. list_any (bytes_eq q) (listed_of router.now.ospf)) },
}

// The names that make their interfaces passive; if all others are passive, the names that make them not
// passive.
fn listed(router: &Router) -> &[Text]
    ensures { result.now ≡ listed_of router.now.ospf }
{
    match &router.ospf {
        Some(process) => {
            if process.passive_default {
                process.not_passive.as_slice()
            } else {
                process.passive.as_slice()
            }
        }
        None => &[],
    }
}

// The set of the names. It is used only if they are many.
fn name_set(alloc: Global, texts: &[Text]) -> Result<NameSet<'_>, NoMemory>
    ensures { IfOk result (λ names. 4 < length texts.now → HasNames names (λ q. list_any (bytes_eq q) texts.now)) }
{
    let mut names = NameSet::new(alloc, NameHashing::of(texts));
    if texts.len() <= FEW {
        return Ok(names);
    }
    for text in texts {
        names.insert(text.as_str())?;
    }
    Ok(names)
}

impl<'a> AreaIndex<'a> {
    /// The index of the router's lines.
    pub fn of(alloc: Global, router: &'a Router) -> Result<AreaIndex<'a>, NoMemory>
        ensures { IfOk result (λ index. index.router.now ≡ router.now) }
    {
        let table = AreaTable::of(alloc, areas(router))?;
        let names = name_set(alloc, listed(router))?;
        Ok(AreaIndex {
            router,
            table,
            names,
        })
    }

    // Whether the name is one of those that the set has.
    fn is_listed(&self, name: &Text) -> bool
        ensures { result ≡ list_any (bytes_eq name.now) (listed_of self.now.router.now.ospf) }
    {
        let listed = listed(self.router);
        if listed.len() <= FEW {
            return listed.iter().any(|other| name.as_str() == other.as_str());
        }
        self.names.contains(name.as_str())
    }

    fn is_passive(&self, name: &Text) -> bool
        ensures { result ≡ is_passive_in self.now.router.now.ospf name.now }
    {
        let Some(process) = &self.router.ospf else {
            return false;
        };
        let is_listed = self.is_listed(name);
        if process.passive_default {
            !is_listed
        } else {
            is_listed
        }
    }

    /// Whether an interface of the router is up and in the OSPF area.
    pub fn has_in_area(&self, interface: &Interface) -> bool
        ensures { result ≡ is_in_area_interface self.now.router.now interface.now }
    {
        match interface.up_address() {
            Some(address) => self.table.has_address(address.addr()),
            None => false,
        }
    }

    /// Whether an interface of the router is in the OSPF area and not passive.
    pub fn has_active(&self, interface: &Interface) -> bool
        ensures { result ≡ is_active_interface self.now.router.now interface.now }
    {
        self.has_in_area(interface) && !self.is_passive(&interface.name)
    }

    /// The address of an interface of the router that is active.
    pub fn active_address(&self, interface: &Interface) -> Option<Address>
        ensures { result ≡ active_address_on self.now.router.now interface.now }
    {
        if self.has_active(interface) {
            interface.up_address()
        } else {
            None
        }
    }
}
