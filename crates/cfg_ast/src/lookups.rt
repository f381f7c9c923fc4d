//! Questions about one interface of a router.

ghost use Rattle.std.specs.Prelude.{◌≡◌, ◌<◌, ◌≤◌, length, map};
ghost use Rattle.std.specs.List.{list_any, position_or_len};
ghost use Rattle.std.specs.Option.{option_map_or};
ghost use Rattle.base_kit.specs.Numbers.{is_digit};
ghost use Rattle.cfg_ast.specs.text.Words.{mask_of};
ghost use Rattle.cfg_ast.specs.declared.bgp.Base.{Base};
ghost use Rattle.cfg_ast.specs.meaning.Policy.{default_preference};
ghost use Rattle.cfg_ast.specs.meaning.Topology.{subnet_of_address, is_up_interface, up_address, subnet_of_interface, line_has_address, is_in_area_interface, names, is_passive_name, is_active_interface, type_of, default_costs, default_cost_of, cost_of_interface, is_up, subnet_of, is_in_area, is_active, cost_of};

use crate::bgp::BgpProcess;
use crate::interface::{Address, Interface};
use crate::network::Router;
use crate::ospf::{AreaLine, OspfProcess};
use base_kit::{Prefix, Text};

/// The mask of a length (RFC 950).
pub fn mask_of(len: u8) -> u32
    requires { len ≤ 32 }
    ensures { result ≡ mask_of len }
{
    ((1u64 << 32) - (1u64 << (32 - len))) as u32
}

impl Address {
    /// The address cut to its mask (RFC 4632 section 3.1).
    pub fn subnet(&self) -> Prefix
        ensures { result ≡ subnet_of_address self.now }
    {
        let len = self.len();
        let host_bits = 32 - len;
        let first = (self.addr() as u64 >> host_bits) << host_bits;
        Prefix::new(first as u32, len)
    }
}

impl Interface {
    /// Whether the interface has an address and no `shutdown`.
    pub fn is_up(&self) -> bool
        ensures { result ≡ is_up_interface self.now }
    {
        self.address.is_some() && !self.shut
    }

    /// The address of an up interface.
    pub fn up_address(&self) -> Option<Address>
        ensures { result ≡ up_address self.now }
    {
        if self.shut { None } else { self.address }
    }

    /// The subnet of its address.
    pub fn subnet(&self) -> Option<Prefix>
        ensures { result ≡ subnet_of_interface self.now }
    {
        let address = self.address?;
        Some(address.subnet())
    }

    /// The type of the interface: its name up to its first digit.
    pub fn type_name(&self) -> &[u8]
        ensures { result.now ≡ type_of self.now }
    {
        let name = self.name.as_str().as_bytes();
        &name[..first_digit(name)]
    }

    /// The cost that `ip ospf cost` gives, else the default cost of the type.
    pub fn cost(&self) -> Option<u16>
        ensures { result ≡ cost_of_interface self.now }
    {
        match self.cost {
            Some(cost) => Some(cost),
            None => default_cost(self.type_name()),
        }
    }
}

// The types that have a default cost.
const DEFAULT_COSTS: [(&str, u16); 7] = [
    ("Loopback", 1),
    ("FastEthernet", 1),
    ("GigabitEthernet", 1),
    ("TenGigabitEthernet", 1),
    ("Vlan", 1),
    ("Ethernet", 10),
    ("Serial", 64),
];

#[tactic(auto, unfolding(crate::specs::meaning::Topology::default_costs))]
fn default_costs() -> &'static [(&'static str, u16)]
    ensures { map (λ row. (row.0.now, row.1)) result.now ≡ default_costs }
{
    &DEFAULT_COSTS
}

// The default cost of a type, if it has one.
fn default_cost(type_name: &[u8]) -> Option<u16>
    ensures { result ≡ default_cost_of type_name.now }
{
    let rows = default_costs();
    for row in rows {
        if row.0.as_bytes() == type_name {
            return Some(row.1);
        }
    }
    None
}

// The place of the first digit, or the length of the name.
fn first_digit(name: &[u8]) -> usize
    ensures { result ≡ position_or_len is_digit name.now }
{
    for (i, b) in name.iter().enumerate() {
        if b.is_ascii_digit() {
            return i;
        }
    }
    name.len()
}

impl AreaLine {
    /// Whether the address agrees with the line in all bits where its wildcard has 0.
    pub fn has_address(&self, addr: u32) -> bool
        ensures { result ≡ line_has_address self.now addr }
    {
        addr | self.wild == self.addr | self.wild
    }
}

impl OspfProcess {
    /// Whether some `network` line has the address.
    pub fn has_address(&self, addr: u32) -> bool
        ensures { result ≡ list_any (λ line. line_has_address line addr) self.now.areas }
    {
        self.areas
            .as_slice()
            .iter()
            .any(|line| line.has_address(addr))
    }

    /// Whether an interface of that name is passive, by name or by default.
    pub fn holds_passive(&self, name: &Text) -> bool
        ensures { result ≡ is_passive_name self.now name.now }
    {
        if self.passive_default {
            !has_name(self.not_passive.as_slice(), name)
        } else {
            has_name(self.passive.as_slice(), name)
        }
    }
}

fn has_name(all: &[Text], name: &Text) -> bool
    ensures { result ≡ names all.now name.now }
{
    all.iter().any(|other| other.as_str() == name.as_str())
}

impl BgpProcess {
    fn default_preference(&self) -> u32
        ensures { result ≡ option_map_or (λ (base : Base). base.value) self.now.base 100 }
    {
        match self.base {
            Some(base) => base.value,
            None => 100,
        }
    }
}

impl Router {
    /// The default preference of the router: that of its `bgp default local-preference` line, else 100.
    pub fn default_preference(&self) -> u32
        ensures { result ≡ default_preference self.now }
    {
        match &self.bgp {
            Some(process) => process.default_preference(),
            None => 100,
        }
    }

    /// Whether the interface, one of this router, is up and in the OSPF area.
    pub fn has_in_area(&self, interface: &Interface) -> bool
        ensures { result ≡ is_in_area_interface self.now interface.now }
    {
        match (interface.up_address(), &self.ospf) {
            (Some(address), Some(process)) => process.has_address(address.addr()),
            _ => false,
        }
    }

    /// Whether the interface, one of this router, is in the OSPF area and not passive.
    pub fn has_active(&self, interface: &Interface) -> bool
        ensures { result ≡ is_active_interface self.now interface.now }
    {
        match &self.ospf {
            Some(process) => self.has_in_area(interface) && !process.holds_passive(&interface.name),
            None => false,
        }
    }
}

/// Whether the interface at that place of the router has an address and no `shutdown`.
pub fn up(router: &Router, interface: usize) -> bool
    requires { interface < length router.now.interfaces }
    ensures { result ≡ is_up router.now interface }
{
    router.interfaces.as_slice()[interface].is_up()
}

/// The subnet of the interface at that place of the router, if it has an address.
pub fn subnet(router: &Router, interface: usize) -> Option<Prefix>
    requires { interface < length router.now.interfaces }
    ensures { result ≡ subnet_of router.now interface }
{
    router.interfaces.as_slice()[interface].subnet()
}

/// Whether the interface at that place of the router is up and in the OSPF area.
pub fn in_area(router: &Router, interface: usize) -> bool
    requires { interface < length router.now.interfaces }
    ensures { result ≡ is_in_area router.now interface }
{
    router.has_in_area(&router.interfaces.as_slice()[interface])
}

/// Whether the interface at that place of the router is in the OSPF area and not passive.
pub fn active(router: &Router, interface: usize) -> bool
    requires { interface < length router.now.interfaces }
    ensures { result ≡ is_active router.now interface }
{
    router.has_active(&router.interfaces.as_slice()[interface])
}

/// The OSPF cost of the interface at that place of the router: the one that is given, else the default
/// of its type, if it has one.
pub fn ospf_cost(router: &Router, interface: usize) -> Option<u16>
    requires { interface < length router.now.interfaces }
    ensures { result ≡ cost_of router.now interface }
{
    router.interfaces.as_slice()[interface].cost()
}
