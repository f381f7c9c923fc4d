//! Calls that check networks and ask about them.

ghost use Rattle.std.specs.Prelude.{◌≡◌, ◌<◌, IfErr, IfOk, length};
ghost use Rattle.cfg_ast.specs.meaning.Classes.{classes_of};
ghost use Rattle.cfg_ast.specs.meaning.Meaning.{judged};
ghost use Rattle.cfg_ast.specs.meaning.PolicyFaults.{communities_of};
ghost use Rattle.cfg_ast.specs.meaning.RouterFaults.{area_of, protocol_of};
ghost use Rattle.cfg_ast.specs.meaning.Topology.{cost_of, is_active, is_in_area, is_up, links_of, subnet_of, unmatched_of};
ghost use Rattle.cfg_ast.specs.text.Answers.{RefusesAs};
ghost use Rattle.cfg_ast.specs.text.Reading.{IsGiven};

use base_kit::{List, NoMemory, NumSet, Prefix, Protocol};
use cfg_ast::{Network, ReadRefusal, Router, active, in_area, ospf_cost, subnet, up};
use cfg_check::{Checked, check_network};
use dest_classes::{DestClass, classes};
use net_topology::{Link, Unmatched, links, unmatched};
use std::alloc::Global;

/// A network of a text, where no fault of meaning stands in it.
pub fn checked(alloc: Global, network: Network) -> Result<Checked, ReadRefusal>
    requires { IsGiven network }
    ensures ok { IfOk result (λ checked. checked.network ≡ network) }
    ensures refused { IfErr result (λ refusal. RefusesAs refusal (judged network)) }
{
    check_network(alloc, network)
}

/// The network that was checked.
pub fn network_of(net: &Checked) -> &Network
    ensures { result.now ≡ net.now.network }
{
    net.network()
}

/// The protocol that a network runs.
pub fn protocol_run(net: &Checked) -> Option<Protocol>
    ensures { result ≡ protocol_of net.now.network }
{
    net.protocol()
}

/// The area of a network that runs OSPF.
pub fn area_run(net: &Checked) -> Option<u32>
    ensures { result ≡ area_of net.now.network }
{
    net.area()
}

/// All communities that the lines of a network name.
pub fn communities_named(net: &Checked) -> &NumSet
    ensures { result.now ≡ communities_of net.now.network }
{
    net.communities()
}

/// Whether an interface is up.
pub fn interface_is_up(router: &Router, interface: usize) -> bool
    requires { interface < length router.now.interfaces }
    ensures { result ≡ is_up router.now interface }
{
    up(router, interface)
}

/// The subnet of an interface.
pub fn interface_subnet(router: &Router, interface: usize) -> Option<Prefix>
    requires { interface < length router.now.interfaces }
    ensures { result ≡ subnet_of router.now interface }
{
    subnet(router, interface)
}

/// Whether an interface is in the OSPF area.
pub fn interface_is_in_area(router: &Router, interface: usize) -> bool
    requires { interface < length router.now.interfaces }
    ensures { result ≡ is_in_area router.now interface }
{
    in_area(router, interface)
}

/// Whether an interface makes adjacencies.
pub fn interface_is_active(router: &Router, interface: usize) -> bool
    requires { interface < length router.now.interfaces }
    ensures { result ≡ is_active router.now interface }
{
    active(router, interface)
}

/// The OSPF cost of an interface.
pub fn interface_cost(router: &Router, interface: usize) -> Option<u16>
    requires { interface < length router.now.interfaces }
    ensures { result ≡ cost_of router.now interface }
{
    ospf_cost(router, interface)
}

/// The sessions or adjacencies of a network.
pub fn links_in(alloc: Global, net: &Checked) -> Result<List<Link>, NoMemory>
    ensures { IfOk result (λ found. found ≡ links_of net.now.network) }
{
    links(alloc, net)
}

/// The neighbours of a network that are part of no session.
pub fn unmatched_in(alloc: Global, net: &Checked) -> Result<List<Unmatched>, NoMemory>
    ensures { IfOk result (λ found. found ≡ unmatched_of net.now.network) }
{
    unmatched(alloc, net)
}

/// The destination classes of a network.
pub fn classes_in(alloc: Global, net: &Checked) -> Result<List<DestClass>, NoMemory>
    ensures { IfOk result (λ found. found ≡ classes_of net.now.network) }
{
    classes(alloc, net)
}
