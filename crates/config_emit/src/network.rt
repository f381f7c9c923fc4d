//! The network of the groups of a class.

ghost use Rattle.std.specs.Prelude.{◌≡◌, ℕ, map, IfOk, Contains};
ghost use Rattle.std.specs.List.{range_with_len};
ghost use Rattle.base_kit.specs.declared.protocol.Protocol.TheVariants as over;
ghost use Rattle.base_kit.specs.Prefixes.{Prefix};
ghost use Rattle.base_kit.specs.Partition.{IsNumbered};
ghost use Rattle.cfg_ast.specs.meaning.Classes.{classes_of};
ghost use Rattle.abstract_net.specs.Links.{quotient_links};
ghost use Rattle.srp_core.specs.ProblemOf.{IsProblemOf};
ghost use Rattle.srp_core.specs.Quotient.{IsAdmissible};
ghost use Rattle.config_emit.specs.Answers.{Emits};
ghost use Rattle.config_emit.specs.Emitted.{emitted_router, emitted, notes_of, area_number};
ghost use Rattle.config_emit.specs.Sources.{plan_of, IsSource, HasLinks};

use crate::act_links::act_links;
use crate::act_maps::policies_of;
use crate::as_numbers::numbers_of_groups;
use crate::bgp_routers::bgp_routers;
use crate::emitted::{EmitRefusal, Emitted};
use crate::groups::member_names;
use crate::links_by_group::{LinksByGroup, by_group};
use crate::pool::pool_line;
use crate::routers::ospf_routers;
use crate::source::Source;
use abstract_net::Quotient;
use abstract_net::laws::no_more_links;
use base_kit::{List, NoMemory, Protocol};
use cfg_ast::{DestClass, Network, Notes, Router};
use cfg_check::Checked;
use given_laws::given_is_well_formed;
use net_topology::laws::few_links;
use refine_partition::Partition;
use route_maps::Plain;
use srp_core::Srp;
use std::alloc::Global;

fn bgp_routers_of(
    alloc: Global,
    source: &Source,
    index: &LinksByGroup,
) -> Result<List<Router>, NoMemory>
    requires source { IsSource source.now }
    requires bgp { source.now.srp.now.protocol ≡ over.Bgp }
    requires links { HasLinks (plan_of source.now) index.now }
    ensures { IfOk result (λ routers. routers ≡ map (emitted_router (plan_of source.now)) (range_with_len 0 source.now.count)) }
{
    let closed = Plain {
        entries: List::new(alloc),
    };
    let policies = policies_of(alloc, &closed, source.srp.acts())?;
    let numbers = numbers_of_groups(alloc, source, index)?;
    let routers = bgp_routers(alloc, source, index, &policies, &numbers)?;
    Ok(routers)
}

fn routers_of(
    alloc: Global,
    source: &Source,
    index: &LinksByGroup,
    area: u32,
) -> Result<List<Router>, NoMemory>
    requires source { IsSource source.now }
    requires links { HasLinks (plan_of source.now) index.now }
    requires area { area ≡ area_number (plan_of source.now) }
    ensures { IfOk result (λ routers. routers ≡ map (emitted_router (plan_of source.now)) (range_with_len 0 source.now.count)) }
{
    match source.srp.protocol() {
        Protocol::Bgp => bgp_routers_of(alloc, source, index),
        Protocol::Ospf => ospf_routers(alloc, source, index, area),
    }
}

fn network_of(alloc: Global, source: &Source, area: u32) -> Result<Network, NoMemory>
    requires source { IsSource source.now }
    requires area { area ≡ area_number (plan_of source.now) }
    ensures { IfOk result (λ network. network ≡ emitted (plan_of source.now)) }
{
    let links = act_links(alloc, source.srp, source.links)?;
    let index = by_group(alloc, &links, source.count)?;
    let routers = routers_of(alloc, source, &index, area)?;
    Ok(Network { routers })
}

fn notes_of(alloc: Global, source: &Source) -> Result<Notes, NoMemory>
    requires source { IsSource source.now }
    ensures { IfOk result (λ notes. notes ≡ notes_of (plan_of source.now)) }
{
    let names = source.srp.names().as_slice();
    let members = member_names(alloc, names, source.groups, source.count)?;
    Ok(Notes { members })
}

/// The network of the groups of a class of `net`: of its problem `srp`, an admissible partition `p` of
/// the problem and the links `q` of the groups. `PoolOverlap` exactly if a prefix of the class meets
/// 100.64.0.0/10. All line numbers of the network are 0.
pub fn emit(
    alloc: Global,
    net: &Checked,
    class: &DestClass,
    srp: &Srp,
    p: &Partition,
    q: &Quotient,
) -> Result<Emitted, EmitRefusal>
    requires class { Contains (classes_of net.now.network) class.now }
    requires problem { (x : Prefix) → Contains class.now.prefixes x → IsProblemOf net.now.network x srp.now }
    requires groups { IsAdmissible srp.now p.now }
    requires links { (count : ℕ) → IsNumbered p.now count → q.now.links ≡ quotient_links srp.now.edges p.now count }
    ensures emits { (count : ℕ) → IsNumbered p.now count → Emits result (record { network = net.now.network; class = class.now; problem = srp.now; groups = p.now; count = count; links = q.now.links }) }
{
    given_is_well_formed();
    few_links();
    no_more_links();
    let network = net.network();
    if let Some(line) = pool_line(network, class) {
        return Err(EmitRefusal::PoolOverlap(line));
    }
    let source = Source {
        network,
        class,
        srp,
        groups: p,
        count: p.groups(),
        links: q.links.as_slice(),
    };
    let emitted = network_of(alloc, &source, net.area().unwrap_or(0))?;
    let notes = notes_of(alloc, &source)?;
    Ok(Emitted {
        network: emitted,
        notes,
    })
}
