//! The worked uses, with values from outside.

ghost use Rattle.std.specs.Prelude.{◌≡◌, IfOk};

use base_kit::{ActGraph, Edge, List, NumSet, Prefix, Text};
use cfg_ast::{CommunityLine, CommunityList};
use cfg_check::Checked;
use library_uses::policies::permits_set;
use library_uses::refinement::group_of;
use library_uses::worked::graph::groups_of;
use library_uses::worked::policies::act_alike;
use library_uses::worked::topology::{checked_network, degree};
use refine_partition::start;
use std::alloc::Global;
use std::test::Fail;

const ONE_ONE: u32 = 65537;

const TWO_TWO: u32 = 131074;

fn edge(importer: u32, exporter: u32, link: u32) -> Edge
    ensures importer { result.importer ≡ importer }
    ensures exporter { result.exporter ≡ exporter }
{
    Edge {
        importer,
        exporter,
        act: 0,
        link,
    }
}

// Four routers, of which three reach the first, and two of these each other.
fn graph_of_four(alloc: Global) -> Result<ActGraph, Fail>
    ensures { IfOk result (λ graph. graph.count ≡ 4) }
{
    Ok(ActGraph {
        count: 4,
        colors: List::from_vec(vec![in alloc; 0, 1, 1, 1]?),
        edges: List::from_vec(vec![in alloc;
            edge(1, 0, 0),
            edge(2, 0, 1),
            edge(3, 0, 2),
            edge(1, 2, 3),
            edge(2, 1, 3),
        ]?),
    })
}

#[test]
fn a_graph_of_ones_own_has_groups(rt: HostRuntime) -> Result<(), Fail> {
    let alloc = rt.alloc();
    let graph = graph_of_four(alloc)?;
    let groups = groups_of(alloc, &graph)?;
    assert_eq!(rt; groups.groups(), 2);
    assert_eq!(rt; group_of(&groups, 0), 0);
    assert!(rt;
        group_of(&groups, 1) == 1 && group_of(&groups, 2) == 1 && group_of(&groups, 3) == 1
    );
    Ok(())
}

fn network_of(alloc: Global, text: &[u8]) -> Option<Checked> {
    if text.len() > 16_777_216 {
        return None;
    }
    checked_network(alloc, text).ok()
}

const TWO_ROUTERS: &[u8] = b"hostname a
interface Vlan1
 ip address 10.0.12.1 255.255.255.252
router ospf 1
 network 10.0.12.0 0.0.0.3 area 0
end
hostname b
interface Vlan1
 ip address 10.0.12.2 255.255.255.252
router ospf 1
 network 10.0.12.0 0.0.0.3 area 0
end
hostname c
end
";

#[test]
fn the_links_of_a_text_are_walked(rt: HostRuntime) -> Result<(), Fail> {
    let alloc = rt.alloc();
    let net = network_of(alloc, TWO_ROUTERS).ok_or("refused")?;
    for (router, links) in [(0, 1), (1, 1), (2, 0)] {
        assert_eq!(rt; degree(alloc, &net, router)?, links);
    }
    Ok(())
}

// Both maps deny exactly the routes that carry 1:1.
const TWO_MAPS: &[u8] = b"hostname b
ip community-list standard L permit 1:1
ip community-list standard M permit 1:1 2:2
ip community-list standard K deny 2:2
ip community-list standard K permit 1:1
route-map X deny 10
 match community L
route-map X permit 20
route-map Y deny 10
 match community M
route-map Y deny 20
 match community K
route-map Y permit 30
route-map Z permit 10
end
";

#[test]
fn two_maps_act_alike_and_a_third_does_not(rt: HostRuntime) -> Result<(), Fail> {
    let alloc = rt.alloc();
    let net = network_of(alloc, TWO_MAPS).ok_or("refused")?;
    let first = Text::copy_of(alloc, "X")?;
    let p = Prefix::new(0x0A00_0000, 24);
    let [router, ..] = net.network().routers.as_slice() else {
        assert!(rt; false, "no router");
        return Ok(());
    };
    for (name, alike) in [("Y", true), ("Z", false)] {
        let second = Text::copy_of(alloc, name)?;
        assert_eq!(rt; act_alike(alloc, &net, router, &first, &second, p)?, alike);
    }
    Ok(())
}

#[test]
fn a_graph_of_ones_own_starts_with_a_block_for_each_color(rt: HostRuntime) -> Result<(), Fail> {
    let graph = graph_of_four(rt.alloc())?;
    let splitting = start(rt.alloc(), &graph)?;
    let count = splitting.blocks();
    assert_eq!(rt; count, 2);
    if count == 2 {
        assert!(rt; splitting.block(0) == [0].as_slice());
        assert!(rt; splitting.block(1) == [1, 2, 3].as_slice());
    }
    Ok(())
}

fn set_of(alloc: Global, comms: &[u32]) -> Result<NumSet, Fail> {
    let mut set = NumSet::new(alloc);
    for c in comms {
        set.add(*c)?;
    }
    Ok(set)
}

// The list `permit 1:1 2:2`.
fn list_of_two(alloc: Global) -> Result<CommunityList, Fail> {
    let mut lines = List::new(alloc);
    lines.push(CommunityLine {
        permit: true,
        comms: set_of(alloc, &[ONE_ONE, TWO_TWO])?,
        line: 1,
    })?;
    Ok(CommunityList {
        name: Text::new(alloc),
        lines,
    })
}

#[test]
fn a_line_of_two_communities_needs_both(rt: HostRuntime) -> Result<(), Fail> {
    let alloc = rt.alloc();
    let list = list_of_two(alloc)?;
    assert!(rt; !permits_set(&list, &set_of(alloc, &[ONE_ONE])?));
    assert!(rt; permits_set(&list, &set_of(alloc, &[ONE_ONE, TWO_TWO])?));
    Ok(())
}
