//! Links between groups, and how many steps they take.

ghost use Rattle.std.specs.Prelude.{◌≡◌, ◌<◌, IfOk, length};

use abstract_net::{QLink, quotient};
use base_kit::{ActGraph, Edge, List, NoMemory, Steps};
use refine_partition::{Partition, coarsest};
use std::alloc::Global;
use std::marker::Brand;
use std::sync::ledger::{Blank, Ledger};
use std::test::Fail;

fn edge(importer: u32, exporter: u32, act: u32, link: u32) -> Edge
    ensures importer { result.importer ≡ importer }
    ensures exporter { result.exporter ≡ exporter }
{
    Edge {
        importer,
        exporter,
        act,
        link,
    }
}

fn counted<L: Ledger>(alloc: Global, graph: &ActGraph, blank: Blank) -> Result<Partition, NoMemory>
    requires name { blank.name ≡ L.name }
    requires parts { blank.parts ≡ L.parts }
    requires some { 0 < L.parts }
    ensures { IfOk result (λ p. length p ≡ graph.now.count) }
{
    let mut turns = Steps::<L>::new(blank);
    let partition = coarsest(alloc, graph, &mut turns)?;
    Ok(partition)
}

fn uncounted(alloc: Global, graph: &ActGraph) -> Result<Partition, NoMemory>
    ensures { IfOk result (λ p. length p ≡ graph.now.count) }
{
    counted::<Brand>(alloc, graph, Blank::new(1))
}

/// Two routers at a hub, each by two links of different acts into the hub, and linked to each other.
fn hub(alloc: Global) -> Result<ActGraph, Fail>
    ensures { IfOk result (λ g. g.count ≡ 3) }
{
    Ok(ActGraph {
        count: 3,
        colors: List::from_vec(vec![in alloc; 0, 1, 1]?),
        edges: List::from_vec(vec![in alloc;
            edge(0, 1, 0, 1),
            edge(0, 1, 1, 0),
            edge(0, 2, 0, 2),
            edge(0, 2, 1, 3),
            edge(1, 0, 2, 0),
            edge(1, 2, 0, 4),
            edge(2, 0, 2, 2),
            edge(2, 1, 0, 4),
        ]?),
    })
}

#[test]
fn acts_make_links_in_the_order_of_their_links(rt: HostRuntime) -> Result<(), Fail> {
    let alloc = rt.alloc();
    let graph = hub(alloc)?;
    let groups = uncounted(alloc, &graph)?;
    let links = quotient(alloc, &graph, &groups)?.links;
    let wanted = [
        QLink {
            low: 0,
            high: 1,
            to_low: Some(1),
            to_high: Some(4),
        },
        QLink {
            low: 0,
            high: 1,
            to_low: Some(0),
            to_high: None,
        },
    ];
    assert_eq!(rt; links.as_slice(), wanted.as_slice());
    Ok(())
}
