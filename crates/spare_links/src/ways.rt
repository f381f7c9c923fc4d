//! The links over which routers forward, and those over which routes tie.

ghost use Rattle.std.specs.Prelude.{◌≡◌, IfOk};
ghost use Rattle.srp_core.specs.Stability.{AreLabels};
ghost use Rattle.spare_links.specs.Ways.{with_way, AreTies, AreWays};

use crate::standing::{Standing, standing_over};
use base_kit::NoMemory;
use srp_core::{Labels, Srp};
use std::alloc::Global;

/// Over which links routes come.
#[derive(Clone, Copy, Debug, PartialEq, Eq)]
pub(crate) enum Ways {
    Nowhere,
    OneLink(u32),
    MoreLinks,
}

impl Ways {
    /// One link more.
    pub(crate) fn with(self, link: u32) -> Ways
        ensures { result ≡ with_way self link }
    {
        match self {
            Ways::Nowhere => Ways::OneLink(link),
            Ways::OneLink(only) => { if only == link { self } else { Ways::MoreLinks } }
            Ways::MoreLinks => Ways::MoreLinks,
        }
    }
}

/// For each router over which links it forwards. Over which links routes tie with the labels of their routers, by other
/// communities, and one of these routers.
#[derive(Drop)]
pub(crate) struct Forwarding {
    pub(crate) ways: Vec<Ways>,
    pub(crate) ties: Ways,
    pub(crate) tied: Option<u32>,
}

/// How routers forward under labels.
pub(crate) fn forwarding_of(
    alloc: Global,
    srp: &Srp,
    labels: &Labels,
) -> Result<Forwarding, NoMemory>
    requires { AreLabels srp.now labels.now }
    ensures ways { IfOk result (λ found. AreWays srp.now labels.now srp.now.edges found.ways.items) }
    ensures ties { IfOk result (λ found. AreTies srp.now labels.now srp.now.edges found.ties found.tied) }
{
    let count = srp.count() as usize;
    let mut ways = vec![in alloc; Ways::Nowhere; count]?;
    let mut ties = Ways::Nowhere;
    let mut tied = None;
    let edges = srp.edges();
    for edge in edges {
        let router = edge.importer as usize;
        match standing_over(alloc, srp, labels, edge)? {
            Standing::Apart => {}
            Standing::Same => ways[router] = ways[router].with(edge.link),
            Standing::Tied => {
                ties = ties.with(edge.link);
                tied = Some(edge.importer);
            }
        }
    }
    Ok(Forwarding { ways, ties, tied })
}
