//! Directions of links.

ghost use Rattle.std.specs.Prelude.{◌≡◌};
ghost use Rattle.srp_build.specs.Hops.{into_low, into_high};

use cfg_ast::Link;

/// A direction of a link: the importer takes the exporter's routes. The items are the places of the ends
/// on their routers: of neighbour lines in BGP, of interfaces in OSPF.
#[derive(Clone, Copy, Debug, PartialEq, Eq)]
pub struct Hop {
    pub importer: u32,
    pub exporter: u32,
    pub link: u32,
    pub importer_item: u32,
    pub exporter_item: u32,
}

/// The direction into the low end.
pub fn into_low(place: u32, link: &Link) -> Hop
    ensures { result ≡ into_low (place, link.now) }
{
    Hop {
        importer: link.low,
        exporter: link.high,
        link: place,
        importer_item: link.low_item,
        exporter_item: link.high_item,
    }
}

/// The direction into the high end.
pub fn into_high(place: u32, link: &Link) -> Hop
    ensures { result ≡ into_high (place, link.now) }
{
    Hop {
        importer: link.high,
        exporter: link.low,
        link: place,
        importer_item: link.high_item,
        exporter_item: link.low_item,
    }
}
