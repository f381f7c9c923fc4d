//! What a direction imports, by numbers: of the policies of the lines at its ends, and of the maps there.

ghost use Rattle.std.specs.Prelude.{◌≡◌};
ghost use Rattle.srp_build.specs.Plains.{number_at, import_by_policies};

use crate::hops::Hop;
use crate::lines::sends_at;
use base_kit::List;
use cfg_ast::Router;

/// An import by the numbers of the policies of the lines at both ends, and whether communities are sent. It
/// serves all classes.
#[derive(Clone, Copy, Debug, PartialEq, Eq)]
pub struct ImportByPolicies {
    pub out: usize,
    pub sends: bool,
    pub into: usize,
}

/// An import by the numbers of the maps at both ends, for one prefix, and whether communities are sent.
#[derive(Clone, Copy, Debug, PartialEq, Eq, PartialOrd, Ord)]
pub struct ImportByMaps {
    pub out: usize,
    pub sends: bool,
    pub into: usize,
}

fn number_at(table: &[List<usize>], router: u32, item: u32) -> Option<usize>
    ensures { result ≡ number_at table.now router item }
{
    let numbers = table.get(router as usize)?;
    numbers.as_slice().get(item as usize).copied()
}

/// The import of a direction, by the numbers of the policies of all lines, outbound and inbound.
pub fn import_by_policies(
    routers: &[Router],
    outs: &[List<usize>],
    ins: &[List<usize>],
    hop: &Hop,
) -> Option<ImportByPolicies>
    ensures { result ≡ import_by_policies routers.now outs.now ins.now hop.now }
{
    let out = number_at(outs, hop.exporter, hop.exporter_item)?;
    let into = number_at(ins, hop.importer, hop.importer_item)?;
    Some(ImportByPolicies {
        out,
        sends: sends_at(routers, hop.exporter, hop.exporter_item),
        into,
    })
}
