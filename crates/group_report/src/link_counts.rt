//! The number of links between groups, for callers that do not need the links themselves.

ghost use Rattle.std.specs.Prelude.{◌≡◌, ◌+◌, ◌<◌, ◌≤◌, ◌^◌, All, IfOk, IfSome, length};
ghost use Rattle.base_kit.specs.Partition.{IsNumbered};
ghost use Rattle.abstract_net.specs.Links.{quotient_links};
ghost use Rattle.srp_core.specs.Problem.{count};
ghost use Rattle.group_report.specs.LinkTables.{cells_of, IsSmall, cell, IsLinkTable, one_where, acts_in, links_between, links_above, links_below};

use abstract_net::quotient_over;
use base_kit::{Edge, NoMemory};
use refine_partition::Partition;
use srp_core::Srp;
use std::alloc::Global;

/// The size of a table of the acts between groups.
#[derive(Clone, Copy, Debug, PartialEq, Eq)]
struct Size {
    groups: u32,
    acts: u32,
}

// The size for so many groups and acts, none where the table would be large.
fn small_size(groups: u32, acts: usize) -> Option<Size>
    ensures small { IfSome result IsSmall }
    ensures groups { IfSome result (λ size. size.groups ≡ groups) }
    ensures acts { IfSome result (λ size. size.acts ≡ acts) }
{
    if groups > 256 || acts > 65_536 {
        return None;
    }
    if groups as usize * groups as usize * acts > 65_536 {
        return None;
    }
    Some(Size {
        groups,
        acts: acts as u32,
    })
}

// The cell of an act of edges from one group into another.
fn cell(size: Size, importer: u32, exporter: u32, act: u32) -> usize
    requires small { IsSmall size }
    requires importer { importer < size.groups }
    requires exporter { exporter < size.groups }
    requires act { act < size.acts }
    ensures is { result ≡ cell size importer exporter act }
    ensures inside { result < cells_of size }
{
    let pair = importer as usize * size.groups as usize + exporter as usize;
    pair * size.acts as usize + act as usize
}

// The table of the edges.
fn table_of(
    alloc: Global,
    edges: &[Edge],
    groups: &Partition,
    size: Size,
) -> Result<Vec<bool>, NoMemory>
    requires importers { All (λ e. e.importer < length groups.now) edges.now }
    requires exporters { All (λ e. e.exporter < length groups.now) edges.now }
    requires acts { All (λ e. e.act < size.acts) edges.now }
    requires numbered { IsNumbered groups.now size.groups }
    requires small { IsSmall size }
    ensures { IfOk result (λ table. IsLinkTable edges.now groups.now size table.items) }
{
    let cells = size.groups as usize * size.groups as usize * size.acts as usize;
    let mut table = vec![in alloc; false; cells]?;
    for edge in edges {
        let importer = groups.group_of(edge.importer);
        let exporter = groups.group_of(edge.exporter);
        let place = cell(size, importer, exporter, edge.act);
        table[place] = true;
    }
    Ok(table)
}

fn one_where(is_set: bool) -> usize
    ensures is { result ≡ one_where is_set }
    ensures few { result ≤ 1 }
{
    if is_set { 1 } else { 0 }
}

// How many acts the edges from one group into another have.
fn acts_in(table: &[bool], size: Size, importer: u32, exporter: u32) -> usize
    requires total { length table.now ≡ cells_of size }
    requires small { IsSmall size }
    requires importer { importer < size.groups }
    requires exporter { exporter < size.groups }
    ensures is { result ≡ acts_in size table.now importer exporter }
    ensures few { result ≤ 65536 }
{
    let mut acts = 0;
    for act in 0..size.acts {
        acts += one_where(table[cell(size, importer, exporter, act)]);
    }
    acts
}

fn links_between(table: &[bool], size: Size, low: u32, high: u32) -> usize
    requires total { length table.now ≡ cells_of size }
    requires small { IsSmall size }
    requires low { low < size.groups }
    requires high { high < size.groups }
    ensures is { result ≡ links_between size table.now low high }
    ensures few { result ≤ 65536 }
{
    acts_in(table, size, low, high).max(acts_in(table, size, high, low))
}

// How many links a group has with the groups above it.
fn links_above(table: &[bool], size: Size, low: u32, above: u32) -> usize
    requires total { length table.now ≡ cells_of size }
    requires small { IsSmall size }
    requires few { low + above < size.groups }
    ensures is { result ≡ links_above size table.now low above }
    ensures few { result ≤ 16777216 }
{
    let mut links = 0;
    for more in 0..above {
        links += links_between(table, size, low, low + 1 + more);
    }
    links
}

// How many links there are between all groups.
fn links_below(table: &[bool], size: Size) -> usize
    requires total { length table.now ≡ cells_of size }
    requires small { IsSmall size }
    ensures { result ≡ links_below size table.now size.groups }
{
    let mut links = 0;
    for low in 0..size.groups {
        links += links_above(table, size, low, size.groups - (low + 1));
    }
    links
}

// How many links `quotient_over` gives from these edges, which have so many acts.
fn count_over(
    alloc: Global,
    edges: &[Edge],
    acts: usize,
    groups: &Partition,
    count: u32,
) -> Result<usize, NoMemory>
    requires few { length edges.now < 2 ^ 32 }
    requires importers { All (λ e. e.importer < length groups.now) edges.now }
    requires exporters { All (λ e. e.exporter < length groups.now) edges.now }
    requires acts { All (λ e. e.act < acts) edges.now }
    requires numbered { IsNumbered groups.now count }
    ensures { IfOk result (λ links. links ≡ length (quotient_links edges.now groups.now count)) }
{
    if let Some(size) = small_size(count, acts) {
        let table = table_of(alloc, edges, groups, size)?;
        return Ok(links_below(&table, size));
    }
    let quotient = quotient_over(alloc, edges, groups)?;
    Ok(quotient.links.len())
}

/// How many links `links_of_groups` gives between these groups of a problem. If there are few groups and
/// acts, no link is made.
///
/// # Errors
/// Out of memory.
pub fn link_count(
    alloc: Global,
    srp: &Srp,
    groups: &Partition,
    group_count: u32,
) -> Result<usize, NoMemory>
    requires total { length groups.now ≡ count srp.now }
    requires numbered { IsNumbered groups.now group_count }
    ensures { IfOk result (λ links. links ≡ length (quotient_links srp.now.edges groups.now group_count)) }
{
    // The contract of `count` says that both ends of each edge are routers, and that its act is listed.
    let _known = srp.count();
    count_over(alloc, srp.edges(), srp.acts().len(), groups, group_count)
}
