//! The edges of a graph by their exporters.

ghost use Rattle.std.specs.Prelude.{◌≡◌, ◌<◌, [], All, IfOk, length};
ghost use Rattle.refine_partition.specs.Index.{IsImportIndex};

use base_kit::{Edge, NoMemory};
use std::alloc::Global;

/// What an exporter's edge is to its importer.
#[derive(Clone, Copy, Debug, PartialEq, Eq)]
pub struct Import {
    pub importer: u32,
    pub act: u32,
}

/// For each router the imports over the edges that it exports to. They do not depend on colors.
#[derive(Drop)]
pub struct Exports {
    pub imports: Vec<Vec<Import>>,
}

/// For each router how many edges it exports to.
fn counts_of(alloc: Global, count: u32, edges: &[Edge]) -> Result<Vec<usize>, NoMemory>
    requires { All (λ e. e.exporter < count) edges.now }
    ensures total { IfOk result (λ v. length v.items ≡ count) }
{
    let mut counts = vec![in alloc; 0usize; count as usize]?;
    for edge in edges {
        let exports = counts[edge.exporter as usize];
        counts[edge.exporter as usize] = exports.saturating_add(1);
    }
    Ok(counts)
}

/// Empty lists, each with room for so many items.
pub fn lists_with_room(alloc: Global, counts: &[usize]) -> Result<Vec<Vec<Import>>, NoMemory>
    ensures total { IfOk result (λ v. length v.items ≡ length counts.now) }
    ensures empty { IfOk result (λ v. All (λ l. l.items ≡ []) v.items) }
{
    let mut lists = Vec::with_capacity(alloc, counts.len())?;
    for count in counts {
        lists.push(Vec::with_capacity(alloc, *count)?)?;
    }
    Ok(lists)
}

/// For each router the imports over the edges that it exports to.
pub fn exports_of(alloc: Global, count: u32, edges: &[Edge]) -> Result<Exports, NoMemory>
    requires { All (λ e. e.exporter < count) edges.now }
    ensures total { IfOk result (λ x. length x.imports.items ≡ count) }
    ensures index { IfOk result (λ x. IsImportIndex edges.now x.imports.items) }
{
    let counts = counts_of(alloc, count, edges)?;
    let mut imports = lists_with_room(alloc, &counts)?;
    for edge in edges {
        imports[edge.exporter as usize].push(Import {
            importer: edge.importer,
            act: edge.act,
        })?;
    }
    Ok(Exports { imports })
}
