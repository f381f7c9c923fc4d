//! Links that are spare.

ghost use Rattle.std.specs.Prelude.{◌≡◌, ◌≢◌, ℕ, ◌<◌, true, false, IfOk, IfSome, length, slice_index_or};
ghost use Rattle.std.specs.List.{list_any};
ghost use Rattle.srp_core.specs.Stability.{IsStable};
ghost use Rattle.spare_links.specs.Spare.{AreSpare};
ghost use Rattle.spare_links.specs.declared.ways.Ways.TheVariants.{OneLink, Nowhere};

use crate::ways::{Ways, forwarding_of};
use base_kit::NoMemory;
use srp_core::{Labels, Srp};
use std::alloc::Global;

/// Marks of links that are spare, and whether routes of different communities tie: then a router at which they do.
#[derive(Drop)]
pub struct SpareLinks {
    pub marks: Vec<bool>,
    pub tied: Option<u32>,
}

fn has_mark(marks: &[bool]) -> bool
    ensures { result ≡ list_any (λ mark. mark) marks.now }
{
    marks.iter().any(|mark| *mark)
}

// Takes the mark from a link that is the only one of these.
fn unmark(marks: &mut Vec<bool>, ways: Ways)
    ensures { (link : ℕ) → slice_index_or marks.new.items link false ≡ true → (slice_index_or marks.old.items link false ≡ true) × (ways ≢ OneLink link) }
{
    if let Ways::OneLink(link) = ways {
        let link = link as usize;
        if link < marks.len() {
            marks[link] = false;
        }
    }
}

// Marks the first so many links that are the only way of no router, and not the only link over which routes tie.
fn marks_of(alloc: Global, ways: &[Ways], ties: Ways, links: usize) -> Result<Vec<bool>, NoMemory>
    ensures ways { IfOk result (λ marks. (link : ℕ) → slice_index_or marks.items link false ≡ true → (u : ℕ) → u < length ways.now → slice_index_or ways.now u Nowhere ≢ OneLink link) }
    ensures ties { IfOk result (λ marks. (link : ℕ) → slice_index_or marks.items link false ≡ true → ties ≢ OneLink link) }
{
    let mut marks = vec![in alloc; true; links]?;
    unmark(&mut marks, ties);
    for way in ways {
        unmark(&mut marks, *way);
    }
    Ok(marks)
}

/// Marks the first so many links that are spare under stable labels: each router that forwards over one forwards over
/// another link too. Where routes of different communities tie, they do so without each marked link too. Nothing where
/// a router is lone.
///
/// # Errors
/// Out of memory.
pub fn spare_links(
    alloc: Global,
    srp: &Srp,
    labels: &Labels,
    links: usize,
) -> Result<Option<SpareLinks>, NoMemory>
    requires { IsStable srp.now labels.now }
    ensures { IfOk result (λ found. IfSome found (λ spare. AreSpare srp.now labels.now spare.marks.items spare.tied)) }
{
    let _known = srp.count();
    if has_mark(srp.lone()) {
        return Ok(None);
    }
    let found = forwarding_of(alloc, srp, labels)?;
    let marks = marks_of(alloc, &found.ways, found.ties, links)?;
    Ok(Some(SpareLinks {
        marks,
        tied: found.tied,
    }))
}
