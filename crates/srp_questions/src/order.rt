//! The routers that have a label, by the sizes of their labels. Each forwards to routers before it.

ghost use Rattle.std.specs.Prelude.{◌≡◌, ◌<◌, ◌^◌, ◌++◌, [], IfOk, OnOk, length, option_map};
ghost use Rattle.std.specs.List.{cons_option};
ghost use Rattle.std.specs.List.Sorted.{IsPermutation, IsNonDecreasingBy};
ghost use Rattle.srp_questions.specs.Walks.{rank, rank_size, AreRanks, AreOrderedRanks};

use base_kit::NoMemory;
use shared_routes::{SharedLabels, SharedRoute, size_of};
use std::alloc::Global;

/// A router that has a label, and the size of the label.
#[derive(Clone, Copy)]
pub(crate) struct Rank {
    pub(crate) router: u32,
    pub(crate) size: u64,
}

fn rank_of(router: u32, label: &Option<SharedRoute>) -> Option<Rank>
    ensures { result ≡ option_map (rank router) label.now }
{
    match label {
        Some(route) => Some(Rank {
            router,
            size: size_of(route),
        }),
        None => None,
    }
}

fn push_some(ranks: &mut Vec<Rank>, rank: Option<Rank>) -> Result<(), NoMemory>
    ensures { OnOk result (ranks.new.items ≡ ranks.old.items ++ cons_option rank []) }
{
    if let Some(rank) = rank {
        ranks.push(rank)?;
    }
    Ok(())
}

fn ranks_by_router(alloc: Global, labels: &[Option<SharedRoute>]) -> Result<Vec<Rank>, NoMemory>
    requires { length labels.now < 2 ^ 32 }
    ensures { IfOk result (λ ranks. AreRanks labels.now ranks.items) }
{
    let mut ranks = Vec::new(alloc);
    for router in 0..labels.len() {
        push_some(&mut ranks, rank_of(router as u32, &labels[router]))?;
    }
    Ok(ranks)
}

fn sort_by_size(ranks: &mut Vec<Rank>)
    ensures same { IsPermutation ranks.old.items ranks.new.items }
    ensures rising { IsNonDecreasingBy rank_size ranks.new.items }
{
    ranks.sort_unstable_by_key(|rank| rank.size);
}

/// The routers that have a label, by ascending size of their labels.
pub(crate) fn ranks_by_size(alloc: Global, labels: &SharedLabels) -> Result<Vec<Rank>, NoMemory>
    requires { length labels.now < 2 ^ 32 }
    ensures { IfOk result (λ ranks. AreOrderedRanks labels.now ranks.items) }
{
    let mut ranks = ranks_by_router(alloc, labels.as_slice())?;
    sort_by_size(&mut ranks);
    Ok(ranks)
}
