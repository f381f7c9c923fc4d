//! The order of activations that leads to a solution.

ghost use Rattle.std.specs.Prelude.{◌≡◌, ℕ, ◌<◌, ◌^◌, All, Some, IfOk, map, length};
ghost use Rattle.std.specs.List.{range_with_len};
ghost use Rattle.by_key.specs.ByKey.{by_key};
ghost use Rattle.srp_core.specs.Problem.{count};
ghost use Rattle.srp_core.specs.Routes.{size_of};
ghost use Rattle.srp_core.specs.Stability.{IsStable};
ghost use Rattle.route_run.specs.declared.schedule.Activation.TheVariants.{One};
ghost use Rattle.route_run.specs.Activations.{labels_after, no_labels};
ghost use Rattle.route_run.specs.Orders.{IsOrderOf, IsSolutionLike};
ghost use Rattle.route_run.specs.Ranks.{size_or_last, rank_at, rank_size, AreShort};
ghost use Rattle.route_run.specs.Schedules.{run_of, IsSingle};

use crate::schedule::Activation;
use base_kit::{List, NoMemory};
use srp_core::{Labels, Route, Srp};
use std::alloc::Global;

/// A router, and where its label puts it: at its size, or behind all sizes where it has none.
#[derive(Clone, Copy)]
pub(crate) struct Rank {
    pub(crate) router: u32,
    pub(crate) size: u128,
}

// The size of a label, and 2^64 where there is none.
fn size_or_last(label: &Option<Route>) -> u128
    ensures value { result ≡ size_or_last label.now }
    ensures short { (r : Route) → label.now ≡ Some r → size_of r < 2 ^ 64 }
{
    match label {
        Some(Route::Bgp { path, .. }) => path.len() as u128,
        Some(Route::Ospf { cost }) => u128::from(*cost),
        None => 18446744073709551616,
    }
}

fn ranks_by_router(alloc: Global, labels: &[Option<Route>]) -> Result<Vec<Rank>, NoMemory>
    requires { length labels.now < 2 ^ 32 }
    ensures ranks { IfOk result (λ ranks. ranks.items ≡ map (rank_at labels.now) (range_with_len 0 (length labels.now))) }
    ensures short { IfOk result (λ _. AreShort labels.now) }
{
    let mut ranks = Vec::new(alloc);
    for router in 0..labels.len() {
        ranks.push(Rank {
            router: router as u32,
            size: size_or_last(&labels[router]),
        })?;
    }
    Ok(ranks)
}

fn sort_by_size(ranks: &mut Vec<Rank>) -> Result<(), NoMemory>
    ensures { IfOk result (λ _. (n : ℕ) → All (λ (rank : Rank). rank.size < n) ranks.old.items → ranks.new.items ≡ by_key rank_size n ranks.old.items) }
{
    ranks.sort_by_key(|rank| rank.size)?;
    Ok(())
}

fn activations_of(alloc: Global, ranks: &[Rank]) -> Result<List<Activation>, NoMemory>
    ensures { IfOk result (λ schedule. schedule ≡ map (λ rank. One rank.router) ranks.now) }
{
    let mut schedule = List::new(alloc);
    for rank in ranks {
        schedule.push(Activation::One(rank.router))?;
    }
    Ok(schedule)
}

/// The order of stable labels, as activations: first the routers with a label, by ascending length of
/// the path, in OSPF by ascending cost, then those without; ties go by router number. Run from no labels,
/// it leads to stable labels of the same keys.
pub fn reach(alloc: Global, srp: &Srp, labels: &Labels) -> Result<List<Activation>, NoMemory>
    requires { IsStable srp.now labels.now }
    ensures order { IfOk result (λ schedule. IsOrderOf srp.now labels.now (run_of (count srp.now) schedule)) }
    ensures single { IfOk result (All IsSingle) }
    ensures reached { IfOk result (λ schedule. IsSolutionLike srp.now labels.now (labels_after srp.now (no_labels srp.now) (run_of (count srp.now) schedule))) }
{
    let _known = srp.count();
    let mut ranks = ranks_by_router(alloc, labels.as_slice())?;
    sort_by_size(&mut ranks)?;
    activations_of(alloc, ranks.as_slice())
}
