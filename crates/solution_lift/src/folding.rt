//! Labels carried from routers to groups.

ghost use Rattle.std.specs.Prelude.{◌≡◌, ℕ, ◌<◌, ◌^◌, IfOk, length};
ghost use Rattle.base_kit.specs.Partition.{IsNumbered};
ghost use Rattle.abstract_net.specs.Links.{quotient_links};
ghost use Rattle.srp_core.specs.Filling.{CanBeFolded};
ghost use Rattle.srp_core.specs.Lifts.{IsFold};
ghost use Rattle.srp_core.specs.Problem as problem;
ghost use Rattle.srp_core.specs.Quotient.{IsAdmissible, IsQuotient};
ghost use Rattle.srp_core.specs.Stability.{label, IsStable};
ghost use Rattle.srp_quotient.specs.Groups.{first_member, small_of};
ghost use Rattle.solution_lift.specs.Carried.{IsFolding};

use crate::next::next;
use crate::problem::quotient_srp;
use crate::sides::{groups_of, no_labels, places, sources_of};
use crate::tables::{first_member, first_members, shared_copy};
use crate::tasks::tasks_of;
use base_kit::{NoMemory, Protocol};
use refine_partition::Partition;
use route_keys::lone_numbers;
use shared_routes::SharedLabels;
use srp_core::laws::filling::fold_steps;
use srp_core::laws::keys::across_quotients;
use srp_core::laws::{equal_keys, folds, ospf_folds};
use srp_core::{Labels, Srp};
use srp_quotient::laws::quotient_is_quotient;
use srp_quotient::links_of_groups;
use std::alloc::Global;

// Each group gets its route once the groups of smaller labels have theirs.
fn fold_routes(
    alloc: Global,
    srp: &Srp,
    small: &Srp,
    p: &Partition,
    count: u32,
    labels: &Labels,
) -> Result<SharedLabels, NoMemory>
    requires can { CanBeFolded srp.now small.now p.now labels.now }
    requires numbered { IsNumbered p.now count }
    requires size { problem.count small.now ≡ count }
    ensures { IfOk result (IsFold srp.now small.now p.now labels.now) }
{
    fold_steps();
    across_quotients();
    equal_keys();
    let groups = groups_of(alloc, p, srp.count())?;
    let firsts = first_members(alloc, p, count)?;
    let own = places(alloc, count)?;
    let sources = sources_of(alloc, srp.numbers(), &groups)?;
    let lone = lone_numbers(alloc, small)?;
    let tasks = tasks_of(alloc, labels.as_slice(), &firsts)?;
    let mut lower = no_labels(alloc, count)?;
    for task in &tasks {
        let asked = labels.as_slice();
        let route = next(
            alloc, small, asked, &firsts, &own, &sources, &lone, &lower, task.place,
        )?;
        lower.set(task.place, route);
    }
    Ok(lower)
}

fn fold_costs(
    alloc: Global,
    p: &Partition,
    count: u32,
    labels: &Labels,
) -> Result<SharedLabels, NoMemory>
    requires { IsNumbered p.now count }
    ensures total { IfOk result (λ lower. length lower ≡ count) }
    ensures costs { IfOk result (λ lower. (g : ℕ) → g < count → label lower g ≡ label labels.now (first_member p.now g)) }
{
    let mut lower = SharedLabels::new(alloc);
    for group in 0..count {
        lower.push(shared_copy(alloc, labels.as_slice(), first_member(p, group))?)?;
    }
    Ok(lower)
}

/// Labels of the groups from stable labels of the routers, where the problem of the groups is at hand.
///
/// They are those that `fold` gives.
///
/// # Errors
/// Out of memory.
pub fn fold_into(
    alloc: Global,
    srp: &Srp,
    small: &Srp,
    p: &Partition,
    labels: &Labels,
) -> Result<SharedLabels, NoMemory>
    requires groups { IsAdmissible srp.now p.now }
    requires quotient { IsQuotient srp.now p.now small.now }
    requires stable { IsStable srp.now labels.now }
    ensures { IfOk result (IsFolding srp.now small.now p.now labels.now) }
{
    folds();
    ospf_folds();
    equal_keys();
    let _known = srp.count();
    let _also_known = small.count();
    let count = p.groups();
    match srp.protocol() {
        Protocol::Bgp => {
            let lower = fold_routes(alloc, srp, small, p, count, labels)?;
            Ok(lower)
        }
        Protocol::Ospf => {
            let lower = fold_costs(alloc, p, count, labels)?;
            Ok(lower)
        }
    }
}

/// Labels of the groups from stable labels of the routers. They are stable in the problem of the groups
/// and correspond.
///
/// In OSPF a group has the cost of its members. In BGP a group that originates has its initial route,
/// and every other takes its route from the group of the router from which its first member took it.
///
/// There are to be fewer than 2^31 links between groups: the problem of the groups has at most two edges
/// for each, and a problem has fewer than 2^32. A network that is read from a text and checked has at most
/// 1,048,576 links (`net_topology::laws::few_links`), and its groups have no more of them
/// (`quotient_laws::groups_have_no_more_links`).
///
/// # Errors
/// Out of memory.
pub fn fold(alloc: Global, srp: &Srp, p: &Partition, labels: &Labels) -> Result<Labels, NoMemory>
    requires groups { IsAdmissible srp.now p.now }
    requires few { (groups : ℕ) → IsNumbered p.now groups → length (quotient_links srp.now.edges p.now groups) < 2 ^ 31 }
    requires stable { IsStable srp.now labels.now }
    ensures { IfOk result (λ lower. (groups : ℕ) → IsNumbered p.now groups → IsFolding srp.now (small_of srp.now p.now groups) p.now labels.now lower) }
{
    quotient_is_quotient();
    let _known = srp.count();
    let _also_known = p.groups();
    let links = links_of_groups(alloc, srp, p)?;
    let small = quotient_srp(alloc, srp, p, &links)?;
    let lower = fold_into(alloc, srp, &small, p, labels)?;
    lower.plain(alloc)
}
