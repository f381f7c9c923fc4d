//! Labels carried from groups to routers.

ghost use Rattle.std.specs.Prelude.{◌≡◌, ℕ, ◌<◌, ◌^◌, IfOk, length};
ghost use Rattle.base_kit.specs.Partition.{IsNumbered};
ghost use Rattle.abstract_net.specs.Links.{quotient_links};
ghost use Rattle.srp_core.specs.Filling.{CanBeLifted};
ghost use Rattle.srp_core.specs.Lifts.{IsLift};
ghost use Rattle.srp_core.specs.Quotient.{group_of, IsAdmissible, IsQuotient};
ghost use Rattle.srp_core.specs.Stability.{label, IsStable};
ghost use Rattle.srp_quotient.specs.Groups.{small_of};
ghost use Rattle.solution_lift.specs.Carried.{IsLifting};

use crate::next::next;
use crate::problem::quotient_srp;
use crate::sides::{groups_of, no_labels, places, sources_of};
use crate::tables::shared_copy;
use crate::tasks::tasks_of;
use abstract_net::Quotient;
use base_kit::{NoMemory, Protocol};
use refine_partition::Partition;
use route_keys::lone_numbers;
use shared_routes::SharedLabels;
use srp_core::laws::filling::lift_steps;
use srp_core::laws::keys::across_quotients;
use srp_core::laws::{lifts, ospf_lifts};
use srp_core::{Labels, Srp};
use srp_quotient::laws::quotient_is_quotient;
use std::alloc::Global;

// Each router gets its route once the routers of smaller labels have theirs.
fn lift_routes(
    alloc: Global,
    srp: &Srp,
    small: &Srp,
    p: &Partition,
    labels: &Labels,
) -> Result<SharedLabels, NoMemory>
    requires { CanBeLifted srp.now small.now p.now labels.now }
    ensures { IfOk result (IsLift srp.now small.now p.now labels.now) }
{
    lift_steps();
    across_quotients();
    let count = srp.count();
    let groups = groups_of(alloc, p, count)?;
    let own = places(alloc, small.count())?;
    let sources = sources_of(alloc, small.numbers(), &own)?;
    let lone = lone_numbers(alloc, srp)?;
    let tasks = tasks_of(alloc, labels.as_slice(), &groups)?;
    let mut upper = no_labels(alloc, count)?;
    for task in &tasks {
        let asked = labels.as_slice();
        let route = next(
            alloc, srp, asked, &groups, &groups, &sources, &lone, &upper, task.place,
        )?;
        upper.set(task.place, route);
    }
    Ok(upper)
}

fn lift_costs(
    alloc: Global,
    p: &Partition,
    labels: &Labels,
    routers: u32,
) -> Result<SharedLabels, NoMemory>
    requires { length p.now ≡ routers }
    ensures total { IfOk result (λ upper. length upper ≡ routers) }
    ensures costs { IfOk result (λ upper. (u : ℕ) → u < routers → label upper u ≡ label labels.now (group_of p.now u)) }
{
    let mut upper = SharedLabels::new(alloc);
    for router in 0..routers {
        upper.push(shared_copy(alloc, labels.as_slice(), p.group_of(router))?)?;
    }
    Ok(upper)
}

/// Labels of the routers from stable labels of the groups, where the problem of the groups is at hand.
///
/// They are those that `lift` gives.
///
/// # Errors
/// Out of memory.
pub fn lift_from(
    alloc: Global,
    srp: &Srp,
    small: &Srp,
    p: &Partition,
    labels: &Labels,
) -> Result<SharedLabels, NoMemory>
    requires groups { IsAdmissible srp.now p.now }
    requires quotient { IsQuotient srp.now p.now small.now }
    requires stable { IsStable small.now labels.now }
    ensures { IfOk result (IsLifting srp.now small.now p.now labels.now) }
{
    lifts();
    ospf_lifts();
    let routers = srp.count();
    let _known = small.count();
    match srp.protocol() {
        Protocol::Bgp => {
            let upper = lift_routes(alloc, srp, small, p, labels)?;
            Ok(upper)
        }
        Protocol::Ospf => {
            let upper = lift_costs(alloc, p, labels, routers)?;
            Ok(upper)
        }
    }
}

/// Labels of the routers from stable labels of the groups. They are stable and correspond.
///
/// In OSPF a router has the cost of its group. In BGP a router that originates has its initial route.
/// For every other router whose group has a route, the first number on that route's path is the number
/// of a group. The router takes its route from the least router of that group that gives it a route with
/// the key of its own group's route.
///
/// There are to be fewer than 2^31 links between groups: the problem of the groups has at most two edges
/// for each, and a problem has fewer than 2^32. A network that is read from a text and checked has at most
/// 1,048,576 links (`net_topology::laws::few_links`), and its groups have no more of them
/// (`quotient_laws::groups_have_no_more_links`).
///
/// # Errors
/// Out of memory.
pub fn lift(
    alloc: Global,
    srp: &Srp,
    p: &Partition,
    q: &Quotient,
    labels: &Labels,
) -> Result<Labels, NoMemory>
    requires groups { IsAdmissible srp.now p.now }
    requires links { (groups : ℕ) → IsNumbered p.now groups → q.now.links ≡ quotient_links srp.now.edges p.now groups }
    requires few { length q.now.links < 2 ^ 31 }
    requires stable { (groups : ℕ) → IsNumbered p.now groups → IsStable (small_of srp.now p.now groups) labels.now }
    ensures { IfOk result (λ upper. (groups : ℕ) → IsNumbered p.now groups → IsLifting srp.now (small_of srp.now p.now groups) p.now labels.now upper) }
{
    quotient_is_quotient();
    let _known = srp.count();
    let _also_known = p.groups();
    let small = quotient_srp(alloc, srp, p, q)?;
    let upper = lift_from(alloc, srp, &small, p, labels)?;
    upper.plain(alloc)
}
