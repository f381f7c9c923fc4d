//! What a group has from its first member.

ghost use Rattle.std.specs.Prelude.{◌≡◌, ℕ, ◌<◌, [], false, None, is_some, Contains, IfOk, ◌||◌, if◌then◌else◌, All, length, map, slice_index_or};
ghost use Rattle.std.specs.List.{range_with_len, list_any};
ghost use Rattle.base_kit.specs.Partition.{IsNumbered, members_of};
ghost use Rattle.srp_core.specs.Problem.{initial, is_lone};
ghost use Rattle.srp_core.specs.Quotient.{first_number};
ghost use Rattle.srp_quotient.specs.Groups.{first_member, touches, number_of_group};
ghost use Rattle.solution_lift.specs.Members.{first_nonzero_number};
ghost use Rattle.abstract_net.specs.Carried.{IsBelow};

use abstract_net::QLink;
use base_kit::{List, NoMemory, Text};
use refine_partition::Partition;
use shared_routes::SharedRoute;
use srp_core::{Route, Srp};
use std::alloc::Global;

/// The first member of a group.
pub fn first_member(p: &Partition, group: u32) -> u32
    requires { Contains p.now group }
    ensures { result ≡ first_member p.now group }
{
    p.members(group)[0]
}

/// The first members of the groups.
pub fn first_members(alloc: Global, p: &Partition, count: u32) -> Result<Vec<u32>, NoMemory>
    requires { IsNumbered p.now count }
    ensures { IfOk result (λ firsts. firsts.items ≡ map (first_member p.now) (range_with_len 0 count)) }
{
    let mut firsts = Vec::new(alloc);
    for group in 0..count {
        firsts.push(first_member(p, group))?;
    }
    Ok(firsts)
}

fn name_copy(alloc: Global, names: &[Text], router: u32) -> Result<Text, NoMemory>
    ensures { IfOk result (λ name. name ≡ slice_index_or names.now router []) }
{
    match names.get(router as usize) {
        Some(name) => Text::copy_of(alloc, name.as_str()),
        None => Ok(Text::new(alloc)),
    }
}

/// The names of these routers.
pub fn names_of(alloc: Global, names: &[Text], routers: &[u32]) -> Result<List<Text>, NoMemory>
    ensures { IfOk result (λ copies. copies ≡ map (λ router. slice_index_or names.now router []) routers.now) }
{
    let mut copies = List::new(alloc);
    for router in routers {
        copies.push(name_copy(alloc, names, *router)?)?;
    }
    Ok(copies)
}

// The route that a router starts with.
fn route_copy(
    alloc: Global,
    routes: &[Option<Route>],
    router: u32,
) -> Result<Option<Route>, NoMemory>
    ensures { IfOk result (λ route. route ≡ slice_index_or routes.now router None) }
{
    match routes.get(router as usize) {
        Some(Some(route)) => Ok(Some(route.copy(alloc)?)),
        Some(None) => Ok(None),
        None => Ok(None),
    }
}

/// The route that a router holds. Its path shares nothing yet.
pub fn shared_copy(
    alloc: Global,
    routes: &[Option<Route>],
    router: u32,
) -> Result<Option<SharedRoute>, NoMemory>
    ensures { IfOk result (λ route. route ≡ slice_index_or routes.now router None) }
{
    match routes.get(router as usize) {
        Some(Some(route)) => Ok(Some(SharedRoute::from_route(alloc, route)?)),
        Some(None) => Ok(None),
        None => Ok(None),
    }
}

/// The initial routes of these routers.
pub fn starts_of(alloc: Global, srp: &Srp, routers: &[u32]) -> Result<List<Option<Route>>, NoMemory>
    ensures { IfOk result (λ starts. starts ≡ map (initial srp.now) routers.now) }
{
    let mut starts = List::new(alloc);
    for router in routers {
        starts.push(route_copy(alloc, srp.init(), *router)?)?;
    }
    Ok(starts)
}

/// The marks of these routers.
pub fn marks_of(alloc: Global, srp: &Srp, routers: &[u32]) -> Result<List<bool>, NoMemory>
    ensures { IfOk result (λ marks. marks ≡ map (is_lone srp.now) routers.now) }
{
    let mut marks = List::new(alloc);
    for router in routers {
        marks.push(srp.lone().get(*router as usize).copied().unwrap_or(false))?;
    }
    Ok(marks)
}

// The first number of these routers that is not 0, or 0.
fn number_among(numbers: &[u32], routers: &[u32]) -> u32
    ensures { result ≡ first_nonzero_number numbers.now routers.now }
{
    for router in routers {
        let number = numbers.get(*router as usize).copied().unwrap_or(0);
        if number != 0 {
            return number;
        }
    }
    0
}

#[tactic(auto, using(crate::proofs::MemberLists::among_members))]
fn first_number(srp: &Srp, p: &Partition, group: u32) -> u32
    requires { Contains p.now group }
    ensures { result ≡ first_number srp.now.numbers p.now group }
{
    number_among(srp.numbers(), p.members(group))
}

// Which groups have a link.
fn linked(alloc: Global, links: &[QLink], count: u32) -> Result<Vec<bool>, NoMemory>
    requires { All (IsBelow count) links.now }
    ensures { IfOk result (λ flags. flags.items ≡ map (λ group. list_any (touches group) links.now) (range_with_len 0 count)) }
{
    let mut flags = vec![in alloc; false; count as usize]?;
    for link in links {
        flags[link.low as usize] = true;
        flags[link.high as usize] = true;
    }
    Ok(flags)
}

fn starts(srp: &Srp, router: u32) -> bool
    ensures { result ≡ is_some (initial srp.now router) }
{
    match srp.init().get(router as usize) {
        Some(Some(_)) => true,
        Some(None) => false,
        None => false,
    }
}

fn number_of_group(srp: &Srp, p: &Partition, linked: bool, group: u32) -> u32
    requires { Contains p.now group }
    ensures { result ≡ (if is_some (initial srp.now (first_member p.now group)) || linked then first_number srp.now.numbers p.now group else 0) }
{
    if starts(srp, first_member(p, group)) || linked {
        first_number(srp, p, group)
    } else {
        0
    }
}

/// The AS numbers of the groups. A group that originates or has a link has the first number of its
/// members that is not 0; other groups have 0.
pub fn numbers_of(
    alloc: Global,
    srp: &Srp,
    p: &Partition,
    count: u32,
    links: &[QLink],
) -> Result<List<u32>, NoMemory>
    requires numbered { IsNumbered p.now count }
    requires below { All (IsBelow count) links.now }
    ensures { IfOk result (λ numbers. numbers ≡ map (number_of_group srp.now p.now links.now) (range_with_len 0 count)) }
{
    let linked = linked(alloc, links, count)?;
    let mut numbers = List::new(alloc);
    for group in 0..count {
        let is_linked = linked[group as usize];
        numbers.push(number_of_group(srp, p, is_linked, group))?;
    }
    Ok(numbers)
}
