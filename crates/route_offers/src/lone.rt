//! The lone routers on the paths of labels.

ghost use Rattle.std.specs.Prelude.{◌≡◌, IfOk, map, nat_eq};
ghost use Rattle.std.specs.HashSet.{contains};
ghost use Rattle.route_offers.specs.Lone.{chosen_on_path, IsLoneOf};

use base_kit::{List, NoMemory, NumSet};
use route_keys::{LoneNumbers, lone_numbers, lone_on};
use srp_core::{Labels, Route, Srp};
use std::alloc::Global;

/// The numbers of the lone routers, and those of them that are on the path of each label.
#[derive(Drop)]
pub struct Lone {
    pub numbers: LoneNumbers,
    pub paths: List<NumSet>,
}

fn lone_of(alloc: Global, numbers: &LoneNumbers, label: &Option<Route>) -> Result<NumSet, NoMemory>
    ensures { IfOk result (λ set. set ≡ chosen_on_path (contains nat_eq numbers.now) label.now) }
{
    match label {
        Some(route) => lone_on(alloc, numbers, route),
        None => Ok(NumSet::new(alloc)),
    }
}

fn lone_paths(
    alloc: Global,
    numbers: &LoneNumbers,
    labels: &[Option<Route>],
) -> Result<List<NumSet>, NoMemory>
    ensures { IfOk result (λ paths. paths ≡ map (chosen_on_path (contains nat_eq numbers.now)) labels.now) }
{
    let mut paths = List::new(alloc);
    for label in labels {
        paths.push(lone_of(alloc, numbers, label)?)?;
    }
    Ok(paths)
}

/// The lone numbers of a problem and its labels.
pub fn lone_of_labels(alloc: Global, srp: &Srp, labels: &Labels) -> Result<Lone, NoMemory>
    ensures { IfOk result (IsLoneOf srp.now labels.now) }
{
    let numbers = lone_numbers(alloc, srp)?;
    let paths = lone_paths(alloc, &numbers, labels.as_slice())?;
    Ok(Lone { numbers, paths })
}
