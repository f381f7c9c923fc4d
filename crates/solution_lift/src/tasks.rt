//! The order in which routers get their labels.

ghost use Rattle.std.specs.Prelude.{◌≡◌, ℕ, ◌<◌, ◌^◌, ◌++◌, [], All, IfOk, OnOk, length};
ghost use Rattle.std.specs.Prelude.{filter_map};
ghost use Rattle.std.specs.List.{cons_option, range_with_len};
ghost use Rattle.by_key.specs.ByKey.{by_key};
ghost use Rattle.srp_core.specs.Routes.{size_of};
ghost use Rattle.solution_lift.specs.Carrying.{task_at, size_key, IsOrder};

use base_kit::NoMemory;
use srp_core::Route;
use std::alloc::Global;

/// A router or a group that gets a route, and the size of the label that it asks for.
#[derive(Clone, Copy, Debug, PartialEq, Eq)]
pub struct Task {
    pub place: u32,
    pub size: usize,
}

fn size_of(route: &Route) -> usize
    ensures { result ≡ size_of route.now }
{
    match route {
        Route::Bgp { path, .. } => path.len(),
        Route::Ospf { cost } => *cost as usize,
    }
}

fn task_at(asked: &[Option<Route>], at: &[u32], place: u32) -> Option<Task>
    requires { place < length at.now }
    ensures { result ≡ task_at asked.now at.now place }
{
    match asked.get(at[place as usize] as usize) {
        Some(Some(route)) => Some(Task {
            place,
            size: size_of(route),
        }),
        Some(None) => None,
        None => None,
    }
}

fn push_some(tasks: &mut Vec<Task>, task: Option<Task>) -> Result<(), NoMemory>
    ensures { OnOk result (tasks.new.items ≡ tasks.old.items ++ cons_option task []) }
{
    if let Some(task) = task {
        tasks.push(task)?;
    }
    Ok(())
}

fn tasks_by_place(alloc: Global, asked: &[Option<Route>], at: &[u32]) -> Result<Vec<Task>, NoMemory>
    requires { length at.now < 2 ^ 32 }
    ensures { IfOk result (λ tasks. tasks.items ≡ filter_map (task_at asked.now at.now) (range_with_len 0 (length at.now))) }
{
    let mut tasks = Vec::new(alloc);
    for place in 0..at.len() {
        push_some(&mut tasks, task_at(asked, at, place as u32))?;
    }
    Ok(tasks)
}

fn sort_by_size(tasks: &mut Vec<Task>) -> Result<(), NoMemory>
    ensures { IfOk result (λ _. (n : ℕ) → All (λ (task : Task). task.size < n) tasks.old.items → tasks.new.items ≡ by_key size_key n tasks.old.items) }
{
    tasks.sort_by_key(|task| task.size)?;
    Ok(())
}

/// The tasks of all routers that ask for a label; tasks for smaller labels come first. A router asks for
/// the label whose place `at` gives for it.
pub fn tasks_of(alloc: Global, asked: &[Option<Route>], at: &[u32]) -> Result<Vec<Task>, NoMemory>
    requires { length at.now < 2 ^ 32 }
    ensures { IfOk result (λ tasks. IsOrder asked.now at.now tasks.items) }
{
    let mut tasks = tasks_by_place(alloc, asked, at)?;
    sort_by_size(&mut tasks)?;
    Ok(tasks)
}
