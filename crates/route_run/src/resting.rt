//! Activations of which those of routers that are known to rest take no time.

ghost use Rattle.std.specs.Prelude.{◌≡◌, ◌<◌, IfOk};
ghost use Rattle.srp_core.specs.Problem.{count};
ghost use Rattle.srp_core.specs.Stability.{label, AreLabels};
ghost use Rattle.route_run.specs.Activations.{activated, chosen_label};
ghost use Rattle.route_run.specs.Rests.{IsRunState};

use crate::activation::Runner;
use crate::choosing::Choice;
use base_kit::NoMemory;
use shared_routes::{SharedLabels, SharedRoute};
use std::alloc::Global;

/// The labels as they stand, and for each router whether it is known that an activation keeps its label.
#[derive(Drop)]
pub(crate) struct State {
    pub(crate) labels: SharedLabels,
    pub(crate) rests: Vec<bool>,
}

/// The state of these labels, where of no router it is known that it rests.
pub(crate) fn state_of(
    alloc: Global,
    runner: &Runner,
    labels: SharedLabels,
) -> Result<State, NoMemory>
    requires { AreLabels runner.now labels }
    ensures labels { IfOk result (λ state. state.labels ≡ labels) }
    ensures state { IfOk result (IsRunState runner.now) }
{
    let rests = vec![in alloc; false; runner.count() as usize]?;
    Ok(State { labels, rests })
}

// The router keeps its label, and rests.
fn keep(runner: &Runner, state: &mut State, router: u32)
    requires router { router < count runner.now }
    requires state { IsRunState runner.now state.old }
    requires keeps { chosen_label runner.now state.old.labels router ≡ label state.old.labels router }
    ensures labels { state.new.labels ≡ state.old.labels }
    ensures state { IsRunState runner.now state.new }
{
    state.rests[router as usize] = true;
}

// The router takes another label, and rests. Those who import from it may choose anew.
fn take(runner: &Runner, state: &mut State, router: u32, label: Option<SharedRoute>)
    requires router { router < count runner.now }
    requires state { IsRunState runner.now state.old }
    requires chosen { chosen_label runner.now state.old.labels router ≡ label }
    ensures labels { state.new.labels ≡ activated runner.now state.old.labels router }
    ensures state { IsRunState runner.now state.new }
{
    let _known = runner.count();
    state.labels.set(router, label);
    runner.wake(&mut state.rests, router);
    state.rests[router as usize] = true;
}

/// Activates a router. Of one that is known to rest nothing is looked at.
pub(crate) fn activate_once(runner: &Runner, state: &mut State, router: u32) -> Result<(), NoMemory>
    requires router { router < count runner.now }
    requires state { IsRunState runner.now state.old }
    ensures labels { IfOk result (λ _. state.new.labels ≡ activated runner.now state.old.labels router) }
    ensures state { IfOk result (λ _. IsRunState runner.now state.new) }
{
    if state.rests[router as usize] {
        return Ok(());
    }
    match runner.choice(&state.labels, router)? {
        Choice::Keep => {
            keep(runner, state, router);
            Ok(())
        }
        Choice::Take(label) => {
            take(runner, state, router, label);
            Ok(())
        }
    }
}
