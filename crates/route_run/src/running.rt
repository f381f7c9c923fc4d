//! Labels after a schedule.

ghost use Rattle.std.specs.Prelude.{◌≡◌, ◌≢◌, ◌<◌, ℕ, All, IfOk, MatchBool, MatchOption};
ghost use Rattle.std.specs.List.{range_with_len};
ghost use Rattle.base_kit.specs.declared.protocol.Protocol.TheVariants.{Ospf as OverOspf};
ghost use Rattle.srp_core.specs.Problem.{count};
ghost use Rattle.srp_core.specs.Stability.{label, AreLabels, IsStable};
ghost use Rattle.route_run.specs.Activations.{chosen_label, labels_after, no_labels, IsFirstMoving};
ghost use Rattle.route_run.specs.Rests.{IsRunState};
ghost use Rattle.route_run.specs.Rounds.{HasNoLone, PrependsAtMost, HasRounds, enough_rounds};
ghost use Rattle.route_run.specs.Schedules.{run_of, routers_of};

use crate::activation::Runner;
use crate::choosing::Choice;
use crate::resting::{State, activate_once, state_of};
use crate::schedule::Activation;
use base_kit::{List, NoMemory};
use shared_routes::SharedLabels;
use srp_core::Srp;
use std::alloc::Global;

// Activates all routers in order.
fn run_round(runner: &Runner, state: &mut State) -> Result<(), NoMemory>
    requires { IsRunState runner.now state.old }
    ensures labels { IfOk result (λ _. state.new.labels ≡ labels_after runner.now state.old.labels (range_with_len 0 (count runner.now))) }
    ensures state { IfOk result (λ _. IsRunState runner.now state.new) }
{
    for router in 0..runner.count() {
        activate_once(runner, state, router)?;
    }
    Ok(())
}

// Activates what the schedule says next.
fn run_next(runner: &Runner, state: &mut State, activation: Activation) -> Result<(), NoMemory>
    requires state { IsRunState runner.now state.old }
    requires inside { All (λ u. u < count runner.now) (routers_of (count runner.now) activation) }
    ensures labels { IfOk result (λ _. state.new.labels ≡ labels_after runner.now state.old.labels (routers_of (count runner.now) activation)) }
    ensures state { IfOk result (λ _. IsRunState runner.now state.new) }
{
    match activation {
        Activation::One(only) => activate_once(runner, state, only),
        Activation::Round => run_round(runner, state),
    }
}

/// The labels after the activations of a schedule, one after the other, from no labels at all. In OSPF as
/// many rounds as there are routers give stable labels. In BGP, where no router is lone, (n - 1) * (p + 1) +
/// 1 rounds do, for n routers and imports that prepend at most p numbers.
pub fn run_schedule(
    alloc: Global,
    srp: &Srp,
    schedule: &List<Activation>,
) -> Result<SharedLabels, NoMemory>
    requires { All (λ u. u < count srp.now) (run_of (count srp.now) schedule.now) }
    ensures labels { IfOk result (AreLabels srp.now) }
    ensures run { IfOk result (λ labels. labels ≡ labels_after srp.now (no_labels srp.now) (run_of (count srp.now) schedule.now)) }
    ensures rounds { IfOk result (λ labels. (most : ℕ) → HasNoLone srp.now → PrependsAtMost srp.now most → HasRounds srp.now (enough_rounds srp.now most) (run_of (count srp.now) schedule.now) → IsStable srp.now labels) }
    ensures ospf_rounds { IfOk result (λ labels. srp.now.protocol ≡ OverOspf → HasRounds srp.now (count srp.now) (run_of (count srp.now) schedule.now) → IsStable srp.now labels) }
{
    let _known = srp.count();
    let runner = Runner::new(alloc, srp)?;
    let labels = runner.no_labels()?;
    let mut state = state_of(alloc, &runner, labels)?;
    for activation in schedule.as_slice() {
        run_next(&runner, &mut state, *activation)?;
    }
    Ok(state.labels)
}

fn moves(runner: &Runner, labels: &SharedLabels, router: u32) -> Result<bool, NoMemory>
    requires router { router < count runner.now }
    requires labels { AreLabels runner.now labels.now }
    ensures { IfOk result (λ moves. MatchBool moves (chosen_label runner.now labels.now router ≢ label labels.now router) (chosen_label runner.now labels.now router ≡ label labels.now router)) }
{
    match runner.choice(labels, router)? {
        Choice::Keep => Ok(false),
        Choice::Take(_) => Ok(true),
    }
}

/// The first router whose activation changes its label, or None where the labels are stable. There is one
/// label for each router, each of the problem's protocol.
pub fn moving(alloc: Global, srp: &Srp, labels: &SharedLabels) -> Result<Option<u32>, NoMemory>
    requires { AreLabels srp.now labels.now }
    ensures { IfOk result (λ router. MatchOption router (IsStable srp.now labels.now) (IsFirstMoving srp.now labels.now)) }
{
    let runner = Runner::new(alloc, srp)?;
    for router in 0..srp.count() {
        if moves(&runner, labels, router)? {
            return Ok(Some(router));
        }
    }
    Ok(None)
}
