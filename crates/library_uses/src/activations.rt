//! Calls that activate routers.

ghost use Rattle.std.specs.Prelude.{◌≡◌, ◌≢◌, ◌<◌, ◌≤◌, ◌^◌, All, IfOk, MatchBool, MatchOption, OnErr, length};
ghost use Rattle.route_run.specs.Activations.{IsFirstMoving, activated, labels_after, no_labels};
ghost use Rattle.route_run.specs.Orders.{IsOrderOf, IsSolutionLike};
ghost use Rattle.route_run.specs.Schedules.{ReadsSchedule, run_of, schedule_of_text};
ghost use Rattle.srp_core.specs.Problem.{count};
ghost use Rattle.srp_core.specs.Stability.{AreLabels, IsStable};

use base_kit::{List, NoMemory, Text};
use route_run::{
    Activation, ScheduleRefusal, activate, moving, reach, read_schedule, run_schedule,
};
use shared_routes::SharedLabels;
use srp_core::{Labels, Srp};
use std::alloc::Global;

/// The activations that a text lists.
pub fn schedule_in(
    alloc: Global,
    bytes: &[u8],
    names: &List<Text>,
) -> Result<List<Activation>, ScheduleRefusal>
    requires short { length bytes.now ≤ 16777216 }
    requires few { length names.now < 2 ^ 32 }
    ensures { ReadsSchedule result (schedule_of_text names.now bytes.now) }
{
    read_schedule(alloc, bytes, names)
}

/// Lets a router choose anew, and says whether its label changed.
pub fn step(alloc: Global, srp: &Srp, labels: &mut SharedLabels, u: u32) -> Result<bool, NoMemory>
    requires router { u < count srp.now }
    requires labels { AreLabels srp.now labels.old }
    ensures ok { IfOk result (λ _. labels.new ≡ activated srp.now labels.old u) }
    ensures changed { IfOk result (λ changed. MatchBool changed (labels.new ≢ labels.old) (labels.new ≡ labels.old)) }
    ensures err { OnErr result (labels.new ≡ labels.old) }
{
    activate(alloc, srp, labels, u)
}

/// The labels after a schedule.
pub fn labels_after_all(
    alloc: Global,
    srp: &Srp,
    schedule: &List<Activation>,
) -> Result<SharedLabels, NoMemory>
    requires { All (λ u. u < count srp.now) (run_of (count srp.now) schedule.now) }
    ensures { IfOk result (λ labels. labels ≡ labels_after srp.now (no_labels srp.now) (run_of (count srp.now) schedule.now)) }
{
    run_schedule(alloc, srp, schedule)
}

/// The first router that would change its label.
pub fn first_moving(
    alloc: Global,
    srp: &Srp,
    labels: &SharedLabels,
) -> Result<Option<u32>, NoMemory>
    requires { AreLabels srp.now labels.now }
    ensures { IfOk result (λ router. MatchOption router (IsStable srp.now labels.now) (IsFirstMoving srp.now labels.now)) }
{
    moving(alloc, srp, labels)
}

/// Activations that lead from no labels to stable ones.
pub fn way_to(alloc: Global, srp: &Srp, labels: &Labels) -> Result<List<Activation>, NoMemory>
    requires { IsStable srp.now labels.now }
    ensures order { IfOk result (λ schedule. IsOrderOf srp.now labels.now (run_of (count srp.now) schedule)) }
    ensures reached { IfOk result (λ schedule. IsSolutionLike srp.now labels.now (labels_after srp.now (no_labels srp.now) (run_of (count srp.now) schedule))) }
{
    reach(alloc, srp, labels)
}
