//! The ends of runs of steps.

ghost use Rattle.std.specs.Prelude.{◌≡◌, ℕ, ◌<◌, ◌≤◌, true, false, length, slice_index_or};
ghost use Rattle.abstract_net.specs.declared.steps.Step.{Step};
ghost use Rattle.abstract_net.specs.GroupSteps.{has_common};

use crate::steps::Step;

/// What the steps of a run have in common.
#[derive(Clone, Copy, Debug, PartialEq, Eq)]
pub enum Common {
    LowGroup,
    BothGroups,
}

fn has_common(common: Common, a: &Step, b: &Step) -> bool
    ensures { result ≡ has_common common a.now b.now }
{
    match common {
        Common::LowGroup => a.low == b.low,
        Common::BothGroups => a.low == b.low && a.high == b.high,
    }
}

/// The end of the run of steps that have this in common with the one at `start`.
pub fn run_end(common: Common, steps: &[Step], start: usize) -> usize
    requires { start < length steps.now }
    ensures more { start < result }
    ensures within { result ≤ length steps.now }
    ensures same { (i : ℕ) (d : Step) → start ≤ i → i < result → has_common common (slice_index_or steps.now start d) (slice_index_or steps.now i d) ≡ true }
    ensures after { (d : Step) → result < length steps.now → has_common common (slice_index_or steps.now start d) (slice_index_or steps.now result d) ≡ false }
{
    let mut end = start + 1;
    while end < steps.len() && has_common(common, &steps[start], &steps[end]) {
        end += 1;
    }
    end
}
