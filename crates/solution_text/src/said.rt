//! What the lines so far say.

ghost use Rattle.std.specs.Prelude.{◌≡◌, ◌<◌, ◌≤◌, ◌^◌, IfOk, length, replicate, Some, None, false, if◌then◌else◌, slice_index_or};
ghost use Rattle.std.specs.List.{list_all};
ghost use Rattle.solution_text.specs.Steps.{nothing_said, has_line, with_label_at, all_labels, is_said};

use base_kit::NoMemory;
use srp_core::{Labels, Route};
use std::alloc::Global;
use std::marker::Model;

/// Which routers have a line so far, and what these lines say.
#[derive(Drop)]
pub(crate) struct Said {
    seen: Vec<bool>,
    labels: Labels,
}

impl Model for Said {
    ghost use Rattle.std.specs.Prelude.{◌≡◌, length};
    ghost use Rattle.solution_text.specs.Steps.{LabelsSoFar};

    ghost Value = { LabelsSoFar };

    ghost view = { λ s. record { seen = s.seen.items; labels = s.labels } };

    ghost invariant = { λ s. length s.seen.items ≡ length s.labels };
}

fn no_labels(alloc: Global, count: usize) -> Result<Labels, NoMemory>
    ensures { IfOk result (λ labels. labels ≡ replicate count None) }
{
    let mut labels = Labels::new(alloc);
    for _i in 0..count {
        labels.push(None)?;
    }
    Ok(labels)
}

fn none_seen(alloc: Global, count: usize) -> Result<Vec<bool>, NoMemory>
    ensures { IfOk result (λ seen. seen.items ≡ replicate count false) }
{
    let mut seen = Vec::new(alloc);
    for _i in 0..count {
        seen.push(false)?;
    }
    Ok(seen)
}

fn are_all_seen(seen: &[bool]) -> bool
    ensures { result ≡ list_all is_said seen.now }
{
    seen.iter().all(|b| *b)
}

impl Said {
    /// Nothing is said of so many routers.
    pub(crate) fn nothing(alloc: Global, count: usize) -> Result<Said, NoMemory>
        ensures { IfOk result (λ said. said ≡ nothing_said count) }
    {
        let labels = no_labels(alloc, count)?;
        let seen = none_seen(alloc, count)?;
        Ok(Said { seen, labels })
    }

    /// Whether the router has a line.
    pub(crate) fn has_line(&self, router: u32) -> bool
        requires { router < length self.now.seen }
        ensures { result ≡ has_line self.now router }
    {
        self.seen[router as usize]
    }

    /// The router has that label.
    pub(crate) fn with(self, router: u32, label: Option<Route>) -> Said
        requires { router < length self.seen }
        ensures { result ≡ with_label_at self router label }
    {
        let Said {
            mut seen,
            mut labels,
        } = self;
        seen[router as usize] = true;
        labels.set(router, label);
        Said { seen, labels }
    }

    /// All labels, if each router has a line.
    pub(crate) fn into_labels(self) -> Option<Labels>
        ensures { result ≡ all_labels self }
    {
        let Said { seen, labels } = self;
        if are_all_seen(&seen) {
            Some(labels)
        } else {
            None
        }
    }
}
