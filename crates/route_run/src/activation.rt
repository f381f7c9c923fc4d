//! One router is activated.

ghost use Rattle.std.specs.Prelude.{◌≡◌, ◌≢◌, ◌<◌, IfOk, OnErr, MatchBool, length, true};
ghost use Rattle.srp_core.specs.Problem.{count, IsProblem};
ghost use Rattle.srp_core.specs.Stability.{label, AreLabels};
ghost use Rattle.route_run.specs.Activations.{activated, chosen_label, no_labels};
ghost use Rattle.route_run.specs.Choices.{IsChoice};
ghost use Rattle.route_run.specs.Rests.{HasWoken};

use crate::choosing::{Choice, choose};
use base_kit::NoMemory;
use refine_partition::{Exports, exports_of};
use route_keys::{LoneNumbers, lone_numbers};
use shared_routes::{SharedLabels, candidates};
use srp_core::Srp;
use std::alloc::Global;
use std::marker::Model;

/// Activates the routers of a problem, any number of times. It has looked through the problem once, so
/// that an activation goes over the edges of its router alone, and over the paths of the labels behind
/// them.
#[derive(Drop)]
pub struct Runner<'a> {
    alloc: Global,
    srp: &'a Srp,
    lone: LoneNumbers,
    exports: Exports,
}

impl<'a> Model for Runner<'a> {
    ghost use Rattle.srp_core.specs.Problem.{Problem};
    ghost use Rattle.route_keys.specs.Lone.{HasLoneNumbers};
    ghost use Rattle.route_run.specs.Rests.{AreExports};

    ghost Value = { Problem };

    ghost view = { λ r. r.srp.now };

    ghost invariant = { λ r. HasLoneNumbers r.srp.now r.lone × AreExports r.srp.now r.exports.imports.items };
}

impl<'a> Runner<'a> {
    /// A runner of the problem's routers.
    pub fn new(alloc: Global, srp: &'a Srp) -> Result<Runner<'a>, NoMemory>
        ensures { IfOk result (λ runner. runner ≡ srp.now) }
    {
        let lone = lone_numbers(alloc, srp)?;
        let exports = exports_of(alloc, srp.count(), srp.edges())?;
        Ok(Runner {
            alloc,
            srp,
            lone,
            exports,
        })
    }

    /// How many routers there are.
    pub(crate) fn count(&self) -> u32
        ensures count { result ≡ count self.now }
        ensures rules { IsProblem self.now }
    {
        self.srp.count()
    }

    /// The labels before any activation: no router has one.
    pub(crate) fn no_labels(&self) -> Result<SharedLabels, NoMemory>
        ensures { IfOk result (λ labels. labels ≡ no_labels self.now) }
    {
        let mut labels = SharedLabels::new(self.alloc);
        for _router in 0..self.count() {
            labels.push(None)?;
        }
        Ok(labels)
    }

    /// What a router chooses, by the labels as they stand.
    pub(crate) fn choice(&self, labels: &SharedLabels, router: u32) -> Result<Choice, NoMemory>
        requires router { router < count self.now }
        requires labels { AreLabels self.now labels.now }
        ensures { IfOk result (IsChoice (chosen_label self.now labels.now router) (label labels.now router)) }
    {
        let candidates = candidates(self.alloc, self.srp, labels, router)?;
        choose(
            self.alloc,
            &self.lone,
            candidates,
            &labels.as_slice()[router as usize],
        )
    }

    /// Takes the marks from the routers that import from this one.
    pub(crate) fn wake(&self, rests: &mut Vec<bool>, router: u32)
        requires router { router < count self.now }
        requires total { length rests.old.items ≡ count self.now }
        ensures { HasWoken self.now router rests.old.items rests.new.items }
    {
        let _known = self.count();
        for import in &self.exports.imports[router as usize] {
            rests[import.importer as usize] = false;
        }
    }

    /// Activates a router: it keeps its label if that is a candidate of best key, else it takes the first
    /// candidate of best key, and no label where it has no candidate. The answer says whether the label
    /// changed. There is one label for each router, each of the problem's protocol.
    ///
    /// # Errors
    ///
    /// Out of memory: the labels stay as they were.
    pub fn activate(&self, labels: &mut SharedLabels, router: u32) -> Result<bool, NoMemory>
        requires router { router < count self.now }
        requires labels { AreLabels self.now labels.old }
        ensures ok { IfOk result (λ _. labels.new ≡ activated self.now labels.old router) }
        ensures changed { IfOk result (λ changed. MatchBool changed (labels.new ≢ labels.old) (labels.new ≡ labels.old)) }
        ensures err { OnErr result (labels.new ≡ labels.old) }
        ensures labels { AreLabels self.now labels.new }
    {
        let _known = self.count();
        match self.choice(labels, router)? {
            Choice::Keep => Ok(false),
            Choice::Take(label) => {
                labels.set(router, label);
                Ok(true)
            }
        }
    }
}

/// Activates one router, as `Runner::activate` does. It looks through the whole problem first: a `Runner`
/// does so once for many activations.
///
/// # Errors
///
/// Out of memory: the labels stay as they were.
pub fn activate(
    alloc: Global,
    srp: &Srp,
    labels: &mut SharedLabels,
    router: u32,
) -> Result<bool, NoMemory>
    requires router { router < count srp.now }
    requires labels { AreLabels srp.now labels.old }
    ensures ok { IfOk result (λ _. labels.new ≡ activated srp.now labels.old router) }
    ensures changed { IfOk result (λ changed. MatchBool changed (labels.new ≢ labels.old) (labels.new ≡ labels.old)) }
    ensures err { OnErr result (labels.new ≡ labels.old) }
    ensures labels { AreLabels srp.now labels.new }
{
    let runner = Runner::new(alloc, srp)?;
    runner.activate(labels, router)
}
