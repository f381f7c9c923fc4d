//! A route or none for each router.

ghost use Rattle.std.specs.Prelude.{◌≡◌, ◌<◌, ◌++◌, ◌∷◌, [], IfOk, OnErr, OnOk, length, slice_set};

use crate::routes::SharedRoute;
use base_kit::NoMemory;
use srp_core::{Labels, Route};
use std::alloc::Global;
use std::marker::Model;

/// A route or none for each router, by its place. Their paths share their tails.
#[derive(Drop)]
pub struct SharedLabels {
    items: Vec<Option<SharedRoute>>,
}

impl Model for SharedLabels {
    ghost use Rattle.std.specs.Prelude.{List, Option};
    ghost use Rattle.srp_core.specs.declared.route.Route.{Route};

    ghost Value = { List (Option Route) };

    ghost view = { λ l. l.items.items };
}

fn plain_label(alloc: Global, label: &Option<SharedRoute>) -> Result<Option<Route>, NoMemory>
    ensures { IfOk result (λ plain. plain ≡ label.now) }
{
    match label {
        None => Ok(None),
        Some(route) => Ok(Some(route.plain(alloc)?)),
    }
}

impl SharedLabels {
    /// No labels yet.
    pub fn new(alloc: Global) -> Self
        ensures { result ≡ [] }
    {
        SharedLabels {
            items: Vec::new(alloc),
        }
    }

    /// Gives the next router its label. After an error the labels are as before.
    pub fn push(&mut self, label: Option<SharedRoute>) -> Result<(), NoMemory>
        ensures ok { OnOk result (self.new ≡ self.old ++ label ∷ []) }
        ensures err { OnErr result (self.new ≡ self.old) }
    {
        self.items.push(label)?;
        Ok(())
    }

    /// Gives a router another label.
    pub fn set(&mut self, router: u32, label: Option<SharedRoute>)
        requires { router < length self.old }
        ensures { self.new ≡ slice_set self.old router label }
    {
        self.items[router as usize] = label;
    }

    /// All labels, by router.
    pub fn as_slice(&self) -> &[Option<SharedRoute>]
        ensures { result.now ≡ self.now }
    {
        self.items.as_slice()
    }

    /// The same labels, each with a path of its own.
    pub fn plain(&self, alloc: Global) -> Result<Labels, NoMemory>
        ensures { IfOk result (λ labels. labels ≡ self.now) }
    {
        let mut labels = Labels::new(alloc);
        for label in self.items.as_slice() {
            labels.push(plain_label(alloc, label)?)?;
        }
        Ok(labels)
    }
}
