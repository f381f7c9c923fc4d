//! A route or none for each router.

ghost use Rattle.std.specs.Prelude.{◌≡◌, ◌<◌, OnOk, OnErr, All, slice_set, ◌++◌, ◌∷◌, [], length};
ghost use Rattle.srp_core.specs.Labels.{HasSet};

use crate::route::Route;
use base_kit::NoMemory;
use std::alloc::Global;
use std::marker::Model;

/// A route or none for each router, by its place. The communities of each route are a set.
#[derive(Drop)]
pub struct Labels {
    items: Vec<Option<Route>>,
}

impl Model for Labels {
    ghost use Rattle.std.specs.Prelude.{List, Option, All};
    ghost use Rattle.srp_core.specs.declared.route.Route.{Route};
    ghost use Rattle.srp_core.specs.Labels.{HasSet};

    ghost Value = { List (Option Route) };

    ghost view = { λ l. l.items.items };

    ghost invariant = { λ l. All HasSet l.items.items };
}

// Reading a set shows that it ascends.
fn read_set(label: &Option<Route>)
    ensures { HasSet label.now }
{
    match label {
        Some(Route::Bgp { comms, .. }) => {
            let _known = comms.as_slice();
        }
        Some(Route::Ospf { .. }) => {}
        None => {}
    }
}

impl Labels {
    /// No labels yet.
    pub fn new(alloc: Global) -> Self
        ensures { result ≡ [] }
    {
        Labels {
            items: Vec::new(alloc),
        }
    }

    /// Gives the next router its label. After an error the labels are as before.
    pub fn push(&mut self, label: Option<Route>) -> Result<(), NoMemory>
        ensures ok { OnOk result (self.new ≡ self.old ++ label ∷ []) }
        ensures err { OnErr result (self.new ≡ self.old) }
    {
        read_set(&label);
        self.items.push(label)?;
        Ok(())
    }

    /// Gives a router another label.
    pub fn set(&mut self, router: u32, label: Option<Route>)
        requires { router < length self.old }
        ensures { self.new ≡ slice_set self.old router label }
    {
        read_set(&label);
        self.items[router as usize] = label;
    }

    /// All labels, by router. The communities of each are a set.
    pub fn as_slice(&self) -> &[Option<Route>]
        ensures all { result.now ≡ self.now }
        ensures sets { All HasSet self.now }
    {
        self.items.as_slice()
    }
}
