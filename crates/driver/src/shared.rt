//! What the classes of a network share, and the problem of a class.

ghost use Rattle.std.specs.Prelude.{◌≡◌, IfOk, Contains, length};
ghost use Rattle.cfg_ast.specs.meaning.Classes.{classes_of};
ghost use Rattle.cfg_ast.specs.meaning.PolicyFaults.{communities_of};
ghost use Rattle.cfg_ast.specs.meaning.Topology.{links_of};
ghost use Rattle.srp_build.specs.Built.{IsBuiltFor};
ghost use Rattle.driver.specs.Steps.{IsSharedOf};

use base_kit::{List, NoMemory};
use cfg_ast::{DestClass, Link};
use cfg_check::Checked;
use dd_core::Store;
use given_laws::given_is_well_formed;
use net_topology::laws::few_links;
use net_topology::links;
use srp_build::{Directions, build, build_over, directions_of};
use srp_core::Srp;
use std::alloc::Global;

/// What the classes of a network share: its links, their directions, and a store of diagrams over all
/// communities that the network names.
#[derive(Drop)]
pub struct Shared {
    pub links: List<Link>,
    pub directions: Directions,
    pub store: Store,
}

// How many operations on diagrams are remembered. An operation on diagrams that are larger than what is
// remembered does the same work over and over.
const REMEMBERED: usize = 1048576;

// A store of diagrams over all communities that the network names.
fn store_of(alloc: Global, checked: &Checked) -> Result<Store, NoMemory>
    ensures { IfOk result (λ store. store.universe ≡ communities_of checked.now.network) }
{
    let store = Store::with_capacity(alloc, checked.communities(), REMEMBERED)?;
    Ok(store)
}

impl Shared {
    /// What the classes of this network share.
    ///
    /// # Errors
    /// Out of memory.
    pub fn of(alloc: Global, checked: &Checked) -> Result<Self, NoMemory>
        ensures { IfOk result (IsSharedOf checked.now.network) }
    {
        let links = links(alloc, checked)?;
        let directions = directions_of(alloc, checked, &links)?;
        let store = store_of(alloc, checked)?;
        Ok(Shared {
            links,
            directions,
            store,
        })
    }

    /// How many links the network has.
    pub fn link_count(&self, checked: &Checked) -> u32
        requires { IsSharedOf checked.now.network self.now }
        ensures { result ≡ length (links_of checked.now.network) }
    {
        given_is_well_formed();
        few_links();
        self.links.len() as u32
    }

    /// The problem of a class of the network. The store may grow.
    ///
    /// # Errors
    /// Out of memory.
    pub fn problem(
        &mut self,
        alloc: Global,
        checked: &Checked,
        class: &DestClass,
    ) -> Result<Srp, NoMemory>
        requires shared { IsSharedOf checked.now.network self.old }
        requires class { Contains (classes_of checked.now.network) class.now }
        ensures shared { IsSharedOf checked.now.network self.new }
        ensures built { IfOk result (IsBuiltFor checked.now.network class.now) }
    {
        build_over(alloc, checked, &self.directions, class, &mut self.store)
    }
}

/// The problem of a class, if no other class is needed: its edges are not copied.
///
/// # Errors
/// Out of memory.
pub fn problem_of_class(
    alloc: Global,
    checked: &Checked,
    class: &DestClass,
) -> Result<Srp, NoMemory>
    requires { Contains (classes_of checked.now.network) class.now }
    ensures { IfOk result (IsBuiltFor checked.now.network class.now) }
{
    let links = links(alloc, checked)?;
    let mut store = store_of(alloc, checked)?;
    let problem = build(alloc, checked, &links, class, &mut store)?;
    Ok(problem)
}
