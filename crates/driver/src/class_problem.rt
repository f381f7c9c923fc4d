//! The problem of one class after the other.

ghost use Rattle.std.specs.Prelude.{◌≡◌, IfOk, IfSome, Contains};
ghost use Rattle.base_kit.specs.declared.protocol.Protocol.TheVariants as protocol;
ghost use Rattle.cfg_ast.specs.meaning.Classes.{classes_of};
ghost use Rattle.driver.specs.Steps.{IsClassProblem, IsProblemOfSome, IsSharedOf};

use crate::grouping::exports_of_problem;
use crate::shared::Shared;
use base_kit::{NoMemory, Protocol};
use cfg_ast::DestClass;
use cfg_check::Checked;
use refine_partition::Exports;
use srp_build::restart;
use srp_core::Srp;
use std::alloc::Global;

/// The problem of a class, with the index of its edges that its groups are found by.
#[derive(Drop)]
pub struct ClassProblem {
    pub problem: Srp,
    pub exports: Exports,
}

// The problem of a class, made from that of another class of an OSPF network. All that depends on the
// class is what its routers originate. So the index stays.
fn changed(
    alloc: Global,
    checked: &Checked,
    class: &DestClass,
    mut made: ClassProblem,
) -> Result<ClassProblem, NoMemory>
    requires ospf { made.problem.protocol ≡ protocol.Ospf }
    requires before { IsProblemOfSome checked.now.network made }
    requires class { Contains (classes_of checked.now.network) class.now }
    ensures { IfOk result (IsClassProblem checked.now.network class.now) }
{
    restart(alloc, checked, class, &mut made.problem)?;
    Ok(made)
}

impl Shared {
    // The problem of a class, made from what the classes share.
    fn afresh(
        &mut self,
        alloc: Global,
        checked: &Checked,
        class: &DestClass,
    ) -> Result<ClassProblem, NoMemory>
        requires shared { IsSharedOf checked.now.network self.old }
        requires class { Contains (classes_of checked.now.network) class.now }
        ensures shared { IsSharedOf checked.now.network self.new }
        ensures made { IfOk result (IsClassProblem checked.now.network class.now) }
    {
        let problem = self.problem(alloc, checked, class)?;
        let exports = exports_of_problem(alloc, &problem)?;
        Ok(ClassProblem { problem, exports })
    }

    /// The problem of a class, with its index. In OSPF it is made from the problem of a class before it, if
    /// one is given: only what the routers originate is made anew. In BGP all is made anew, since what a
    /// map says depends on the prefix.
    ///
    /// # Errors
    /// Out of memory. Then the problem before is gone; what the classes share still serves.
    pub fn problem_after(
        &mut self,
        alloc: Global,
        checked: &Checked,
        class: &DestClass,
        before: Option<ClassProblem>,
    ) -> Result<ClassProblem, NoMemory>
        requires shared { IsSharedOf checked.now.network self.old }
        requires class { Contains (classes_of checked.now.network) class.now }
        requires before { IfSome before (IsProblemOfSome checked.now.network) }
        ensures shared { IsSharedOf checked.now.network self.new }
        ensures made { IfOk result (IsClassProblem checked.now.network class.now) }
    {
        if let Some(made) = before {
            if made.problem.protocol() == Protocol::Ospf {
                return changed(alloc, checked, class, made);
            }
        }
        self.afresh(alloc, checked, class)
    }
}
