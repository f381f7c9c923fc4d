//! Both sides of `fold` and `lift`: the problem of a class and that of its groups.

ghost use Rattle.std.specs.Prelude.{◌≡◌, IfOk, Contains};
ghost use Rattle.cfg_ast.specs.meaning.Classes.{classes_of};
ghost use Rattle.answer_solutions.specs.Carries.{AreSides};

use base_kit::NoMemory;
use cfg_ast::DestClass;
use cfg_check::Checked;
use driver::{Grouping, grouped, problem_of_class};
use given_laws::given_is_well_formed;
use net_topology::laws::few_links;
use quotient_laws::groups_have_no_more_links;
use refine_partition::Partition;
use solution_lift::quotient_srp;
use srp_core::Srp;
use std::alloc::Global;

/// The problem of a class, its groups, and the problem of the groups.
#[derive(Drop)]
pub struct Sides {
    pub problem: Srp,
    pub groups: Partition,
    pub small: Srp,
}

/// The problem of a class, its coarsest groups, and the problem of these.
pub fn sides_of(alloc: Global, checked: &Checked, class: &DestClass) -> Result<Sides, NoMemory>
    requires { Contains (classes_of checked.now.network) class.now }
    ensures { IfOk result (AreSides checked.now.network class.now) }
{
    given_is_well_formed();
    few_links();
    groups_have_no_more_links();
    let problem = problem_of_class(alloc, checked, class)?;
    let grouping = grouped(alloc, problem)?;
    let _known = grouping.groups.groups();
    let small = quotient_srp(
        alloc,
        &grouping.problem,
        &grouping.groups,
        &grouping.quotient,
    )?;
    let _also_known = small.count();
    let Grouping {
        problem,
        groups,
        ..
    } = grouping;
    Ok(Sides {
        problem,
        groups,
        small,
    })
}
