//! The way of `compress`, one call for each step: from a checked network to that of the groups of a class.

ghost use Rattle.std.specs.Prelude.{◌≡◌, Contains, IfOk, false};
ghost use Rattle.cfg_ast.specs.meaning.Classes.{classes_of};
ghost use Rattle.cfg_ast.specs.printing.Printed.{printed};
ghost use Rattle.cfg_print.specs.Prints.{is_too_long};
ghost use Rattle.compress_laws.specs.Compressed.{Compresses};

use cfg_ast::DestClass;
use cfg_check::Checked;
use compress_laws::laws::plan_compresses;
use config_emit::{EmitRefusal, Emitted, emit};
use driver::{coarsest_of, problem_of_class};
use srp_quotient::links_of_groups;
use std::alloc::Global;

/// The network of the groups of a class. What is printed of it compresses the network, if it is not too long.
pub fn compressed(alloc: Global, net: &Checked, class: &DestClass) -> Result<Emitted, EmitRefusal>
    requires { Contains (classes_of net.now.network) class.now }
    ensures { IfOk result (λ small. is_too_long (printed small.network small.notes) ≡ false → Compresses net.now.network class.now (printed small.network small.notes)) }
{
    let problem = problem_of_class(alloc, net, class)?;
    let groups = coarsest_of(alloc, &problem)?;
    let links = links_of_groups(alloc, &problem, &groups)?;
    // This brings into view that the groups are numbered.
    let _count = groups.groups();
    plan_compresses();
    emit(alloc, net, class, &problem, &groups, &links)
}
