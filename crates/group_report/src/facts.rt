//! What a report says of a router.

ghost use Rattle.std.specs.Prelude.{◌≡◌};
ghost use Rattle.srp_core.specs.Problem.{is_lone};
ghost use Rattle.group_report.specs.GroupLines.{name_at, originates};

use srp_core::Srp;

pub(crate) fn name_at(problem: &Srp, router: u32) -> &str
    ensures { result.now ≡ name_at problem.now router }
{
    match problem.names().as_slice().get(router as usize) {
        Some(name) => name.as_str(),
        None => "",
    }
}

pub(crate) fn originates(problem: &Srp, router: u32) -> bool
    ensures { result ≡ originates problem.now router }
{
    match problem.init().get(router as usize) {
        Some(route) => route.is_some(),
        None => false,
    }
}

pub(crate) fn is_lone(problem: &Srp, router: u32) -> bool
    ensures { result ≡ is_lone problem.now router }
{
    match problem.lone().get(router as usize) {
        Some(lone) => *lone,
        None => false,
    }
}
