//! The names of the routers of a problem.

ghost use Rattle.std.specs.Prelude.{◌≡◌, [], slice_index_or};

use srp_core::Srp;

/// The name of a router of the problem, empty where there is no such router.
pub fn router_name(problem: &Srp, router: u32) -> &str
    ensures { result.now ≡ slice_index_or problem.now.names router [] }
{
    match problem.names().as_slice().get(router as usize) {
        Some(name) => name.as_str(),
        None => "",
    }
}
