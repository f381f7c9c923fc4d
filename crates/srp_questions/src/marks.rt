//! Routers marked in a list of flags, one for each router.

ghost use Rattle.std.specs.Prelude.{◌≡◌, ◌<◌, ℕ, All, IfOk, length, map, not, is_some, if◌then◌else◌};
ghost use Rattle.std.specs.List.{list_all};
ghost use Rattle.base_kit.specs.Sets.{has};
ghost use Rattle.srp_questions.specs.Walks.{is_marked};

use base_kit::{NoMemory, NumSet};
use srp_core::Srp;
use std::alloc::Global;

/// One flag for the routers of the set, and the other for all others.
pub(crate) fn flags(
    alloc: Global,
    count: u32,
    routers: &NumSet,
    inside: bool,
) -> Result<Vec<bool>, NoMemory>
    requires { All (λ router. router < count) routers.now }
    ensures total { IfOk result (λ flags. length flags.items ≡ count) }
    ensures each { IfOk result (λ flags. (u : ℕ) → u < count → is_marked flags.items u ≡ (if has routers.now u then inside else not inside)) }
{
    let mut flags = vec![in alloc; !inside; count as usize]?;
    for router in routers.as_slice() {
        flags[*router as usize] = inside;
    }
    Ok(flags)
}

/// Which routers have an initial route.
pub(crate) fn origins(alloc: Global, srp: &Srp) -> Result<Vec<bool>, NoMemory>
    ensures { IfOk result (λ flags. flags.items ≡ map is_some srp.now.init) }
{
    let mut flags = Vec::new(alloc);
    for init in srp.init() {
        flags.push(init.is_some())?;
    }
    Ok(flags)
}

/// Whether none of the routers is marked.
pub(crate) fn is_none_marked(marks: &[bool], routers: &NumSet) -> bool
    requires { All (λ router. router < length marks.now) routers.now }
    ensures { result ≡ list_all (λ router. not (is_marked marks.now router)) routers.now }
{
    for router in routers.as_slice() {
        if marks[*router as usize] {
            return false;
        }
    }
    true
}
