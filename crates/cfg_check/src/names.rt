//! Host names that two routers have.

ghost use Rattle.std.specs.Prelude.{◌≡◌, IfOk, map};
ghost use Rattle.cfg_ast.specs.meaning.RouterFaults.{repeats};
ghost use Rattle.cfg_check.specs.Items.{router_line, same_name};
ghost use Rattle.cfg_check.specs.LeastLine.{least_line};

use crate::least::with_line_if;
use base_kit::NoMemory;
use cfg_ast::Router;
use numbered_names::{NameHashing, NameSet};
use std::alloc::Global;

/// The least `hostname` line that repeats an earlier router's name.
pub(crate) fn shared_name(alloc: Global, routers: &[Router]) -> Result<Option<u32>, NoMemory>
    ensures { IfOk result (λ line. line ≡ least_line (map router_line (repeats same_name routers.now))) }
{
    let mut seen = NameSet::new(alloc, NameHashing::of(routers));
    let mut least = None;
    for router in routers {
        let is_new = seen.insert(router.name.as_str())?;
        least = with_line_if(least, !is_new, router.line);
    }
    Ok(least)
}
