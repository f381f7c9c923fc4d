//! The destination classes of a network.

ghost use Rattle.std.specs.Prelude.{◌≡◌, ◌<◌, ◌^◌, IfOk, length};
ghost use Rattle.cfg_ast.specs.meaning.Classes.{classes_of};

use crate::cells::members_of;
use crate::groups;
use crate::routes::originators;
use base_kit::{List, NoMemory};
use cfg_ast::{DestClass, Network};
use cfg_check::Checked;
use std::alloc::Global;

/// The classes of a network with few routers.
pub fn classes_of(alloc: Global, net: &Network) -> Result<List<DestClass>, NoMemory>
    requires { length net.now.routers < 2 ^ 32 }
    ensures { IfOk result (λ classes. classes ≡ classes_of net.now) }
{
    let originators = originators(alloc, net)?;
    let members = members_of(alloc, net, originators)?;
    let groups = groups::groups_of(alloc, members)?;
    let classes = groups::classes_of(alloc, groups)?;
    Ok(classes)
}

/// The destination classes of a network, by their least prefixes: two prefixes are in one class where
/// the same routers originate them with the same initial routes and all prefix lists answer both alike.
pub fn classes(alloc: Global, checked: &Checked) -> Result<List<DestClass>, NoMemory>
    ensures { IfOk result (λ classes. classes ≡ classes_of checked.now.network) }
{
    classes_of(alloc, checked.network())
}
