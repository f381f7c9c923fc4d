//! The lines of an interface, taken one by one.

ghost use Rattle.std.specs.Prelude.{◌≡◌, OnErr};
ghost use Rattle.cfg_ast.specs.text.Stanzas.{set_interface};
ghost use Rattle.cfg_stanzas.specs.Changes.{Sets};

use crate::faults::once;
use cfg_ast::{Interface, ReadRefusal, RouterItem};

/// Adds to the interface what one of its lines says.
///
/// # Errors
/// A value that stands already: then nothing changes.
#[tactic(auto, unfolding(cfg_ast::specs::text::Stanzas::set_interface))]
pub fn set_interface(
    number: u32,
    item: RouterItem,
    interface: &mut Interface,
) -> Result<(), ReadRefusal>
    ensures set { Sets result interface.new (set_interface number item interface.old) }
    ensures err { OnErr result (interface.new ≡ interface.old) }
{
    match item {
        RouterItem::IpAddress(address) => {
            once(number, interface.address.is_some())?;
            interface.address = Some(address);
        }
        RouterItem::Cost(cost) => {
            once(number, interface.cost.is_some())?;
            interface.cost = Some(cost);
        }
        RouterItem::Shutdown => interface.shut = true,
        _ => {}
    }
    Ok(())
}
