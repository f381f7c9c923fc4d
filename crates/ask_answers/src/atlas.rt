//! What all classes of a network share.

ghost use Rattle.std.specs.Prelude.{IfOk};
ghost use Rattle.ask_answers.specs.Atlases.{IsAtlasOf};

use base_kit::{List, NoMemory};
use cfg_ast::DestClass;
use cfg_check::Checked;
use dest_classes::classes;
use driver::Shared;
use numbered_names::NamePlaces;
use std::alloc::Global;

/// The classes of a network, what their problems share, and the places of the routers' names.
pub struct Atlas {
    pub classes: List<DestClass>,
    pub shared: Shared,
    pub places: NamePlaces,
}

// One call where an atlas is dropped, in place of the drops of all its parts.
impl Drop for Atlas {
    fn drop(self) {
        let Atlas {
            classes: _classes,
            shared: _shared,
            places: _places,
        } = self;
    }
}

impl Atlas {
    /// What all classes of this network share.
    ///
    /// # Errors
    /// Out of memory.
    pub(crate) fn of(alloc: Global, checked: &Checked) -> Result<Atlas, NoMemory>
        ensures { IfOk result (IsAtlasOf checked.now.network) }
    {
        let classes = classes(alloc, checked)?;
        let shared = Shared::of(alloc, checked)?;
        let places = NamePlaces::of(alloc, checked.network().routers.as_slice())?;
        Ok(Atlas {
            classes,
            shared,
            places,
        })
    }
}
