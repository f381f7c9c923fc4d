//! What the classes of a network share.

ghost use Rattle.std.specs.Prelude.{IfOk};
ghost use Rattle.all_classes.specs.Work.{IsWorkOf};

use answer_reports::report::NetworkPart;
use base_kit::NoMemory;
use cfg_check::Checked;
use driver::Shared;
use std::alloc::Global;

/// What the classes of a network share, and the part of a report that is the same for all of them.
#[derive(Drop)]
pub struct SharedWork {
    pub shared: Shared,
    pub part: NetworkPart,
}

impl SharedWork {
    /// What the classes of this network share.
    ///
    /// # Errors
    /// Out of memory.
    pub fn of(alloc: Global, checked: &Checked) -> Result<Self, NoMemory>
        ensures { IfOk result (IsWorkOf checked.now.network) }
    {
        let shared = Shared::of(alloc, checked)?;
        let part = NetworkPart::of(alloc, checked, &shared)?;
        Ok(SharedWork { shared, part })
    }
}
