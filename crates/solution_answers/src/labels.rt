//! The labels of all routers, as text.

ghost use Rattle.std.specs.Prelude.{◌≡◌, IfOk};
ghost use Rattle.srp_core.specs.Stability.{AreLabels};
ghost use Rattle.solution_text.specs.Printed.{labels_text};

use base_kit::NoMemory;
use shared_routes::SharedLabels;
use solution_text::print_labels;
use srp_core::Srp;
use std::alloc::Global;

/// The text of labels.
///
/// # Errors
/// Out of memory.
pub(crate) fn labels_text(
    alloc: Global,
    srp: &Srp,
    labels: &SharedLabels,
) -> Result<Vec<u8>, NoMemory>
    requires { AreLabels srp.now labels.now }
    ensures { IfOk result (λ text. text.items ≡ labels_text srp.now.names labels.now) }
{
    let _known = srp.count();
    let plain = labels.plain(alloc)?;
    print_labels(alloc, &plain, srp.names())
}
