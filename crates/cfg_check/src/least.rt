//! The least of several lines and faults.

ghost use Rattle.std.specs.Prelude.{◌≡◌, None, Some, if◌then◌else◌};
ghost use Rattle.cfg_ast.specs.meaning.Meaning.{lesser_fault};
ghost use Rattle.cfg_check.specs.LeastLine.{lesser_line, fault_line_if, fault_at};

use cfg_ast::{Fault, Kind};

/// The lesser of two lines, if there are any.
pub(crate) fn lesser_line(least: Option<u32>, line: Option<u32>) -> Option<u32>
    ensures { result ≡ lesser_line least line }
{
    match (least, line) {
        (None, line) => line,
        (Some(x), None) => Some(x),
        (Some(x), Some(y)) => Some(if y < x { y } else { x }),
    }
}

/// The lesser of a line and another one that counts only if there is a fault.
pub(crate) fn with_line_if(least: Option<u32>, at_fault: bool, line: u32) -> Option<u32>
    ensures { result ≡ lesser_line least (fault_line_if at_fault line) }
{
    if at_fault {
        lesser_line(least, Some(line))
    } else {
        least
    }
}

/// The fault with the lesser line: `least`, or the fault of this kind at `line`, if they are there. If
/// both are at the same line, it is `least`.
pub(crate) fn with_fault(least: Option<Fault>, kind: Kind, line: Option<u32>) -> Option<Fault>
    ensures { result ≡ lesser_fault least (fault_at kind line) }
{
    let Some(line) = line else { return least };
    let fault = Fault { line, kind };
    let Some(other) = least else {
        return Some(fault)
    };
    Some(if line < other.line { fault } else { other })
}
