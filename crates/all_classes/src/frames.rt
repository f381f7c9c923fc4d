//! The frames of the classes that are asked, each written before the next class is begun.

ghost use Rattle.std.specs.Prelude.{◌≡◌, ◌≤◌, ◌&&◌, [], IfOk, IsErrOf};
ghost use Rattle.cfg_ast.specs.meaning.Classes.{classes_of};
ghost use Rattle.io_kit.specs.Ends.{Rose, Took};
ghost use Rattle.all_classes.specs.Progress.{HasPut, HasPutFew, HasPutPart};
ghost use Rattle.all_classes.specs.Requests.{span};
ghost use Rattle.all_classes.specs.Tellings.{IsAnswer};
ghost use Rattle.all_classes.specs.Work.{IsWorkOf};

use crate::frame::{frame_of, put_frame};
use crate::shared_work::SharedWork;
use crate::work::answer;
use base_kit::NoMemory;
use bonsai_top::ClassCommand;
use cfg_ast::DestClass;
use cfg_check::Checked;
use io_kit::{Failed, Sink};
use std::alloc::Global;

/// Why not all frames were written.
#[derive(Clone, Copy, Debug, PartialEq, Eq)]
pub enum Stop {
    /// Memory ran out.
    NoMemory,
    /// The output failed.
    Failed,
}

// Writes the frame of the class of a number, and answers whether the work is done there.
fn put_class<O: Sink>(
    alloc: Global,
    command: ClassCommand,
    checked: &Checked,
    classes: &[DestClass],
    number: u32,
    work: &mut SharedWork,
    out: &mut O,
) -> Result<bool, Stop>
    requires classes { classes.now ≡ classes_of checked.now.network }
    requires work { IsWorkOf checked.now.network work.old }
    ensures work { IsWorkOf checked.now.network work.new }
    ensures put { IfOk result (λ done. HasPut (IsAnswer command checked.now.network) number 1 done (O.taken out.old) (O.taken out.new)) }
    ensures no_memory { IsErrOf result Stop.NoMemory → Took (O.taken out.old) (O.taken out.new) [] }
    ensures failed { IsErrOf result Stop.Failed → HasPutPart (IsAnswer command checked.now.network) number 1 (O.taken out.old) (O.taken out.new) }
    ensures cause { IsErrOf result Stop.Failed → Rose (O.faults out.old) (O.faults out.new) }
    ensures later { O.faults out.old ≤ O.faults out.new }
{
    let reply = answer(alloc, command, checked, classes, number, work);
    match frame_of(alloc, number, reply) {
        Ok(frame) => match put_frame(out, &frame) {
            Ok(()) => Ok(frame.done),
            Err(Failed) => Err(Stop::Failed),
        },
        Err(NoMemory) => Err(Stop::NoMemory),
    }
}

fn both(a: bool, b: bool) -> bool
    ensures { result ≡ (a && b) }
{
    a && b
}

/// Writes the frames of the classes of these numbers, and answers whether the work is done for each.
#[tactic(auto, using(io_kit::proofs::Rises::rose_earlier))]
pub fn put_frames<O: Sink>(
    alloc: Global,
    command: ClassCommand,
    checked: &Checked,
    classes: &[DestClass],
    from: u32,
    to: u32,
    work: &mut SharedWork,
    out: &mut O,
) -> Result<bool, Stop>
    requires classes { classes.now ≡ classes_of checked.now.network }
    requires short { to ≤ 999999999 }
    requires work { IsWorkOf checked.now.network work.old }
    ensures all { IfOk result (λ done. HasPut (IsAnswer command checked.now.network) from (span from to) done (O.taken out.old) (O.taken out.new)) }
    ensures no_memory { IsErrOf result Stop.NoMemory → HasPutFew (IsAnswer command checked.now.network) from (span from to) (O.taken out.old) (O.taken out.new) }
    ensures failed { IsErrOf result Stop.Failed → HasPutPart (IsAnswer command checked.now.network) from (span from to) (O.taken out.old) (O.taken out.new) }
    ensures cause { IsErrOf result Stop.Failed → Rose (O.faults out.old) (O.faults out.new) }
    ensures later { O.faults out.old ≤ O.faults out.new }
{
    let mut done = true;
    for number in from..to + 1 {
        match put_class(alloc, command, checked, classes, number, work, out) {
            Ok(this) => done = both(done, this),
            Err(stop) => return Err(stop),
        }
    }
    Ok(done)
}
