//! How a reply is reported to the outputs.

ghost use Rattle.std.specs.Prelude.{◌≡◌, ◌≢◌, ◌≤◌, ◌++◌, ◌⊎◌, [], OnOk, OnErr};
ghost use Rattle.io_kit.specs.Ends.{Rose, Took, TookPart};
ghost use Rattle.answer_kit.specs.Outcome.{done};
ghost use Rattle.bonsai_top.specs.Meets.{Tells};
ghost use Rattle.answer_kit.specs.Replies.{told_by};

use answer_kit::{Reply, Status};
use io_kit::{Failed, Sink, put_all};

const USAGE: &[u8] =
    b"usage: bonsai classes F, groups F N, compress F N, report F N, json F N, check F N S, fold F N S, lift F N S, summary F, trial K, run F N S, reach F N S, canon F N, certify F N, verify F N S\n";

// Puts three pieces, one after another.
#[tactic(auto, using(io_kit::proofs::Rises::rose_earlier))]
fn put_pieces<K: Sink>(k: &mut K, a: &[u8], b: &[u8], c: &[u8]) -> Result<(), Failed>
    ensures later { K.faults k.old ≤ K.faults k.new }
    ensures all { OnOk result (Took (K.taken k.old) (K.taken k.new) (a.now ++ b.now ++ c.now)) }
    ensures part { TookPart (K.taken k.old) (K.taken k.new) (a.now ++ b.now ++ c.now) }
    ensures cause { OnErr result (Rose (K.faults k.old) (K.faults k.new)) }
{
    put_all(k, a)?;
    put_all(k, b)?;
    put_all(k, c)
}

// Tells an output.
fn tell_output<O: Sink, E: Sink>(out: &mut O, err: &mut E, bytes: &[u8]) -> Status
    ensures tells { Tells (done bytes.now) result (O.taken out.old) (O.taken out.new) (O.faults out.old) (O.faults out.new)
        (E.taken err.old) (E.taken err.new) (E.faults err.old) (E.faults err.new) }
    ensures out_later { O.faults out.old ≤ O.faults out.new }
    ensures err_later { E.faults err.old ≤ E.faults err.new }
{
    if put_all(out, bytes).is_err() {
        let _ = put_all(err, b"write fault\n");
        return Status::WriteFault;
    }
    Status::Done
}

// Tells a line on `err` alone.
fn tell_line<E: Sink>(err: &mut E, status: Status, a: &[u8], b: &[u8], c: &[u8]) -> Status
    requires { status ≢ Status.WriteFault }
    ensures status { (result ≡ status) ⊎ (result ≡ Status.WriteFault) }
    ensures all { result ≢ Status.WriteFault → Took (E.taken err.old) (E.taken err.new) (a.now ++ b.now ++ c.now) }
    ensures part { TookPart (E.taken err.old) (E.taken err.new) (a.now ++ b.now ++ c.now) }
    ensures cause { result ≡ Status.WriteFault → Rose (E.faults err.old) (E.faults err.new) }
    ensures later { E.faults err.old ≤ E.faults err.new }
{
    match put_pieces(err, a, b, c) {
        Ok(()) => status,
        Err(_) => Status::WriteFault,
    }
}

/// Tells a reply, with the names of the files that the words name.
pub fn tell<O: Sink, E: Sink>(
    out: &mut O,
    err: &mut E,
    reply: &Reply,
    first: &str,
    second: &str,
) -> Status
    ensures tells { Tells (told_by reply.now first.now second.now) result (O.taken out.old) (O.taken out.new) (O.faults out.old) (O.faults out.new)
        (E.taken err.old) (E.taken err.new) (E.faults err.old) (E.faults err.new) }
    ensures out_later { O.faults out.old ≤ O.faults out.new }
    ensures err_later { E.faults err.old ≤ E.faults err.new }
{
    match reply {
        Reply::Output(bytes) => tell_output(out, err, bytes),
        Reply::Refusal(reason) => tell_line(err, Status::Refused, b"refused: ", reason, b"\n"),
        Reply::NotStable(reason) => {
            tell_line(err, Status::NotStable, b"not stable: ", reason, b"\n")
        }
        Reply::Misuse => tell_line(err, Status::Usage, USAGE, b"", b""),
        Reply::ReadFailed => {
            tell_line(
                err,
                Status::ReadFault,
                b"read fault: ",
                first.as_bytes(),
                b"\n",
            )
        }
        Reply::SecondFailed => {
            tell_line(
                err,
                Status::ReadFault,
                b"read fault: ",
                second.as_bytes(),
                b"\n",
            )
        }
        Reply::NoMemory => tell_line(err, Status::Memory, b"out of memory\n", b"", b""),
    }
}
