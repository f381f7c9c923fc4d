//! How a finding is reported to the outputs.

ghost use Rattle.std.specs.Prelude.{◌≡◌, ◌≢◌, ◌≤◌, ◌++◌, ◌⊎◌, OnOk, OnErr};
ghost use Rattle.io_kit.specs.Ends.{Rose, Took, TookPart};
ghost use Rattle.io_kit.specs.FaultLines.{no_memory_line, write_fault_line};
ghost use Rattle.endings.specs.Findings.{told_by};
ghost use Rattle.endings.specs.Meets.{Tells};
ghost use Rattle.endings.specs.Telling.{output};

use crate::ending::Ending;
use crate::finding::Finding;
use io_kit::{Failed, Sink, put_all};

// Puts three pieces, one after another.
#[tactic(auto, using(io_kit::proofs::Rises::rose_earlier))]
fn put_pieces<K: Sink>(k: &mut K, a: &[u8], b: &[u8], c: &[u8]) -> Result<(), Failed>
    ensures later { K.faults k.old ≤ K.faults k.new }
    ensures all { OnOk result (Took (K.taken k.old) (K.taken k.new) (a.now ++ b.now ++ c.now)) }
    ensures part { TookPart (K.taken k.old) (K.taken k.new) (a.now ++ b.now ++ c.now) }
    ensures cause { OnErr result (Rose (K.faults k.old) (K.faults k.new)) }
{
    put_all(k, a)?;
    put_all(k, b)?;
    put_all(k, c)
}

// Tells a line on `err` alone.
fn tell_line<E: Sink>(err: &mut E, ending: Ending, a: &[u8], b: &[u8], c: &[u8]) -> Ending
    requires { ending ≢ Ending.WriteFault }
    ensures ending { (result ≡ ending) ⊎ (result ≡ Ending.WriteFault) }
    ensures all { result ≢ Ending.WriteFault → Took (E.taken err.old) (E.taken err.new) (a.now ++ b.now ++ c.now) }
    ensures part { TookPart (E.taken err.old) (E.taken err.new) (a.now ++ b.now ++ c.now) }
    ensures cause { result ≡ Ending.WriteFault → Rose (E.faults err.old) (E.faults err.new) }
    ensures later { E.faults err.old ≤ E.faults err.new }
{
    match put_pieces(err, a, b, c) {
        Ok(()) => ending,
        Err(_) => Ending::WriteFault,
    }
}

/// Tells that memory ran out.
pub fn tell_no_memory<E: Sink>(err: &mut E) -> Ending
    ensures ending { (result ≡ Ending.Memory) ⊎ (result ≡ Ending.WriteFault) }
    ensures all { result ≢ Ending.WriteFault → Took (E.taken err.old) (E.taken err.new) no_memory_line }
    ensures part { TookPart (E.taken err.old) (E.taken err.new) no_memory_line }
    ensures cause { result ≡ Ending.WriteFault → Rose (E.faults err.old) (E.faults err.new) }
    ensures later { E.faults err.old ≤ E.faults err.new }
{
    tell_line(err, Ending::Memory, b"out of memory\n", b"", b"")
}

/// Tells that `out` could not be written, as far as `err` can.
pub fn tell_write_fault<E: Sink>(err: &mut E) -> Ending
    ensures ending { result ≡ Ending.WriteFault }
    ensures part { TookPart (E.taken err.old) (E.taken err.new) write_fault_line }
    ensures later { E.faults err.old ≤ E.faults err.new }
{
    let _ = put_all(err, b"write fault\n");
    Ending::WriteFault
}

// Tells an output.
fn tell_output<O: Sink, E: Sink>(out: &mut O, err: &mut E, bytes: &[u8], all: bool) -> Ending
    ensures tells { Tells (output all bytes.now) result (O.taken out.old) (O.taken out.new) (O.faults out.old) (O.faults out.new)
        (E.taken err.old) (E.taken err.new) (E.faults err.old) (E.faults err.new) }
    ensures out_later { O.faults out.old ≤ O.faults out.new }
    ensures err_later { E.faults err.old ≤ E.faults err.new }
{
    if put_all(out, bytes).is_err() {
        return tell_write_fault(err);
    }
    if all { Ending::Done } else { Ending::NotAll }
}

/// Tells a finding, with the line for words of no form and the names of the files that the words name.
pub fn tell<O: Sink, E: Sink>(
    out: &mut O,
    err: &mut E,
    finding: &Finding,
    usage: &[u8],
    first: &str,
    second: &str,
) -> Ending
    ensures tells { Tells (told_by finding.now usage.now first.now second.now) result (O.taken out.old) (O.taken out.new) (O.faults out.old) (O.faults out.new)
        (E.taken err.old) (E.taken err.new) (E.faults err.old) (E.faults err.new) }
    ensures out_later { O.faults out.old ≤ O.faults out.new }
    ensures err_later { E.faults err.old ≤ E.faults err.new }
{
    match finding {
        Finding::Output { bytes, all } => tell_output(out, err, bytes, *all),
        Finding::Refusal(reason) => tell_line(err, Ending::Refused, b"refused: ", reason, b"\n"),
        Finding::Misuse => tell_line(err, Ending::Usage, b"", b"", usage),
        Finding::ReadFailed => {
            tell_line(
                err,
                Ending::ReadFault,
                b"read fault: ",
                first.as_bytes(),
                b"\n",
            )
        }
        Finding::SecondFailed => {
            tell_line(
                err,
                Ending::ReadFault,
                b"read fault: ",
                second.as_bytes(),
                b"\n",
            )
        }
        Finding::NoMemory => tell_no_memory(err),
    }
}
