//! The frame of a class: the line before, and what `bonsai` writes.

ghost use Rattle.std.specs.Prelude.{◌≡◌, ◌≤◌, ◌++◌, [], ◌∷◌, IfOk, OnOk, OnErr, string_bytes};
ghost use Rattle.all_classes.specs.Frames.{head, is_done};
ghost use Rattle.all_classes.specs.Progress.{IsFrame, IsSaid};
ghost use Rattle.io_kit.specs.Ends.{Rose, Took, TookPart};

use answer_kit::{Reply, Status};
use base_kit::NoMemory;
use io_kit::{Failed, Sink, put_all};
use std::alloc::{AllocError, Global};

/// The status of an outcome, and what it writes.
#[derive(Drop)]
pub struct Said {
    pub status: Status,
    pub text: Vec<u8>,
}

/// The frame of a class, and whether the work is done there.
#[derive(Drop)]
pub struct Frame {
    pub head: String,
    pub text: Vec<u8>,
    pub done: bool,
}

// The line that says why there is no output.
fn line(alloc: Global, before: &[u8], reason: &[u8]) -> Result<Vec<u8>, NoMemory>
    ensures { IfOk result (λ line. line.items ≡ before.now ++ reason.now ++ 10 ∷ []) }
{
    let mut line = Vec::from_slice(alloc, before)?;
    line.extend_from_slice(reason)?;
    line.push(b'\n')?;
    Ok(line)
}

// What the outcome of a class writes. A class has no file of its own, so without an outcome memory ran out.
fn said_of(alloc: Global, reply: Reply) -> Result<Said, NoMemory>
    ensures { IfOk result (IsSaid reply) }
{
    match reply {
        Reply::Output(text) => Ok(Said {
            status: Status::Done,
            text,
        }),
        Reply::Refusal(reason) => {
            let text = line(alloc, b"refused: ", &reason)?;
            Ok(Said {
                status: Status::Refused,
                text,
            })
        }
        Reply::NotStable(reason) => {
            let text = line(alloc, b"not stable: ", &reason)?;
            Ok(Said {
                status: Status::NotStable,
                text,
            })
        }
        Reply::Misuse | Reply::ReadFailed | Reply::SecondFailed | Reply::NoMemory => Err(NoMemory),
    }
}

// Whether the work is done.
fn is_done(status: Status) -> bool
    ensures { result ≡ is_done status }
{
    match status {
        Status::Done => true,
        Status::Refused
        | Status::Usage
        | Status::ReadFault
        | Status::WriteFault
        | Status::Memory
        | Status::NotStable => false,
    }
}

// The line before what is written.
fn head(alloc: Global, number: u32, code: u8, size: usize) -> Result<String, AllocError>
    ensures { IfOk result (λ text. string_bytes text ≡ head number code size) }
{
    format!(in alloc; "class {number} {code} {size}\n")
}

/// The frame of the class of this number.
pub fn frame_of(alloc: Global, number: u32, reply: Reply) -> Result<Frame, NoMemory>
    ensures { IfOk result (IsFrame number reply) }
{
    let said = said_of(alloc, reply)?;
    let head = head(alloc, number, said.status.code(), said.text.len())?;
    Ok(Frame {
        head,
        text: said.text,
        done: is_done(said.status),
    })
}

// Puts two pieces, one after the other.
#[tactic(auto, using(io_kit::proofs::Rises::rose_earlier))]
fn put_both<O: Sink>(out: &mut O, a: &[u8], b: &[u8]) -> Result<(), Failed>
    ensures later { O.faults out.old ≤ O.faults out.new }
    ensures all { OnOk result (Took (O.taken out.old) (O.taken out.new) (a.now ++ b.now)) }
    ensures part { TookPart (O.taken out.old) (O.taken out.new) (a.now ++ b.now) }
    ensures cause { OnErr result (Rose (O.faults out.old) (O.faults out.new)) }
{
    put_all(out, a)?;
    put_all(out, b)
}

/// Puts a frame.
pub fn put_frame<O: Sink>(out: &mut O, frame: &Frame) -> Result<(), Failed>
    ensures later { O.faults out.old ≤ O.faults out.new }
    ensures all { OnOk result (Took (O.taken out.old) (O.taken out.new) (string_bytes frame.now.head ++ frame.now.text.items)) }
    ensures part { TookPart (O.taken out.old) (O.taken out.new) (string_bytes frame.now.head ++ frame.now.text.items) }
    ensures cause { OnErr result (Rose (O.faults out.old) (O.faults out.new)) }
{
    put_both(out, frame.head.as_bytes(), &frame.text)
}
