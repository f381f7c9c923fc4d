//! Prints the network of a text, reads what it printed, and prints that once more.
//!
//! It says how many lines were printed and whether both prints are the same. If they are, the network
//! that was read back is the same except for line numbers, and its routers have the same members.
#![tactic(auto)]

ghost use Rattle.std.specs.Prelude.{◌≡◌, IfOk, Ok, length, filter, ◌==◌};
ghost use Rattle.print_back.specs.PrintedAgain.{printed_again};

use base_kit::NoMemory;
use cfg_ast::{Notes, ReadRefusal};
use cfg_parse::{read_members, read_network};
use cfg_print::{PrintRefusal, text};
use std::alloc::Global;
use std::io::Read;
use thiserror::Error;

#[derive(Debug, Drop, Error)]
enum BackError {
    #[error("the text is too long")]
    TooLong,
    #[error("the text is refused")]
    Refused(ReadRefusal),
    #[error("the network is not printed")]
    NotPrinted(PrintRefusal),
    #[error("out of memory")]
    Memory,
}

impl From<NoMemory> for BackError {
    fn from(_: NoMemory) -> Self {
        BackError::Memory
    }
}

impl From<ReadRefusal> for BackError {
    fn from(refusal: ReadRefusal) -> Self {
        BackError::Refused(refusal)
    }
}

impl From<PrintRefusal> for BackError {
    fn from(refusal: PrintRefusal) -> Self {
        BackError::NotPrinted(refusal)
    }
}

// The printed network of a text.
fn printed(alloc: Global, bytes: &[u8]) -> Result<Vec<u8>, BackError>
    ensures { IfOk result (λ again. printed_again bytes.now ≡ Ok again.items) }
{
    if bytes.len() > 16_777_216 {
        return Err(BackError::TooLong);
    }
    let network = read_network(alloc, bytes)?;
    let members = read_members(alloc, bytes)?;
    let printed = text(alloc, &network, &Notes { members })?;
    Ok(printed)
}

fn count_lines(bytes: &[u8]) -> usize
    ensures { result ≡ length (filter (λ b. b == 10) bytes.now) }
{
    bytes.iter().filter(|b| **b == b'\n').count()
}

fn main(rt: HostRuntime) -> anyhow::Result<()> {
    let mut bytes = Vec::new(rt.alloc());
    rt.stdin().read_to_end(&mut bytes)?;
    let once = printed(rt.alloc(), &bytes)?;
    let lines = count_lines(&once);
    println!(rt; "{lines} lines printed")?;
    let twice = printed(rt.alloc(), &once)?;
    if once == twice {
        println!(rt; "read back the same")?;
    } else {
        println!(rt; "read back another network")?;
    }
    Ok(())
}
