//! A network printed.

ghost use Rattle.std.specs.Prelude.{◌≡◌, nat_lt};
ghost use Rattle.cfg_ast.specs.printing.Printed.{printed};
ghost use Rattle.cfg_print.specs.Prints.{count_newlines, is_too_long, Prints};

use crate::refusal::PrintRefusal;
use crate::routers::put_routers;
use cfg_ast::{Network, Notes};
use std::alloc::Global;

fn count_newlines(bytes: &[u8]) -> usize
    ensures { result ≡ count_newlines bytes.now }
{
    bytes.iter().filter(|b| **b == b'\n').count()
}

// Whether there are more lines than a text that is read may have. Each line has a byte of its own, so most
// often nothing is counted.
#[tactic(auto, using(crate::proofs::Newlines::few_lines))]
fn has_many_lines(bytes: &[u8]) -> bool
    ensures { result ≡ nat_lt 1000000 (count_newlines bytes.now) }
{
    if bytes.len() <= 1_000_000 {
        return false;
    }
    count_newlines(bytes) > 1_000_000
}

// Whether there are more bytes or more lines than a text that is read may have.
#[tactic(auto, unfolding(crate::specs::Prints::is_too_long))]
fn is_too_long(bytes: &[u8]) -> bool
    ensures { result ≡ is_too_long bytes.now }
{
    bytes.len() > 16_777_216 || has_many_lines(bytes)
}

/// The text of a network, with the names of those that each of its routers stands for.
///
/// # Errors
///
/// `TooLong` exactly if the text has more than 16,777,216 bytes or 1,000,000 lines, the limits of a text
/// that is read. `Memory` where memory ran out.
#[tactic(auto, unfolding(cfg_ast::specs::printing::Printed::printed))]
pub fn text(alloc: Global, network: &Network, notes: &Notes) -> Result<Vec<u8>, PrintRefusal>
    ensures { Prints (λ bytes. bytes.items) result (printed network.now notes.now) }
{
    let mut text = String::new(alloc);
    put_routers(
        &mut text,
        network.routers.as_slice(),
        notes.members.as_slice(),
    )?;
    let bytes = text.into_bytes();
    if is_too_long(&bytes) {
        return Err(PrintRefusal::TooLong);
    }
    Ok(bytes)
}
