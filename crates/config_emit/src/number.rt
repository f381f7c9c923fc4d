//! Addresses of links, and numbered words.

ghost use Rattle.std.specs.Prelude.{◌≡◌, ◌+◌, ◌*◌, ◌<◌, ◌++◌, IfOk};
ghost use Rattle.std.specs.Fmt.{decimal};

use crate::pool::POOL;
use base_kit::{NoMemory, Text};
use itoa::Buffer;
use std::alloc::Global;

/// The address of one side of a link, 0 or 1.
pub(crate) fn link_addr(number: usize, side: u8) -> u32
    requires { number < 1048576 }
    ensures { result ≡ 1681915904 + 2 * number + side }
{
    POOL + 2 * number as u32 + u32::from(side)
}

/// A word that ends in a number.
pub(crate) fn numbered(alloc: Global, word: &str, number: usize) -> Result<Text, NoMemory>
    ensures { IfOk result (λ name. name ≡ word.now ++ decimal number) }
{
    let mut buffer = Buffer::new();
    let digits = buffer.format(number);
    let mut name = String::with_capacity(alloc, word.len() + digits.len())?;
    name.push_str(word)?;
    name.push_str(digits)?;
    Ok(Text::from_string(name))
}
