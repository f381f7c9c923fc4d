//! The words of the process.

ghost use Rattle.std.specs.Prelude.{◌≡◌};
ghost use Rattle.adapters.specs.NoWords.{no_words_code};

use std::alloc::{AllocGlobal, Global};
use std::env;
use std::io::ErrorKind;
use std::rt::Env;

/// Why a program does not get its words.
#[derive(Clone, Copy, Debug, PartialEq, Eq)]
pub enum NoWords {
    /// The system does not give them, or one of them is not UTF-8.
    NotGiven,
    /// Memory ran out.
    Memory,
}

impl NoWords {
    /// The exit status that stands for it.
    pub fn code(&self) -> u8
        ensures { result ≡ no_words_code self.now }
    {
        match self {
            NoWords::NotGiven => 7,
            NoWords::Memory => 5,
        }
    }
}

/// The words of the process behind the program's name.
///
/// # Errors
///
/// `NotGiven` where the system does not give them or one is not UTF-8, `Memory` where memory ran out.
pub fn words<R: Env + AllocGlobal>(rt: &R) -> Result<Vec<String>, NoWords> {
    let mut words = Vec::new(rt.alloc());
    match env::args(rt) {
        Ok(all) => {
            for word in all.skip(1) {
                if words.push(word).is_err() {
                    return Err(NoWords::Memory);
                }
            }
            Ok(words)
        }
        Err(fault) if fault.kind() == ErrorKind::OutOfMemory => Err(NoWords::Memory),
        Err(_) => Err(NoWords::NotGiven),
    }
}
