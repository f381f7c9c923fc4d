//! How many solutions a problem has.

ghost use Rattle.std.specs.Prelude.{◌≡◌, IfOk, length, string_bytes, true};
ghost use Rattle.solution_answers.specs.Solutions.{count_line, IsCountPart};
ghost use Rattle.solution_answers.specs.Writing.{Writes};

use crate::putting::put;
use base_kit::NoMemory;
use shared_routes::SharedLabels;
use solution_search::{Visitor, search};
use srp_core::Srp;
use std::alloc::{AllocError, Global};

// Counts solutions.
#[derive(Drop)]
struct Counter<'a> {
    srp: &'a Srp,
    count: u64,
}

impl<'a> Visitor for Counter<'a> {
    type Task = ();

    ghost task = { λ _. tt };

    ghost problem = { λ v. v.srp.now };

    ghost Saw = { λ v found. v.count ≡ length found };

    ghost wants = { λ v. true };

    fn see(&mut self, _labels: &SharedLabels) -> Result<(), NoMemory> {
        match self.count.checked_add(1) {
            Some(count) => {
                self.count = count;
                Ok(())
            }
            None => Err(NoMemory),
        }
    }

    fn wants_more(&self) -> bool {
        true
    }
}

fn count_line(alloc: Global, number: usize, count: u64) -> Result<String, AllocError>
    ensures { IfOk result (λ line. string_bytes line ≡ count_line number count) }
{
    let line = format!(in alloc; "class {number} solutions {count}\n")?;
    Ok(line)
}

/// Appends the line of how many solutions a class has. No answer in it can be wrong.
pub fn put_count(
    alloc: Global,
    bytes: &mut Vec<u8>,
    srp: &Srp,
    number: usize,
) -> Result<bool, NoMemory>
    ensures { IfOk result (Writes (IsCountPart number srp.now) bytes.old.items bytes.new.items) }
{
    let mut counter = Counter { srp, count: 0 };
    search(alloc, srp, &mut counter)?;
    let count = counter.count;
    let line = count_line(alloc, number, count)?;
    put(bytes, line.as_bytes())?;
    Ok(true)
}
