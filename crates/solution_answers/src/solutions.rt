//! The solutions of a problem, as text.

ghost use Rattle.std.specs.Prelude.{◌≡◌, IfOk, string_bytes, true};
ghost use Rattle.solution_answers.specs.Solutions.{solution_head, IsSolutionsPart};
ghost use Rattle.solution_answers.specs.Told.{HasTold, IsToldAs};
ghost use Rattle.solution_answers.specs.Writing.{Writes};
ghost use Rattle.srp_core.specs.Stability.{AreLabels};

use crate::hops::hops_text;
use crate::labels::labels_text;
use crate::putting::put;
use crate::told::Told;
use base_kit::NoMemory;
use shared_routes::SharedLabels;
use solution_search::{Visitor, search};
use srp_core::Srp;
use std::alloc::{AllocError, Global};

// Appends the text of each solution that it sees.
#[derive(Drop)]
struct Teller<'a> {
    alloc: Global,
    srp: &'a Srp,
    told: Told,
    one: bool,
    number: usize,
    bytes: Vec<u8>,
    count: u64,
}

fn head(alloc: Global, one: bool, number: usize, index: u64) -> Result<String, AllocError>
    ensures { IfOk result (λ head. string_bytes head ≡ solution_head one number index) }
{
    if one {
        let head = format!(in alloc; "solution {index}\n")?;
        return Ok(head);
    }
    let head = format!(in alloc; "class {number} solution {index}\n")?;
    Ok(head)
}

fn text_of(alloc: Global, told: Told, srp: &Srp, labels: &SharedLabels) -> Result<Vec<u8>, NoMemory>
    requires { AreLabels srp.now labels.now }
    ensures { IfOk result (λ text. IsToldAs told srp.now labels.now text.items) }
{
    match told {
        Told::Labels => labels_text(alloc, srp, labels),
        Told::Hops => {
            let text = hops_text(alloc, srp, labels)?;
            Ok(text.into_bytes())
        }
    }
}

impl<'a> Visitor for Teller<'a> {
    type Task = (Told, bool, usize);

    ghost task = { λ v. (v.told, v.one, v.number) };

    ghost problem = { λ v. v.srp.now };

    ghost Saw = { λ v found. HasTold v.srp.now v.told v.one v.number v.count v.bytes.items found };

    ghost wants = { λ v. true };

    fn see(&mut self, labels: &SharedLabels) -> Result<(), NoMemory> {
        let Some(index) = self.count.checked_add(1) else {
            return Err(NoMemory);
        };
        let head = head(self.alloc, self.one, self.number, index)?;
        let text = text_of(self.alloc, self.told, self.srp, labels)?;
        put(&mut self.bytes, head.as_bytes())?;
        put(&mut self.bytes, &text)?;
        self.count = index;
        Ok(())
    }

    fn wants_more(&self) -> bool {
        true
    }
}

/// Appends the text of each solution of a class.
pub fn put_solutions(
    alloc: Global,
    bytes: &mut Vec<u8>,
    told: Told,
    one: bool,
    srp: &Srp,
    number: usize,
) -> Result<bool, NoMemory>
    ensures { IfOk result (Writes (IsSolutionsPart (IsToldAs told) one number srp.now) bytes.old.items bytes.new.items) }
{
    let mut teller = Teller {
        alloc,
        srp,
        told,
        one,
        number,
        bytes: Vec::new(alloc),
        count: 0,
    };
    search(alloc, srp, &mut teller)?;
    put(bytes, &teller.bytes)?;
    Ok(true)
}
