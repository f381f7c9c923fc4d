//! Laws that relate `fold` and `lift` to the network that `compress` writes.
//!
//! The labels of the groups that `fold` writes, and those that `lift` takes, are stable solutions of the
//! network that `compress` writes of the same class, for each prefix of the class. Each law is the contract of a
//! function that does nothing: whoever needs one calls it.
#![tactic(auto)]

ghost use Rattle.carried_laws.specs.Laws.{FoldSolvesCompressed, LiftTakesCompressed};

use answer_solutions::laws::{fold_is_read_back, lift_is_read_back};
use class_laws::built_problem_is_one;
use compress_laws::laws::text_has_problem_of_groups;

/// What `fold` writes is a stable solution of the network that `compress` writes.
pub fn fold_solves_compressed()
    ensures { FoldSolvesCompressed }
{
    fold_is_read_back();
    built_problem_is_one();
    text_has_problem_of_groups();
}

/// What `lift` takes is a stable solution of the network that `compress` writes.
pub fn lift_takes_compressed()
    ensures { LiftTakesCompressed }
{
    lift_is_read_back();
    built_problem_is_one();
    text_has_problem_of_groups();
}
