//! Calls that read, judge and carry solutions.

ghost use Rattle.std.specs.Prelude.{◌≡◌, ◌<◌, ◌≤◌, ◌^◌, ℕ, IfOk, length};
ghost use Rattle.abstract_net.specs.Links.{quotient_links};
ghost use Rattle.base_kit.specs.Names.{AreApart};
ghost use Rattle.base_kit.specs.Partition.{IsNumbered};
ghost use Rattle.solution_check.specs.Breaks.{Judges};
ghost use Rattle.solution_lift.specs.Carried.{IsFolding, IsLifting};
ghost use Rattle.solution_text.specs.Answers.{ReadsSolution};
ghost use Rattle.solution_text.specs.Printed.{labels_text};
ghost use Rattle.solution_text.specs.Solutions.{labels_of_text};
ghost use Rattle.srp_core.specs.Quotient.{IsAdmissible};
ghost use Rattle.srp_core.specs.Stability.{AreLabels, IsStable};
ghost use Rattle.srp_quotient.specs.Groups.{small_of};

use abstract_net::Quotient;
use base_kit::{List, NoMemory, Protocol, Text};
use refine_partition::Partition;
use solution_check::{Answer, check};
use solution_lift::{fold, lift};
use solution_text::{SolRefusal, print_labels, read_labels};
use srp_core::{Labels, Srp};
use std::alloc::Global;

/// The labels of a text.
pub fn labels_in(
    alloc: Global,
    bytes: &[u8],
    protocol: Protocol,
    names: &List<Text>,
) -> Result<Labels, SolRefusal>
    requires short { length bytes.now ≤ 268435456 }
    requires few { length names.now < 2 ^ 32 }
    requires names { AreApart names.now }
    ensures { ReadsSolution result (labels_of_text protocol names.now bytes.now) }
{
    read_labels(alloc, bytes, protocol, names)
}

/// Labels as a text.
pub fn text_of_labels(
    alloc: Global,
    labels: &Labels,
    names: &List<Text>,
) -> Result<Vec<u8>, NoMemory>
    requires { length labels.now ≡ length names.now }
    ensures { IfOk result (λ bytes. bytes.items ≡ labels_text names.now labels.now) }
{
    print_labels(alloc, labels, names)
}

/// Whether labels are stable, and the first router that breaks it.
pub fn judgement_on(alloc: Global, srp: &Srp, labels: &Labels) -> Result<Answer, NoMemory>
    requires { AreLabels srp.now labels.now }
    ensures { IfOk result (Judges srp.now labels.now) }
{
    check(alloc, srp, labels)
}

/// Stable labels, carried to the groups.
pub fn carried_down(
    alloc: Global,
    srp: &Srp,
    p: &Partition,
    labels: &Labels,
) -> Result<Labels, NoMemory>
    requires groups { IsAdmissible srp.now p.now }
    requires few { (groups : ℕ) → IsNumbered p.now groups → length (quotient_links srp.now.edges p.now groups) < 2 ^ 31 }
    requires stable { IsStable srp.now labels.now }
    ensures { IfOk result (λ lower. (groups : ℕ) → IsNumbered p.now groups → IsFolding srp.now (small_of srp.now p.now groups) p.now labels.now lower) }
{
    fold(alloc, srp, p, labels)
}

/// Stable labels of the groups, carried to the routers.
pub fn carried_up(
    alloc: Global,
    srp: &Srp,
    p: &Partition,
    q: &Quotient,
    labels: &Labels,
) -> Result<Labels, NoMemory>
    requires groups { IsAdmissible srp.now p.now }
    requires links { (groups : ℕ) → IsNumbered p.now groups → q.now.links ≡ quotient_links srp.now.edges p.now groups }
    requires few { length q.now.links < 2 ^ 31 }
    requires stable { (groups : ℕ) → IsNumbered p.now groups → IsStable (small_of srp.now p.now groups) labels.now }
    ensures { IfOk result (λ upper. (groups : ℕ) → IsNumbered p.now groups → IsLifting srp.now (small_of srp.now p.now groups) p.now labels.now upper) }
{
    lift(alloc, srp, p, q, labels)
}
