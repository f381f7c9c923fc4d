//! How laws are used: by calling them.
//!
//! Each function here gets its promise from calls of laws, with no proof of its own. The laws of
//! `srp_core` speak of routing problems: a caller reads a problem once, as by `count`, so that its rules
//! are known. Those of `given_laws` and `cfg_round_trip` speak of networks that a text gives. `questions` asks
//! what a caller wants to know of the small network.

pub mod questions;
pub mod texts;

ghost use Rattle.std.specs.Prelude.{◌≡◌};
ghost use Rattle.base_kit.specs.declared.protocol.Protocol.TheVariants.{Bgp as OverBgp};
ghost use Rattle.srp_core.specs.Laws.{Below};
ghost use Rattle.srp_core.specs.Lifts.{IsFold};
ghost use Rattle.srp_core.specs.Quotient.{IsAdmissible, IsQuotient, Corresponds};
ghost use Rattle.srp_core.specs.Stability.{IsStable};

use srp_core::laws::{folds, to_quotient};
use srp_core::{Labels, Srp};

/// A stable solution has a corresponding one in the quotient.
pub fn has_solution_below(srp: &Srp, small: &Srp, groups: &[u32], labels: &Labels)
    requires admissible { IsAdmissible srp.now groups.now }
    requires quotient { IsQuotient srp.now groups.now small.now }
    requires stable { IsStable srp.now labels.now }
    ensures { Below srp.now small.now groups.now labels.now }
{
    let _known = srp.count();
    let _also_known = small.count();
    to_quotient();
}

/// Labels that are folded by the rule correspond to those that they come from.
pub fn corresponds_when_folded(
    srp: &Srp,
    small: &Srp,
    groups: &[u32],
    labels: &Labels,
    lower: &Labels,
)
    requires bgp { srp.now.protocol ≡ OverBgp }
    requires admissible { IsAdmissible srp.now groups.now }
    requires quotient { IsQuotient srp.now groups.now small.now }
    requires stable { IsStable srp.now labels.now }
    requires fold { IsFold srp.now small.now groups.now labels.now lower.now }
    ensures { Corresponds srp.now small.now groups.now labels.now lower.now }
{
    let _known = srp.count();
    let _also_known = small.count();
    folds();
}
