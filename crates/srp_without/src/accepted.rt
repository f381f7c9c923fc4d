//! The preferences that are accepted.

ghost use Rattle.std.specs.Prelude.{◌≡◌, IfOk};
ghost use Rattle.dd_core.specs.Sets.{Grows};
ghost use Rattle.srp_core.specs.ActMaps.{IsActWithin};
ghost use Rattle.srp_without.specs.Accepting.{joined, is_several, accepted_of, ActAccepts, IsAll};

use base_kit::NoMemory;
use dd_core::{NodeId, Store};
use policy_dd::edge_fn;
use srp_core::Act;
use std::alloc::Global;

/// Which preferences accepted routes have: none is accepted, all have this one, or two differ.
#[derive(Clone, Copy, Debug, PartialEq, Eq)]
pub enum Accepted {
    Nothing,
    One(u32),
    Several,
}

impl Accepted {
    /// What is accepted by one or the other.
    pub fn or(self, other: Accepted) -> Accepted
        ensures { result ≡ joined self other }
    {
        match self {
            Accepted::Nothing => other,
            Accepted::One(first) => match other {
                Accepted::Nothing => self,
                Accepted::One(second) => {
                    if first == second {
                        self
                    } else {
                        Accepted::Several
                    }
                }
                Accepted::Several => Accepted::Several,
            },
            Accepted::Several => Accepted::Several,
        }
    }

    /// Whether two preferences differ.
    pub fn is_several(self) -> bool
        ensures { result ≡ is_several self }
    {
        match self {
            Accepted::Several => true,
            Accepted::Nothing | Accepted::One(_) => false,
        }
    }
}

// Each preference of the table comes on some set, and no other does.
fn accepted_of(lps: &[(u32, NodeId)]) -> Accepted
    ensures { result ≡ accepted_of lps.now }
{
    match lps {
        [] => Accepted::Nothing,
        [case] => Accepted::One(case.0),
        _ => Accepted::Several,
    }
}

/// What the act accepts, over all sets of communities. A cost accepts none.
pub fn accepted_by(alloc: Global, store: &mut Store, act: &Act) -> Result<Accepted, NoMemory>
    requires { IsActWithin store.old.universe act.now }
    ensures grows { Grows store.old store.new }
    ensures accepted { IfOk result (IsAll (ActAccepts act.now)) }
{
    match act {
        Act::Import { out, sends, into } => {
            let function = edge_fn(alloc, store, out, *sends, into)?;
            let accepted = accepted_of(function.lps.as_slice());
            Ok(accepted)
        }
        Act::Cost(_) => Ok(Accepted::Nothing),
    }
}
