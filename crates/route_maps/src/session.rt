//! What a session imports.

ghost use Rattle.std.specs.Prelude.{◌≡◌, IfOk};
ghost use Rattle.route_maps.specs.Maps.{accepted, verdict, import_of};

use crate::plain::{Imported, Plain, Verdict};
use crate::verdict::apply;
use base_kit::{NoMemory, NumSet};
use std::alloc::Global;

fn accepted(
    alloc: Global,
    into: &Plain,
    comms: &NumSet,
    adds: u8,
) -> Result<Option<Imported>, NoMemory>
    ensures { IfOk result (λ i. i ≡ accepted adds (verdict into.now.entries comms.now)) }
{
    match apply(alloc, into, comms)? {
        Verdict::Deny => Ok(None),
        Verdict::Permit { lp, comms, .. } => Ok(Some(Imported {
            lp: lp.unwrap_or(100),
            comms,
            adds,
        })),
    }
}

/// What a router takes over a session from a route with these communities: through the neighbour's
/// out map, through the sending or not of communities, and through its own in map. A preference that
/// the out map sets is not sent (RFC 4271 section 5.1.5); one that the in map does not set is 100.
pub fn import(
    alloc: Global,
    out: &Plain,
    sends: bool,
    into: &Plain,
    comms: &NumSet,
) -> Result<Option<Imported>, NoMemory>
    ensures { IfOk result (λ i. i ≡ import_of out.now sends into.now comms.now) }
{
    match apply(alloc, out, comms)? {
        Verdict::Deny => Ok(None),
        Verdict::Permit {
            comms: sent,
            adds,
            ..
        } => {
            if sends {
                accepted(alloc, into, &sent, adds)
            } else {
                accepted(alloc, into, &NumSet::new(alloc), adds)
            }
        }
    }
}
