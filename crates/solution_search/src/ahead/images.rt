//! What an edge makes of routes that its exporter may hold.

ghost use Rattle.std.specs.Prelude.{◌≡◌, ◌+◌, ◌<◌, ◌≤◌, suc, IfOk};
ghost use Rattle.solution_search.specs.Boards.{Fits, state_of};
ghost use Rattle.solution_search.specs.Outlooks.{IsImage, is_unbeaten_by, may_pass};

use crate::ahead::foreseen::Foreseen;
use crate::bests::Best;
use crate::board::Board;
use crate::looking::is_above;
use base_kit::{NoMemory, NumSet};
use route_maps::import;
use shared_routes::{preference_of, size_of};
use srp_core::Act;
use std::alloc::Global;

/// Routes of this preference with these communities, of this size or a larger one.
#[derive(Drop)]
pub(crate) struct Image {
    pub(crate) preference: u32,
    pub(crate) comms: NumSet,
    pub(crate) size: u64,
}

// A size that the exporter's number and its repeats are added to, or the greatest one.
fn longer(size: u64, adds: u8) -> u64
    ensures { result ≤ size + suc adds }
{
    size.saturating_add(u64::from(adds) + 1)
}

/// What an act makes of routes, if it makes anything.
#[tactic(auto, unfolding(srp_core::specs::Acts::step_by, srp_core::specs::Acts::import_by))]
pub(crate) fn image_of(alloc: Global, act: &Act, from: &Foreseen) -> Result<Option<Image>, NoMemory>
    ensures { IfOk result (IsImage act.now from.now) }
{
    match act {
        Act::Import { out, sends, into } => match import(alloc, out, *sends, into, &from.comms)? {
            None => Ok(None),
            Some(imported) => Ok(Some(Image {
                preference: imported.lp,
                comms: imported.comms,
                size: longer(from.size, imported.adds),
            })),
        },
        Act::Cost(_) => Ok(Some(Image {
            preference: 0,
            comms: from.comms.copy()?,
            size: from.size,
        })),
    }
}

fn is_unbeaten_by(best: &Option<Best>, preference: u32, size: u64) -> bool
    ensures { result ≡ is_unbeaten_by best.now preference size }
{
    match best {
        None => true,
        Some(best) => {
            let own = preference_of(&best.route);
            own < preference || (own == preference && size <= size_of(&best.route))
        }
    }
}

/// Whether the router may hold a route of that preference and size: it does not wait for a higher
/// preference, and no offer of the router beats it by preference and size.
pub(crate) fn may_pass(board: &Board, routers: u32, router: u32, preference: u32, size: u64) -> bool
    requires fits { Fits routers board.now }
    requires router { router < routers }
    ensures { result ≡ may_pass (state_of board.now) router preference size }
{
    is_above(board.waits[router as usize], preference)
        && is_unbeaten_by(&board.bests[router as usize], preference, size)
}
