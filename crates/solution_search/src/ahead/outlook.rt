//! What routers may still get.

ghost use Rattle.std.specs.Prelude.{◌≡◌, ◌<◌, All, IfOk, IfSome, None, Option, Some, ℕ, length, true};
ghost use Rattle.srp_core.specs.declared.route.Route.{Route as ARoute};
ghost use Rattle.srp_core.specs.Problem.{count, initial};
ghost use Rattle.srp_core.specs.Stability.{label};
ghost use Rattle.solution_search.specs.Ahead.{NothingComes};
ghost use Rattle.solution_search.specs.Boards.{IsBoard, case_of, state_of};
ghost use Rattle.solution_search.specs.Outlooks.{ForeseesAll, GivesNothing, IsClosedAt, IsFollowed, IsFollowedOver, IsForeseen, IsListFollowed, foreseen_at};

use crate::ahead::foreseen::{Foreseen, foreseen_of, is_among};
use crate::ahead::growing::{table_of, takes_part};
use crate::ahead::images::{image_of, may_pass};
use crate::board::Board;
use crate::lookups::Lookups;
use base_kit::{Edge, List, NoMemory};
use shared_routes::SharedRoute;
use srp_core::own_edges;

/// For each router that takes part all that it may hold.
#[derive(Drop)]
pub(crate) struct Outlook {
    pub(crate) table: Vec<List<Foreseen>>,
}

// Whether what an edge makes of the routes is in the list of its importer, if it may pass there.
fn is_followed_over(
    lookups: &Lookups,
    board: &Board,
    without: Option<u32>,
    table: &[List<Foreseen>],
    importer: u32,
    act: u32,
    from: &Foreseen,
) -> Result<bool, NoMemory>
    requires board { IsBoard lookups.now board.now }
    requires table { length table.now ≡ count lookups.now }
    requires importer { importer < count lookups.now }
    requires act { act < length lookups.now.acts }
    ensures { IfOk result (λ is. is ≡ true → IsFollowedOver lookups.now (case_of (state_of board.now)) without table.now importer act from.now) }
{
    let routers = lookups.srp.count();
    if !takes_part(board, routers, without, importer) {
        return Ok(true);
    }
    match image_of(lookups.alloc, &lookups.srp.acts()[act as usize], from)? {
        None => Ok(true),
        Some(image) => {
            if !may_pass(board, routers, importer, image.preference, image.size) {
                return Ok(true);
            }
            let list = table[importer as usize].as_slice();
            Ok(is_among(list, &image.comms, image.size))
        }
    }
}

// Whether what the edges of an exporter make of the routes is in the lists of their importers.
fn is_followed(
    lookups: &Lookups,
    board: &Board,
    without: Option<u32>,
    table: &[List<Foreseen>],
    exporter: u32,
    from: &Foreseen,
) -> Result<bool, NoMemory>
    requires board { IsBoard lookups.now board.now }
    requires table { length table.now ≡ count lookups.now }
    requires exporter { exporter < count lookups.now }
    ensures { IfOk result (λ is. is ≡ true → IsFollowed lookups.now (case_of (state_of board.now)) without table.now exporter from.now) }
{
    let _known = lookups.srp.count();
    for import in &lookups.exports.imports[exporter as usize] {
        if !is_followed_over(
            lookups,
            board,
            without,
            table,
            import.importer,
            import.act,
            from,
        )? {
            return Ok(false);
        }
    }
    Ok(true)
}

// Whether all that was found for a router is followed.
fn is_list_followed(
    lookups: &Lookups,
    board: &Board,
    without: Option<u32>,
    table: &[List<Foreseen>],
    router: u32,
) -> Result<bool, NoMemory>
    requires board { IsBoard lookups.now board.now }
    requires table { length table.now ≡ count lookups.now }
    requires router { router < count lookups.now }
    ensures { IfOk result (λ is. is ≡ true → IsListFollowed lookups.now (case_of (state_of board.now)) without table.now router) }
{
    for from in table[router as usize].as_slice() {
        if !is_followed(lookups, board, without, table, router, from)? {
            return Ok(false);
        }
    }
    Ok(true)
}

// Whether the initial route of a router is in its list.
fn is_first_foreseen(
    lookups: &Lookups,
    table: &[List<Foreseen>],
    router: u32,
) -> Result<bool, NoMemory>
    requires table { length table.now ≡ count lookups.now }
    requires router { router < count lookups.now }
    ensures { IfOk result (λ is. is ≡ true → (route : ARoute) → initial lookups.now router ≡ Some route → IsForeseen (foreseen_at table.now router) route) }
{
    let _known = lookups.srp.count();
    match &lookups.srp.init()[router as usize] {
        None => Ok(true),
        Some(route) => {
            let route = SharedRoute::from_route(lookups.alloc, route)?;
            let own = foreseen_of(lookups.alloc, &route)?;
            let list = table[router as usize].as_slice();
            Ok(is_among(list, &own.comms, own.size))
        }
    }
}

// Whether what a router has or may hold is followed.
fn is_closed_at(
    lookups: &Lookups,
    board: &Board,
    without: Option<u32>,
    table: &[List<Foreseen>],
    router: u32,
) -> Result<bool, NoMemory>
    requires board { IsBoard lookups.now board.now }
    requires table { length table.now ≡ count lookups.now }
    requires router { router < count lookups.now }
    ensures { IfOk result (λ is. is ≡ true → IsClosedAt lookups.now (case_of (state_of board.now)) without table.now router) }
{
    let _known = lookups.srp.count();
    match &board.labels.as_slice()[router as usize] {
        Some(label) => {
            let from = foreseen_of(lookups.alloc, label)?;
            let followed = is_followed(lookups, board, without, table, router, &from)?;
            Ok(followed)
        }
        None => {
            if !is_first_foreseen(lookups, table, router)? {
                return Ok(false);
            }
            let followed = is_list_followed(lookups, board, without, table, router)?;
            Ok(followed)
        }
    }
}

/// What routers may still get, if it is not too much. No route is followed to or from a router that is left
/// out.
pub(crate) fn outlook_of(
    lookups: &Lookups,
    board: &Board,
    without: Option<u32>,
) -> Result<Option<Outlook>, NoMemory>
    requires { IsBoard lookups.now board.now }
    ensures { IfOk result (λ outlook. IfSome outlook (λ o. ForeseesAll lookups.now (case_of (state_of board.now)) without o.table.items)) }
{
    let table = table_of(lookups, board, without)?;
    for router in 0..lookups.srp.count() {
        if !is_closed_at(lookups, board, without, table.as_slice(), router)? {
            return Ok(None);
        }
    }
    Ok(Some(Outlook { table }))
}

// Whether nothing that an edge makes of the routes may pass at its importer.
fn gives_nothing(
    lookups: &Lookups,
    board: &Board,
    edge: Edge,
    from: &Foreseen,
) -> Result<bool, NoMemory>
    requires board { IsBoard lookups.now board.now }
    requires importer { edge.importer < count lookups.now }
    requires act { edge.act < length lookups.now.acts }
    requires unsettled { label board.now.labels edge.importer ≡ None }
    ensures { IfOk result (λ nothing. nothing ≡ true → GivesNothing lookups.now (case_of (state_of board.now)) edge from.now) }
{
    let routers = lookups.srp.count();
    match image_of(lookups.alloc, &lookups.srp.acts()[edge.act as usize], from)? {
        None => Ok(true),
        Some(image) => Ok(!may_pass(board, routers, edge.importer, image.preference, image.size)),
    }
}

// Whether nothing that an edge makes of what is foreseen may pass at its importer.
fn all_give_nothing(
    lookups: &Lookups,
    board: &Board,
    edge: Edge,
    list: &[Foreseen],
) -> Result<bool, NoMemory>
    requires board { IsBoard lookups.now board.now }
    requires importer { edge.importer < count lookups.now }
    requires act { edge.act < length lookups.now.acts }
    requires unsettled { label board.now.labels edge.importer ≡ None }
    ensures { IfOk result (λ nothing. nothing ≡ true → All (GivesNothing lookups.now (case_of (state_of board.now)) edge) list.now) }
{
    for from in list {
        if !gives_nothing(lookups, board, edge, from)? {
            return Ok(false);
        }
    }
    Ok(true)
}

// Whether the exporter of an edge is settled, or nothing that the edge makes of what it may hold may pass.
fn edge_gives_nothing(
    lookups: &Lookups,
    board: &Board,
    outlook: &Outlook,
    edge: Edge,
) -> Result<bool, NoMemory>
    requires board { IsBoard lookups.now board.now }
    requires table { length outlook.now.table.items ≡ count lookups.now }
    requires exporter { edge.exporter < count lookups.now }
    requires importer { edge.importer < count lookups.now }
    requires act { edge.act < length lookups.now.acts }
    requires unsettled { label board.now.labels edge.importer ≡ None }
    ensures { IfOk result (λ nothing. nothing ≡ true → label board.now.labels edge.exporter ≡ None → All (GivesNothing lookups.now (case_of (state_of board.now)) edge) (foreseen_at outlook.now.table.items edge.exporter)) }
{
    match &board.labels.as_slice()[edge.exporter as usize] {
        Some(_) => Ok(true),
        None => {
            let list = outlook.table[edge.exporter as usize].as_slice();
            let nothing = all_give_nothing(lookups, board, edge, list)?;
            Ok(nothing)
        }
    }
}

/// Whether nothing comes to a router that it may hold.
pub(crate) fn nothing_comes(
    lookups: &Lookups,
    board: &Board,
    outlook: &Outlook,
    router: u32,
) -> Result<bool, NoMemory>
    requires board { IsBoard lookups.now board.now }
    requires table { length outlook.now.table.items ≡ count lookups.now }
    requires router { router < count lookups.now }
    requires unsettled { label board.now.labels router ≡ None }
    ensures { IfOk result (λ nothing. nothing ≡ true → (without : Option ℕ) → ForeseesAll lookups.now (case_of (state_of board.now)) without outlook.now.table.items → NothingComes lookups.now (case_of (state_of board.now)) without router) }
{
    let _known = lookups.srp.count();
    let edges = lookups.srp.edges();
    let (first, end) = own_edges(edges, router);
    for place in first..end {
        let edge = edges[place];
        if !edge_gives_nothing(lookups, board, outlook, edge)? {
            return Ok(false);
        }
    }
    Ok(true)
}
