//! A table of what routers may hold is grown.

ghost use Rattle.std.specs.Prelude.{◌≡◌, ◌<◌, IfOk, false, length};
ghost use Rattle.srp_core.specs.Problem.{count};
ghost use Rattle.solution_search.specs.Ahead.{TakesPart};
ghost use Rattle.solution_search.specs.Boards.{Fits, case_of, state_of};
ghost use Rattle.solution_search.specs.Outlooks.{IsGrowing};

use crate::ahead::foreseen::{Foreseen, add_to, foreseen_of, is_among};
use crate::ahead::images::{image_of, may_pass};
use crate::board::Board;
use crate::lookups::Lookups;
use base_kit::{List, NoMemory, NumSet};
use shared_routes::SharedRoute;
use std::alloc::Global;
use std::mem::replace;

// How much a router may have: where one has more, the search does not look ahead.
const MOST: usize = 64;

/// For each router what was found that it may hold, and whether something was found since it was last
/// followed.
#[derive(Drop)]
pub(crate) struct Growing {
    pub(crate) table: Vec<List<Foreseen>>,
    pub(crate) is_new: Vec<bool>,
}

/// Whether the router has no label and is not left out.
pub(crate) fn takes_part(board: &Board, routers: u32, without: Option<u32>, router: u32) -> bool
    requires fits { Fits routers board.now }
    requires router { router < routers }
    ensures { result ≡ false → ¬ TakesPart (case_of (state_of board.now)) without router }
{
    board.labels.as_slice()[router as usize].is_none() && without != Some(router)
}

// Puts routes into the list of a router, unless they are there.
fn put(
    alloc: Global,
    growing: &mut Growing,
    routers: u32,
    router: u32,
    comms: NumSet,
    size: u64,
) -> Result<(), NoMemory>
    requires growing { IsGrowing routers growing.old }
    requires router { router < routers }
    ensures { IfOk result (λ _. IsGrowing routers growing.new) }
{
    if !is_among(growing.table[router as usize].as_slice(), &comms, size) {
        let list = replace(&mut growing.table[router as usize], List::new(alloc));
        let mut items = list.into_vec();
        add_to(&mut items, comms, size)?;
        growing.table[router as usize] = List::from_vec(items);
        growing.is_new[router as usize] = true;
    }
    Ok(())
}

// What an edge makes of the routes is put into the list of its importer.
fn follow_edge(
    lookups: &Lookups,
    board: &Board,
    without: Option<u32>,
    growing: &mut Growing,
    importer: u32,
    act: u32,
    from: &Foreseen,
) -> Result<(), NoMemory>
    requires fits { Fits (count lookups.now) board.now }
    requires importer { importer < count lookups.now }
    requires act { act < length lookups.now.acts }
    requires growing { IsGrowing (count lookups.now) growing.old }
    ensures { IfOk result (λ _. IsGrowing (count lookups.now) growing.new) }
{
    let routers = lookups.srp.count();
    if !takes_part(board, routers, without, importer) {
        return Ok(());
    }
    match image_of(lookups.alloc, &lookups.srp.acts()[act as usize], from)? {
        None => Ok(()),
        Some(image) => {
            if may_pass(board, routers, importer, image.preference, image.size) {
                put(
                    lookups.alloc,
                    growing,
                    routers,
                    importer,
                    image.comms,
                    image.size,
                )?;
            }
            Ok(())
        }
    }
}

// What the edges of an exporter make of the routes is put into the lists of their importers.
fn follow(
    lookups: &Lookups,
    board: &Board,
    without: Option<u32>,
    growing: &mut Growing,
    exporter: u32,
    from: &Foreseen,
) -> Result<(), NoMemory>
    requires fits { Fits (count lookups.now) board.now }
    requires exporter { exporter < count lookups.now }
    requires growing { IsGrowing (count lookups.now) growing.old }
    ensures { IfOk result (λ _. IsGrowing (count lookups.now) growing.new) }
{
    let _known = lookups.srp.count();
    for import in &lookups.exports.imports[exporter as usize] {
        follow_edge(
            lookups,
            board,
            without,
            growing,
            import.importer,
            import.act,
            from,
        )?;
    }
    Ok(())
}

// What the label of a router gives is put into the lists of others, or its initial route into its own.
fn put_first(
    lookups: &Lookups,
    board: &Board,
    without: Option<u32>,
    growing: &mut Growing,
    router: u32,
) -> Result<(), NoMemory>
    requires fits { Fits (count lookups.now) board.now }
    requires router { router < count lookups.now }
    requires growing { IsGrowing (count lookups.now) growing.old }
    ensures { IfOk result (λ _. IsGrowing (count lookups.now) growing.new) }
{
    let routers = lookups.srp.count();
    if let Some(label) = &board.labels.as_slice()[router as usize] {
        let from = foreseen_of(lookups.alloc, label)?;
        return follow(lookups, board, without, growing, router, &from);
    }
    match &lookups.srp.init()[router as usize] {
        None => Ok(()),
        Some(route) => {
            let route = SharedRoute::from_route(lookups.alloc, route)?;
            let own = foreseen_of(lookups.alloc, &route)?;
            put(lookups.alloc, growing, routers, router, own.comms, own.size)
        }
    }
}

// What was found for a router is followed, if it is new. False: it is not.
fn grow(
    lookups: &Lookups,
    board: &Board,
    without: Option<u32>,
    growing: &mut Growing,
    router: u32,
) -> Result<bool, NoMemory>
    requires fits { Fits (count lookups.now) board.now }
    requires router { router < count lookups.now }
    requires growing { IsGrowing (count lookups.now) growing.old }
    ensures { IfOk result (λ _. IsGrowing (count lookups.now) growing.new) }
{
    let _known = lookups.srp.count();
    if !growing.is_new[router as usize] || growing.table[router as usize].len() > MOST {
        return Ok(false);
    }
    growing.is_new[router as usize] = false;
    let list = replace(
        &mut growing.table[router as usize],
        List::new(lookups.alloc),
    );
    for from in list.as_slice() {
        follow(lookups, board, without, growing, router, from)?;
    }
    growing.table[router as usize] = list;
    Ok(true)
}

// What labels give is put into the lists of other routers, and each initial route into that of its router.
fn put_all_first(
    lookups: &Lookups,
    board: &Board,
    without: Option<u32>,
    growing: &mut Growing,
) -> Result<(), NoMemory>
    requires fits { Fits (count lookups.now) board.now }
    requires growing { IsGrowing (count lookups.now) growing.old }
    ensures { IfOk result (λ _. IsGrowing (count lookups.now) growing.new) }
{
    for router in 0..lookups.srp.count() {
        put_first(lookups, board, without, growing, router)?;
    }
    Ok(())
}

// What was found for routers is followed once. False: nothing is new.
fn grow_all(
    lookups: &Lookups,
    board: &Board,
    without: Option<u32>,
    growing: &mut Growing,
) -> Result<bool, NoMemory>
    requires fits { Fits (count lookups.now) board.now }
    requires growing { IsGrowing (count lookups.now) growing.old }
    ensures { IfOk result (λ _. IsGrowing (count lookups.now) growing.new) }
{
    let mut grew = false;
    for router in 0..lookups.srp.count() {
        if grow(lookups, board, without, growing, router)? {
            grew = true;
        }
    }
    Ok(grew)
}

// What is new is followed, round by round.
fn grow_up(
    lookups: &Lookups,
    board: &Board,
    without: Option<u32>,
    growing: &mut Growing,
) -> Result<(), NoMemory>
    requires fits { Fits (count lookups.now) board.now }
    requires growing { IsGrowing (count lookups.now) growing.old }
    ensures { IfOk result (λ _. IsGrowing (count lookups.now) growing.new) }
{
    for _round in 0..lookups.srp.count() {
        if !grow_all(lookups, board, without, growing)? {
            return Ok(());
        }
    }
    Ok(())
}

fn nothing_found(lookups: &Lookups) -> Result<Growing, NoMemory>
    ensures { IfOk result (IsGrowing (count lookups.now)) }
{
    let mut table = Vec::new(lookups.alloc);
    let mut is_new = Vec::new(lookups.alloc);
    for _router in 0..lookups.srp.count() {
        table.push(List::new(lookups.alloc))?;
        is_new.push(false)?;
    }
    Ok(Growing { table, is_new })
}

/// A list for each router of what it may hold. A list may lack something: `outlook_of` looks whether one
/// does.
pub(crate) fn table_of(
    lookups: &Lookups,
    board: &Board,
    without: Option<u32>,
) -> Result<Vec<List<Foreseen>>, NoMemory>
    requires { Fits (count lookups.now) board.now }
    ensures { IfOk result (λ table. length table.items ≡ count lookups.now) }
{
    let mut growing = nothing_found(lookups)?;
    put_all_first(lookups, board, without, &mut growing)?;
    grow_up(lookups, board, without, &mut growing)?;
    let Growing { table, .. } = growing;
    Ok(table)
}
