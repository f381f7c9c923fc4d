//! A line at the top.

ghost use Rattle.std.specs.Prelude.{◌≡◌, IfOk, OnErr};
ghost use Rattle.cfg_ast.specs.declared.items.RouterItem.TheVariants as item;
ghost use Rattle.cfg_ast.specs.text.Answers.{Gives};
ghost use Rattle.cfg_ast.specs.text.Stanzas.{once};
ghost use Rattle.cfg_ast.specs.text.Reading.{new_interface, ignored, named_router, end_router, ends_router, take_line, take_top};
ghost use Rattle.cfg_stanzas.specs.Changes.{Changes, Sets};

use crate::community_lists::CommunityLists;
use crate::draft::{Draft, Open, State, begin_stanza, no_draft};
use crate::prefix_lists::PrefixLists;
use crate::route_maps::RouteMaps;
use base_kit::{List, NoMemory, Text};
use cfg_ast::{
    CommunityList, Interface, Kind, Named, PrefixList, ReadRefusal, RouteMap, Router, RouterItem,
};
use cfg_stanzas::{BgpDraft, OspfDraft, once, repeated};
use std::alloc::Global;

fn new_interface(number: u32, name: Text) -> Interface
    ensures { result ≡ new_interface number name }
{
    Interface {
        name,
        line: number,
        address: None,
        cost: None,
        shut: false,
    }
}

#[tactic(auto, unfolding(cfg_ast::specs::text::Reading::take_line))]
fn take_hostname(number: u32, name: Text, draft: &mut Draft) -> Result<(), ReadRefusal>
    ensures set { Sets result draft.new (take_line number (item.Hostname name) draft.old) }
    ensures err { OnErr result (draft.new ≡ draft.old) }
{
    once(number, draft.name.is_some())?;
    draft.name = Some(Named { name, line: number });
    Ok(())
}

#[tactic(auto, unfolding(cfg_ast::specs::text::Reading::take_line))]
fn open_interface(number: u32, name: Text, draft: &mut Draft) -> Result<(), ReadRefusal>
    ensures set { Sets result draft.new (take_line number (item.Interface name) draft.old) }
    ensures err { OnErr result (draft.new ≡ draft.old) }
{
    if draft.interfaces.has(name.as_str()) {
        return Err(repeated(number));
    }
    begin_stanza(draft, Open::Interface(new_interface(number, name)));
    Ok(())
}

#[tactic(auto, unfolding(cfg_ast::specs::text::Reading::take_line))]
fn open_bgp(alloc: Global, line: u32, number: u32, draft: &mut Draft) -> Result<(), ReadRefusal>
    ensures set { Sets result draft.new (take_line line (item.Bgp number) draft.old) }
    ensures err { OnErr result (draft.new ≡ draft.old) }
{
    once(line, draft.bgp.is_some())?;
    begin_stanza(draft, Open::Bgp(BgpDraft::new(alloc, line, number)));
    Ok(())
}

#[tactic(auto, unfolding(cfg_ast::specs::text::Reading::take_line))]
fn open_ospf(alloc: Global, line: u32, number: u32, draft: &mut Draft) -> Result<(), ReadRefusal>
    ensures set { Sets result draft.new (take_line line (item.Ospf number) draft.old) }
    ensures err { OnErr result (draft.new ≡ draft.old) }
{
    once(line, draft.ospf.is_some())?;
    begin_stanza(
        draft,
        Open::Ospf(OspfDraft::new(alloc, draft.hashing, line, number)),
    );
    Ok(())
}

/// Opens a stanza whose lines are ignored.
pub(crate) fn ignore(draft: &mut Draft)
    ensures { draft.new ≡ record draft.old { stanza = ignored } }
{
    begin_stanza(draft, Open::Ignored);
}

// The lists and maps of a router, in order.
#[derive(Drop)]
struct Lists {
    prefix_lists: List<PrefixList>,
    community_lists: List<CommunityList>,
    route_maps: List<RouteMap>,
}

fn lists_of(
    alloc: Global,
    prefix_lists: PrefixLists,
    community_lists: CommunityLists,
    route_maps: RouteMaps,
) -> Result<Lists, NoMemory>
    ensures prefix_lists { IfOk result (λ lists. lists.prefix_lists ≡ prefix_lists) }
    ensures community_lists { IfOk result (λ lists. lists.community_lists ≡ community_lists) }
    ensures route_maps { IfOk result (λ lists. lists.route_maps ≡ route_maps) }
{
    Ok(Lists {
        prefix_lists: prefix_lists.into_list(alloc)?,
        community_lists: community_lists.into_list(alloc)?,
        route_maps: route_maps.into_list(alloc)?,
    })
}

fn router_of(alloc: Global, number: u32, draft: Draft) -> Result<Router, ReadRefusal>
    ensures { Gives result (named_router number draft.name draft) }
{
    let Draft {
        name,
        interfaces,
        bgp,
        ospf,
        prefix_lists,
        community_lists,
        route_maps,
        stanza,
        ..
    } = draft;
    // It goes first, so that no later return has to drop each kind of stanza.
    drop(stanza);
    let lists = lists_of(alloc, prefix_lists, community_lists, route_maps)?;
    match name {
        Some(host) => Ok(Router {
            name: host.name,
            line: host.line,
            interfaces: interfaces.into_list(),
            bgp,
            ospf,
            prefix_lists: lists.prefix_lists,
            community_lists: lists.community_lists,
            route_maps: lists.route_maps,
        }),
        None => Err(ReadRefusal::At {
            line: number,
            kind: Kind::NoHostname,
        }),
    }
}

fn ends_router(item: &RouterItem) -> bool
    ensures { result ≡ ends_router item.now }
{
    match item {
        RouterItem::End => true,
        _ => false,
    }
}

// The top lines that change the draft alone.
#[tactic(auto, using(cfg_stanzas::proofs::Changed::set_changes), unfolding(cfg_ast::specs::text::Reading::take_line))]
fn take_line(
    alloc: Global,
    number: u32,
    item: RouterItem,
    draft: &mut Draft,
) -> Result<(), ReadRefusal>
    ensures { Changes result draft.new (take_line number item draft.old) }
{
    match item {
        RouterItem::Hostname(name) => take_hostname(number, name, draft),
        RouterItem::Interface(name) => open_interface(number, name, draft),
        RouterItem::Bgp(process) => open_bgp(alloc, number, process, draft),
        RouterItem::Ospf(process) => open_ospf(alloc, number, process, draft),
        RouterItem::Ignored => {
            ignore(draft);
            Ok(())
        }
        _ => Ok(()),
    }
}

fn end_router(alloc: Global, number: u32, state: &mut State) -> Result<(), ReadRefusal>
    ensures { Changes result state.new (end_router number state.old) }
{
    let hashing = state.draft.hashing;
    let draft = std::mem::replace(&mut state.draft, no_draft(alloc, hashing));
    state.routers.push(router_of(alloc, number, draft)?)?;
    Ok(())
}

/// Adds to the state what a top line says.
#[tactic(auto, unfolding(cfg_ast::specs::text::Reading::take_top))]
pub(crate) fn take_top(
    alloc: Global,
    number: u32,
    item: RouterItem,
    state: &mut State,
) -> Result<(), ReadRefusal>
    ensures { Changes result state.new (take_top number item state.old) }
{
    if ends_router(&item) {
        return end_router(alloc, number, state);
    }
    take_line(alloc, number, item, &mut state.draft)?;
    Ok(())
}
