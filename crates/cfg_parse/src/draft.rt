//! What the lines read so far give.

ghost use Rattle.std.specs.Prelude.{◌≡◌, OnOk};
ghost use Rattle.cfg_ast.specs.text.Reading.{no_draft, at_start, with_closed};
ghost use Rattle.cfg_parse.specs.Open.{stanza_of};

use crate::community_lists::CommunityLists;
use crate::interfaces::Interfaces;
use crate::prefix_lists::PrefixLists;
use crate::route_maps::RouteMaps;
use base_kit::{List, NoMemory, Text};
use cfg_ast::{BgpProcess, Interface, MapEntry, Named, OspfProcess, Router};
use cfg_stanzas::{BgpDraft, OspfDraft};
use numbered_names::NameHashing;
use std::alloc::Global;
use std::marker::Model;

/// The stanza to which indented lines belong.
#[derive(Drop)]
pub(crate) enum Open {
    Closed,
    Ignored,
    Interface(Interface),
    Bgp(BgpDraft),
    Ospf(OspfDraft),
    Entry(Text, MapEntry),
}

/// The router whose lines are being read.
#[derive(Drop)]
pub(crate) struct Draft {
    pub(crate) name: Option<Named>,
    pub(crate) interfaces: Interfaces,
    pub(crate) bgp: Option<BgpProcess>,
    pub(crate) ospf: Option<OspfProcess>,
    pub(crate) prefix_lists: PrefixLists,
    pub(crate) community_lists: CommunityLists,
    pub(crate) route_maps: RouteMaps,
    pub(crate) stanza: Open,
    /// How the names of tables that begin from here on are hashed.
    pub(crate) hashing: NameHashing,
}

impl Model for Draft {
    ghost use Rattle.cfg_ast.specs.text.Reading.{Draft};
    ghost use Rattle.cfg_parse.specs.Open.{stanza_of};

    ghost Value = { Draft };

    ghost view = { λ d. record { name = d.name; interfaces = d.interfaces; bgp = d.bgp; ospf = d.ospf; prefix_lists = d.prefix_lists; community_lists = d.community_lists; route_maps = d.route_maps; stanza = stanza_of d.stanza } };
}

/// What the lines so far give.
#[derive(Drop)]
pub(crate) struct State {
    pub(crate) routers: List<Router>,
    pub(crate) draft: Draft,
}

impl Model for State {
    ghost use Rattle.cfg_ast.specs.text.Reading.{State};

    ghost Value = { State };

    ghost view = { λ s. record { routers = s.routers; draft = s.draft } };
}

pub(crate) fn no_draft(alloc: Global, hashing: NameHashing) -> Draft
    ensures { result ≡ no_draft }
{
    Draft {
        name: None,
        interfaces: Interfaces::new(alloc, hashing),
        bgp: None,
        ospf: None,
        prefix_lists: PrefixLists::new(alloc, hashing),
        community_lists: CommunityLists::new(alloc, hashing),
        route_maps: RouteMaps::new(alloc, hashing),
        stanza: Open::Closed,
        hashing,
    }
}

pub(crate) fn at_start(alloc: Global, hashing: NameHashing) -> State
    ensures { result ≡ at_start }
{
    State {
        routers: List::new(alloc),
        draft: no_draft(alloc, hashing),
    }
}

/// Begins a stanza in place of the one that was open.
pub(crate) fn begin_stanza(draft: &mut Draft, stanza: Open)
    ensures { draft.new ≡ record draft.old { stanza = stanza_of stanza } }
{
    // The old one goes whole to `drop`, so that the proof does not take each kind of stanza apart.
    drop(std::mem::replace(&mut draft.stanza, stanza));
}

/// Closes the open stanza: what it gives goes to the router.
#[tactic(auto, unfolding(cfg_ast::specs::text::Reading::with_closed))]
pub(crate) fn close(alloc: Global, draft: &mut Draft) -> Result<(), NoMemory>
    ensures { OnOk result (draft.new ≡ with_closed draft.old) }
{
    match std::mem::replace(&mut draft.stanza, Open::Closed) {
        Open::Closed => Ok(()),
        Open::Ignored => Ok(()),
        Open::Interface(interface) => draft.interfaces.add(alloc, interface),
        Open::Bgp(process) => {
            draft.bgp = Some(process.into_process());
            Ok(())
        }
        Open::Ospf(process) => {
            draft.ospf = Some(process.into_process());
            Ok(())
        }
        Open::Entry(name, entry) => draft.route_maps.add(alloc, name, entry),
    }
}
