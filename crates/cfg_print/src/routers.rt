//! The printed lines of routers, with their members.

ghost use Rattle.std.specs.Prelude.{◌≡◌, ◌++◌, ◌∷◌, [], OnOk, string_bytes, flat_map, map, get_or, codes};
ghost use Rattle.cfg_ast.specs.printing.Printed.{line, lines_text, member_line, router_lines, routers_lines, lines_of_some, bgp_lines, ospf_lines};
ghost use Rattle.cfg_print.specs.Fronts.{router_front};

use crate::bgp::put_bgp;
use crate::interfaces::put_interfaces;
use crate::lists::{put_community_lists, put_prefix_lists};
use crate::ospf::put_ospf;
use crate::route_maps::put_route_maps;
use crate::words::{put_closing, put_named_line};
use base_kit::{List, Text};
use cfg_ast::{BgpProcess, OspfProcess, Router};
use std::alloc::AllocError;

#[tactic(auto, unfolding(cfg_ast::specs::printing::Printed::member_line))]
fn put_members(text: &mut String, members: &[Text]) -> Result<(), AllocError>
    ensures { OnOk result (string_bytes text.new ≡ string_bytes text.old ++ lines_text (map member_line members.now)) }
{
    for member in members {
        put_named_line(text, "! member ", member.as_str())?;
    }
    Ok(())
}

fn put_some_bgp(text: &mut String, process: &Option<BgpProcess>) -> Result<(), AllocError>
    ensures { OnOk result (string_bytes text.new ≡ string_bytes text.old ++ lines_text (lines_of_some bgp_lines process.now)) }
{
    match process {
        Some(process) => put_bgp(text, process),
        None => Ok(()),
    }
}

fn put_some_ospf(text: &mut String, process: &Option<OspfProcess>) -> Result<(), AllocError>
    ensures { OnOk result (string_bytes text.new ≡ string_bytes text.old ++ lines_text (lines_of_some ospf_lines process.now)) }
{
    match process {
        Some(process) => put_ospf(text, process),
        None => Ok(()),
    }
}

fn put_host(text: &mut String, name: &Text) -> Result<(), AllocError>
    ensures { OnOk result (string_bytes text.new ≡ string_bytes text.old ++ lines_text (line 0 (codes "hostname" ∷ name.now ∷ []) ∷ [])) }
{
    put_named_line(text, "hostname ", name.as_str())
}

fn put_end(text: &mut String) -> Result<(), AllocError>
    ensures { OnOk result (string_bytes text.new ≡ string_bytes text.old ++ lines_text (line 0 (codes "end" ∷ []) ∷ [])) }
{
    text.push_str("end\n")
}

// The name of a router, the names of those that it stands for, its interfaces and its processes.
fn put_front(text: &mut String, router: &Router, members: &[Text]) -> Result<(), AllocError>
    ensures { OnOk result (string_bytes text.new ≡ string_bytes text.old ++ lines_text (router_front router.now members.now)) }
{
    put_host(text, &router.name)?;
    put_members(text, members)?;
    put_closing(text)?;
    put_interfaces(text, &router.interfaces)?;
    put_some_bgp(text, &router.bgp)?;
    put_some_ospf(text, &router.ospf)
}

fn put_router(text: &mut String, router: &Router, members: &[Text]) -> Result<(), AllocError>
    ensures { OnOk result (string_bytes text.new ≡ string_bytes text.old ++ lines_text (router_lines router.now members.now)) }
{
    put_front(text, router, members)?;
    put_prefix_lists(text, &router.prefix_lists)?;
    put_community_lists(text, &router.community_lists)?;
    put_route_maps(text, &router.route_maps)?;
    put_end(text)
}

// The names at a place, or none.
fn names_at(members: &[List<Text>], place: usize) -> &[Text]
    ensures { result.now ≡ get_or members.now place [] }
{
    match members.get(place) {
        Some(names) => names.as_slice(),
        None => &[],
    }
}

/// Appends the lines of each router, with the names of those that it stands for.
#[tactic(auto, using(crate::proofs::Joined::routers_next))]
pub(crate) fn put_routers(
    text: &mut String,
    routers: &[Router],
    members: &[List<Text>],
) -> Result<(), AllocError>
    ensures { OnOk result (string_bytes text.new ≡ string_bytes text.old ++ lines_text (routers_lines routers.now members.now)) }
{
    for place in 0..routers.len() {
        put_router(text, &routers[place], names_at(members, place))?;
    }
    Ok(())
}
