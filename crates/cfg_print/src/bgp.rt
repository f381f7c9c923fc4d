//! The printed lines of a BGP process.

ghost use Rattle.std.specs.Prelude.{◌≡◌, ◌+◌, ◌≤◌, ◌++◌, ◌∷◌, [], OnOk, string_bytes, length, flat_map, map, codes};
ghost use Rattle.std.specs.Fmt.{decimal};
ghost use Rattle.cfg_ast.specs.printing.Printed.{line, line_text, lines_text, line_of_given, line_if, base_line, network_line, remote_line, peer_shut_line, peer_sends_line, applied_line, neighbor_lines, bgp_lines};
ghost use Rattle.cfg_print.specs.Fronts.{peer_front};

use crate::words::{put_around, put_closing, put_numbered_line};
use base_kit::List;
use cfg_ast::{Base, BgpProcess, Named, Neighbor, NetLine};
use printed_words::{Piece, add_address, add_number, mask_text};
use std::alloc::AllocError;

#[tactic(auto, unfolding(cfg_ast::specs::printing::Printed::base_line))]
fn put_base(text: &mut String, base: &Base) -> Result<(), AllocError>
    ensures { OnOk result (string_bytes text.new ≡ string_bytes text.old ++ line_text (base_line base.now)) }
{
    put_numbered_line(text, " bgp default local-preference ", base.value)
}

fn put_some_base(text: &mut String, base: &Option<Base>) -> Result<(), AllocError>
    ensures { OnOk result (string_bytes text.new ≡ string_bytes text.old ++ lines_text (line_of_given base_line base.now)) }
{
    match base {
        Some(base) => put_base(text, base),
        None => Ok(()),
    }
}

#[tactic(auto, unfolding(cfg_ast::specs::printing::Printed::network_line))]
fn put_network(text: &mut String, net: &NetLine) -> Result<(), AllocError>
    ensures { OnOk result (string_bytes text.new ≡ string_bytes text.old ++ line_text (network_line net.now)) }
{
    let mut line = Piece::new();
    line.push_str(" network ");
    add_address(&mut line, net.prefix.addr());
    line.push_str(" mask ");
    line.push_str(mask_text(net.prefix.len()));
    line.push_str("\n");
    text.push_str(line.as_str())
}

fn put_networks(text: &mut String, nets: &List<NetLine>) -> Result<(), AllocError>
    ensures { OnOk result (string_bytes text.new ≡ string_bytes text.old ++ lines_text (map network_line nets.now)) }
{
    let items = nets.as_slice();
    for net in items {
        put_network(text, net)?;
    }
    Ok(())
}

// What each line of a neighbor begins with.
fn peer_front(addr: u32) -> Piece
    ensures bytes { result.bytes ≡ peer_front addr }
    ensures len { length result.bytes ≤ 25 }
{
    let mut front = Piece::new();
    front.push_str(" neighbor ");
    add_address(&mut front, addr);
    front
}

#[tactic(auto, unfolding(cfg_ast::specs::printing::Printed::remote_line))]
fn put_remote(text: &mut String, front: &Piece, peer: &Neighbor) -> Result<(), AllocError>
    requires begins { front.now.bytes ≡ peer_front peer.now.addr }
    requires room { length front.now.bytes ≤ 25 }
    ensures { OnOk result (string_bytes text.new ≡ string_bytes text.old ++ line_text (remote_line peer.now.addr peer.now.remote)) }
{
    let mut line = *front;
    line.push_str(" remote-as ");
    add_number(&mut line, peer.remote);
    line.push_str("\n");
    text.push_str(line.as_str())
}

#[tactic(auto, unfolding(cfg_ast::specs::printing::Printed::peer_shut_line))]
fn put_if_shut(text: &mut String, front: &Piece, peer: &Neighbor) -> Result<(), AllocError>
    requires begins { front.now.bytes ≡ peer_front peer.now.addr }
    requires room { length front.now.bytes ≤ 25 }
    ensures { OnOk result (string_bytes text.new ≡ string_bytes text.old ++ lines_text (line_if peer.now.shut (peer_shut_line peer.now.addr))) }
{
    if peer.shut {
        let mut line = *front;
        line.push_str(" shutdown\n");
        return text.push_str(line.as_str());
    }
    Ok(())
}

fn put_if_sends(text: &mut String, front: &Piece, peer: &Neighbor) -> Result<(), AllocError>
    requires begins { front.now.bytes ≡ peer_front peer.now.addr }
    requires room { length front.now.bytes ≤ 25 }
    ensures { OnOk result (string_bytes text.new ≡ string_bytes text.old ++ lines_text (line_if peer.now.sends (peer_sends_line peer.now.addr))) }
{
    if peer.sends {
        let mut line = *front;
        line.push_str(" send-community\n");
        return text.push_str(line.as_str());
    }
    Ok(())
}

// The word of a direction, up to the end of its line.
fn way_end(way: &str) -> Piece
    requires { length way.now ≤ 3 }
    ensures { result.bytes ≡ 32 ∷ way.now ++ 10 ∷ [] }
{
    let mut end = Piece::new();
    end.push_str(" ");
    end.push_str(way);
    end.push_str("\n");
    end
}

#[tactic(auto, unfolding(cfg_ast::specs::printing::Printed::applied_line))]
fn put_applied(
    text: &mut String,
    addr: u32,
    what: &str,
    way: &str,
    named: &Named,
) -> Result<(), AllocError>
    requires short_what { length what.now ≤ 11 }
    requires short_way { length way.now ≤ 3 }
    ensures { OnOk result (string_bytes text.new ≡ string_bytes text.old ++ line_text (applied_line addr what.now way.now named.now)) }
{
    let mut begin = peer_front(addr);
    begin.push_str(" ");
    begin.push_str(what);
    begin.push_str(" ");
    put_around(
        text,
        begin.as_str(),
        named.name.as_str(),
        way_end(way).as_str(),
    )
}

// What is applied in this direction, if anything is.
fn put_if_applied(
    text: &mut String,
    addr: u32,
    what: &str,
    way: &str,
    named: &Option<Named>,
) -> Result<(), AllocError>
    requires short_what { length what.now ≤ 11 }
    requires short_way { length way.now ≤ 3 }
    ensures { OnOk result (string_bytes text.new ≡ string_bytes text.old ++ lines_text (line_of_given (applied_line addr what.now way.now) named.now)) }
{
    match named {
        Some(named) => put_applied(text, addr, what, way, named),
        None => Ok(()),
    }
}

#[tactic(auto, unfolding(cfg_ast::specs::printing::Printed::neighbor_lines))]
fn put_neighbor(text: &mut String, peer: &Neighbor) -> Result<(), AllocError>
    ensures { OnOk result (string_bytes text.new ≡ string_bytes text.old ++ lines_text (neighbor_lines peer.now)) }
{
    let front = peer_front(peer.addr);
    put_remote(text, &front, peer)?;
    put_if_shut(text, &front, peer)?;
    put_if_sends(text, &front, peer)?;
    put_if_applied(text, peer.addr, "prefix-list", "in", &peer.list_in)?;
    put_if_applied(text, peer.addr, "prefix-list", "out", &peer.list_out)?;
    put_if_applied(text, peer.addr, "route-map", "in", &peer.map_in)?;
    put_if_applied(text, peer.addr, "route-map", "out", &peer.map_out)
}

fn put_neighbors(text: &mut String, peers: &List<Neighbor>) -> Result<(), AllocError>
    ensures { OnOk result (string_bytes text.new ≡ string_bytes text.old ++ lines_text (flat_map neighbor_lines peers.now)) }
{
    let items = peers.as_slice();
    for peer in items {
        put_neighbor(text, peer)?;
    }
    Ok(())
}

fn put_head(text: &mut String, number: u32) -> Result<(), AllocError>
    ensures { OnOk result (string_bytes text.new ≡ string_bytes text.old ++ lines_text (line 0 (codes "router" ∷ codes "bgp" ∷ decimal number ∷ []) ∷ [])) }
{
    put_numbered_line(text, "router bgp ", number)
}

/// Appends the lines of a BGP process.
pub(crate) fn put_bgp(text: &mut String, process: &BgpProcess) -> Result<(), AllocError>
    ensures { OnOk result (string_bytes text.new ≡ string_bytes text.old ++ lines_text (bgp_lines process.now)) }
{
    put_head(text, process.number)?;
    put_some_base(text, &process.base)?;
    put_networks(text, &process.networks)?;
    put_neighbors(text, &process.neighbors)?;
    put_closing(text)
}
