//! The lines of a BGP process, taken one by one.

ghost use Rattle.std.specs.Prelude.{◌≡◌, [], OnErr};
ghost use Rattle.cfg_ast.specs.text.Reading.{new_bgp};
ghost use Rattle.cfg_ast.specs.declared.items.RouterItem.TheVariants as item;
ghost use Rattle.cfg_ast.specs.text.Stanzas.{set_bgp, with_peer, peer_of, set_process};
ghost use Rattle.cfg_stanzas.specs.Changes.{Changes, Keeps, Sets};
ghost use Rattle.cfg_stanzas.specs.Left.{IsLeftOfBgp};

use crate::faults::once;
use crate::neighbors::{Neighbors, new_neighbor};
use crate::networks::Networks;
use cfg_ast::{Base, BgpProcess, NetLine, ReadRefusal, RouterItem};
use std::alloc::Global;
use std::marker::Model;

/// A BGP process whose lines are being read.
#[derive(Drop)]
pub struct BgpDraft {
    number: u32,
    line: u32,
    base: Option<Base>,
    networks: Networks,
    neighbors: Neighbors,
}

impl Model for BgpDraft {
    ghost use Rattle.cfg_ast.specs.declared.bgp.BgpProcess.{BgpProcess};

    ghost Value = { BgpProcess };

    ghost view = { λ b. record { number = b.number; line = b.line; base = b.base; networks = b.networks; neighbors = b.neighbors } };
}

impl BgpDraft {
    /// A process of that number with no lines yet.
    pub fn new(alloc: Global, line: u32, number: u32) -> BgpDraft
        ensures { result ≡ new_bgp line number }
    {
        BgpDraft {
            number,
            line,
            base: None,
            networks: Networks::new(alloc),
            neighbors: Neighbors::new(alloc),
        }
    }

    /// The process that the lines give.
    pub fn into_process(self) -> BgpProcess
        ensures { result ≡ self }
    {
        let BgpDraft {
            number,
            line,
            base,
            networks,
            neighbors,
        } = self;
        BgpProcess {
            number,
            line,
            base,
            networks: networks.into_list(),
            neighbors: neighbors.into_list(),
        }
    }
}

fn set_peer(
    number: u32,
    addr: u32,
    item: RouterItem,
    process: &mut BgpDraft,
) -> Result<(), ReadRefusal>
    ensures set { Sets result process.new (with_peer number addr item process.old) }
    ensures err { OnErr result (process.new ≡ process.old) }
{
    process.neighbors.change(number, addr, item)?;
    Ok(())
}

fn peer_of(item: &RouterItem) -> Option<u32>
    ensures { result ≡ peer_of item.now }
{
    match item {
        RouterItem::PeerShut(addr) => Some(*addr),
        RouterItem::PeerSends(addr) => Some(*addr),
        RouterItem::PeerList { addr, .. } => Some(*addr),
        RouterItem::PeerMap { addr, .. } => Some(*addr),
        _ => None,
    }
}

#[tactic(auto, unfolding(cfg_ast::specs::text::Stanzas::set_process))]
fn add_network(
    alloc: Global,
    number: u32,
    net: &NetLine,
    process: &mut BgpDraft,
) -> Result<(), ReadRefusal>
    ensures set { Changes result process.new (set_process number (item.Network net.now) process.old) }
    ensures err { Keeps result process.old process.new (process.new ≡ record process.old { networks = [] }) }
{
    once(number, process.networks.has(net.prefix))?;
    process.networks.add(alloc, *net)?;
    Ok(())
}

#[tactic(auto, unfolding(cfg_ast::specs::text::Stanzas::set_process))]
fn add_neighbor(
    alloc: Global,
    number: u32,
    addr: u32,
    remote: u32,
    process: &mut BgpDraft,
) -> Result<(), ReadRefusal>
    ensures set { Changes result process.new (set_process number (item.RemoteAs addr remote) process.old) }
    ensures err { Keeps result process.old process.new (process.new ≡ record process.old { neighbors = [] }) }
{
    once(number, process.neighbors.has(addr))?;
    process
        .neighbors
        .add(alloc, new_neighbor(number, addr, remote))?;
    Ok(())
}

#[tactic(auto, unfolding(cfg_ast::specs::text::Stanzas::set_process))]
fn set_base(number: u32, base: Base, process: &mut BgpDraft) -> Result<(), ReadRefusal>
    ensures set { Sets result process.new (set_process number (item.Base base) process.old) }
    ensures err { OnErr result (process.new ≡ process.old) }
{
    once(number, process.base.is_some())?;
    process.base = Some(base);
    Ok(())
}

#[tactic(auto, unfolding(cfg_ast::specs::text::Stanzas::set_process))]
fn set_process(
    alloc: Global,
    number: u32,
    item: &RouterItem,
    process: &mut BgpDraft,
) -> Result<(), ReadRefusal>
    ensures set { Changes result process.new (set_process number item.now process.old) }
    ensures err { Keeps result process.old process.new (IsLeftOfBgp item.now process.old process.new) }
{
    match item {
        RouterItem::Base(base) => set_base(number, *base, process),
        RouterItem::Network(net) => add_network(alloc, number, net, process),
        RouterItem::RemoteAs {
            addr,
            number: remote,
        } => add_neighbor(alloc, number, *addr, *remote, process),
        _ => Ok(()),
    }
}

/// Adds to the process what one of its lines says.
///
/// # Errors
/// The fault of the line: then nothing changes. Out of memory: then the list to which the line adds is empty.
#[tactic(auto, unfolding(cfg_ast::specs::text::Stanzas::set_bgp))]
pub fn set_bgp(
    alloc: Global,
    number: u32,
    item: RouterItem,
    process: &mut BgpDraft,
) -> Result<(), ReadRefusal>
    ensures set { Changes result process.new (set_bgp number item process.old) }
    ensures err { Keeps result process.old process.new (IsLeftOfBgp item process.old process.new) }
{
    match peer_of(&item) {
        Some(addr) => set_peer(number, addr, item, process),
        None => set_process(alloc, number, &item, process),
    }
}
