//! Up interfaces, found by address and by subnet.

ghost use Rattle.std.specs.Prelude.{◌≡◌, ◌<◌, ◌^◌, ◌++◌, length, IfOk, OnOk, nat_eq};
ghost use Rattle.net_topology.specs.Ups.{up_at, up_on, ups_on, ups_of, addr_of, attachment_of, same_attachment, IsLookup};
ghost use Rattle.net_topology.specs.Peers.{end_from, named_end, later_end};

use crate::peers::Peer;
use crate::places::place;
use base_kit::NoMemory;
use cfg_ast::{Address, Interface, Router};
use number_hashing::{NumberDigest, NumberHashing};
use std::alloc::Global;
use std::collections::HashMap;

/// A router in a subnet, which goes by its length and its first address.
#[derive(Clone, Copy, PartialEq, Eq, Hash)]
pub(crate) struct Attachment {
    pub(crate) router: u32,
    pub(crate) len: u32,
    pub(crate) first: u32,
}

/// The address of an up interface, and where it is attached.
#[derive(Clone, Copy)]
pub(crate) struct Up {
    pub(crate) addr: u32,
    pub(crate) at: Attachment,
}

/// The addresses of all up interfaces, each found by itself and by where it is attached. In a network
/// without faults no two are the same, and no two of one router are in one subnet.
#[derive(Drop)]
pub(crate) struct Ups {
    pub(crate) all: Vec<Up>,
    pub(crate) by_addr: HashMap<u32, Up, NumberHashing>,
    pub(crate) by_attachment: HashMap<Attachment, Up, NumberHashing>,
    pub ghost addrs: { IsLookup nat_eq addr_of by_addr all.items },
    pub ghost attachments: { IsLookup same_attachment attachment_of by_attachment all.items },
}

fn up_at(router: u32, address: Address) -> Up
    ensures { result ≡ up_at router address }
{
    let subnet = address.subnet();
    Up {
        addr: address.addr(),
        at: Attachment {
            router,
            len: u32::from(subnet.len()),
            first: subnet.addr(),
        },
    }
}

fn up_on(router: u32, interface: &Interface) -> Option<Up>
    ensures { result ≡ up_on router interface.now }
{
    let address = interface.up_address()?;
    Some(up_at(router, address))
}

fn push_ups(found: &mut Vec<Up>, router: u32, owner: &Router) -> Result<(), NoMemory>
    ensures { OnOk result (found.new.items ≡ found.old.items ++ ups_on (router, owner.now)) }
{
    let interfaces = owner.interfaces.as_slice();
    for interface in interfaces {
        if let Some(up) = up_on(router, interface) {
            found.push(up)?;
        }
    }
    Ok(())
}

fn all_ups(alloc: Global, routers: &[Router]) -> Result<Vec<Up>, NoMemory>
    requires { length routers.now < 2 ^ 32 }
    ensures { IfOk result (λ found. found.items ≡ ups_of routers.now) }
{
    let mut found = Vec::new(alloc);
    for r in 0..routers.len() {
        let router = place(r);
        push_ups(&mut found, router, &routers[r])?;
    }
    Ok(found)
}

// The hash for tables of the addresses and of where they are attached.
fn hashing_of(ups: &[Up]) -> NumberHashing {
    let mut numbers = NumberDigest::for_count(ups.len());
    // The length and the address give the subnet, and the routers are few.
    for up in ups {
        numbers.add_pair(up.addr, up.at.router << 8 | up.at.len);
    }
    numbers.hashing()
}

fn by_addr(
    alloc: Global,
    hashing: NumberHashing,
    ups: &[Up],
) -> Result<HashMap<u32, Up, NumberHashing>, NoMemory>
    ensures { IfOk result (λ lookup. IsLookup nat_eq addr_of lookup ups.now) }
{
    let mut lookup: HashMap<u32, Up, NumberHashing> = HashMap::with_capacity_and_hasher(
        alloc,
        ups.len(),
        hashing,
    )?;
    for up in ups {
        lookup.insert(up.addr, *up)?;
    }
    Ok(lookup)
}

fn by_attachment(
    alloc: Global,
    hashing: NumberHashing,
    ups: &[Up],
) -> Result<HashMap<Attachment, Up, NumberHashing>, NoMemory>
    ensures { IfOk result (λ lookup. IsLookup same_attachment attachment_of lookup ups.now) }
{
    let mut lookup: HashMap<Attachment, Up, NumberHashing> = HashMap::with_capacity_and_hasher(
        alloc,
        ups.len(),
        hashing,
    )?;
    for up in ups {
        lookup.insert(up.at, *up)?;
    }
    Ok(lookup)
}

impl Ups {
    pub(crate) fn of(alloc: Global, routers: &[Router]) -> Result<Ups, NoMemory>
        requires { length routers.now < 2 ^ 32 }
        ensures { IfOk result (λ ups. ups.all.items ≡ ups_of routers.now) }
    {
        let all = all_ups(alloc, routers)?;
        let hashing = hashing_of(all.as_slice());
        let by_addr = by_addr(alloc, hashing, all.as_slice())?;
        let by_attachment = by_attachment(alloc, hashing, all.as_slice())?;
        Ok(Ups {
            all,
            by_addr,
            by_attachment,
        })
    }

    // Where a session of the peer ends, if the address that the peer names is this one.
    fn end_beside(&self, p: &Peer, far: Up) -> Option<(u32, u32)>
        ensures { result ≡ end_from self.now.all.items p.now.router far }
    {
        let near = self.by_attachment.get(&Attachment {
            router: p.router,
            len: far.at.len,
            first: far.at.first,
        });
        Some((far.at.router, near.copied()?.addr))
    }

    /// The router and the address of the neighbour line at which a session of the peer ends: that router
    /// has the address that the peer names, and the peer's own router has this one in the same subnet.
    pub(crate) fn other_end(&self, p: &Peer) -> Option<(u32, u32)>
        ensures { result ≡ named_end self.now.all.items p.now }
    {
        let far = self.by_addr.get(&p.addr).copied()?;
        self.end_beside(p, far)
    }

    /// The same, if that router comes after the peer's own. Of the others nothing more is looked up.
    pub(crate) fn later_end(&self, p: &Peer) -> Option<(u32, u32)>
        ensures { result ≡ later_end self.now.all.items p.now }
    {
        let far = self.by_addr.get(&p.addr).copied()?;
        if p.router < far.at.router {
            self.end_beside(p, far)
        } else {
            None
        }
    }
}
