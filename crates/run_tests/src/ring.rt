//! Four BGP routers in a ring, of which the first originates a prefix.
use base_kit::{List, Text};
use io_kit::MemFile;
use std::alloc::{AllocError, Global};
use std::fmt::Write;
use std::test::Fail;

// One end of a link: the own address, and the neighbour's address and AS number.
#[derive(Clone, Copy)]
struct LinkEnd {
    own: &'static str,
    peer: &'static str,
    number: u32,
}

fn put_router(
    text: &mut String,
    name: &str,
    number: u32,
    first: &LinkEnd,
    second: &LinkEnd,
) -> Result<(), AllocError> {
    let own = first.own;
    let other = second.own;
    write!(text, "hostname {name}\n")?;
    if number == 65001 {
        text.push_str("interface Vlan1\n ip address 10.0.0.1 255.255.255.0\n")?;
    }
    write!(
        text,
        "interface GigabitEthernet0/0\n ip address {own} 255.255.255.254\n"
    )?;
    write!(
        text,
        "interface GigabitEthernet0/1\n ip address {other} 255.255.255.254\n"
    )?;
    write!(text, "router bgp {number}\n")?;
    if number == 65001 {
        text.push_str(" network 10.0.0.0 mask 255.255.255.0\n")?;
    }
    put_neighbor(text, first)?;
    put_neighbor(text, second)?;
    text.push_str("end\n")
}

fn put_neighbor(text: &mut String, end: &LinkEnd) -> Result<(), AllocError> {
    let peer = end.peer;
    let number = end.number;
    write!(text, " neighbor {peer} remote-as {number}\n")?;
    write!(text, " neighbor {peer} send-community\n")
}

fn link_end(own: &'static str, peer: &'static str, number: u32) -> LinkEnd {
    LinkEnd { own, peer, number }
}

fn ring_text(alloc: Global) -> Result<Vec<u8>, AllocError> {
    let mut text = String::new(alloc);
    put_router(
        &mut text,
        "a",
        65001,
        &link_end("172.16.0.0", "172.16.0.1", 65002),
        &link_end("172.16.0.7", "172.16.0.6", 65004),
    )?;
    put_router(
        &mut text,
        "b",
        65002,
        &link_end("172.16.0.1", "172.16.0.0", 65001),
        &link_end("172.16.0.2", "172.16.0.3", 65003),
    )?;
    put_router(
        &mut text,
        "c",
        65003,
        &link_end("172.16.0.3", "172.16.0.2", 65002),
        &link_end("172.16.0.4", "172.16.0.5", 65004),
    )?;
    put_router(
        &mut text,
        "d",
        65004,
        &link_end("172.16.0.5", "172.16.0.4", 65003),
        &link_end("172.16.0.6", "172.16.0.7", 65001),
    )?;
    Ok(text.into_bytes())
}

fn stable_text(alloc: Global) -> Result<Vec<u8>, AllocError> {
    let mut text = String::new(alloc);
    text.push_str("a bgp 100 path comms\n")?;
    text.push_str("b bgp 100 path 65001 comms\n")?;
    text.push_str("c bgp 100 path 65004 65001 comms\n")?;
    text.push_str("d bgp 100 path 65001 comms\n")?;
    Ok(text.into_bytes())
}

fn file(alloc: Global, name: &str, bytes: Vec<u8>) -> Result<MemFile, Fail> {
    let name = Text::copy_of(alloc, name)?;
    Ok(MemFile {
        name,
        bytes: List::from_vec(bytes),
    })
}

/// The configurations, named F, and a stable solution of their class, named S.
pub(crate) fn ring(alloc: Global) -> Result<List<MemFile>, Fail> {
    let mut files = List::new(alloc);
    files.push(file(alloc, "F", ring_text(alloc)?)?)?;
    files.push(file(alloc, "S", stable_text(alloc)?)?)?;
    Ok(files)
}
