//! The ports of the switches.

ghost use Rattle.std.specs.Prelude.{◌≡◌, ◌≤◌, ◌<◌, [], All, IfOk, OnOk, length};
ghost use Rattle.fat_gen.specs.Cables.{even_address, port_if, ports_on};
ghost use Rattle.fat_gen.specs.PortTables.{ArePortsByPlace, AreGrownBy};

use crate::cable::{Cable, Port};
use std::alloc::{AllocError, Global};

fn even_address(number: u16) -> u32
    ensures { result ≡ even_address number }
{
    2_886_729_728 + 2 * u32::from(number)
}

// A list for each place, with no port yet.
fn no_ports(alloc: Global, count: usize) -> Result<Vec<Vec<Port>>, AllocError>
    ensures total { IfOk result (λ table. length table.items ≡ count) }
    ensures empty { IfOk result (λ table. All (λ ports. ports.items ≡ []) table.items) }
{
    let mut table = Vec::with_capacity(alloc, count)?;
    for _place in 0..count {
        table.push(Vec::new(alloc))?;
    }
    Ok(table)
}

// Puts the port at an end of a cable last in the list of its place, if there is one.
fn push_port(table: &mut Vec<Vec<Port>>, end: u16, port: Port) -> Result<(), AllocError>
    ensures { OnOk result (AreGrownBy (λ place. port_if place end port) table.old.items table.new.items) }
{
    let place = end as usize;
    if place < table.len() {
        table[place].push(port)?;
    }
    Ok(())
}

fn push_ports(table: &mut Vec<Vec<Port>>, number: u16, cable: Cable) -> Result<(), AllocError>
    ensures { OnOk result (AreGrownBy (λ place. ports_on place (number, cable)) table.old.items table.new.items) }
{
    let even = even_address(number);
    let odd = even + 1;
    let at_even = Port {
        own: even,
        peer: odd,
        other: cable.odd,
    };
    let at_odd = Port {
        own: odd,
        peer: even,
        other: cable.even,
    };
    push_port(table, cable.even, at_even)?;
    push_port(table, cable.odd, at_odd)
}

/// The ports of the switch of each place below the count, in the order of the cables.
pub(crate) fn ports_by_place(
    alloc: Global,
    count: usize,
    cables: &[Cable],
) -> Result<Vec<Vec<Port>>, AllocError>
    requires { length cables.now ≤ 4000 }
    ensures total { IfOk result (λ table. length table.items ≡ count) }
    ensures ports { IfOk result (λ table. ArePortsByPlace cables.now table.items) }
{
    let mut table = no_ports(alloc, count)?;
    for i in 0..cables.len() {
        push_ports(&mut table, i as u16, cables[i])?;
    }
    Ok(table)
}
