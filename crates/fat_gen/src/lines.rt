//! The lines of a switch.

ghost use Rattle.std.specs.Prelude.{◌≡◌, ◌<◌, ◌≤◌, ◌+◌, ◌++◌, OnOk, flat_map, length, string_bytes};
ghost use Rattle.fat_gen.specs.SwitchLines.{name_text, as_number, host_network, name_line, masked_address_line, interface_into, host_interface, ethernet_line, port_interface, port_interfaces, bgp_line, announced_line, remote_as_line, sends_line, switch_neighbors, switch_interfaces, process_lines, lines_with};

use crate::cable::Port;
use crate::switch::Switch;
use printed_words::{Piece, add_address, add_number, put_address};
use std::alloc::AllocError;
use std::fmt::Write;

fn as_number(place: u16) -> u32
    ensures { result ≡ as_number place }
{
    4_200_000_000 + u32::from(place)
}

fn host_network(pod: u8, number: u8) -> u32
    ensures network { result ≡ host_network pod number }
    ensures small { result < 4294967295 }
{
    167_772_160 + u32::from(pod) * 65_536 + u32::from(number) * 256
}

fn put_name(text: &mut String, switch: Switch) -> Result<(), AllocError>
    ensures { OnOk result (string_bytes text.new ≡ string_bytes text.old ++ name_text switch) }
{
    match switch {
        Switch::Core(number) => write!(text, "core{number}"),
        Switch::Aggregation { pod, number } => write!(text, "agg{pod}-{number}"),
        Switch::Edge { pod, number } => write!(text, "edge{pod}-{number}"),
    }
}

fn put_name_line(text: &mut String, switch: Switch) -> Result<(), AllocError>
    ensures { OnOk result (string_bytes text.new ≡ string_bytes text.old ++ name_line switch) }
{
    text.push_str("hostname ")?;
    put_name(text, switch)?;
    text.push_str("\n")
}

fn put_address_line(text: &mut String, address: u32, mask: &str) -> Result<(), AllocError>
    requires { length mask.now ≤ 15 }
    ensures { OnOk result (string_bytes text.new ≡ string_bytes text.old ++ masked_address_line address mask.now) }
{
    let mut line = Piece::new();
    line.push_str(" ip address ");
    add_address(&mut line, address);
    line.push_str(" ");
    line.push_str(mask);
    line.push_str("\n");
    text.push_str(line.as_str())
}

fn put_interface_into(text: &mut String, network: u32) -> Result<(), AllocError>
    requires { network < 4294967295 }
    ensures { OnOk result (string_bytes text.new ≡ string_bytes text.old ++ interface_into network) }
{
    text.push_str("interface Vlan1\n")?;
    put_address_line(text, network + 1, "255.255.255.0")
}

fn put_host_interface(text: &mut String, switch: Switch) -> Result<(), AllocError>
    ensures { OnOk result (string_bytes text.new ≡ string_bytes text.old ++ host_interface switch) }
{
    match switch {
        Switch::Core(_) => Ok(()),
        Switch::Aggregation { .. } => Ok(()),
        Switch::Edge { pod, number } => put_interface_into(text, host_network(pod, number)),
    }
}

fn put_interface_line(text: &mut String, number: usize) -> Result<(), AllocError>
    ensures { OnOk result (string_bytes text.new ≡ string_bytes text.old ++ ethernet_line number) }
{
    write!(text, "interface GigabitEthernet0/{number}\n")
}

fn put_port_interface(text: &mut String, number: usize, port: Port) -> Result<(), AllocError>
    ensures { OnOk result (string_bytes text.new ≡ string_bytes text.old ++ port_interface (number, port)) }
{
    put_interface_line(text, number)?;
    put_address_line(text, port.own, "255.255.255.254")
}

fn put_port_interfaces(text: &mut String, ports: &[Port]) -> Result<(), AllocError>
    ensures { OnOk result (string_bytes text.new ≡ string_bytes text.old ++ port_interfaces ports.now) }
{
    for i in 0..ports.len() {
        put_port_interface(text, i, ports[i])?;
    }
    Ok(())
}

fn put_process_line(text: &mut String, place: u16) -> Result<(), AllocError>
    ensures { OnOk result (string_bytes text.new ≡ string_bytes text.old ++ bgp_line place) }
{
    let number = as_number(place);
    write!(text, "router bgp {number}\n")
}

fn put_network_line(text: &mut String, switch: Switch) -> Result<(), AllocError>
    ensures { OnOk result (string_bytes text.new ≡ string_bytes text.old ++ announced_line switch) }
{
    let Switch::Edge { pod, number } = switch else {
        return Ok(());
    };
    text.push_str(" network ")?;
    put_address(text, host_network(pod, number))?;
    text.push_str(" mask 255.255.255.0\n")
}

fn put_remote_line(text: &mut String, address: u32, number: u32) -> Result<(), AllocError>
    ensures { OnOk result (string_bytes text.new ≡ string_bytes text.old ++ remote_as_line address number) }
{
    let mut line = Piece::new();
    line.push_str(" neighbor ");
    add_address(&mut line, address);
    line.push_str(" remote-as ");
    add_number(&mut line, number);
    line.push_str("\n");
    text.push_str(line.as_str())
}

fn put_sends_line(text: &mut String, address: u32) -> Result<(), AllocError>
    ensures { OnOk result (string_bytes text.new ≡ string_bytes text.old ++ sends_line address) }
{
    let mut line = Piece::new();
    line.push_str(" neighbor ");
    add_address(&mut line, address);
    line.push_str(" send-community\n");
    text.push_str(line.as_str())
}

fn put_neighbor(text: &mut String, port: Port) -> Result<(), AllocError>
    ensures { OnOk result (string_bytes text.new ≡ string_bytes text.old ++ switch_neighbors port) }
{
    put_remote_line(text, port.peer, as_number(port.other))?;
    put_sends_line(text, port.peer)
}

fn put_neighbors(text: &mut String, ports: &[Port]) -> Result<(), AllocError>
    ensures { OnOk result (string_bytes text.new ≡ string_bytes text.old ++ flat_map switch_neighbors ports.now) }
{
    for port in ports {
        put_neighbor(text, *port)?;
    }
    Ok(())
}

fn put_interface_lines(text: &mut String, switch: Switch, ports: &[Port]) -> Result<(), AllocError>
    ensures { OnOk result (string_bytes text.new ≡ string_bytes text.old ++ switch_interfaces switch ports.now) }
{
    put_host_interface(text, switch)?;
    put_port_interfaces(text, ports)
}

fn put_process_lines(
    text: &mut String,
    place: u16,
    switch: Switch,
    ports: &[Port],
) -> Result<(), AllocError>
    ensures { OnOk result (string_bytes text.new ≡ string_bytes text.old ++ process_lines place switch ports.now) }
{
    put_process_line(text, place)?;
    put_network_line(text, switch)?;
    put_neighbors(text, ports)
}

/// Appends the lines of a switch with its place and its ports.
pub(crate) fn put_switch(
    text: &mut String,
    place: u16,
    switch: Switch,
    ports: &[Port],
) -> Result<(), AllocError>
    ensures { OnOk result (string_bytes text.new ≡ string_bytes text.old ++ lines_with place switch ports.now) }
{
    put_name_line(text, switch)?;
    put_interface_lines(text, switch, ports)?;
    put_process_lines(text, place, switch, ports)?;
    text.push_str("end\n")
}
