//! The printed lines of interfaces.

ghost use Rattle.std.specs.Prelude.{◌≡◌, ◌++◌, OnOk, string_bytes, flat_map};
ghost use Rattle.cfg_ast.specs.printing.Printed.{line_text, lines_text, line_of_given, line_if, ip_address_line, cost_line, shutdown_line, interface_lines};

use crate::words::{put_named_line, put_numbered_line};
use base_kit::List;
use cfg_ast::{Address, Interface};
use printed_words::{Piece, add_address, mask_text};
use std::alloc::AllocError;

#[tactic(auto, unfolding(cfg_ast::specs::printing::Printed::ip_address_line))]
fn put_address_line(text: &mut String, address: &Address) -> Result<(), AllocError>
    ensures { OnOk result (string_bytes text.new ≡ string_bytes text.old ++ line_text (ip_address_line address.now)) }
{
    let mut line = Piece::new();
    line.push_str(" ip address ");
    add_address(&mut line, address.addr());
    line.push_str(" ");
    line.push_str(mask_text(address.len()));
    line.push_str("\n");
    text.push_str(line.as_str())
}

fn put_some_address(text: &mut String, address: &Option<Address>) -> Result<(), AllocError>
    ensures { OnOk result (string_bytes text.new ≡ string_bytes text.old ++ lines_text (line_of_given ip_address_line address.now)) }
{
    match address {
        Some(address) => put_address_line(text, address),
        None => Ok(()),
    }
}

#[tactic(auto, unfolding(cfg_ast::specs::printing::Printed::cost_line))]
fn put_cost(text: &mut String, cost: u16) -> Result<(), AllocError>
    ensures { OnOk result (string_bytes text.new ≡ string_bytes text.old ++ line_text (cost_line cost)) }
{
    put_numbered_line(text, " ip ospf cost ", u32::from(cost))
}

fn put_some_cost(text: &mut String, cost: Option<u16>) -> Result<(), AllocError>
    ensures { OnOk result (string_bytes text.new ≡ string_bytes text.old ++ lines_text (line_of_given cost_line cost)) }
{
    match cost {
        Some(cost) => put_cost(text, cost),
        None => Ok(()),
    }
}

fn put_shutdown(text: &mut String, shut: bool) -> Result<(), AllocError>
    ensures { OnOk result (string_bytes text.new ≡ string_bytes text.old ++ lines_text (line_if shut shutdown_line)) }
{
    if shut {
        return text.push_str(" shutdown\n");
    }
    Ok(())
}

#[tactic(auto, unfolding(cfg_ast::specs::printing::Printed::interface_lines))]
fn put_interface(text: &mut String, interface: &Interface) -> Result<(), AllocError>
    ensures { OnOk result (string_bytes text.new ≡ string_bytes text.old ++ lines_text (interface_lines interface.now)) }
{
    put_named_line(text, "interface ", interface.name.as_str())?;
    put_some_address(text, &interface.address)?;
    put_some_cost(text, interface.cost)?;
    put_shutdown(text, interface.shut)?;
    text.push_str("!\n")
}

/// Appends the lines of each interface.
pub(crate) fn put_interfaces(
    text: &mut String,
    interfaces: &List<Interface>,
) -> Result<(), AllocError>
    ensures { OnOk result (string_bytes text.new ≡ string_bytes text.old ++ lines_text (flat_map interface_lines interfaces.now)) }
{
    let items = interfaces.as_slice();
    for interface in items {
        put_interface(text, interface)?;
    }
    Ok(())
}
