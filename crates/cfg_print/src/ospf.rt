//! The printed lines of an OSPF process.

ghost use Rattle.std.specs.Prelude.{◌≡◌, ◌++◌, ◌∷◌, [], codes, OnOk, string_bytes, map};
ghost use Rattle.std.specs.Fmt.{decimal};
ghost use Rattle.cfg_ast.specs.printing.Printed.{line, line_text, lines_text, line_if, passive_default_line, passive_line, not_passive_line, network_area_line, ospf_lines};

use crate::words::{put_closing, put_named_line, put_numbered_line};
use base_kit::{List, Text};
use cfg_ast::{AreaLine, OspfProcess};
use printed_words::{Piece, add_address, add_number};
use std::alloc::AllocError;

fn put_passive_default(text: &mut String, is_default: bool) -> Result<(), AllocError>
    ensures { OnOk result (string_bytes text.new ≡ string_bytes text.old ++ lines_text (line_if is_default passive_default_line)) }
{
    if is_default {
        return text.push_str(" passive-interface default\n");
    }
    Ok(())
}

fn put_passive_line(text: &mut String, name: &Text) -> Result<(), AllocError>
    ensures { OnOk result (string_bytes text.new ≡ string_bytes text.old ++ line_text (passive_line name.now)) }
{
    put_named_line(text, " passive-interface ", name.as_str())
}

fn put_passive(text: &mut String, names: &List<Text>) -> Result<(), AllocError>
    ensures { OnOk result (string_bytes text.new ≡ string_bytes text.old ++ lines_text (map passive_line names.now)) }
{
    let items = names.as_slice();
    for name in items {
        put_passive_line(text, name)?;
    }
    Ok(())
}

fn put_not_passive_line(text: &mut String, name: &Text) -> Result<(), AllocError>
    ensures { OnOk result (string_bytes text.new ≡ string_bytes text.old ++ line_text (not_passive_line name.now)) }
{
    put_named_line(text, " no passive-interface ", name.as_str())
}

fn put_not_passive(text: &mut String, names: &List<Text>) -> Result<(), AllocError>
    ensures { OnOk result (string_bytes text.new ≡ string_bytes text.old ++ lines_text (map not_passive_line names.now)) }
{
    let items = names.as_slice();
    for name in items {
        put_not_passive_line(text, name)?;
    }
    Ok(())
}

#[tactic(auto, unfolding(cfg_ast::specs::printing::Printed::network_area_line))]
fn put_area(text: &mut String, area: &AreaLine) -> Result<(), AllocError>
    ensures { OnOk result (string_bytes text.new ≡ string_bytes text.old ++ line_text (network_area_line area.now)) }
{
    let mut line = Piece::new();
    line.push_str(" network ");
    add_address(&mut line, area.addr);
    line.push_str(" ");
    add_address(&mut line, area.wild);
    line.push_str(" area ");
    add_number(&mut line, area.area);
    line.push_str("\n");
    text.push_str(line.as_str())
}

fn put_areas(text: &mut String, areas: &List<AreaLine>) -> Result<(), AllocError>
    ensures { OnOk result (string_bytes text.new ≡ string_bytes text.old ++ lines_text (map network_area_line areas.now)) }
{
    let items = areas.as_slice();
    for area in items {
        put_area(text, area)?;
    }
    Ok(())
}

fn put_head(text: &mut String, number: u32) -> Result<(), AllocError>
    ensures { OnOk result (string_bytes text.new ≡ string_bytes text.old ++ lines_text (line 0 (codes "router" ∷ codes "ospf" ∷ decimal number ∷ []) ∷ [])) }
{
    put_numbered_line(text, "router ospf ", number)
}

/// Appends the lines of an OSPF process.
pub(crate) fn put_ospf(text: &mut String, process: &OspfProcess) -> Result<(), AllocError>
    ensures { OnOk result (string_bytes text.new ≡ string_bytes text.old ++ lines_text (ospf_lines process.now)) }
{
    put_head(text, process.number)?;
    put_passive_default(text, process.passive_default)?;
    put_passive(text, &process.passive)?;
    put_not_passive(text, &process.not_passive)?;
    put_areas(text, &process.areas)?;
    put_closing(text)
}
