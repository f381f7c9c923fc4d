//! The printed lines of route maps.

ghost use Rattle.std.specs.Prelude.{◌≡◌, ◌++◌, ◌∷◌, [], OnOk, string_bytes, flat_map, map, codes, if◌then◌else◌};
ghost use Rattle.std.specs.Fmt.{decimal};
ghost use Rattle.cfg_ast.specs.declared.policy.Change.TheVariants.{Clear, Replace, Append};
ghost use Rattle.cfg_ast.specs.printing.Printed.{act_text, line_text, lines_text, line_of_given, map_head_line, match_prefixes_line, match_comms_line, lp_line, change_line, delete_line, prepend_line, map_entry_lines, route_map_lines};
ghost use Rattle.printed_words.specs.Spaced.{spaced, spaced_words};

use crate::words::{act_word, put, put_around, put_closing};
use base_kit::{List, NumSet};
use cfg_ast::{Change, MapEntry, NameLine, Named, Prepend, RouteMap};
use printed_words::{
    Piece, add_number, put_communities, put_name, put_names, put_number, put_numbers,
};
use std::alloc::AllocError;

// An entry behind its name, up to the end of its first line.
fn head_end(entry: &MapEntry) -> Piece
    ensures { result.bytes ≡ spaced (act_text entry.now.permit) ++ codes " " ++ decimal entry.now.seq ++ codes "\n" }
{
    let mut end = Piece::new();
    end.push_str(act_word(entry.permit));
    end.push_str(" ");
    add_number(&mut end, entry.seq);
    end.push_str("\n");
    end
}

fn put_map_head(text: &mut String, name: &str, entry: &MapEntry) -> Result<(), AllocError>
    ensures { OnOk result (string_bytes text.new ≡ string_bytes text.old ++ lines_text (map_head_line name.now entry.now ∷ [])) }
{
    put_around(text, "route-map ", name, head_end(entry).as_str())
}

fn put_match_prefixes(text: &mut String, line: &NameLine) -> Result<(), AllocError>
    ensures { OnOk result (string_bytes text.new ≡ string_bytes text.old ++ line_text (match_prefixes_line line.now)) }
{
    put(text, " match ip address prefix-list")?;
    put_names(text, &line.names)?;
    put(text, "\n")
}

fn put_some_prefixes(text: &mut String, line: &Option<NameLine>) -> Result<(), AllocError>
    ensures { OnOk result (string_bytes text.new ≡ string_bytes text.old ++ lines_text (line_of_given match_prefixes_line line.now)) }
{
    match line {
        Some(line) => put_match_prefixes(text, line),
        None => Ok(()),
    }
}

fn put_mark(text: &mut String, exact: bool) -> Result<(), AllocError>
    ensures { OnOk result (string_bytes text.new ≡ string_bytes text.old ++ spaced_words (if exact then codes "exact-match" ∷ [] else [])) }
{
    if exact {
        return text.push_str(" exact-match");
    }
    Ok(())
}

fn put_match_comms(text: &mut String, line: &NameLine, exact: bool) -> Result<(), AllocError>
    ensures { OnOk result (string_bytes text.new ≡ string_bytes text.old ++ line_text (match_comms_line exact line.now)) }
{
    put(text, " match community")?;
    put_names(text, &line.names)?;
    put_mark(text, exact)?;
    put(text, "\n")
}

fn put_some_comms(text: &mut String, line: &Option<NameLine>, exact: bool) -> Result<(), AllocError>
    ensures { OnOk result (string_bytes text.new ≡ string_bytes text.old ++ lines_text (line_of_given (match_comms_line exact) line.now)) }
{
    match line {
        Some(line) => put_match_comms(text, line, exact),
        None => Ok(()),
    }
}

fn put_lp(text: &mut String, lp: u32) -> Result<(), AllocError>
    ensures { OnOk result (string_bytes text.new ≡ string_bytes text.old ++ line_text (lp_line lp)) }
{
    put(text, " set local-preference")?;
    put_number(text, lp)?;
    put(text, "\n")
}

fn put_some_lp(text: &mut String, lp: Option<u32>) -> Result<(), AllocError>
    ensures { OnOk result (string_bytes text.new ≡ string_bytes text.old ++ lines_text (line_of_given lp_line lp)) }
{
    match lp {
        Some(lp) => put_lp(text, lp),
        None => Ok(()),
    }
}

fn put_clear(text: &mut String) -> Result<(), AllocError>
    ensures { OnOk result (string_bytes text.new ≡ string_bytes text.old ++ line_text (change_line Clear)) }
{
    put(text, " set community none\n")
}

fn put_replace(text: &mut String, comms: &NumSet) -> Result<(), AllocError>
    ensures { OnOk result (string_bytes text.new ≡ string_bytes text.old ++ line_text (change_line (Replace comms.now))) }
{
    put(text, " set community")?;
    put_communities(text, comms)?;
    put(text, "\n")
}

fn put_append(text: &mut String, comms: &NumSet) -> Result<(), AllocError>
    ensures { OnOk result (string_bytes text.new ≡ string_bytes text.old ++ line_text (change_line (Append comms.now))) }
{
    put(text, " set community")?;
    put_communities(text, comms)?;
    put(text, " additive\n")
}

fn put_change(text: &mut String, change: &Change) -> Result<(), AllocError>
    ensures { OnOk result (string_bytes text.new ≡ string_bytes text.old ++ line_text (change_line change.now)) }
{
    match change {
        Change::Clear => put_clear(text),
        Change::Replace(comms) => put_replace(text, comms),
        Change::Append(comms) => put_append(text, comms),
    }
}

fn put_some_change(text: &mut String, change: &Option<Change>) -> Result<(), AllocError>
    ensures { OnOk result (string_bytes text.new ≡ string_bytes text.old ++ lines_text (line_of_given change_line change.now)) }
{
    match change {
        Some(change) => put_change(text, change),
        None => Ok(()),
    }
}

fn put_delete(text: &mut String, list: &Named) -> Result<(), AllocError>
    ensures { OnOk result (string_bytes text.new ≡ string_bytes text.old ++ line_text (delete_line list.now)) }
{
    put(text, " set comm-list")?;
    put_name(text, &list.name)?;
    put(text, " delete\n")
}

fn put_some_delete(text: &mut String, list: &Option<Named>) -> Result<(), AllocError>
    ensures { OnOk result (string_bytes text.new ≡ string_bytes text.old ++ lines_text (line_of_given delete_line list.now)) }
{
    match list {
        Some(list) => put_delete(text, list),
        None => Ok(()),
    }
}

fn put_prepend(text: &mut String, prepend: &Prepend) -> Result<(), AllocError>
    ensures { OnOk result (string_bytes text.new ≡ string_bytes text.old ++ line_text (prepend_line prepend.now)) }
{
    put(text, " set as-path prepend")?;
    put_numbers(text, &prepend.numbers)?;
    put(text, "\n")
}

fn put_some_prepend(text: &mut String, prepend: &Option<Prepend>) -> Result<(), AllocError>
    ensures { OnOk result (string_bytes text.new ≡ string_bytes text.old ++ lines_text (line_of_given prepend_line prepend.now)) }
{
    match prepend {
        Some(prepend) => put_prepend(text, prepend),
        None => Ok(()),
    }
}

fn put_entry(text: &mut String, name: &str, entry: &MapEntry) -> Result<(), AllocError>
    ensures { OnOk result (string_bytes text.new ≡ string_bytes text.old ++ lines_text (map_entry_lines name.now entry.now)) }
{
    put_map_head(text, name, entry)?;
    put_some_prefixes(text, &entry.prefixes)?;
    put_some_comms(text, &entry.comms, entry.exact)?;
    put_some_lp(text, entry.lp)?;
    put_some_change(text, &entry.change)?;
    put_some_delete(text, &entry.delete)?;
    put_some_prepend(text, &entry.prepend)?;
    put_closing(text)
}

fn put_route_map(text: &mut String, map: &RouteMap) -> Result<(), AllocError>
    ensures { OnOk result (string_bytes text.new ≡ string_bytes text.old ++ lines_text (route_map_lines map.now)) }
{
    let name = map.name.as_str();
    let entries = map.entries.as_slice();
    for entry in entries {
        put_entry(text, name, entry)?;
    }
    Ok(())
}

/// Appends the entries of all route maps.
pub(crate) fn put_route_maps(text: &mut String, maps: &List<RouteMap>) -> Result<(), AllocError>
    ensures { OnOk result (string_bytes text.new ≡ string_bytes text.old ++ lines_text (flat_map route_map_lines maps.now)) }
{
    let items = maps.as_slice();
    for map in items {
        put_route_map(text, map)?;
    }
    Ok(())
}
