//! The lines of an entry of a route map, taken one by one.

ghost use Rattle.std.specs.Prelude.{◌≡◌, OnErr};
ghost use Rattle.cfg_ast.specs.declared.items.PolicyItem.TheVariants as item;
ghost use Rattle.cfg_ast.specs.text.PolicyLines.{set_entry};
ghost use Rattle.cfg_stanzas.specs.Changes.{Sets};

use crate::faults::once;
use cfg_ast::{Change, MapEntry, NameLine, Named, PolicyItem, Prepend, ReadRefusal};

#[tactic(auto, unfolding(cfg_ast::specs::text::PolicyLines::set_entry))]
fn set_prefixes(number: u32, names: NameLine, entry: &mut MapEntry) -> Result<(), ReadRefusal>
    ensures set { Sets result entry.new (set_entry number (item.MatchPrefixes names) entry.old) }
    ensures err { OnErr result (entry.new ≡ entry.old) }
{
    once(number, entry.prefixes.is_some())?;
    entry.prefixes = Some(names);
    Ok(())
}

#[tactic(auto, unfolding(cfg_ast::specs::text::PolicyLines::set_entry))]
fn set_comms(
    number: u32,
    names: NameLine,
    exact: bool,
    entry: &mut MapEntry,
) -> Result<(), ReadRefusal>
    ensures set { Sets result entry.new (set_entry number (item.MatchComms names exact) entry.old) }
    ensures err { OnErr result (entry.new ≡ entry.old) }
{
    once(number, entry.comms.is_some())?;
    entry.comms = Some(names);
    entry.exact = exact;
    Ok(())
}

#[tactic(auto, unfolding(cfg_ast::specs::text::PolicyLines::set_entry))]
fn set_lp(number: u32, lp: u32, entry: &mut MapEntry) -> Result<(), ReadRefusal>
    ensures set { Sets result entry.new (set_entry number (item.Lp lp) entry.old) }
    ensures err { OnErr result (entry.new ≡ entry.old) }
{
    once(number, entry.lp.is_some())?;
    entry.lp = Some(lp);
    Ok(())
}

#[tactic(auto, unfolding(cfg_ast::specs::text::PolicyLines::set_entry))]
fn set_change(number: u32, change: Change, entry: &mut MapEntry) -> Result<(), ReadRefusal>
    ensures set { Sets result entry.new (set_entry number (item.Comms change) entry.old) }
    ensures err { OnErr result (entry.new ≡ entry.old) }
{
    once(number, entry.change.is_some())?;
    entry.change = Some(change);
    entry.change_line = number;
    Ok(())
}

#[tactic(auto, unfolding(cfg_ast::specs::text::PolicyLines::set_entry))]
fn set_delete(number: u32, list: Named, entry: &mut MapEntry) -> Result<(), ReadRefusal>
    ensures set { Sets result entry.new (set_entry number (item.Delete list) entry.old) }
    ensures err { OnErr result (entry.new ≡ entry.old) }
{
    once(number, entry.delete.is_some())?;
    entry.delete = Some(list);
    Ok(())
}

#[tactic(auto, unfolding(cfg_ast::specs::text::PolicyLines::set_entry))]
fn set_prepend(number: u32, prepend: Prepend, entry: &mut MapEntry) -> Result<(), ReadRefusal>
    ensures set { Sets result entry.new (set_entry number (item.Prepend prepend) entry.old) }
    ensures err { OnErr result (entry.new ≡ entry.old) }
{
    once(number, entry.prepend.is_some())?;
    entry.prepend = Some(prepend);
    Ok(())
}

/// Adds to the entry what one of its lines says.
///
/// # Errors
/// A value that stands already: then nothing changes.
#[tactic(auto, unfolding(cfg_ast::specs::text::PolicyLines::set_entry))]
pub fn set_entry(number: u32, item: PolicyItem, entry: &mut MapEntry) -> Result<(), ReadRefusal>
    ensures set { Sets result entry.new (set_entry number item entry.old) }
    ensures err { OnErr result (entry.new ≡ entry.old) }
{
    match item {
        PolicyItem::MatchPrefixes(names) => set_prefixes(number, names, entry),
        PolicyItem::MatchComms(names, exact) => set_comms(number, names, exact, entry),
        PolicyItem::Lp(lp) => set_lp(number, lp, entry),
        PolicyItem::Comms(change) => set_change(number, change, entry),
        PolicyItem::Delete(list) => set_delete(number, list, entry),
        PolicyItem::Prepend(prepend) => set_prepend(number, prepend, entry),
        _ => Ok(()),
    }
}
