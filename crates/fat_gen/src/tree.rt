//! The configurations of a fat tree (Al-Fares, Loukissas and Vahdat, SIGCOMM 2008).

ghost use Rattle.std.specs.Prelude.{◌≡◌, ◌≤◌, ◌++◌, IfOk, OnOk, List, flat_map, length, string_bytes};
ghost use Rattle.std.specs.List.{enumerate_from};
ghost use Rattle.fat_gen.specs.declared.cable.Cable.{Cable};
ghost use Rattle.fat_gen.specs.Switches.{switches};
ghost use Rattle.fat_gen.specs.Cables.{cables};
ghost use Rattle.fat_gen.specs.PortTables.{ArePortsByPlace};
ghost use Rattle.fat_gen.specs.SwitchLines.{switch_lines};
ghost use Rattle.fat_gen.specs.FatTrees.{is_size, text_by_half, fat_tree_text, IsFatTree};

use crate::cable::Port;
use crate::cables::cables;
use crate::lines::put_switch;
use crate::ports::ports_by_place;
use crate::refusal::FatRefusal;
use crate::switch::Switch;
use crate::switches::switches;
use std::alloc::{AllocError, Global};

fn is_size(size: u32) -> bool
    ensures { result ≡ is_size size }
{
    size % 2 == 0 && 4 <= size && size <= 20
}

// Appends the lines of each switch, whose ports stand at its place in the table.
fn put_switches(
    text: &mut String,
    switches: &[Switch],
    table: &[Vec<Port>],
) -> Result<(), AllocError>
    requires switches { length switches.now ≤ 500 }
    requires total { length table.now ≡ length switches.now }
    ensures { OnOk result ((cables : List Cable) → ArePortsByPlace cables table.now → string_bytes text.new ≡ string_bytes text.old ++ flat_map (switch_lines cables) (enumerate_from 0 switches.now)) }
{
    for i in 0..switches.len() {
        put_switch(text, i as u16, switches[i], &table[i])?;
    }
    Ok(())
}

fn text_by_half(alloc: Global, half: u8) -> Result<Vec<u8>, AllocError>
    requires { half ≤ 10 }
    ensures { IfOk result (λ bytes. bytes.items ≡ text_by_half half) }
{
    let switches = switches(alloc, half)?;
    let cables = cables(alloc, half)?;
    let table = ports_by_place(alloc, switches.len(), &cables)?;
    let mut text = String::new(alloc);
    put_switches(&mut text, &switches, &table)?;
    Ok(text.into_bytes())
}

/// The running configurations of the switches of the fat tree of a size: 5 k k / 4 routers of one
/// autonomous system each and k k k / 2 BGP sessions, for the size k. Each edge switch originates a
/// network of hosts.
///
/// # Errors
///
/// `BadSize` exactly if the size is odd, or not from 4 to 20. `Memory` where memory ran out.
#[tactic(auto, unfolding(crate::specs::FatTrees::fat_tree_text))]
pub fn fat_tree(alloc: Global, k: u32) -> Result<Vec<u8>, FatRefusal>
    ensures { IsFatTree (λ bytes. bytes.items) result k }
{
    if !is_size(k) {
        return Err(FatRefusal::BadSize);
    }
    let bytes = text_by_half(alloc, (k / 2) as u8)?;
    Ok(bytes)
}
