//! The lines of an OSPF process, taken one by one.

ghost use Rattle.std.specs.Prelude.{◌≡◌, [], true, OnOk, OnErr};
ghost use Rattle.cfg_ast.specs.text.Reading.{new_ospf};
ghost use Rattle.cfg_ast.specs.text.Stanzas.{with_text, with_area, set_ospf};
ghost use Rattle.cfg_stanzas.specs.Left.{IsLeftOfOspf};

use crate::areas::Areas;
use crate::names::Names;
use base_kit::{NoMemory, Text};
use cfg_ast::{AreaLine, OspfProcess, RouterItem};
use numbered_names::NameHashing;
use std::alloc::Global;
use std::marker::Model;

/// An OSPF process whose lines are being read.
#[derive(Drop)]
pub struct OspfDraft {
    number: u32,
    line: u32,
    passive_default: bool,
    passive: Names,
    not_passive: Names,
    areas: Areas,
}

impl Model for OspfDraft {
    ghost use Rattle.cfg_ast.specs.declared.ospf.OspfProcess.{OspfProcess};

    ghost Value = { OspfProcess };

    ghost view = { λ o. record { number = o.number; line = o.line; passive_default = o.passive_default; passive = o.passive; not_passive = o.not_passive; areas = o.areas } };
}

impl OspfDraft {
    /// A process of that number with no lines yet. The names of interfaces are hashed as given.
    pub fn new(alloc: Global, hashing: NameHashing, line: u32, number: u32) -> OspfDraft
        ensures { result ≡ new_ospf line number }
    {
        OspfDraft {
            number,
            line,
            passive_default: false,
            passive: Names::new(alloc, hashing),
            not_passive: Names::new(alloc, hashing),
            areas: Areas::new(alloc),
        }
    }

    /// The process that the lines give.
    pub fn into_process(self) -> OspfProcess
        ensures { result ≡ self }
    {
        let OspfDraft {
            number,
            line,
            passive_default,
            passive,
            not_passive,
            areas,
        } = self;
        OspfProcess {
            number,
            line,
            passive_default,
            passive: passive.into_list(),
            not_passive: not_passive.into_list(),
            areas: areas.into_list(),
        }
    }
}

fn add_area(alloc: Global, area: AreaLine, process: &mut OspfDraft) -> Result<(), NoMemory>
    ensures ok { OnOk result (process.new ≡ record process.old { areas = with_area process.old.areas area }) }
    ensures err { OnErr result (process.new ≡ record process.old { areas = [] }) }
{
    process.areas.add(alloc, area)
}

fn add_passive(alloc: Global, name: Text, process: &mut OspfDraft) -> Result<(), NoMemory>
    ensures ok { OnOk result (process.new ≡ record process.old { passive = with_text process.old.passive name }) }
    ensures err { OnErr result (process.new ≡ record process.old { passive = [] }) }
{
    let names = std::mem::replace(
        &mut process.passive,
        Names::new(alloc, NameHashing::plain()),
    );
    process.passive = names.with(alloc, name)?;
    Ok(())
}

fn add_not_passive(alloc: Global, name: Text, process: &mut OspfDraft) -> Result<(), NoMemory>
    ensures ok { OnOk result (process.new ≡ record process.old { not_passive = with_text process.old.not_passive name }) }
    ensures err { OnErr result (process.new ≡ record process.old { not_passive = [] }) }
{
    let names = std::mem::replace(
        &mut process.not_passive,
        Names::new(alloc, NameHashing::plain()),
    );
    process.not_passive = names.with(alloc, name)?;
    Ok(())
}

fn set_passive_default(process: &mut OspfDraft)
    ensures { process.new ≡ record process.old { passive_default = true } }
{
    process.passive_default = true;
}

/// Adds to the process what one of its lines says.
///
/// # Errors
/// Out of memory: then the list to which the line adds is empty.
#[tactic(auto, unfolding(cfg_ast::specs::text::Stanzas::set_ospf))]
pub fn set_ospf(alloc: Global, item: RouterItem, process: &mut OspfDraft) -> Result<(), NoMemory>
    ensures ok { OnOk result (process.new ≡ set_ospf item process.old) }
    ensures err { OnErr result (IsLeftOfOspf item process.old process.new) }
{
    match item {
        RouterItem::Area(area) => add_area(alloc, area, process),
        RouterItem::PassiveDefault => {
            set_passive_default(process);
            Ok(())
        }
        RouterItem::Passive(name) => add_passive(alloc, name, process),
        RouterItem::NotPassive(name) => add_not_passive(alloc, name, process),
        _ => Ok(()),
    }
}
