//! A line inside a stanza.

ghost use Rattle.cfg_ast.specs.text.Lines.{IsLineIn};
ghost use Rattle.cfg_ast.specs.text.TextLines.{text_line};
ghost use Rattle.cfg_ast.specs.text.Reading.{take_inner};
ghost use Rattle.cfg_parse.specs.Open.{stanza_of};
ghost use Rattle.cfg_stanzas.specs.Changes.{Changes};

use crate::draft::Open;
use cfg_ast::{Line, PolicyScope, ReadRefusal, Scope};
use cfg_stanzas::{
    misplaced, policy_said_in, said_in, set_bgp, set_entry, set_interface, set_ospf,
};
use std::alloc::Global;

/// Adds to the open stanza what one of its lines says.
#[tactic(auto, using(cfg_stanzas::proofs::Changed::refused_as), unfolding(cfg_ast::specs::text::Reading::take_inner))]
pub(crate) fn take_inner(
    alloc: Global,
    bytes: &[u8],
    line: &Line,
    stanza: &mut Open,
) -> Result<(), ReadRefusal>
    requires { IsLineIn bytes.now line.now }
    ensures { Changes result (stanza_of stanza.new) (take_inner (text_line bytes.now line.now) (stanza_of stanza.old)) }
{
    match stanza {
        Open::Closed => Err(misplaced(line.number)),
        Open::Ignored => Ok(()),
        Open::Interface(interface) => {
            let item = said_in(alloc, bytes, line, Scope::Interface)?;
            set_interface(line.number, item, interface)?;
            Ok(())
        }
        Open::Bgp(process) => {
            let item = said_in(alloc, bytes, line, Scope::Bgp)?;
            set_bgp(alloc, line.number, item, process)?;
            Ok(())
        }
        Open::Ospf(process) => {
            let item = said_in(alloc, bytes, line, Scope::Ospf)?;
            set_ospf(alloc, item, process)?;
            Ok(())
        }
        Open::Entry(_, entry) => {
            let item = policy_said_in(alloc, bytes, line, PolicyScope::Entry)?;
            set_entry(line.number, item, entry)?;
            Ok(())
        }
    }
}
