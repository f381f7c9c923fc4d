//! Calls that read texts.

ghost use Rattle.std.specs.Prelude.{◌≡◌, ◌≤◌, All, IfOk, length};
ghost use Rattle.cfg_ast.specs.text.Answers.{Gives, Reads};
ghost use Rattle.cfg_ast.specs.text.Lines.{IsLineIn, lines_of, texts};
ghost use Rattle.cfg_ast.specs.text.Members.{members_of_text};
ghost use Rattle.cfg_ast.specs.text.PolicyForms.{policy_item_of};
ghost use Rattle.cfg_ast.specs.text.Reading.{network_of_text};
ghost use Rattle.cfg_ast.specs.text.RouterForms.{router_item_of};

use base_kit::{List, NoMemory, Text};
use cfg_ast::{Network, ReadRefusal};
use cfg_forms_policy::{PolicyItem, PolicyScope, policy_item};
use cfg_forms_router::{RouterItem, Scope, router_item};
use cfg_lex::{FormFault, Line, lines};
use cfg_parse::{read_members, read_network};
use std::alloc::Global;

/// The lines of a text that have words.
pub fn lines_in(alloc: Global, bytes: &[u8]) -> Result<List<Line>, ReadRefusal>
    requires { length bytes.now ≤ 16777216 }
    ensures exact { Gives result (lines_of bytes.now) }
    ensures within { IfOk result (All (IsLineIn bytes.now)) }
{
    lines(alloc, bytes)
}

/// What a line of a list or a route map says.
pub fn policy_line(
    alloc: Global,
    bytes: &[u8],
    line: &Line,
    scope: PolicyScope,
) -> Result<PolicyItem, FormFault>
    requires { IsLineIn bytes.now line.now }
    ensures { Reads result (policy_item_of scope line.now.number (texts bytes.now line.now.words)) }
{
    policy_item(alloc, bytes, line, scope)
}

/// What any other line says.
pub fn router_line(
    alloc: Global,
    bytes: &[u8],
    line: &Line,
    scope: Scope,
) -> Result<RouterItem, FormFault>
    requires { IsLineIn bytes.now line.now }
    ensures { Reads result (router_item_of scope line.now.number (texts bytes.now line.now.words)) }
{
    router_item(alloc, bytes, line, scope)
}

/// The network of a text.
pub fn network_in(alloc: Global, bytes: &[u8]) -> Result<Network, ReadRefusal>
    requires { length bytes.now ≤ 16777216 }
    ensures { Gives result (network_of_text bytes.now) }
{
    read_network(alloc, bytes)
}

/// For each router of a text that was compressed, the names of the routers that it stands for.
pub fn members_in(alloc: Global, bytes: &[u8]) -> Result<List<List<Text>>, NoMemory>
    requires { length bytes.now ≤ 16777216 }
    ensures { IfOk result (λ members. members ≡ members_of_text bytes.now) }
{
    read_members(alloc, bytes)
}
