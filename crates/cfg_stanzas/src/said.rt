//! What a line says, or its fault at its line.

ghost use Rattle.std.specs.Prelude.{◌≡◌};
ghost use Rattle.cfg_ast.specs.text.Answers.{Gives};
ghost use Rattle.cfg_ast.specs.text.Lines.{IsLineIn, texts};
ghost use Rattle.cfg_ast.specs.text.PolicyForms.{policy_item_of};
ghost use Rattle.cfg_ast.specs.text.RouterForms.{router_item_of};
ghost use Rattle.cfg_ast.specs.text.Stanzas.{refusal_of, said_at};

use cfg_ast::{FormFault, Kind, Line, PolicyItem, PolicyScope, ReadRefusal, RouterItem, Scope};
use cfg_forms_policy::policy_item;
use cfg_forms_router::router_item;
use std::alloc::Global;

fn refused_at(number: u32, fault: FormFault) -> ReadRefusal
    ensures { result ≡ refusal_of number fault }
{
    let kind = match fault {
        FormFault::UnknownLine => Kind::UnknownLine,
        FormFault::Unsupported => Kind::Unsupported,
        FormFault::BadForm => Kind::BadForm,
        FormFault::WellKnown => Kind::WellKnown,
        FormFault::Memory => return ReadRefusal::Memory,
    };
    ReadRefusal::At { line: number, kind }
}

/// What a router line says, or its fault at its line.
pub fn said_in(
    alloc: Global,
    bytes: &[u8],
    line: &Line,
    scope: Scope,
) -> Result<RouterItem, ReadRefusal>
    requires { IsLineIn bytes.now line.now }
    ensures { Gives result (said_at line.now.number (router_item_of scope line.now.number (texts bytes.now line.now.words))) }
{
    router_item(alloc, bytes, line, scope).map_err(|fault| refused_at(line.number, fault))
}

/// What a line of a list or a route map says, or its fault at its line.
pub fn policy_said_in(
    alloc: Global,
    bytes: &[u8],
    line: &Line,
    scope: PolicyScope,
) -> Result<PolicyItem, ReadRefusal>
    requires { IsLineIn bytes.now line.now }
    ensures { Gives result (said_at line.now.number (policy_item_of scope line.now.number (texts bytes.now line.now.words))) }
{
    policy_item(alloc, bytes, line, scope).map_err(|fault| refused_at(line.number, fault))
}
