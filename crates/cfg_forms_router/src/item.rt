//! The item of a router line.

ghost use Rattle.std.specs.Prelude.{◌≡◌};
ghost use Rattle.std.specs.List.{AllByRecursion};
ghost use Rattle.cfg_ast.specs.text.Answers.{Reads};
ghost use Rattle.cfg_ast.specs.text.Lines.{IsWordIn, IsLineIn, texts};
ghost use Rattle.cfg_ast.specs.text.RouterForms.{router_form, router_item_of};

use crate::{bgp, interface, ospf, top};
use cfg_ast::{FormFault, HeadClass, Line, RouterForm, RouterItem, Scope, Span};
use cfg_words::router_class;
use std::alloc::Global;

#[tactic(auto, using(crate::proofs::Exact::exact_reads))]
fn read_form(
    alloc: Global,
    bytes: &[u8],
    words: &[Span],
    line: u32,
    form: RouterForm,
) -> Result<RouterItem, FormFault>
    requires { AllByRecursion (IsWordIn bytes.now) words.now }
    ensures { Reads result (router_form form line (texts bytes.now words.now)) }
{
    match form {
        RouterForm::Hostname => top::hostname(alloc, bytes, words),
        RouterForm::Interface => top::interface(alloc, bytes, words),
        RouterForm::Bgp => top::bgp(bytes, words),
        RouterForm::Ospf => top::ospf(bytes, words),
        RouterForm::End => top::end(bytes, words),
        RouterForm::IpAddress => interface::ip_address(bytes, words, line),
        RouterForm::Cost => interface::cost(bytes, words),
        RouterForm::Shutdown => interface::shutdown(bytes, words),
        RouterForm::Base => bgp::base(bytes, words, line),
        RouterForm::Network => bgp::network(bytes, words, line),
        RouterForm::RemoteAs => bgp::remote_as(bytes, words),
        RouterForm::PeerShut => bgp::peer_shut(bytes, words),
        RouterForm::PeerSends => bgp::peer_sends(bytes, words),
        RouterForm::PeerList => bgp::peer_list(alloc, bytes, words, line),
        RouterForm::PeerMap => bgp::peer_map(alloc, bytes, words, line),
        RouterForm::Area => ospf::area(bytes, words, line),
        RouterForm::Passive => ospf::passive(alloc, bytes, words),
        RouterForm::NotPassive => ospf::not_passive(alloc, bytes, words),
    }
}

/// What a router line says in its scope.
///
/// `UnknownLine` where no head of the scope begins the line; `Unsupported` where its longest head is a
/// refused one, and for lines of lists and route maps, which are read elsewhere; `BadForm` where the
/// line does not fit the form of its head. `Memory` where memory ran out.
#[tactic(auto, unfolding(cfg_ast::specs::text::RouterForms::router_item_by))]
pub fn router_item(
    alloc: Global,
    bytes: &[u8],
    line: &Line,
    scope: Scope,
) -> Result<RouterItem, FormFault>
    requires { IsLineIn bytes.now line.now }
    ensures { Reads result (router_item_of scope line.now.number (texts bytes.now line.now.words)) }
{
    let words = line.words.as_slice();
    match router_class(bytes, words, scope) {
        None => Err(FormFault::UnknownLine),
        Some(HeadClass::Refused) => Err(FormFault::Unsupported),
        Some(HeadClass::Ignored) => Ok(RouterItem::Ignored),
        Some(HeadClass::Policy(_)) => Err(FormFault::Unsupported),
        Some(HeadClass::Router(form)) => read_form(alloc, bytes, words, line.number, form),
    }
}
