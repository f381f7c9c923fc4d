//! The lines of a BGP process.

ghost use Rattle.std.specs.Prelude.{ℕ, ◌≡◌, ◌≤◌};
ghost use Rattle.std.specs.List.{AllByRecursion};
ghost use Rattle.cfg_ast.specs.text.Answers.{Reads};
ghost use Rattle.cfg_ast.specs.text.Lines.{IsWordIn, texts};
ghost use Rattle.cfg_ast.specs.declared.heads.RouterForm.TheVariants as form;
ghost use Rattle.cfg_ast.specs.text.RouterForms.{net_line, sends_standard, is_inward, peer_item, router_form};

use crate::masks::{classful_len, read_mask};
use cfg_ast::FormFault::BadForm;
use cfg_ast::{Base, FormFault, NetLine, RouterItem, Span};
use cfg_words::{exact_prefix, named, read_address, read_as_number, read_number, text};
use std::alloc::Global;

#[tactic(auto, unfolding(cfg_ast::specs::text::RouterForms::router_form))]
pub(crate) fn base(bytes: &[u8], words: &[Span], line: u32) -> Result<RouterItem, FormFault>
    requires { AllByRecursion (IsWordIn bytes.now) words.now }
    ensures { result ≡ router_form form.Base line (texts bytes.now words.now) }
{
    let [_, _, _, number] = words else {
        return Err(BadForm);
    };
    let value = read_number(text(bytes, *number)).ok_or(BadForm)?;
    Ok(RouterItem::Base(Base { value, line }))
}

#[tactic(auto, unfolding(cfg_ast::specs::text::RouterForms::net_line))]
fn net_line(addr: u32, len: u8, line: u32) -> Result<RouterItem, FormFault>
    requires { len ≤ 32 }
    ensures { result ≡ net_line line addr len }
{
    let prefix = exact_prefix(addr, len).ok_or(BadForm)?;
    Ok(RouterItem::Network(NetLine { prefix, line }))
}

#[tactic(auto, unfolding(cfg_ast::specs::text::RouterForms::router_form))]
pub(crate) fn network(bytes: &[u8], words: &[Span], line: u32) -> Result<RouterItem, FormFault>
    requires { AllByRecursion (IsWordIn bytes.now) words.now }
    ensures { result ≡ router_form form.Network line (texts bytes.now words.now) }
{
    if let [_, address] = words {
        let addr = read_address(text(bytes, *address)).ok_or(BadForm)?;
        let len = classful_len(addr).ok_or(BadForm)?;
        return net_line(addr, len, line);
    }
    let [_, address, word, mask] = words else {
        return Err(BadForm);
    };
    if text(bytes, *word) != b"mask".as_slice() {
        return Err(BadForm);
    }
    let addr = read_address(text(bytes, *address)).ok_or(BadForm)?;
    let len = read_mask(text(bytes, *mask)).ok_or(BadForm)?;
    net_line(addr, len, line)
}

#[tactic(auto, unfolding(cfg_ast::specs::text::RouterForms::router_form))]
pub(crate) fn remote_as(bytes: &[u8], words: &[Span]) -> Result<RouterItem, FormFault>
    requires { AllByRecursion (IsWordIn bytes.now) words.now }
    ensures { (line : ℕ) → result ≡ router_form form.RemoteAs line (texts bytes.now words.now) }
{
    let [_, address, _, number] = words else {
        return Err(BadForm);
    };
    let addr = read_address(text(bytes, *address)).ok_or(BadForm)?;
    let number = read_as_number(text(bytes, *number)).ok_or(BadForm)?;
    Ok(RouterItem::RemoteAs { addr, number })
}

#[tactic(auto, unfolding(cfg_ast::specs::text::RouterForms::router_form))]
pub(crate) fn peer_shut(bytes: &[u8], words: &[Span]) -> Result<RouterItem, FormFault>
    requires { AllByRecursion (IsWordIn bytes.now) words.now }
    ensures { (line : ℕ) → result ≡ router_form form.PeerShut line (texts bytes.now words.now) }
{
    let [_, address, _] = words else {
        return Err(BadForm);
    };
    let addr = read_address(text(bytes, *address)).ok_or(BadForm)?;
    Ok(RouterItem::PeerShut(addr))
}

#[tactic(auto, unfolding(cfg_ast::specs::text::RouterForms::sends_standard))]
fn sends_standard(word: &[u8]) -> bool
    ensures { result ≡ sends_standard word.now }
{
    word == b"standard".as_slice() || word == b"both".as_slice()
}

#[tactic(auto, unfolding(cfg_ast::specs::text::RouterForms::router_form))]
pub(crate) fn peer_sends(bytes: &[u8], words: &[Span]) -> Result<RouterItem, FormFault>
    requires { AllByRecursion (IsWordIn bytes.now) words.now }
    ensures { (line : ℕ) → result ≡ router_form form.PeerSends line (texts bytes.now words.now) }
{
    if let [_, address, _] = words {
        let addr = read_address(text(bytes, *address)).ok_or(BadForm)?;
        return Ok(RouterItem::PeerSends(addr));
    }
    let [_, address, _, word] = words else {
        return Err(BadForm);
    };
    if !sends_standard(text(bytes, *word)) {
        return Err(BadForm);
    }
    let addr = read_address(text(bytes, *address)).ok_or(BadForm)?;
    Ok(RouterItem::PeerSends(addr))
}

#[tactic(auto, unfolding(cfg_ast::specs::text::RouterForms::is_inward))]
fn is_inward(word: &[u8]) -> Option<bool>
    ensures { result ≡ is_inward word.now }
{
    match word {
        b"in" => Some(true),
        b"out" => Some(false),
        _ => None,
    }
}

#[tactic(auto, unfolding(cfg_ast::specs::text::RouterForms::router_form, cfg_ast::specs::text::RouterForms::peer_item))]
pub(crate) fn peer_list(
    alloc: Global,
    bytes: &[u8],
    words: &[Span],
    line: u32,
) -> Result<RouterItem, FormFault>
    requires { AllByRecursion (IsWordIn bytes.now) words.now }
    ensures { Reads result (router_form form.PeerList line (texts bytes.now words.now)) }
{
    let [_, address, _, name, way] = words else {
        return Err(BadForm);
    };
    let addr = read_address(text(bytes, *address)).ok_or(BadForm)?;
    let inward = is_inward(text(bytes, *way)).ok_or(BadForm)?;
    let list = named(alloc, text(bytes, *name), line)?;
    Ok(RouterItem::PeerList { addr, list, inward })
}

#[tactic(auto, unfolding(cfg_ast::specs::text::RouterForms::router_form, cfg_ast::specs::text::RouterForms::peer_item))]
pub(crate) fn peer_map(
    alloc: Global,
    bytes: &[u8],
    words: &[Span],
    line: u32,
) -> Result<RouterItem, FormFault>
    requires { AllByRecursion (IsWordIn bytes.now) words.now }
    ensures { Reads result (router_form form.PeerMap line (texts bytes.now words.now)) }
{
    let [_, address, _, name, way] = words else {
        return Err(BadForm);
    };
    let addr = read_address(text(bytes, *address)).ok_or(BadForm)?;
    let inward = is_inward(text(bytes, *way)).ok_or(BadForm)?;
    let map = named(alloc, text(bytes, *name), line)?;
    Ok(RouterItem::PeerMap { addr, map, inward })
}
