//! The top lines that open stanzas.

ghost use Rattle.std.specs.Prelude.{ℕ, ◌≡◌};
ghost use Rattle.std.specs.List.{AllByRecursion};
ghost use Rattle.cfg_ast.specs.text.Answers.{Reads};
ghost use Rattle.cfg_ast.specs.text.Lines.{IsWordIn, texts};
ghost use Rattle.cfg_ast.specs.declared.heads.RouterForm.TheVariants as form;
ghost use Rattle.cfg_ast.specs.text.RouterForms.{router_form};

use cfg_ast::FormFault::BadForm;
use cfg_ast::{FormFault, RouterItem, Span};
use cfg_words::{copy_of, is_interface_name, is_router_name, read_as_number, read_between, text};
use std::alloc::Global;

#[tactic(auto, unfolding(cfg_ast::specs::text::RouterForms::router_form))]
pub(crate) fn hostname(alloc: Global, bytes: &[u8], words: &[Span]) -> Result<RouterItem, FormFault>
    requires { AllByRecursion (IsWordIn bytes.now) words.now }
    ensures { (line : ℕ) → Reads result (router_form form.Hostname line (texts bytes.now words.now)) }
{
    let [_, name] = words else {
        return Err(BadForm);
    };
    let name = text(bytes, *name);
    if !is_router_name(name) {
        return Err(BadForm);
    }
    Ok(RouterItem::Hostname(copy_of(alloc, name)?))
}

#[tactic(auto, unfolding(cfg_ast::specs::text::RouterForms::router_form))]
pub(crate) fn interface(
    alloc: Global,
    bytes: &[u8],
    words: &[Span],
) -> Result<RouterItem, FormFault>
    requires { AllByRecursion (IsWordIn bytes.now) words.now }
    ensures { (line : ℕ) → Reads result (router_form form.Interface line (texts bytes.now words.now)) }
{
    let [_, name] = words else {
        return Err(BadForm);
    };
    let name = text(bytes, *name);
    if !is_interface_name(name) {
        return Err(BadForm);
    }
    Ok(RouterItem::Interface(copy_of(alloc, name)?))
}

#[tactic(auto, unfolding(cfg_ast::specs::text::RouterForms::router_form))]
pub(crate) fn bgp(bytes: &[u8], words: &[Span]) -> Result<RouterItem, FormFault>
    requires { AllByRecursion (IsWordIn bytes.now) words.now }
    ensures { (line : ℕ) → result ≡ router_form form.Bgp line (texts bytes.now words.now) }
{
    let [_, _, number] = words else {
        return Err(BadForm);
    };
    let number = read_as_number(text(bytes, *number)).ok_or(BadForm)?;
    Ok(RouterItem::Bgp(number))
}

#[tactic(auto, unfolding(cfg_ast::specs::text::RouterForms::router_form))]
pub(crate) fn ospf(bytes: &[u8], words: &[Span]) -> Result<RouterItem, FormFault>
    requires { AllByRecursion (IsWordIn bytes.now) words.now }
    ensures { (line : ℕ) → result ≡ router_form form.Ospf line (texts bytes.now words.now) }
{
    let [_, _, number] = words else {
        return Err(BadForm);
    };
    let number = read_between(text(bytes, *number), 1, 65535).ok_or(BadForm)?;
    Ok(RouterItem::Ospf(number))
}

#[tactic(auto, unfolding(cfg_ast::specs::text::RouterForms::router_form))]
pub(crate) fn end(bytes: &[u8], words: &[Span]) -> Result<RouterItem, FormFault>
    ensures { (line : ℕ) → result ≡ router_form form.End line (texts bytes.now words.now) }
{
    let [_] = words else {
        return Err(BadForm);
    };
    Ok(RouterItem::End)
}
