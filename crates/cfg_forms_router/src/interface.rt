//! The lines of an interface.

ghost use Rattle.std.specs.Prelude.{ℕ, ◌≡◌};
ghost use Rattle.std.specs.List.{AllByRecursion};
ghost use Rattle.cfg_ast.specs.text.Lines.{IsWordIn, texts};
ghost use Rattle.cfg_ast.specs.declared.heads.RouterForm.TheVariants as form;
ghost use Rattle.cfg_ast.specs.text.RouterForms.{router_form};

use crate::masks::read_mask;
use cfg_ast::FormFault::BadForm;
use cfg_ast::{Address, FormFault, RouterItem, Span};
use cfg_words::{read_address, read_between, text};

#[tactic(auto, unfolding(cfg_ast::specs::text::RouterForms::router_form))]
pub(crate) fn ip_address(bytes: &[u8], words: &[Span], line: u32) -> Result<RouterItem, FormFault>
    requires { AllByRecursion (IsWordIn bytes.now) words.now }
    ensures { result ≡ router_form form.IpAddress line (texts bytes.now words.now) }
{
    let [_, _, address, mask] = words else {
        return Err(BadForm);
    };
    let addr = read_address(text(bytes, *address)).ok_or(BadForm)?;
    let len = read_mask(text(bytes, *mask)).ok_or(BadForm)?;
    Ok(RouterItem::IpAddress(Address::new(addr, len, line)))
}

#[tactic(auto, unfolding(cfg_ast::specs::text::RouterForms::router_form))]
pub(crate) fn cost(bytes: &[u8], words: &[Span]) -> Result<RouterItem, FormFault>
    requires { AllByRecursion (IsWordIn bytes.now) words.now }
    ensures { (line : ℕ) → result ≡ router_form form.Cost line (texts bytes.now words.now) }
{
    let [_, _, _, number] = words else {
        return Err(BadForm);
    };
    let cost = read_between(text(bytes, *number), 1, 65535).ok_or(BadForm)?;
    Ok(RouterItem::Cost(cost as u16))
}

#[tactic(auto, unfolding(cfg_ast::specs::text::RouterForms::router_form))]
pub(crate) fn shutdown(bytes: &[u8], words: &[Span]) -> Result<RouterItem, FormFault>
    ensures { (line : ℕ) → result ≡ router_form form.Shutdown line (texts bytes.now words.now) }
{
    let [_] = words else {
        return Err(BadForm);
    };
    Ok(RouterItem::Shutdown)
}
