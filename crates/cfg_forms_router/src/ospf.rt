//! The lines of an OSPF process.

ghost use Rattle.std.specs.Prelude.{ℕ, ◌≡◌};
ghost use Rattle.std.specs.List.{AllByRecursion};
ghost use Rattle.cfg_ast.specs.text.Answers.{Reads};
ghost use Rattle.cfg_ast.specs.text.Lines.{IsWordIn, texts};
ghost use Rattle.cfg_ast.specs.declared.heads.RouterForm.TheVariants as form;
ghost use Rattle.cfg_ast.specs.text.RouterForms.{area_word, router_form};

use cfg_ast::FormFault::BadForm;
use cfg_ast::{AreaLine, FormFault, RouterItem, Span};
use cfg_words::{copy_of, is_interface_name, read_address, read_number, text};
use std::alloc::Global;

#[tactic(auto, unfolding(cfg_ast::specs::text::RouterForms::area_word))]
fn read_area(word: &[u8]) -> Option<u32>
    ensures { result ≡ area_word word.now }
{
    match read_number(word) {
        Some(area) => Some(area),
        None => read_address(word),
    }
}

#[tactic(auto, unfolding(cfg_ast::specs::text::RouterForms::router_form))]
pub(crate) fn area(bytes: &[u8], words: &[Span], line: u32) -> Result<RouterItem, FormFault>
    requires { AllByRecursion (IsWordIn bytes.now) words.now }
    ensures { result ≡ router_form form.Area line (texts bytes.now words.now) }
{
    let [_, address, wildcard, word, area] = words else {
        return Err(BadForm);
    };
    if text(bytes, *word) != b"area".as_slice() {
        return Err(BadForm);
    }
    let addr = read_address(text(bytes, *address)).ok_or(BadForm)?;
    let wild = read_address(text(bytes, *wildcard)).ok_or(BadForm)?;
    let area = read_area(text(bytes, *area)).ok_or(BadForm)?;
    Ok(RouterItem::Area(AreaLine {
        addr,
        wild,
        area,
        line,
    }))
}

#[tactic(auto, unfolding(cfg_ast::specs::text::RouterForms::router_form))]
pub(crate) fn passive(alloc: Global, bytes: &[u8], words: &[Span]) -> Result<RouterItem, FormFault>
    requires { AllByRecursion (IsWordIn bytes.now) words.now }
    ensures { (line : ℕ) → Reads result (router_form form.Passive line (texts bytes.now words.now)) }
{
    let [_, name] = words else {
        return Err(BadForm);
    };
    let name = text(bytes, *name);
    if name == b"default".as_slice() {
        return Ok(RouterItem::PassiveDefault);
    }
    if !is_interface_name(name) {
        return Err(BadForm);
    }
    Ok(RouterItem::Passive(copy_of(alloc, name)?))
}

#[tactic(auto, unfolding(cfg_ast::specs::text::RouterForms::router_form))]
pub(crate) fn not_passive(
    alloc: Global,
    bytes: &[u8],
    words: &[Span],
) -> Result<RouterItem, FormFault>
    requires { AllByRecursion (IsWordIn bytes.now) words.now }
    ensures { (line : ℕ) → Reads result (router_form form.NotPassive line (texts bytes.now words.now)) }
{
    let [_, _, name] = words else {
        return Err(BadForm);
    };
    let name = text(bytes, *name);
    if !is_interface_name(name) {
        return Err(BadForm);
    }
    Ok(RouterItem::NotPassive(copy_of(alloc, name)?))
}
