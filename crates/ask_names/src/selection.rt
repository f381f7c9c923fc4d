//! The classes that are asked, by their places.

ghost use Rattle.std.specs.Prelude.{◌≡◌, ◌+◌, ◌≤◌, length, IfSome};
ghost use Rattle.cfg_ast.specs.meaning.Classes.{has_prefix};
ghost use Rattle.ask_names.specs.Selection.{place_having, place_holding, names_one, numbers_between, selected};

use ask_words::Classes;
use base_kit::Prefix;
use cfg_ast::DestClass;
use cfg_words::cut_to;

/// Places in a list, up to the one before `upto`.
#[derive(Clone, Copy, Debug, PartialEq, Eq)]
pub struct Span {
    pub from: usize,
    pub upto: usize,
}

fn has_prefix(class: &DestClass, prefix: Prefix) -> bool
    ensures { result ≡ has_prefix class.now.prefixes prefix }
{
    class
        .prefixes
        .as_slice()
        .iter()
        .any(|p| prefix.addr() == p.addr() && prefix.len() == p.len())
}

// The place of the class that has a prefix.
#[tactic(auto, unfolding(crate::specs::Selection::place_having))]
fn place_having(all: &[DestClass], prefix: Prefix) -> Option<usize>
    ensures value { result ≡ place_having all.now prefix }
    ensures bound { IfSome result (λ place. place + 1 ≤ length all.now) }
{
    all.iter().position(|class| has_prefix(class, prefix))
}

// The place of the class that has the longest prefix with the address in it. Lengths are tried from 32
// down.
fn place_holding(all: &[DestClass], addr: u32) -> Option<usize>
    ensures value { result ≡ place_holding all.now 32 addr }
    ensures bound { IfSome result (λ place. place + 1 ≤ length all.now) }
{
    let mut len: u8 = 32;
    loop {
        if let Some(place) = place_having(all, cut_to(len, addr)) {
            return Some(place);
        }
        if len == 0 {
            return None;
        }
        len -= 1;
    }
}

// The classes from one number to another, counted from 1.
fn numbers_between(all: &[DestClass], from: u32, to: u32) -> Option<Span>
    ensures { result ≡ numbers_between all.now from to }
{
    let from = from as usize;
    let upto = to as usize;
    if 1 <= from && upto <= all.len() {
        Some(Span {
            from: from - 1,
            upto,
        })
    } else {
        None
    }
}

/// The places of the classes that are asked, where the network has them.
#[tactic(auto, unfolding(crate::specs::Selection::selected))]
pub fn selected(classes: Classes, all: &[DestClass]) -> Option<Span>
    ensures { result ≡ selected classes all.now }
{
    match classes {
        Classes::All => Some(Span {
            from: 0,
            upto: all.len(),
        }),
        Classes::Number(number) => numbers_between(all, number, number),
        Classes::Range(from, to) => numbers_between(all, from, to),
        Classes::Having(prefix) => {
            let place = place_having(all, prefix)?;
            Some(Span {
                from: place,
                upto: place + 1,
            })
        }
        Classes::Holding(addr) => {
            let place = place_holding(all, addr)?;
            Some(Span {
                from: place,
                upto: place + 1,
            })
        }
    }
}

/// Whether one class is named.
pub fn names_one(classes: Classes) -> bool
    ensures { result ≡ names_one classes }
{
    match classes {
        Classes::All => false,
        Classes::Number(_) => true,
        Classes::Range(_, _) => false,
        Classes::Having(_) => true,
        Classes::Holding(_) => true,
    }
}
