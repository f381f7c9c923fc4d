//! The words of a question.

ghost use Rattle.std.specs.Prelude.{◌≡◌, IfOk, map};
ghost use Rattle.cfg_ast.specs.text.Words.{is_reserved};
ghost use Rattle.ask_words.specs.Words.{short_number};
ghost use Rattle.ask_words.specs.Questions.{plain_community, about_routers, about_number, about_way, question_of, question_of_two, question_of_three};

use crate::classes::short_number;
use crate::names::routers_in;
use crate::request::AskedOf;
use base_kit::NoMemory;
use cfg_words::read_community;
use std::alloc::Global;

fn is_reserved(community: u32) -> bool
    ensures { result ≡ is_reserved community }
{
    community == 0 || community >= 4_294_901_760
}

// A community that is not well known.
#[tactic(auto, unfolding(crate::specs::Questions::plain_community))]
fn plain_community(word: &[u8]) -> Option<u32>
    ensures { result ≡ plain_community word.now }
{
    let community = read_community(word)?;
    if is_reserved(community) {
        None
    } else {
        Some(community)
    }
}

fn route(alloc: Global, word: &[u8]) -> Result<Option<AskedOf>, NoMemory>
    ensures { IfOk result (λ question. question ≡ about_routers AskedOf.Route word.now) }
{
    match routers_in(alloc, word)? {
        Some(routers) => Ok(Some(AskedOf::Route(routers))),
        None => Ok(None),
    }
}

fn isolated(alloc: Global, word: &[u8]) -> Result<Option<AskedOf>, NoMemory>
    ensures { IfOk result (λ question. question ≡ about_routers AskedOf.Isolated word.now) }
{
    match routers_in(alloc, word)? {
        Some(routers) => Ok(Some(AskedOf::Isolated(routers))),
        None => Ok(None),
    }
}

fn hops(alloc: Global, by: &[u8], word: &[u8]) -> Result<Option<AskedOf>, NoMemory>
    ensures { IfOk result (λ question. question ≡ about_number AskedOf.Hops (short_number by.now) word.now) }
{
    let Some(most) = short_number(by) else {
        return Ok(None);
    };
    match routers_in(alloc, word)? {
        Some(routers) => Ok(Some(AskedOf::Hops(most, routers))),
        None => Ok(None),
    }
}

fn through(alloc: Global, way: &[u8], word: &[u8]) -> Result<Option<AskedOf>, NoMemory>
    ensures { IfOk result (λ question. question ≡ about_way AskedOf.Through way.now word.now) }
{
    let Some(way) = routers_in(alloc, way)? else {
        return Ok(None);
    };
    match routers_in(alloc, word)? {
        Some(routers) => Ok(Some(AskedOf::Through(way, routers))),
        None => Ok(None),
    }
}

fn avoids(alloc: Global, way: &[u8], word: &[u8]) -> Result<Option<AskedOf>, NoMemory>
    ensures { IfOk result (λ question. question ≡ about_way AskedOf.Avoids way.now word.now) }
{
    let Some(way) = routers_in(alloc, way)? else {
        return Ok(None);
    };
    match routers_in(alloc, word)? {
        Some(routers) => Ok(Some(AskedOf::Avoids(way, routers))),
        None => Ok(None),
    }
}

fn carries(alloc: Global, by: &[u8], word: &[u8]) -> Result<Option<AskedOf>, NoMemory>
    ensures { IfOk result (λ question. question ≡ about_number AskedOf.Carries (plain_community by.now) word.now) }
{
    let Some(community) = plain_community(by) else {
        return Ok(None);
    };
    match routers_in(alloc, word)? {
        Some(routers) => Ok(Some(AskedOf::Carries(community, routers))),
        None => Ok(None),
    }
}

fn lacks(alloc: Global, by: &[u8], word: &[u8]) -> Result<Option<AskedOf>, NoMemory>
    ensures { IfOk result (λ question. question ≡ about_number AskedOf.Lacks (plain_community by.now) word.now) }
{
    let Some(community) = plain_community(by) else {
        return Ok(None);
    };
    match routers_in(alloc, word)? {
        Some(routers) => Ok(Some(AskedOf::Lacks(community, routers))),
        None => Ok(None),
    }
}

fn of_two(alloc: Global, what: &[u8], word: &[u8]) -> Result<Option<AskedOf>, NoMemory>
    ensures { IfOk result (λ question. question ≡ question_of_two what.now word.now) }
{
    if what == b"route".as_slice() {
        return route(alloc, word);
    }
    if what == b"isolated".as_slice() {
        return isolated(alloc, word);
    }
    Ok(None)
}

fn of_three(alloc: Global, what: &[u8], by: &[u8], word: &[u8]) -> Result<Option<AskedOf>, NoMemory>
    ensures { IfOk result (λ question. question ≡ question_of_three what.now by.now word.now) }
{
    if what == b"hops".as_slice() {
        return hops(alloc, by, word);
    }
    if what == b"through".as_slice() {
        return through(alloc, by, word);
    }
    if what == b"avoids".as_slice() {
        return avoids(alloc, by, word);
    }
    if what == b"carries".as_slice() {
        return carries(alloc, by, word);
    }
    if what == b"lacks".as_slice() {
        return lacks(alloc, by, word);
    }
    Ok(None)
}

/// The question that the words ask.
#[tactic(auto, unfolding(crate::specs::Questions::question_of))]
pub(crate) fn question_in(alloc: Global, words: &[&[u8]]) -> Result<Option<AskedOf>, NoMemory>
    ensures { IfOk result (λ question. question ≡ question_of (map (λ word. word.now) words.now)) }
{
    match words {
        [what, word] => of_two(alloc, what, word),
        [what, by, word] => of_three(alloc, what, by, word),
        _ => Ok(None),
    }
}
