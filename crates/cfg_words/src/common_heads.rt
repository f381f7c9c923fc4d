//! The heads of the lines that texts have most of, told without a search in a table.

ghost use Rattle.std.specs.Prelude.{◌≡◌, [], Some, IfSome, IsTrue, drop, codes};
ghost use Rattle.std.specs.List.{AllByRecursion};
ghost use Rattle.cfg_ast.specs.text.Heads.{class_in, top_heads, interface_heads, bgp_heads, ospf_heads, entry_heads};
ghost use Rattle.cfg_ast.specs.text.Lines.{IsWordIn, texts};
ghost use Rattle.cfg_words.specs.Rows.{first_word};

use crate::words::text;
use cfg_ast::HeadClass::{Policy, Router};
use cfg_ast::{HeadClass, PolicyForm, RouterForm, Span};

// Byte by byte, since the words are short: then the compiler compares them without a call.
#[tactic(auto, using(crate::proofs::CommonHeads::alike_more, crate::proofs::CommonHeads::alike_all))]
fn is(word: &[u8], letters: &[u8]) -> bool
    ensures { IsTrue result → word.now ≡ letters.now }
{
    if word.len() != letters.len() {
        return false;
    }
    let mut place = 0;
    while place < letters.len() {
        if word[place] != letters[place] {
            return false;
        }
        place += 1;
    }
    true
}

fn first_is(bytes: &[u8], words: &[Span], letters: &[u8]) -> bool
    requires { AllByRecursion (IsWordIn bytes.now) words.now }
    ensures { IsTrue result → first_word (texts bytes.now words.now) ≡ letters.now }
{
    match words {
        [] => false,
        [word, ..] => is(text(bytes, *word), letters),
    }
}

fn second_is(bytes: &[u8], words: &[Span], letters: &[u8]) -> bool
    requires { AllByRecursion (IsWordIn bytes.now) words.now }
    ensures { IsTrue result → first_word (drop 1 (texts bytes.now words.now)) ≡ letters.now }
{
    match words {
        [] => false,
        [_, others @ ..] => first_is(bytes, others, letters),
    }
}

fn third_is(bytes: &[u8], words: &[Span], letters: &[u8]) -> bool
    requires { AllByRecursion (IsWordIn bytes.now) words.now }
    ensures { IsTrue result → first_word (drop 2 (texts bytes.now words.now)) ≡ letters.now }
{
    match words {
        [] => false,
        [_, others @ ..] => second_is(bytes, others, letters),
    }
}

fn fourth_is(bytes: &[u8], words: &[Span], letters: &[u8]) -> bool
    requires { AllByRecursion (IsWordIn bytes.now) words.now }
    ensures { IsTrue result → first_word (drop 3 (texts bytes.now words.now)) ≡ letters.now }
{
    match words {
        [] => false,
        [_, others @ ..] => third_is(bytes, others, letters),
    }
}

#[tactic(auto, using(crate::proofs::CommonHeads::drop_all))]
fn has_no_fourth(words: &[Span]) -> bool
    ensures { IsTrue result → drop 3 words.now ≡ [] }
{
    words.len() <= 3
}

// A process of routing.
#[tactic(auto, using(crate::proofs::CommonHeads::bgp_line, crate::proofs::CommonHeads::ospf_line))]
fn process_class(bytes: &[u8], words: &[Span]) -> Option<HeadClass>
    requires words { AllByRecursion (IsWordIn bytes.now) words.now }
    requires router { first_word (texts bytes.now words.now) ≡ codes "router" }
    ensures { IfSome result (λ class. class_in top_heads (texts bytes.now words.now) ≡ Some class) }
{
    if second_is(bytes, words, b"bgp") {
        return Some(Router(RouterForm::Bgp));
    }
    if second_is(bytes, words, b"ospf") {
        return Some(Router(RouterForm::Ospf));
    }
    None
}

// A line of a list.
#[tactic(auto, using(crate::proofs::CommonHeads::community_line, crate::proofs::CommonHeads::prefix_line))]
fn list_class(bytes: &[u8], words: &[Span]) -> Option<HeadClass>
    requires words { AllByRecursion (IsWordIn bytes.now) words.now }
    requires ip { first_word (texts bytes.now words.now) ≡ codes "ip" }
    ensures { IfSome result (λ class. class_in top_heads (texts bytes.now words.now) ≡ Some class) }
{
    if second_is(bytes, words, b"community-list") && third_is(bytes, words, b"standard") {
        return Some(Policy(PolicyForm::CommunityLine));
    }
    if second_is(bytes, words, b"prefix-list") && fourth_is(bytes, words, b"seq") {
        return Some(Policy(PolicyForm::PrefixEntry));
    }
    None
}

/// What the head of a top line says, if it is one of the most common.
#[tactic(auto, using(crate::proofs::CommonHeads::interface_line, crate::proofs::CommonHeads::hostname_line, crate::proofs::CommonHeads::end_line, crate::proofs::CommonHeads::map_line))]
pub(crate) fn top_class(bytes: &[u8], words: &[Span]) -> Option<HeadClass>
    requires { AllByRecursion (IsWordIn bytes.now) words.now }
    ensures { IfSome result (λ class. class_in top_heads (texts bytes.now words.now) ≡ Some class) }
{
    if first_is(bytes, words, b"interface") {
        return Some(Router(RouterForm::Interface));
    }
    if first_is(bytes, words, b"ip") {
        return list_class(bytes, words);
    }
    if first_is(bytes, words, b"route-map") {
        return Some(Policy(PolicyForm::MapHead));
    }
    if first_is(bytes, words, b"router") {
        return process_class(bytes, words);
    }
    if first_is(bytes, words, b"end") {
        return Some(Router(RouterForm::End));
    }
    if first_is(bytes, words, b"hostname") {
        return Some(Router(RouterForm::Hostname));
    }
    None
}

/// The same of a line of an interface.
#[tactic(auto, using(crate::proofs::CommonHeads::address_line, crate::proofs::CommonHeads::cost_line))]
pub(crate) fn interface_class(bytes: &[u8], words: &[Span]) -> Option<HeadClass>
    requires { AllByRecursion (IsWordIn bytes.now) words.now }
    ensures { IfSome result (λ class. class_in interface_heads (texts bytes.now words.now) ≡ Some class) }
{
    if !first_is(bytes, words, b"ip") {
        return None;
    }
    if second_is(bytes, words, b"address") {
        return Some(Router(RouterForm::IpAddress));
    }
    if second_is(bytes, words, b"ospf") && third_is(bytes, words, b"cost") {
        return Some(Router(RouterForm::Cost));
    }
    None
}

/// The same of a line of a BGP process.
#[tactic(auto, using(crate::proofs::CommonHeads::network_line, crate::proofs::CommonHeads::remote_line, crate::proofs::CommonHeads::peer_map_line, crate::proofs::CommonHeads::peer_list_line, crate::proofs::CommonHeads::sends_line))]
pub(crate) fn bgp_class(bytes: &[u8], words: &[Span]) -> Option<HeadClass>
    requires { AllByRecursion (IsWordIn bytes.now) words.now }
    ensures { IfSome result (λ class. class_in bgp_heads (texts bytes.now words.now) ≡ Some class) }
{
    if first_is(bytes, words, b"network") {
        return Some(Router(RouterForm::Network));
    }
    if !first_is(bytes, words, b"neighbor") {
        return None;
    }
    if third_is(bytes, words, b"remote-as") {
        return Some(Router(RouterForm::RemoteAs));
    }
    if third_is(bytes, words, b"route-map") {
        return Some(Router(RouterForm::PeerMap));
    }
    if third_is(bytes, words, b"prefix-list") {
        return Some(Router(RouterForm::PeerList));
    }
    if third_is(bytes, words, b"send-community") && has_no_fourth(words) {
        return Some(Router(RouterForm::PeerSends));
    }
    None
}

/// The same of a line of an OSPF process.
#[tactic(auto, using(crate::proofs::CommonHeads::area_line))]
pub(crate) fn ospf_class(bytes: &[u8], words: &[Span]) -> Option<HeadClass>
    requires { AllByRecursion (IsWordIn bytes.now) words.now }
    ensures { IfSome result (λ class. class_in ospf_heads (texts bytes.now words.now) ≡ Some class) }
{
    if first_is(bytes, words, b"network") {
        return Some(Router(RouterForm::Area));
    }
    None
}

/// The same of a line of an entry of a route map.
#[tactic(auto, using(crate::proofs::CommonHeads::match_line, crate::proofs::CommonHeads::set_line))]
pub(crate) fn entry_class(bytes: &[u8], words: &[Span]) -> Option<HeadClass>
    requires { AllByRecursion (IsWordIn bytes.now) words.now }
    ensures { IfSome result (λ class. class_in entry_heads (texts bytes.now words.now) ≡ Some class) }
{
    if !second_is(bytes, words, b"community") {
        return None;
    }
    if first_is(bytes, words, b"match") {
        return Some(Policy(PolicyForm::MatchComms));
    }
    if first_is(bytes, words, b"set") {
        return Some(Policy(PolicyForm::Comms));
    }
    None
}
