//! The prefix lists of a network that say different things.

ghost use Rattle.std.specs.Prelude.{◌≡◌, IfOk, OnOk, map, flat_map};
ghost use Rattle.cfg_ast.specs.meaning.Classes.{lists_on};
ghost use Rattle.dest_classes.specs.Lists.{rule_of, rules_of, AreSaid, with_list, different, lists_asked};

use base_kit::NoMemory;
use cfg_ast::{Network, PrefixEntry, PrefixList};
use number_hashing::{NumberDigest, NumberHashing};
use std::alloc::Global;
use std::collections::HashSet;

/// What an entry of a prefix list says, without its number and its line.
#[derive(Clone, Copy, PartialEq, Eq, Hash)]
pub struct Rule {
    pub permit: bool,
    pub addr: u32,
    pub len: u8,
    pub ge: Option<u8>,
    pub le: Option<u8>,
}

fn rule_of(entry: &PrefixEntry) -> Rule
    ensures { result ≡ rule_of entry.now }
{
    Rule {
        permit: entry.permit,
        addr: entry.prefix.addr(),
        len: entry.prefix.len(),
        ge: entry.ge,
        le: entry.le,
    }
}

fn rules_of(alloc: Global, list: &PrefixList) -> Result<Vec<Rule>, NoMemory>
    ensures { IfOk result (λ v. v.items ≡ rules_of list.now) }
{
    let rules = list
        .entries
        .as_slice()
        .iter()
        .map(|entry| rule_of(entry))
        .collect(alloc)?;
    Ok(rules)
}

// Puts a list among those to be asked, unless one of them says the same.
fn ask<'a>(
    alloc: Global,
    said: &mut HashSet<Vec<Rule>, NumberHashing>,
    asked: &mut Vec<&'a PrefixList>,
    list: &'a PrefixList,
) -> Result<(), NoMemory>
    requires { AreSaid said.old (map (λ list. list.now) asked.old.items) }
    ensures asked { OnOk result (map (λ list. list.now) asked.new.items ≡ with_list list.now (map (λ list. list.now) asked.old.items)) }
    ensures said { OnOk result (AreSaid said.new (map (λ list. list.now) asked.new.items)) }
{
    if said.insert(rules_of(alloc, list)?)? {
        asked.push(list)?;
    }
    Ok(())
}

fn add_list(numbers: &mut NumberDigest, list: &PrefixList) {
    numbers.add(&list.entries.len());
    for entry in list.entries.as_slice() {
        numbers.add(&rule_of(entry));
    }
}

// The hash for a table of what the lists say.
fn hashing_of(lists: &[&PrefixList]) -> NumberHashing {
    let mut numbers = NumberDigest::for_count(lists.len());
    for list in lists {
        add_list(&mut numbers, list);
    }
    numbers.hashing()
}

// The lists: of several that say the same, only the first.
fn different<'a>(alloc: Global, lists: &[&'a PrefixList]) -> Result<Vec<&'a PrefixList>, NoMemory>
    ensures { IfOk result (λ v. map (λ list. list.now) v.items ≡ different (map (λ list. list.now) lists.now)) }
{
    let mut said = HashSet::with_hasher(alloc, hashing_of(lists));
    let mut asked = Vec::new(alloc);
    for list in lists {
        ask(alloc, &mut said, &mut asked, list)?;
    }
    Ok(asked)
}

// All prefix lists of all routers.
fn lists_of<'a>(alloc: Global, net: &'a Network) -> Result<Vec<&'a PrefixList>, NoMemory>
    ensures { IfOk result (λ v. map (λ list. list.now) v.items ≡ flat_map lists_on net.now.routers) }
{
    let mut lists = Vec::new(alloc);
    for router in net.routers.as_slice() {
        for list in router.prefix_lists.as_slice() {
            lists.push(list)?;
        }
    }
    Ok(lists)
}

/// The prefix lists of all routers: of several that say the same, only the first.
pub fn lists_asked<'a>(alloc: Global, net: &'a Network) -> Result<Vec<&'a PrefixList>, NoMemory>
    ensures { IfOk result (λ v. map (λ list. list.now) v.items ≡ lists_asked net.now) }
{
    let lists = lists_of(alloc, net)?;
    let asked = different(alloc, lists.as_slice())?;
    Ok(asked)
}
