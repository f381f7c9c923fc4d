//! Subnets of one router that overlap.

ghost use Rattle.std.specs.Prelude.{◌≡◌, ◌≤◌, true, IfOk, OnOk, [], map, flat_map};
ghost use Rattle.std.specs.List.{list_any, IsAllAdjacentAnswer};
ghost use Rattle.cfg_ast.specs.meaning.RouterFaults.{address_line, repeats, overlap};
ghost use Rattle.cfg_check.specs.Items.{overlapping_in};
ghost use Rattle.cfg_check.specs.LeastLine.{least_line};
ghost use Rattle.cfg_check.specs.Blocks.{block_of, is_beyond, is_kept_at, lies_in_one, meets, HasLens, AddsBlock, AddsAround, AddsSubnet};

use crate::addresses::push_up_addresses;
use crate::hashing::hashing_of;
use crate::least::{lesser_line, with_line_if};
use base_kit::{NoMemory, NumSet};
use cfg_ast::{Address, Router};
use number_hashing::NumberHashing;
use std::alloc::Global;
use std::collections::HashSet;

// So many subnets are compared in pairs: to put them into sets takes longer.
const FEW: usize = 64;

/// The blocks of the subnets that were seen so far, each by its length and its number among the blocks
/// of that length.
#[derive(Drop)]
pub(crate) struct Blocks {
    /// The subnets themselves.
    pub(crate) subnets: HashSet<(u32, u32), NumberHashing>,
    /// All blocks in which one of them lies, of the lengths that subnets have.
    pub(crate) around: HashSet<(u32, u32), NumberHashing>,
}

// The lengths that the subnets have.
fn lens_of(alloc: Global, addresses: &[Address]) -> Result<NumSet, NoMemory>
    ensures { IfOk result (λ lens. HasLens lens addresses.now) }
{
    let mut lens = NumSet::new(alloc);
    for address in addresses {
        lens.add(u32::from(address.len()))?;
    }
    Ok(lens)
}

// The number of the block of that length in which the address lies.
fn block(address: Address, len: u32) -> u32
    requires { len ≤ 32 }
    ensures { result ≡ block_of len address }
{
    (u64::from(address.addr()) >> (32 - len)) as u32
}

// Whether one of the subnets is the block of that length in which the subnet lies.
fn is_kept_at(subnets: &HashSet<(u32, u32), NumberHashing>, address: Address, len: u32) -> bool
    ensures { result ≡ is_kept_at subnets.now address len }
{
    len <= u32::from(address.len()) && subnets.contains(&(len, block(address, len)))
}

// Whether the subnet lies in one of them.
fn lies_in_one(blocks: &Blocks, lens: &[u32], address: Address) -> bool
    ensures { result ≡ lies_in_one blocks.now lens.now address }
{
    lens.iter()
        .any(|len| is_kept_at(&blocks.subnets, address, *len))
}

// Whether the subnet overlaps one of them.
fn meets(blocks: &Blocks, lens: &[u32], address: Address) -> bool
    ensures { result ≡ meets blocks.now lens.now address }
{
    let len = u32::from(address.len());
    lies_in_one(blocks, lens, address) || blocks.around.contains(&(len, block(address, len)))
}

// Puts in the block of that length in which the subnet lies, if there is one.
fn keep_block(
    around: &mut HashSet<(u32, u32), NumberHashing>,
    address: Address,
    len: u32,
) -> Result<(), NoMemory>
    ensures { OnOk result (AddsBlock around.old around.new len address) }
{
    if len > u32::from(address.len()) {
        return Ok(());
    }
    around.insert((len, block(address, len)))?;
    Ok(())
}

// Puts in the blocks of these lengths in which the subnet lies.
fn keep_around(
    around: &mut HashSet<(u32, u32), NumberHashing>,
    lens: &[u32],
    address: Address,
) -> Result<(), NoMemory>
    ensures { OnOk result (AddsAround around.old around.new lens.now address) }
{
    for len in lens {
        keep_block(around, address, *len)?;
    }
    Ok(())
}

fn keep_subnet(
    subnets: &mut HashSet<(u32, u32), NumberHashing>,
    address: Address,
) -> Result<(), NoMemory>
    ensures { OnOk result (AddsSubnet subnets.old subnets.new address) }
{
    let len = u32::from(address.len());
    subnets.insert((len, block(address, len)))?;
    Ok(())
}

fn overlap(address: Address, other: Address) -> bool
    ensures { result ≡ overlap address other }
{
    let len = u32::from(address.len().min(other.len()));
    block(address, len) == block(other, len)
}

// Whether the address lies behind another, and their subnets do not overlap.
fn is_beyond(other: Address, address: Address) -> bool
    ensures { result ≡ is_beyond other address }
{
    other.addr() < address.addr() && !overlap(address, other)
}

// Whether each address lies beyond the one before it. Then it lies beyond all before it.
fn are_rising(addresses: &[Address]) -> bool
    ensures adjacent { IsAllAdjacentAnswer (λ a b r. r ≡ is_beyond a b) addresses.now result }
    ensures none { result ≡ true → repeats overlap addresses.now ≡ [] }
{
    addresses.is_sorted_by(|other, address| is_beyond(*other, *address))
}

fn overlaps_one(others: &[Address], address: Address) -> bool
    ensures { result ≡ list_any (overlap address) others.now }
{
    others.iter().any(|other| overlap(address, *other))
}

// The least line of an address whose subnet overlaps an earlier one, each pair compared.
fn overlapping_pairs(addresses: &[Address]) -> Option<u32>
    ensures { result ≡ least_line (map address_line (repeats overlap addresses.now)) }
{
    let mut least = None;
    for (place, address) in addresses.iter().enumerate() {
        let overlaps = overlaps_one(&addresses[..place], *address);
        least = with_line_if(least, overlaps, address.line());
    }
    least
}

// The same by the blocks in which the subnets lie, which have these lengths.
fn overlapping(alloc: Global, addresses: &[Address], lens: &[u32]) -> Result<Option<u32>, NoMemory>
    requires { HasLens lens.now addresses.now }
    ensures { IfOk result (λ line. line ≡ least_line (map address_line (repeats overlap addresses.now))) }
{
    let hashing = hashing_of(addresses);
    let mut seen = Blocks {
        subnets: HashSet::with_hasher(alloc, hashing),
        around: HashSet::with_hasher(alloc, hashing),
    };
    let mut least = None;
    for address in addresses {
        let overlaps = meets(&seen, lens, *address);
        least = with_line_if(least, overlaps, address.line());
        keep_subnet(&mut seen.subnets, *address)?;
        keep_around(&mut seen.around, lens, *address)?;
    }
    Ok(least)
}

// The same, each in the way that costs least.
fn least_overlapping(alloc: Global, addresses: &[Address]) -> Result<Option<u32>, NoMemory>
    ensures { IfOk result (λ line. line ≡ least_line (map address_line (repeats overlap addresses.now))) }
{
    if are_rising(addresses) {
        return Ok(None);
    }
    if addresses.len() <= FEW {
        return Ok(overlapping_pairs(addresses));
    }
    let lens = lens_of(alloc, addresses)?;
    overlapping(alloc, addresses, lens.as_slice())
}

fn overlapping_of(alloc: Global, router: &Router) -> Result<Option<u32>, NoMemory>
    ensures { IfOk result (λ line. line ≡ least_line (map address_line (overlapping_in router.now))) }
{
    let mut addresses = Vec::new(alloc);
    push_up_addresses(&mut addresses, router.interfaces.as_slice())?;
    least_overlapping(alloc, addresses.as_slice())
}

/// The least `ip address` line of an up interface whose subnet overlaps that of an earlier up
/// interface of its router.
pub(crate) fn overlapping_interfaces(
    alloc: Global,
    routers: &[Router],
) -> Result<Option<u32>, NoMemory>
    ensures { IfOk result (λ line. line ≡ least_line (map address_line (flat_map overlapping_in routers.now))) }
{
    let mut least = None;
    for router in routers {
        least = lesser_line(least, overlapping_of(alloc, router)?);
    }
    Ok(least)
}
