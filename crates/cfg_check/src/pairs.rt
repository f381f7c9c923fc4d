//! The number of adjacent pairs in OSPF.

ghost use Rattle.std.specs.Prelude.{◌≡◌, ◌≤◌, IfOk, OnOk, map, filter_map, length, []};
ghost use Rattle.cfg_ast.specs.meaning.RouterFaults.{active_addresses_of, added_after, exceeding};
ghost use Rattle.cfg_check.specs.Items.{active_address_on};
ghost use Rattle.cfg_check.specs.LeastLine.{least_line};
ghost use Rattle.buckets.specs.Buckets.{bucket};
ghost use Rattle.cfg_check.specs.Pairs.{subnet_pair, counted, sum_or_line, AddsAll};

use crate::area_index::AreaIndex;
use crate::gather::push_some;
use base_kit::NoMemory;
use buckets::{Index, items_at, push_at};
use cfg_ast::{Address, Interface, Router};
use number_hashing::NumberHashing;
use std::alloc::Global;
use std::collections::HashMap;

const MOST_PAIRS: u64 = 1048576;

fn subnet_pair(address: Address) -> (u32, u32)
    ensures { result ≡ subnet_pair address }
{
    let subnet = address.subnet();
    (u32::from(subnet.len()), subnet.addr())
}

fn active_addresses_in(
    alloc: Global,
    index: &AreaIndex,
    interfaces: &[Interface],
) -> Result<Vec<Address>, NoMemory>
    ensures { IfOk result (λ found. found.items ≡ filter_map (active_address_on index.now.router.now) interfaces.now) }
{
    let mut found = Vec::new(alloc);
    for interface in interfaces {
        push_some(&mut found, index.active_address(interface))?;
    }
    Ok(found)
}

fn active_addresses(alloc: Global, router: &Router) -> Result<Vec<Address>, NoMemory>
    ensures { IfOk result (λ found. found.items ≡ active_addresses_of router.now) }
{
    let index = AreaIndex::of(alloc, router)?;
    let found = active_addresses_in(alloc, &index, router.interfaces.as_slice())?;
    Ok(found)
}

// Puts the addresses in, each behind those of its subnet.
fn keep(alloc: Global, seen: &mut Index<Address>, addresses: &[Address]) -> Result<(), NoMemory>
    ensures { OnOk result (AddsAll seen.old seen.new addresses.now) }
{
    for address in addresses {
        push_at(alloc, seen, subnet_pair(*address), *address)?;
    }
    Ok(())
}

// How many addresses of its subnet were seen.
fn count(seen: &Index<Address>, address: Address) -> usize
    ensures { result ≡ length (bucket seen.now (subnet_pair address)) }
{
    items_at(seen, subnet_pair(address)).len()
}

// The sum with the pairs of these addresses, or the line at which it exceeds the limit.
fn sum_of_pairs(seen: &Index<Address>, addresses: &[Address], sum: u64) -> Result<u64, u32>
    requires { sum ≤ 1048576 }
    ensures sum { result ≡ sum_or_line 1048576 sum (map (counted seen.now) addresses.now) }
    ensures bound { IfOk result (λ more. more ≤ 1048576) }
{
    let mut sum = sum;
    for address in addresses {
        let pairs = count(seen, *address) as u64;
        if MOST_PAIRS - sum < pairs {
            return Err(address.line());
        }
        sum += pairs;
    }
    Ok(sum)
}

/// The `ip address` line at which the number of OSPF adjacent pairs first exceeds the limit. Subnets are
/// hashed as given.
pub(crate) fn too_many_links(
    alloc: Global,
    hashing: NumberHashing,
    routers: &[Router],
) -> Result<Option<u32>, NoMemory>
    ensures { IfOk result (λ line. line ≡ least_line (exceeding 1048576 0 (added_after [] routers.now))) }
{
    let mut seen: Index<Address> = HashMap::with_hasher(alloc, hashing);
    let mut sum = 0;
    for router in routers {
        let addresses = active_addresses(alloc, router)?;
        match sum_of_pairs(&seen, addresses.as_slice(), sum) {
            Ok(more) => sum = more,
            Err(line) => return Ok(Some(line)),
        }
        keep(alloc, &mut seen, addresses.as_slice())?;
    }
    Ok(None)
}
