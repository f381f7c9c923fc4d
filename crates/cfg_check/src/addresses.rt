//! Addresses that two up interfaces have.

ghost use Rattle.std.specs.Prelude.{◌≡◌, ◌++◌, true, IfOk, OnOk, [], map, filter_map, flat_map, nat_lt};
ghost use Rattle.std.specs.List.{IsAllAdjacentAnswer};
ghost use Rattle.cfg_ast.specs.meaning.Topology.{up_address};
ghost use Rattle.cfg_ast.specs.meaning.RouterFaults.{address_line, repeats, up_addresses_of};
ghost use Rattle.cfg_check.specs.Items.{address_number, same_address};
ghost use Rattle.cfg_check.specs.LeastLine.{least_line};

use crate::gather::push_some;
use crate::hashing::hashing_of;
use crate::least::with_line_if;
use base_kit::NoMemory;
use cfg_ast::{Address, Interface, Router};
use number_hashing::NumberHashing;
use std::alloc::Global;
use std::collections::HashSet;

/// Puts the addresses of all up interfaces last, in order.
pub(crate) fn push_up_addresses(
    found: &mut Vec<Address>,
    interfaces: &[Interface],
) -> Result<(), NoMemory>
    ensures { OnOk result (found.new.items ≡ found.old.items ++ filter_map up_address interfaces.now) }
{
    for interface in interfaces {
        push_some(found, interface.up_address())?;
    }
    Ok(())
}

fn up_addresses(alloc: Global, routers: &[Router]) -> Result<Vec<Address>, NoMemory>
    ensures { IfOk result (λ found. found.items ≡ flat_map up_addresses_of routers.now) }
{
    let mut found = Vec::new(alloc);
    for router in routers {
        push_up_addresses(&mut found, router.interfaces.as_slice())?;
    }
    Ok(found)
}

fn repeated_address(
    alloc: Global,
    hashing: NumberHashing,
    addresses: &[Address],
) -> Result<Option<u32>, NoMemory>
    ensures { IfOk result (λ line. line ≡ least_line (map address_line (repeats same_address addresses.now))) }
{
    let mut seen: HashSet<u32, NumberHashing> = HashSet::with_hasher(alloc, hashing);
    let mut least = None;
    for address in addresses {
        let is_new = seen.insert(address.addr())?;
        least = with_line_if(least, !is_new, address.line());
    }
    Ok(least)
}

fn numbers_of(alloc: Global, addresses: &[Address]) -> Result<Vec<u32>, NoMemory>
    ensures { IfOk result (λ numbers. numbers.items ≡ map address_number addresses.now) }
{
    let mut numbers = Vec::new(alloc);
    for address in addresses {
        numbers.push(address.addr())?;
    }
    Ok(numbers)
}

// Whether each number is less than the next.
fn ascend(numbers: &[u32]) -> bool
    ensures { IsAllAdjacentAnswer (λ m n r. r ≡ nat_lt m n) numbers.now result }
{
    numbers.is_sorted_by(|number, next| *number < *next)
}

// Whether all addresses differ, by their order.
fn all_differ(alloc: Global, addresses: &[Address]) -> Result<bool, NoMemory>
    ensures { IfOk result (λ differ. differ ≡ true → repeats same_address addresses.now ≡ []) }
{
    let mut numbers = numbers_of(alloc, addresses)?;
    numbers.sort()?;
    Ok(ascend(numbers.as_slice()))
}

// The same as `repeated_address`. Only where two addresses are the same is a table made.
fn least_repeated(alloc: Global, addresses: &[Address]) -> Result<Option<u32>, NoMemory>
    ensures { IfOk result (λ line. line ≡ least_line (map address_line (repeats same_address addresses.now))) }
{
    if all_differ(alloc, addresses)? {
        return Ok(None);
    }
    repeated_address(alloc, hashing_of(addresses), addresses)
}

/// The least `ip address` line of an up interface whose address an earlier up interface has.
pub(crate) fn shared_address(alloc: Global, routers: &[Router]) -> Result<Option<u32>, NoMemory>
    ensures { IfOk result (λ line. line ≡ least_line (map address_line (repeats same_address (flat_map up_addresses_of routers.now)))) }
{
    let addresses = up_addresses(alloc, routers)?;
    least_repeated(alloc, addresses.as_slice())
}
