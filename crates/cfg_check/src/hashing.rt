//! How tables of addresses are hashed.

use cfg_ast::{Address, Router};
use number_hashing::{NumberDigest, NumberHashing};

/// The hash for a table of these addresses.
pub(crate) fn hashing_of(addresses: &[Address]) -> NumberHashing {
    let mut numbers = NumberDigest::for_count(addresses.len());
    for address in addresses {
        numbers.add_pair(address.addr(), u32::from(address.len()));
    }
    numbers.hashing()
}

// How many interfaces the routers with an OSPF process have.
fn interface_count(routers: &[Router]) -> usize {
    let mut count: usize = 0;
    for router in routers {
        if router.ospf.is_some() {
            count = count.saturating_add(router.interfaces.len());
        }
    }
    count
}

fn add_addresses(numbers: &mut NumberDigest, router: &Router) {
    for interface in router.interfaces.as_slice() {
        if let Some(address) = interface.up_address() {
            numbers.add_pair(address.addr(), u32::from(address.len()));
        }
    }
}

/// The hash for a table of the addresses in the OSPF area. Routers without an OSPF process have none there.
pub(crate) fn hashing_of_area(routers: &[Router]) -> NumberHashing {
    let mut numbers = NumberDigest::for_count(interface_count(routers));
    for router in routers {
        if router.ospf.is_some() {
            add_addresses(&mut numbers, router);
        }
    }
    numbers.hashing()
}
