//! The addresses of the links, and the prefixes that meet them.

ghost use Rattle.std.specs.Prelude.{◌≡◌, find, option_copied};
ghost use Rattle.std.specs.Option.{option_and_then, unwrap_or};
ghost use Rattle.cfg_ast.specs.meaning.Classes.{is_up_in};
ghost use Rattle.config_emit.specs.Pool.{meets_pool, line_of_address, line_on, line_at, pool_line};

use base_kit::Prefix;
use cfg_ast::{DestClass, Interface, Network, Origin, Router};

/// The first address of the links, 100.64.0.0.
pub(crate) const POOL: u32 = 1681915904;

fn meets_pool(p: Prefix) -> bool
    ensures { result ≡ meets_pool p }
{
    let behind = 32 - p.len().min(10);
    u64::from(p.addr()) >> behind == u64::from(POOL) >> behind
}

/// Whether the interface is up and its subnet is that prefix.
pub(crate) fn is_up_in(p: Prefix, interface: &Interface) -> bool
    ensures { result ≡ is_up_in p interface.now }
{
    match interface.up_address() {
        Some(address) => {
            let subnet = address.subnet();
            p.addr() == subnet.addr() && p.len() == subnet.len()
        }
        None => false,
    }
}

fn address_line(interface: &Interface) -> Option<u32>
    ensures { result ≡ line_of_address interface.now }
{
    match &interface.address {
        Some(address) => Some(address.line()),
        None => None,
    }
}

fn find_in(p: Prefix, interfaces: &[Interface]) -> Option<&Interface>
    ensures { option_copied result ≡ find (is_up_in p) interfaces.now }
{
    interfaces.iter().find(|interface| is_up_in(p, interface))
}

fn line_on(p: Prefix, router: &Router) -> Option<u32>
    ensures { result ≡ line_on p router.now }
{
    match find_in(p, router.interfaces.as_slice()) {
        Some(interface) => address_line(interface),
        None => None,
    }
}

fn line_at(network: &Network, origins: &[Origin], p: Prefix) -> Option<u32>
    ensures { result ≡ line_at network.now origins.now p }
{
    match origins {
        [] => None,
        [origin, ..] => match network.routers.as_slice().get(origin.router as usize) {
            Some(router) => line_on(p, router),
            None => None,
        },
    }
}

fn find_met(prefixes: &[Prefix]) -> Option<Prefix>
    ensures { result ≡ find meets_pool prefixes.now }
{
    prefixes.iter().copied().find(|p| meets_pool(*p))
}

/// The line of the address in the least prefix of the class that meets the addresses of the links.
#[tactic(auto, unfolding(crate::specs::Pool::pool_line))]
pub(crate) fn pool_line(network: &Network, class: &DestClass) -> Option<u32>
    ensures { result ≡ pool_line network.now class.now }
{
    match find_met(class.prefixes.as_slice()) {
        Some(p) => Some(line_at(network, class.origins.as_slice(), p).unwrap_or(0)),
        None => None,
    }
}
