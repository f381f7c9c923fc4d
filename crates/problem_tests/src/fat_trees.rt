//! The smallest tree, and sizes that are refused.

use fat_gen::{FatRefusal, fat_tree};
use std::test::Fail;

const FIRST_CORE: &[u8] = b"hostname core0
interface GigabitEthernet0/0
 ip address 172.16.0.1 255.255.255.254
interface GigabitEthernet0/1
 ip address 172.16.0.17 255.255.255.254
interface GigabitEthernet0/2
 ip address 172.16.0.33 255.255.255.254
interface GigabitEthernet0/3
 ip address 172.16.0.49 255.255.255.254
router bgp 4200000000
 neighbor 172.16.0.0 remote-as 4200000004
 neighbor 172.16.0.0 send-community
 neighbor 172.16.0.16 remote-as 4200000008
 neighbor 172.16.0.16 send-community
 neighbor 172.16.0.32 remote-as 4200000012
 neighbor 172.16.0.32 send-community
 neighbor 172.16.0.48 remote-as 4200000016
 neighbor 172.16.0.48 send-community
end
";

const LAST_EDGE: &[u8] = b"hostname edge3-1
interface Vlan1
 ip address 10.3.1.1 255.255.255.0
interface GigabitEthernet0/0
 ip address 172.16.0.55 255.255.255.254
interface GigabitEthernet0/1
 ip address 172.16.0.63 255.255.255.254
router bgp 4200000019
 network 10.3.1.0 mask 255.255.255.0
 neighbor 172.16.0.54 remote-as 4200000016
 neighbor 172.16.0.54 send-community
 neighbor 172.16.0.62 remote-as 4200000017
 neighbor 172.16.0.62 send-community
end
";

#[test]
fn the_smallest_tree_has_twenty_switches(rt: HostRuntime) -> Result<(), Fail> {
    let alloc = rt.alloc();
    let text = fat_tree(alloc, 4).ok().ok_or("fat_tree")?;
    assert_eq!(rt; text.len(), 11_054);
    assert!(rt; text.starts_with(FIRST_CORE));
    assert!(rt; text.ends_with(LAST_EDGE));
    Ok(())
}

#[test]
fn odd_small_and_large_sizes_are_bad(rt: HostRuntime) -> Result<(), Fail> {
    let alloc = rt.alloc();
    for size in [0, 2, 3, 5, 22, 999_999_999] {
        assert!(rt; matches!(fat_tree(alloc, size), Err(FatRefusal::BadSize)));
    }
    Ok(())
}
