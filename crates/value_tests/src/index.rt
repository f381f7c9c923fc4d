//! Items of one pair keep their order.

use buckets::{Index, items_at, push_at};
use number_hashing::NumberHashing;
use std::collections::HashMap;
use std::test::Fail;

#[test]
fn items_stand_in_the_order_in_which_they_came(rt: HostRuntime) -> Result<(), Fail> {
    let mut index: Index<u32> = HashMap::with_hasher(rt.alloc(), NumberHashing::plain());
    push_at(rt.alloc(), &mut index, (24, 1), 7)?;
    push_at(rt.alloc(), &mut index, (25, 1), 8)?;
    push_at(rt.alloc(), &mut index, (24, 1), 5)?;
    assert_eq!(rt; items_at(&index, (24, 1)), [7u32, 5].as_slice());
    assert_eq!(rt; items_at(&index, (1, 24)).len(), 0);
    Ok(())
}
