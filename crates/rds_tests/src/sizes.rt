//! How much memory values take of which a run keeps many.
use rds_code::Reading;
use rds_sync::Item;
use std::mem::size_of;

#[test]
fn readings_and_items_are_small(rt: HostRuntime) {
    assert!(rt; size_of::<Reading>() <= 6 && size_of::<Item>() <= 56);
}
