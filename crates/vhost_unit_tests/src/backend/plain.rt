//! Plain data, and rings that are valid or not.

use vhost_backend::{
    VHOST_MAX_MEMORY_REGIONS, VhostAccess, VhostIotlbMsg, VhostIotlbType, vring_is_valid,
};
use vhost_message::VringConfigData;

#[test]
fn messages(rt: HostRuntime) {
    let message = VhostIotlbMsg::default();
    assert!(rt; (message.perm, message.msg_type) == (VhostAccess::No, VhostIotlbType::Empty));
    let numbers = (VhostAccess::ReadWrite as u8, VhostIotlbType::BatchEnd as u8);
    assert!(rt; (numbers, VHOST_MAX_MEMORY_REGIONS) == ((3, 6), 255));
    let ordered = [
        VhostAccess::ReadOnly < VhostAccess::WriteOnly,
        VhostIotlbType::Miss < VhostIotlbType::Update,
    ];
    assert!(rt; ordered == [true, true]);
}

/// Whether a ring of this size is valid in memory of so many bytes from 0 on, where at most 32 descriptors are supported.
fn takes_ring(queue_size: u16, bytes: u64, used: u64, available: u64) -> bool {
    let ring = VringConfigData {
        queue_max_size: 32,
        queue_size,
        flags: 0,
        desc_table_addr: 0x1000,
        used_ring_addr: used,
        avail_ring_addr: available,
        log_addr: None,
    };
    vring_is_valid(&ring, &[(0, bytes)])
}

/// A size is a power of two that the device supports. The last ring's table ends 512 bytes behind 0x1000, where the memory ends.
#[test]
fn rings_that_are_valid(rt: HostRuntime) {
    let sizes = [
        takes_ring(32, 0x10_0000, 0x2000, 0x3000),
        takes_ring(0, 0x10_0000, 0x2000, 0x3000),
        takes_ring(31, 0x10_0000, 0x2000, 0x3000),
        takes_ring(33, 0x10_0000, 0x2000, 0x3000),
        takes_ring(32, 0x1200, 0x200, 0x100),
    ];
    assert!(rt; sizes == [true, false, false, false, false]);
}
