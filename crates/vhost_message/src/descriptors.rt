//! What the inflight region holds.

ghost use Rattle.std.specs.Prelude.{◌≡◌};
ghost use Rattle.vhost_message.specs.Descriptors.{empty_split, empty_packed, split_region, packed_region};

/// The state of one descriptor of a split ring (vhost-user specification, "Inflight I/O tracking").
#[derive(Clone, Copy, Default)]
pub struct DescStateSplit {
    /// 1 while the descriptor is in flight.
    pub inflight: u8,
    padding: [u8; 5],
    /// The next free descriptor.
    pub next: u16,
    /// The order in which descriptors were fetched.
    pub counter: u64,
}

impl DescStateSplit {
    /// The state of a descriptor that was never used: all 0.
    pub fn new() -> Self
        ensures { result ≡ empty_split }
    {
        DescStateSplit {
            inflight: 0,
            padding: [0; 5],
            next: 0,
            counter: 0,
        }
    }
}

/// The head of a queue's area for a split ring; its descriptors' states follow.
#[derive(Drop)]
pub struct QueueRegionSplit {
    /// The features of this area.
    pub features: u64,
    /// The version of this area's form.
    pub version: u16,
    /// The number of descriptors.
    pub desc_num: u16,
    /// The head of the last batch of used descriptors.
    pub last_batch_head: u16,
    /// The index of the used ring.
    pub used_idx: u16,
    /// The states of the descriptors begin here.
    pub desc: u64,
}

impl QueueRegionSplit {
    /// The area of a queue of `queue_size` descriptors, of which none was used, in version 1.
    pub fn new(features: u64, queue_size: u16) -> Self
        ensures { result ≡ split_region features queue_size }
    {
        QueueRegionSplit {
            features,
            version: 1,
            desc_num: queue_size,
            last_batch_head: 0,
            used_idx: 0,
            desc: 0,
        }
    }
}

/// The state of one descriptor of a packed ring (vhost-user specification, "Inflight I/O tracking").
#[derive(Clone, Copy, Default)]
pub struct DescStatePacked {
    /// 1 while the descriptor is in flight.
    pub inflight: u8,
    padding: u8,
    /// The next free entry.
    pub next: u16,
    /// The last entry of this list.
    pub last: u16,
    /// How many entries this list has.
    pub num: u16,
    /// The order in which descriptors were fetched.
    pub counter: u64,
    /// The buffer's number.
    pub id: u16,
    /// The descriptor's flags.
    pub flags: u16,
    /// The buffer's length in bytes.
    pub len: u32,
    /// The buffer's address in the guest.
    pub addr: u64,
}

impl DescStatePacked {
    /// The state of a descriptor that was never used: all 0.
    pub fn new() -> Self
        ensures { result ≡ empty_packed }
    {
        DescStatePacked {
            inflight: 0,
            padding: 0,
            next: 0,
            last: 0,
            num: 0,
            counter: 0,
            id: 0,
            flags: 0,
            len: 0,
            addr: 0,
        }
    }
}

/// The head of a queue's area for a packed ring; its descriptors' states follow.
#[derive(Drop)]
pub struct QueueRegionPacked {
    /// The features of this area.
    pub features: u64,
    /// The version of this area's form.
    pub version: u16,
    /// The number of descriptors.
    pub desc_num: u16,
    /// The next free entry.
    pub free_head: u16,
    /// The next free entry before the last batch.
    pub old_free_head: u16,
    /// The index of the used ring.
    pub used_idx: u16,
    /// The index of the used ring before the last batch.
    pub old_used_idx: u16,
    /// The wrap counter of the used ring.
    pub used_wrap_counter: u8,
    /// The wrap counter of the used ring before the last batch.
    pub old_used_wrap_counter: u8,
    padding: [u8; 7],
    /// The states of the descriptors begin here.
    pub desc: u64,
}

impl QueueRegionPacked {
    /// The area of a queue of `queue_size` descriptors, of which none was used, in version 1.
    pub fn new(features: u64, queue_size: u16) -> Self
        ensures { result ≡ packed_region features queue_size }
    {
        QueueRegionPacked {
            features,
            version: 1,
            desc_num: queue_size,
            free_head: 0,
            old_free_head: 0,
            used_idx: 0,
            old_used_idx: 0,
            used_wrap_counter: 0,
            old_used_wrap_counter: 0,
            padding: [0; 7],
            desc: 0,
        }
    }
}
