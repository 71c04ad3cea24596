//! Guest memory and virtqueues as values: what a device may touch, decided from what was read once (virtio 1.2, chapter 2).
#![tactic(auto)]

mod chain;
mod descriptor;
mod error;
mod inflight;
mod log;
mod memory;
mod notification;
mod packed;
mod packed_inflight;
mod packed_rings;
mod packed_serving;
mod part;
mod queue;
mod rings;
mod run;
mod segment;
mod serving;
mod table;
mod whole;
mod wrap;

pub use chain::DescriptorChain;
pub use descriptor::{DESCRIPTOR_SIZE, Descriptor, Segment};
pub use error::{Error, Result};
pub use inflight::{
    InflightEntry, InflightWrite, Recovered, Resubmit, inflight_after_used, inflight_before_used,
    inflight_take, recover,
};
pub use log::{DirtyPages, LOG_PAGE_SIZE, LogBit, dirty_pages, log_bit};
pub use memory::{AddressSpace, GuestMemory, GuestRegion, HostRange, MAX_REGIONS};
pub use notification::vring_need_event;
pub use packed::{EventSuppression, PackedConfig, PackedDescriptor, PackedQueue, PackedUsed};
pub use packed_inflight::{
    PackedInflightHead, PackedRecovered, packed_inflight_after_used, packed_inflight_before_used,
    packed_inflight_keep, packed_inflight_take, packed_recover,
};
pub use packed_rings::PackedRings;
pub use packed_serving::{PackedShared, follow_packed, serve_next_packed, serve_packed};
pub use queue::{MIN_INDIRECT_LIMIT, Queue, QueueConfig, RingWrite, UsedElem};
pub use rings::{MAX_SIZE, Rings};
pub use run::run_of;
pub use serving::{Shared, follow, serve, serve_next};
pub use whole::follow_descriptor;
pub use wrap::{Position, passes};
