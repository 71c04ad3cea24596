//! Descriptors as they lie in a table, and the segments that they become.

use crate::memory::HostRange;

/// How many bytes a descriptor has.
pub const DESCRIPTOR_SIZE: u64 = 16;

/// A descriptor of a split queue, as its 16 bytes say it (virtio 1.2, 2.7.5).
#[repr(C)]
#[derive(Clone, Copy, Drop)]
pub struct Descriptor {
    pub addr: u64,
    pub len: u32,
    pub flags: u16,
    pub next: u16,
}

/// A part of a request: a range of mapped memory, where the guest has it, and whether the device may write to it.
#[repr(C)]
#[derive(Clone, Copy, Drop)]
pub struct Segment {
    pub range: HostRange,
    pub guest_addr: u64,
    pub writable: bool,
}
