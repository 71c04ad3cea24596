//! Records as a program in C has them.

use vhost_queue::HostRange;

/// Where a split queue lies for the frontend, what was negotiated, and where it begins: `covretin_split_ring`.
#[repr(C)]
#[derive(Clone, Copy, Drop)]
pub struct SplitRing {
    pub desc_table: u64,
    pub avail_ring: u64,
    pub used_ring: u64,
    pub size: u16,
    pub next_avail: u16,
    pub next_used: u16,
    pub event_idx: bool,
    pub indirect_desc: bool,
}

/// The same of a packed queue: `covretin_packed_ring`.
#[repr(C)]
#[derive(Clone, Copy, Drop)]
pub struct PackedRing {
    pub desc_ring: u64,
    pub driver_event: u64,
    pub device_event: u64,
    pub size: u16,
    /// The wrap counter above the index, as in the ring's base.
    pub avail: u16,
    pub used: u16,
    pub event_idx: bool,
    pub indirect_desc: bool,
}

/// What is to be written once a chain was used: the first bytes of a value, and then two more: `covretin_used`.
#[repr(C)]
#[derive(Clone, Copy, Drop)]
pub struct Used {
    pub elem: HostRange,
    pub elem_value: u64,
    pub then: HostRange,
    pub then_value: u16,
}

/// What is to be written so that the driver tells or does not tell; no bytes: nothing: `covretin_event_write`.
#[repr(C)]
#[derive(Clone, Copy, Drop)]
pub struct EventWrite {
    pub place: HostRange,
    pub value: u32,
}

/// Where a chain goes on: where the table is mapped that it is in, and which of that table's descriptors is to be read next:
/// `covretin_table`.
#[repr(C)]
#[derive(Clone, Copy, Drop)]
pub struct Table {
    pub range: HostRange,
    pub next: u16,
    pub goes_on: bool,
}

/// How far a chain was followed: how many of the descriptors that were given are behind it, how many segments they are, and where it goes on:
/// `covretin_walked`.
#[repr(C)]
#[derive(Clone, Copy, Drop)]
pub struct Walked {
    pub taken: usize,
    pub count: usize,
    pub table: Table,
}
