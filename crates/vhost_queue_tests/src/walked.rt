//! Chains that are followed by one call, a pop that is undone, and a head that is adopted, over a guest's memory.

use crate::guest::{Guest, USER};
use crate::walks::{
    follows_safely, forgets_what_it_gave_back, takes_what_fits, uses_what_it_adopted,
};
use std::alloc::Global;
use vhost_c_queue::{DeviceQueue, Refusal, SplitRing};
use vhost_queue::{
    Descriptor, GuestMemory, HostRange, Queue, QueueConfig, Result as QueueResult, Rings, Segment,
};

const RING: SplitRing = SplitRing {
    desc_table: USER,
    avail_ring: USER + 0x100,
    used_ring: USER + 0x200,
    size: 4,
    next_avail: 0,
    next_used: 0,
    event_idx: false,
    indirect_desc: false,
};

/// Sixteen bytes to read, and 32 to write.
const COPIES: [Descriptor; 2] = [
    Descriptor {
        addr: 0x400,
        len: 16,
        flags: 1,
        next: 1,
    },
    Descriptor {
        addr: 0x500,
        len: 32,
        flags: 2,
        next: 0,
    },
];

const NONE: Segment = Segment {
    range: HostRange { addr: 0, len: 0 },
    guest_addr: 0,
    writable: false,
};

/// A queue whose head 0 was taken.
fn taken(alloc: Global) -> Result<DeviceQueue, Refusal> {
    let mut queue = DeviceQueue::new(alloc);
    queue.add_region(Guest::region())?;
    queue.start_split(alloc, RING)?;
    queue.available(1)?;
    queue.pop(0)?;
    Ok(queue)
}

/// Both descriptors by one call: two segments, where the guest has them, of which the second is to be written.
fn follows_a_chain(alloc: Global) -> Result<bool, Refusal> {
    let mut queue = taken(alloc)?;
    let mut segments = [NONE; 4];
    let count = follows_safely(&mut queue, &COPIES, &mut segments)?;
    let reads = segments[0].guest_addr == 0x400 && segments[0].range.len == 16;
    let writes = segments[1].guest_addr == 0x500 && segments[1].range.len == 32;
    let kinds = !segments[0].writable && segments[1].writable;
    Ok(count == 2 && reads && writes && kinds && !queue.table().goes_on)
}

/// With room for one segment the second descriptor is left, and comes by the next call.
fn goes_on_later(alloc: Global) -> Result<bool, Refusal> {
    let mut queue = taken(alloc)?;
    let mut segments = [NONE; 1];
    if !takes_what_fits(&mut queue, &COPIES, &mut segments) {
        return Ok(false);
    }
    let first = segments[0].guest_addr;
    let next = queue.table().next;
    let count = follows_safely(&mut queue, &COPIES[1..], &mut segments)?;
    Ok(first == 0x400 && next == 1 && count == 1 && segments[0].guest_addr == 0x500)
}

/// A split queue of four, of which one chain is available.
fn available(alloc: Global) -> QueueResult<Queue> {
    let mut memory = GuestMemory::new(alloc);
    memory.add(Guest::region())?;
    let rings = Rings::map(&mut memory, 4, USER, USER + 0x100, USER + 0x200)?;
    let begin = QueueConfig {
        event_idx: false,
        indirect_desc: false,
        next_avail: 0,
        next_used: 0,
    };
    let mut queue = Queue::new(alloc, rings, begin)?;
    queue.set_avail_idx(1)?;
    Ok(queue)
}

/// The head 2 is taken, given back, and taken again; a head that no pop brought is adopted, and is out from then on.
fn undoes_a_pop(alloc: Global) -> QueueResult<bool> {
    let mut queue = available(alloc)?;
    queue.pop(2)?;
    if !forgets_what_it_gave_back(&mut queue, 2) {
        return Ok(false);
    }
    queue.pop(2)?;
    let is_used = queue.add_used(2, 0).is_ok();
    let is_adopted = uses_what_it_adopted(&mut queue, 3);
    Ok(is_used && is_adopted && queue.next_used() == 2)
}

#[test]
fn a_chain_is_followed_by_one_call(rt: HostRuntime) {
    assert!(rt; follows_a_chain(rt.alloc()) == Ok(true));
}

#[test]
fn a_chain_goes_on_where_there_was_no_room(rt: HostRuntime) {
    assert!(rt; goes_on_later(rt.alloc()) == Ok(true));
}

#[test]
fn a_pop_is_undone_and_a_head_is_adopted(rt: HostRuntime) {
    assert!(rt; undoes_a_pop(rt.alloc()) == Ok(true));
}
