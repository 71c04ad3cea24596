//! Refusals as a guest brings them about, and what a device does then.

ghost use Rattle.std.specs.Prelude.{◌≡◌, false, IfOk};
ghost use Rattle.vhost_queue.specs.Queue.{state};

use crate::guest::{Guest, USER};
use crate::refused::{
    gives_back, gives_back_next, stops_for_the_driver, takes_later, takes_nothing,
};
use std::alloc::Global;
use vhost_queue::{Descriptor, GuestMemory, Queue, QueueConfig, Result, Rings};

/// Where a queue begins.
const BEGIN: QueueConfig = QueueConfig {
    event_idx: false,
    indirect_desc: false,
    next_avail: 0,
    next_used: 0,
};

/// A split queue of four, of a guest that has this memory.
fn split_queue(alloc: Global, memory: &mut GuestMemory) -> Result<Queue>
    ensures { IfOk result (λ queue. ((state queue).next_avail ≡ (state queue).avail_idx) × ((state queue).needs_reset ≡ false)) }
{
    let rings = Rings::map(memory, 4, USER, USER + 0x100, USER + 0x200)?;
    Queue::new(alloc, rings, BEGIN)
}

/// The head 2 is taken, and its chain is refused for a descriptor without bytes.
fn refuses_a_step(alloc: Global) -> Result<bool> {
    let mut memory = GuestMemory::new(alloc);
    memory.add(Guest::region())?;
    let mut queue = split_queue(alloc, &mut memory)?;
    queue.set_avail_idx(1)?;
    queue.pop(2)?;
    let empty = Descriptor {
        addr: 0,
        len: 0,
        flags: 0,
        next: 0,
    };
    Ok(gives_back(&mut memory, &mut queue, empty, 2) && queue.needs_reset())
}

/// A head that is none of the queue is given back, and then one that is out.
fn refuses_a_head(alloc: Global) -> Result<bool> {
    let mut memory = GuestMemory::new(alloc);
    memory.add(Guest::region())?;
    let mut queue = split_queue(alloc, &mut memory)?;
    queue.set_avail_idx(1)?;
    queue.pop(2)?;
    Ok(gives_back_next(&mut queue, 4, 2) && queue.next_used() == 1)
}

/// Nothing is available, and then more than there can be.
fn refuses_what_is_available(alloc: Global) -> Result<bool> {
    let mut memory = GuestMemory::new(alloc);
    memory.add(Guest::region())?;
    let mut queue = split_queue(alloc, &mut memory)?;
    Ok(takes_later(&mut queue, 0) && takes_nothing(&mut queue, 5, 0) && queue.needs_reset())
}

/// A head is available whose descriptor has no bytes.
fn stops_serving(alloc: Global) -> Result<bool> {
    let mut memory = GuestMemory::new(alloc);
    memory.add(Guest::region())?;
    let rings = Rings::map(&mut memory, 4, USER, USER + 0x100, USER + 0x200)?;
    let mut queue = Queue::new(alloc, rings, BEGIN)?;
    let mut guest = Guest::new(alloc)?;
    guest.put_word(0x102, 1);
    let stops = stops_for_the_driver(alloc, &mut memory, &mut queue, &mut guest, 2);
    Ok(stops && queue.needs_reset())
}

#[test]
fn a_refused_request_stops_the_device(rt: HostRuntime) {
    assert!(rt; stops_serving(rt.alloc()) == Ok(true));
}

#[test]
fn a_refused_step_leaves_what_is_out(rt: HostRuntime) {
    assert!(rt; refuses_a_step(rt.alloc()) == Ok(true));
}

#[test]
fn a_refused_head_leaves_the_next(rt: HostRuntime) {
    assert!(rt; refuses_a_head(rt.alloc()) == Ok(true));
}

#[test]
fn refused_indices_leave_nothing_to_take(rt: HostRuntime) {
    assert!(rt; refuses_what_is_available(rt.alloc()) == Ok(true));
}
