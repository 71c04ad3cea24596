//! Requests of both layouts, as a driver writes them.

ghost use Rattle.std.specs.Prelude.{◌≡◌, IfOk, None};
ghost use Rattle.vhost_queue.specs.Chain.{following};
ghost use Rattle.vhost_queue.specs.Serving.{AreMapped, ArePackedMapped};

use crate::guest::{BORDER, Guest, Served, USER};
use std::alloc::Global;
use vhost_queue::{
    Descriptor, DescriptorChain, GuestMemory, GuestRegion, PackedConfig, PackedQueue, PackedRings,
    Position, Queue, QueueConfig, Result, Rings, follow_descriptor, serve, serve_packed,
};

/// A split queue of four in this memory.
fn split_queue(alloc: Global, memory: &mut GuestMemory, indirect_desc: bool) -> Result<Queue>
    ensures { IfOk result (λ queue. AreMapped memory.new.regions.items queue.rings) }
{
    let rings = Rings::map(memory, 4, USER, USER + 0x100, USER + 0x200)?;
    let config = QueueConfig {
        event_idx: false,
        indirect_desc,
        next_avail: 0,
        next_used: 0,
    };
    let queue = Queue::new(alloc, rings, config)?;
    Ok(queue)
}

/// A packed queue of three in this memory.
fn packed_queue(alloc: Global, memory: &mut GuestMemory) -> Result<PackedQueue>
    ensures { IfOk result (λ queue. ArePackedMapped memory.new.regions.items queue.rings) }
{
    let rings = PackedRings::map(memory, 3, USER, USER + 0x100, USER + 0x104)?;
    let begin = Position {
        index: 0,
        wrap: true,
    };
    let config = PackedConfig {
        event_idx: true,
        indirect_desc: false,
        avail: begin,
        used: begin,
    };
    let queue = PackedQueue::new(alloc, rings, config)?;
    Ok(queue)
}

/// Serves one request of a split queue.
fn serve_split(
    alloc: Global,
    memory: &mut GuestMemory,
    guest: &mut Guest,
    indirect_desc: bool,
) -> Result<()> {
    guest.put_word(0x102, 1);
    let mut queue = split_queue(alloc, memory, indirect_desc)?;
    serve(alloc, memory, &mut queue, guest, 2)
}

/// Serves one request of a packed queue.
fn serve_one_packed(alloc: Global, memory: &mut GuestMemory, guest: &mut Guest) -> Result<()> {
    let mut queue = packed_queue(alloc, memory)?;
    serve_packed(alloc, memory, &mut queue, guest, 2)
}

/// The same, where the guest has these regions. The driver sees the index of the used ring.
fn split_served(
    alloc: Global,
    guest: &mut Guest,
    regions: &[GuestRegion],
    indirect_desc: bool,
) -> Result<Served> {
    let mut memory = GuestMemory::new(alloc);
    memory.set(alloc, regions)?;
    serve_split(alloc, &mut memory, guest, indirect_desc)?;
    Ok(guest.served(0x202))
}

/// A request of two descriptors is served, so many bytes at an address and 512 at another, where the guest has these regions. The driver sees
/// the flags of the first descriptor.
fn packed_served(
    alloc: Global,
    guest: &mut Guest,
    regions: &[GuestRegion],
    first: (u64, u32),
    second: u64,
) -> Result<Served> {
    guest.put_descriptor(0, first.0, first.1, 0, 0x81);
    guest.put_descriptor(16, second, 512, 2, 0x82);
    let mut memory = GuestMemory::new(alloc);
    memory.set(alloc, regions)?;
    serve_one_packed(alloc, &mut memory, guest)?;
    Ok(guest.served(14))
}

/// A request of a split queue: one segment, and two of an indirect table.
fn serves_split(alloc: Global) -> Result<Served> {
    let mut guest = Guest::new(alloc)?;
    guest.put_descriptor(0, 0x400, 16, 1, 2);
    guest.put_descriptor(32, 0x800, 32, 4, 0);
    guest.put_descriptor(0x800, 0x500, 512, 3, 1);
    guest.put_descriptor(0x810, 0x900, 1, 2, 0);
    split_served(alloc, &mut guest, &[Guest::region()], true)
}

/// A request of a split queue in two regions, whose buffers lie at their border.
fn serves_at_a_border(alloc: Global) -> Result<Served> {
    let mut guest = Guest::new(alloc)?;
    guest.put_descriptor(0, BORDER - 8, 24, 1, 1);
    guest.put_descriptor(16, BORDER - 1, 512, 2, 0);
    split_served(alloc, &mut guest, &Guest::two_regions(), false)
}

/// A request of a packed queue.
fn serves_packed(alloc: Global) -> Result<Served> {
    let mut guest = Guest::new(alloc)?;
    packed_served(alloc, &mut guest, &[Guest::region()], (0x400, 16), 0x500)
}

/// The same in two regions, whose buffers lie at their border.
fn serves_packed_at_a_border(alloc: Global) -> Result<Served> {
    let mut guest = Guest::new(alloc)?;
    let first = (BORDER - 8, 24);
    packed_served(alloc, &mut guest, &Guest::two_regions(), first, BORDER - 1)
}

/// How many segments a descriptor is, of 24 bytes at the border of the memory's regions.
fn segments_of(
    alloc: Global,
    memory: &mut GuestMemory,
    chain: &mut DescriptorChain,
) -> Result<usize>
    requires { (following chain.old).rest ≡ None }
{
    let mut segments = Vec::new(alloc);
    let descriptor = Descriptor {
        addr: BORDER - 8,
        len: 24,
        flags: 0,
        next: 0,
    };
    follow_descriptor(memory, chain, descriptor, &mut segments)?;
    Ok(segments.len())
}

/// The same of memory in two regions.
fn segments_at_a_border(alloc: Global) -> Result<usize> {
    let mut memory = GuestMemory::new(alloc);
    memory.set(alloc, &Guest::two_regions())?;
    let mut chain = DescriptorChain::new(4);
    chain.begin(0x1000, 4, false, 0)?;
    segments_of(alloc, &mut memory, &mut chain)
}

#[test]
fn a_split_queue_is_served(rt: HostRuntime) {
    let served = Served {
        segments: 3,
        writable: 513,
        seen: 1,
    };
    assert!(rt; serves_split(rt.alloc()) == Ok(served));
}

#[test]
fn a_packed_queue_is_served(rt: HostRuntime) {
    let served = Served {
        segments: 2,
        writable: 512,
        seen: 0x8082,
    };
    assert!(rt; serves_packed(rt.alloc()) == Ok(served));
}

#[test]
fn buffers_at_a_border_are_served(rt: HostRuntime) {
    let served = Served {
        segments: 4,
        writable: 512,
        seen: 1,
    };
    assert!(rt; serves_at_a_border(rt.alloc()) == Ok(served));
}

#[test]
fn packed_buffers_at_a_border_are_served(rt: HostRuntime) {
    let served = Served {
        segments: 4,
        writable: 512,
        seen: 0x8082,
    };
    assert!(rt; serves_packed_at_a_border(rt.alloc()) == Ok(served));
}

#[test]
fn a_descriptor_at_a_border_is_two_segments(rt: HostRuntime) {
    assert!(rt; segments_at_a_border(rt.alloc()) == Ok(2));
}
