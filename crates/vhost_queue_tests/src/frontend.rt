//! Refusals as a frontend brings them about, of regions and of rings, and what a device does then.

ghost use Rattle.std.specs.Prelude.{◌≡◌, true};
ghost use Rattle.vhost_queue.specs.Memory.{is_region};

use crate::guest::{Guest, USER};
use crate::reasons::{
    adds_instead, finds_again, finds_packed_again, goes_on, moves_back, moves_packed_back,
    refuses_its_size, sets_again,
};
use std::alloc::Global;
use vhost_c_queue::{DeviceQueue, PackedRing, Refusal, SplitRing};
use vhost_queue::{AddressSpace, Error, GuestMemory, GuestRegion, PackedRings, Result, Rings};

// No part of a queue is there.
const NOWHERE: [u64; 3] = [0, 0, 0];

const ELSEWHERE: [u64; 3] = [USER + 0x400, USER + 0x500, USER + 0x600];

/// A region that shares addresses with the guest's.
fn shared() -> GuestRegion
    ensures { is_region result ≡ true }
{
    GuestRegion {
        guest_addr: 0x800,
        size: 0x1000,
        user_addr: 0x10_0000,
        host_addr: 0x20_0000,
    }
}

/// A split queue of four.
fn split() -> SplitRing {
    SplitRing {
        desc_table: USER,
        avail_ring: USER + 0x100,
        used_ring: USER + 0x200,
        size: 4,
        next_avail: 0,
        next_used: 0,
        event_idx: false,
        indirect_desc: false,
    }
}

/// A packed queue of three.
fn packed() -> PackedRing {
    PackedRing {
        desc_ring: USER,
        driver_event: USER + 0x100,
        device_event: USER + 0x104,
        size: 3,
        avail: 0x8000,
        used: 0x8000,
        event_idx: false,
        indirect_desc: false,
    }
}

/// The region is refused beside the guest's, and is there once that one is gone.
fn adds_what_overlapped(alloc: Global) -> Result<bool> {
    let mut memory = GuestMemory::new(alloc);
    let old = Guest::region();
    memory.add(old)?;
    let Err(error) = memory.add(shared()) else {
        return Ok(false);
    };
    let is_added = adds_instead(&mut memory, old, shared());
    memory.translate(AddressSpace::Guest, 0x17ff, 1)?;
    Ok(is_added && error == Error::RegionOverlap)
}

/// Two regions are there, and are set again.
fn sets_what_was_set(alloc: Global) -> Result<bool> {
    let mut memory = GuestMemory::new(alloc);
    let is_set = sets_again(alloc, &mut memory, &Guest::two_regions());
    memory.translate(AddressSpace::Guest, 0xfff, 1)?;
    Ok(is_set)
}

/// Rings of both layouts are found, and a size that none has is refused.
fn finds_what_was_found(alloc: Global) -> Result<bool> {
    let mut memory = GuestMemory::new(alloc);
    memory.add(Guest::region())?;
    let _split = Rings::map(&mut memory, 4, USER, USER + 0x100, USER + 0x200)?;
    let _packed = PackedRings::map(&mut memory, 3, USER, USER + 0x100, USER + 0x104)?;
    let is_found = finds_again(&mut memory, 4, USER, USER + 0x100, USER + 0x200)
        && finds_packed_again(&mut memory, 3, USER, USER + 0x100, USER + 0x104);
    let here = [USER, USER + 0x100, USER + 0x200];
    let Err(error) = Rings::map(&mut memory, 3, here[0], here[1], here[2]) else {
        return Ok(false);
    };
    Ok(is_found && error == Error::InvalidSize && refuses_its_size(&mut memory, 3, here, ELSEWHERE))
}

/// A queue that sees the guest's memory.
fn device_queue(alloc: Global) -> std::result::Result<DeviceQueue, Refusal> {
    let mut queue = DeviceQueue::new(alloc);
    queue.add_region(Guest::region())?;
    Ok(queue)
}

/// Queues of both layouts are moved back from where nothing is, and from where they could be.
fn moves_to_and_fro(alloc: Global) -> std::result::Result<bool, Refusal> {
    let mut queue = device_queue(alloc)?;
    let is_back = moves_back(alloc, &mut queue, split(), NOWHERE)
        && moves_back(alloc, &mut queue, split(), ELSEWHERE);
    queue.base()?;
    let is_packed_back = moves_packed_back(alloc, &mut queue, packed(), NOWHERE)
        && moves_packed_back(alloc, &mut queue, packed(), ELSEWHERE);
    queue.base()?;
    Ok(is_back && is_packed_back)
}

/// A chain goes on behind a refused move, and ends at one that is made.
fn follows_until_a_move(alloc: Global) -> std::result::Result<bool, Refusal> {
    let mut queue = device_queue(alloc)?;
    queue.start_split(alloc, split())?;
    queue.available(1)?;
    queue.pop(2)?;
    let stays = goes_on(&mut queue, NOWHERE[0], NOWHERE[1], NOWHERE[2])
        && queue.descriptor_place().is_some();
    let ends = goes_on(&mut queue, ELSEWHERE[0], ELSEWHERE[1], ELSEWHERE[2])
        && queue.descriptor_place().is_none();
    Ok(stays && ends)
}

#[test]
fn what_overlapped_is_added(rt: HostRuntime) {
    assert!(rt; adds_what_overlapped(rt.alloc()) == Ok(true));
}

#[test]
fn regions_are_set_again(rt: HostRuntime) {
    assert!(rt; sets_what_was_set(rt.alloc()) == Ok(true));
}

#[test]
fn rings_are_found_again(rt: HostRuntime) {
    assert!(rt; finds_what_was_found(rt.alloc()) == Ok(true));
}

#[test]
fn queues_are_moved_back(rt: HostRuntime) {
    assert!(rt; moves_to_and_fro(rt.alloc()) == Ok(true));
}

#[test]
fn a_chain_ends_at_a_move(rt: HostRuntime) {
    assert!(rt; follows_until_a_move(rt.alloc()) == Ok(true));
}
