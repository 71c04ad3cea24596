//! What the reason of a refusal tells whoever serves a queue, by the contracts of queues alone: what can be tried again, and what can't.

ghost use Rattle.std.specs.Prelude.{◌≡◌, ◌∷◌, [], true, Ok, Err};
ghost use Rattle.vhost_queue.specs.Memory.{is_region};
ghost use Rattle.vhost_queue.specs.declared.error.Error.TheVariants.{OutOfMemory};

use std::alloc::Global;
use vhost_c_queue::{DeviceQueue, PackedRing, SplitRing};
use vhost_queue::{Error, GuestMemory, GuestRegion, PackedRings, Result, Rings};

/// A region that is refused beside another is added once that one is gone, or memory is refused. True.
pub fn adds_instead(memory: &mut GuestMemory, old: GuestRegion, region: GuestRegion) -> bool
    requires alone { memory.old.regions.items ≡ old ∷ [] }
    requires valid { is_region region ≡ true }
    ensures { result ≡ true }
{
    match memory.add(region) {
        Ok(()) => true,
        Err(_) => match memory.remove(old.guest_addr, old.size, old.user_addr) {
            Ok(()) => lacks_memory_only(memory.add(region)),
            Err(_) => false,
        },
    }
}

/// Regions that were set once are set again, or memory is refused. True.
pub fn sets_again(alloc: Global, memory: &mut GuestMemory, regions: &[GuestRegion]) -> bool
    ensures { result ≡ true }
{
    match memory.set(alloc, regions) {
        Ok(()) => lacks_memory_only(memory.set(alloc, regions)),
        Err(_) => true,
    }
}

/// Rings that were found at these addresses are found there again. True.
pub fn finds_again(memory: &mut GuestMemory, size: u16, table: u64, avail: u64, used: u64) -> bool
    ensures { result ≡ true }
{
    match Rings::map(memory, size, table, avail, used) {
        Ok(_) => Rings::map(memory, size, table, avail, used).is_ok(),
        Err(_) => true,
    }
}

/// The same of a packed queue.
pub fn finds_packed_again(
    memory: &mut GuestMemory,
    size: u16,
    ring: u64,
    driver: u64,
    device: u64,
) -> bool
    ensures { result ≡ true }
{
    match PackedRings::map(memory, size, ring, driver, device) {
        Ok(_) => PackedRings::map(memory, size, ring, driver, device).is_ok(),
        Err(_) => true,
    }
}

/// Rings that are refused for their size are refused at these addresses, too. True.
pub fn refuses_its_size(
    memory: &mut GuestMemory,
    size: u16,
    first: [u64; 3],
    second: [u64; 3],
) -> bool
    ensures { result ≡ true }
{
    match Rings::map(memory, size, first[0], first[1], first[2]) {
        Err(Error::InvalidSize) => {
            Rings::map(memory, size, second[0], second[1], second[2]).is_err()
        }
        _ => true,
    }
}

/// A split queue that was started is moved back to where it was, whatever became of a move elsewhere. True.
pub fn moves_back(
    alloc: Global,
    queue: &mut DeviceQueue,
    given: SplitRing,
    elsewhere: [u64; 3],
) -> bool
    ensures { result ≡ true }
{
    match queue.start_split(alloc, given) {
        Ok(()) => {
            let _moved = queue.move_split(elsewhere[0], elsewhere[1], elsewhere[2]);
            let back = queue.move_split(given.desc_table, given.avail_ring, given.used_ring);
            back.is_ok()
        }
        Err(_) => true,
    }
}

/// The same of a packed queue.
pub fn moves_packed_back(
    alloc: Global,
    queue: &mut DeviceQueue,
    given: PackedRing,
    elsewhere: [u64; 3],
) -> bool
    ensures { result ≡ true }
{
    match queue.start_packed(alloc, given) {
        Ok(()) => {
            let _moved = queue.move_packed(elsewhere[0], elsewhere[1], elsewhere[2]);
            let back = queue.move_packed(given.desc_ring, given.driver_event, given.device_event);
            back.is_ok()
        }
        Err(_) => true,
    }
}

/// A chain that is followed goes on behind a move that is refused, and ends at one that is made. True.
pub fn goes_on(queue: &mut DeviceQueue, table: u64, avail: u64, used: u64) -> bool
    ensures { result ≡ true }
{
    let follows = queue.descriptor_place().is_some();
    match queue.move_split(table, avail, used) {
        Ok(()) => queue.descriptor_place().is_none(),
        Err(_) => queue.descriptor_place().is_some() == follows,
    }
}

fn lacks_memory_only(outcome: Result<()>) -> bool
    ensures added { outcome ≡ Ok tt → result ≡ true }
    ensures refused { outcome ≡ Err OutOfMemory → result ≡ true }
{
    match outcome {
        Ok(()) => true,
        Err(error) => error == Error::OutOfMemory,
    }
}
