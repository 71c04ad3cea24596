//! What a device knows that copies a chain's descriptors, that undoes a pop, or that adopts a head, by the contracts of queues alone.

ghost use Rattle.std.specs.Prelude.{◌≡◌, ◌≤◌, IfOk, length, take, true};
ghost use Rattle.vhost_c_queue.specs.DeviceQueue.{regions};
ghost use Rattle.vhost_c_queue.specs.Walking.{chain_of, most_segments};
ghost use Rattle.vhost_queue.specs.Segment.{IsSafe};

use vhost_c_queue::{DeviceQueue, Refusal};
use vhost_queue::{Descriptor, Queue, Segment};

/// What one call makes of the copies is memory that the frontend gave, in no more segments than the chain may have: how many there are.
pub fn follows_safely(
    queue: &mut DeviceQueue,
    copies: &[Descriptor],
    segments: &mut [Segment],
) -> Result<usize, Refusal>
    ensures { IfOk result (λ count. IsSafe (regions queue.old) (most_segments (chain_of queue.old.ring)) (take count segments.new) × (count ≤ length segments.new)) }
{
    let walked = queue.walk(copies, segments)?;
    Ok(walked.count)
}

/// A call leaves a copy only where there is no room for its segment. True.
pub fn takes_what_fits(
    queue: &mut DeviceQueue,
    copies: &[Descriptor],
    segments: &mut [Segment],
) -> bool
    ensures { result ≡ true }
{
    match queue.walk(copies, segments) {
        Ok(walked) => walked.taken == copies.len() || walked.count == segments.len(),
        Err(_) => true,
    }
}

/// A head that was given back is not used as well, so the driver does not get it twice. True.
pub fn forgets_what_it_gave_back(queue: &mut Queue, head: u16) -> bool
    ensures { result ≡ true }
{
    match queue.give_back(head) {
        Ok(()) => queue.add_used(head, 0).is_err(),
        Err(_) => true,
    }
}

/// A head that was adopted can be given to the driver as used. True.
pub fn uses_what_it_adopted(queue: &mut Queue, head: u16) -> bool
    ensures { result ≡ true }
{
    match queue.adopt(head) {
        Ok(()) => queue.add_used(head, 0).is_ok(),
        Err(_) => true,
    }
}
