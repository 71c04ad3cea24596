//! The descriptors of a chain that are as most are, in a tight loop.

ghost use Rattle.std.specs.Prelude.{◌≡◌, ◌≤◌, length, take};
ghost use Rattle.vhost_queue.specs.Queue.{IsSameQueue, Runs};

use crate::descriptor::{Descriptor, Segment};
use crate::memory::GuestMemory;
use crate::queue::Queue;

/// The descriptors that come next were read as these, one behind the other: how many of the first were followed, each as a whole, and how many
/// segments they are. The next one lies in more than one region, or `step` refuses it; or there is no place for its segment, or none comes.
pub fn run_of(
    memory: &mut GuestMemory,
    queue: &mut Queue,
    copies: &[Descriptor],
    segments: &mut [Segment],
) -> (usize, usize)
    ensures runs { Runs memory.old.regions.items copies.now queue.old result.0 (take result.1 segments.new) queue.new }
    ensures most { (result.0 ≤ length copies.now) × (result.1 ≤ length segments.new) }
    ensures len { length segments.new ≡ length segments.old }
    ensures memory { memory.new.regions.items ≡ memory.old.regions.items }
    ensures rings { IsSameQueue queue.old queue.new }
{
    let mut at = 0usize;
    while at < copies.len() && at < segments.len() {
        let Some(segment) = queue.pass(memory, copies[at]) else {
            if queue.nest(memory, copies[at]) {
                return (at + 1, at);
            }
            return (at, at);
        };
        segments[at] = segment;
        at += 1;
    }
    (at, at)
}
