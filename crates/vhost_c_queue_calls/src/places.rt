//! What is to be read and written next.

ghost use Rattle.std.specs.Prelude.{◌≡◌, Option, Result, Ok};
ghost use Rattle.vhost_queue.specs.declared.memory.HostRange.{HostRange as Range};
ghost use Rattle.vhost_c_queue.specs.DeviceQueue.{available_place, descriptor_place, event_write, head_place, heads_place, notification_place};
ghost use Rattle.vhost_c_queue.specs.declared.records.EventWrite.{EventWrite as Event};
ghost use Rattle.vhost_c_queue.specs.declared.refusal.Refusal.{Refusal};
ghost use Rattle.vhost_c_queue_calls.specs.Calls.{Calls, Said, SaidIf};

use crate::holder::QueueHolder;
use crate::told::{told, told_if};
use std::alloc::Global;
use vhost_c_queue::{EventWrite, Refusal, number_of};
use vhost_queue::HostRange;

/// Where what is available is to be read.
#[unsafe(no_mangle)]
pub extern "C" fn covretin_queue_available_place(
    alloc: Global,
    queue: &mut QueueHolder,
    place: &mut HostRange,
) -> u32
    ensures { Calls (λ s t. (r : Result Range Refusal) × Said r result place.old place.new × (r ≡ available_place s.ring) × (t ≡ s)) queue.old.session result queue.new.session }
{
    match queue.take(alloc) {
        None => number_of(Err(Refusal::NoQueue)),
        Some(held) => {
            let outcome = held.available_place();
            queue.put(held);
            told(outcome, place)
        }
    }
}

/// The entry of a split queue's available ring that is to be read next.
#[unsafe(no_mangle)]
pub extern "C" fn covretin_queue_head_place(
    alloc: Global,
    queue: &mut QueueHolder,
    place: &mut HostRange,
) -> u32
    ensures { Calls (λ s t. (r : Result Range Refusal) × Said r result place.old place.new × (r ≡ head_place s.ring) × (t ≡ s)) queue.old.session result queue.new.session }
{
    match queue.take(alloc) {
        None => number_of(Err(Refusal::NoQueue)),
        Some(held) => {
            let outcome = held.head_place();
            queue.put(held);
            told(outcome, place)
        }
    }
}

/// The entries of a split queue's available ring that are to be read next, one behind the other: so many at most.
#[unsafe(no_mangle)]
pub extern "C" fn covretin_queue_heads_place(
    alloc: Global,
    queue: &mut QueueHolder,
    most: usize,
    place: &mut HostRange,
) -> u32
    ensures { Calls (λ s t. (r : Result Range Refusal) × Said r result place.old place.new × (r ≡ heads_place s.ring most) × (t ≡ s)) queue.old.session result queue.new.session }
{
    match queue.take(alloc) {
        None => number_of(Err(Refusal::NoQueue)),
        Some(held) => {
            let outcome = held.heads_place(most);
            queue.put(held);
            told(outcome, place)
        }
    }
}

/// What is to be read of when the driver wants to be told.
#[unsafe(no_mangle)]
pub extern "C" fn covretin_queue_notification_place(
    alloc: Global,
    queue: &mut QueueHolder,
    place: &mut HostRange,
) -> u32
    ensures { Calls (λ s t. (r : Result Range Refusal) × Said r result place.old place.new × (r ≡ notification_place s.ring) × (t ≡ s)) queue.old.session result queue.new.session }
{
    match queue.take(alloc) {
        None => number_of(Err(Refusal::NoQueue)),
        Some(held) => {
            let outcome = held.notification_place();
            queue.put(held);
            told(outcome, place)
        }
    }
}

/// What is to be written so that the driver tells, or does not tell, of what it makes available from now on.
#[unsafe(no_mangle)]
pub extern "C" fn covretin_queue_set_notification(
    alloc: Global,
    queue: &mut QueueHolder,
    enable: bool,
    write: &mut EventWrite,
) -> u32
    ensures { Calls (λ s t. (r : Result Event Refusal) × Said r result write.old write.new × (r ≡ event_write s.ring enable) × (t ≡ s)) queue.old.session result queue.new.session }
{
    match queue.take(alloc) {
        None => number_of(Err(Refusal::NoQueue)),
        Some(held) => {
            let outcome = held.set_notification(enable);
            queue.put(held);
            told(outcome, write)
        }
    }
}

/// The descriptor that is to be read next, if the chain that is followed goes on.
#[unsafe(no_mangle)]
pub extern "C" fn covretin_queue_descriptor_place(
    alloc: Global,
    queue: &mut QueueHolder,
    place: &mut HostRange,
    found: &mut bool,
) -> u32
    ensures { Calls (λ s t. (r : Result (Option Range) Refusal) × SaidIf r result place.old place.new found.old found.new × (r ≡ Ok (descriptor_place s.ring)) × (t ≡ s)) queue.old.session result queue.new.session }
{
    match queue.take(alloc) {
        None => number_of(Err(Refusal::NoQueue)),
        Some(held) => {
            let outcome = held.descriptor_place();
            queue.put(held);
            told_if(Ok(outcome), place, found)
        }
    }
}
