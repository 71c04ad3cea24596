//! The rings of a queue.

ghost use Rattle.std.specs.Prelude.{◌≡◌, ℕ, Bool, Result, Ok, ⊤, OnOk, OnErr, IfErr};
ghost use Rattle.vhost_c_queue.specs.DeviceQueue.{Because, ByLayout, IsPacked, IsSplit, MovesPacked, MovesSplit, RefusesPacked, RefusesSplit, StartsPacked, StartsSplit, StaysPacked, StaysSplit, base, needs_reset, regions};
ghost use Rattle.vhost_c_queue.specs.Number.{outcome_number};
ghost use Rattle.vhost_c_queue.specs.declared.device_queue.Ring.TheVariants.{Stopped};
ghost use Rattle.vhost_c_queue.specs.declared.refusal.Refusal.{Refusal};
ghost use Rattle.vhost_c_queue_calls.specs.Calls.{Calls, Said};

use crate::holder::QueueHolder;
use crate::told::told;
use std::alloc::Global;
use vhost_c_queue::{PackedRing, Refusal, SplitRing, number_of};

/// The queue is a split one from now on, and begins there.
#[unsafe(no_mangle)]
pub extern "C" fn covretin_queue_start_split(
    alloc: Global,
    queue: &mut QueueHolder,
    given: &SplitRing,
) -> u32
    ensures { Calls (λ s t. (r : Result ⊤ Refusal) × (result ≡ outcome_number r) × OnOk r (IsSplit (StartsSplit (regions s) given.now) t.ring) × IfErr r (Because (RefusesSplit (regions s) given.now)) × OnErr r (t.ring ≡ s.ring) × (regions t ≡ regions s)) queue.old.session result queue.new.session }
{
    match queue.take(alloc) {
        None => number_of(Err(Refusal::NoQueue)),
        Some(mut held) => {
            let outcome = held.start_split(alloc, *given);
            queue.put(held);
            number_of(outcome)
        }
    }
}

/// The queue is a packed one from now on, and begins there.
#[unsafe(no_mangle)]
pub extern "C" fn covretin_queue_start_packed(
    alloc: Global,
    queue: &mut QueueHolder,
    given: &PackedRing,
) -> u32
    ensures { Calls (λ s t. (r : Result ⊤ Refusal) × (result ≡ outcome_number r) × OnOk r (IsPacked (StartsPacked (regions s) given.now) t.ring) × IfErr r (Because (RefusesPacked (regions s) given.now)) × OnErr r (t.ring ≡ s.ring) × (regions t ≡ regions s)) queue.old.session result queue.new.session }
{
    match queue.take(alloc) {
        None => number_of(Err(Refusal::NoQueue)),
        Some(mut held) => {
            let outcome = held.start_packed(alloc, *given);
            queue.put(held);
            number_of(outcome)
        }
    }
}

/// The rings of a split queue are mapped elsewhere, since regions are.
#[unsafe(no_mangle)]
pub extern "C" fn covretin_queue_move_split(
    alloc: Global,
    queue: &mut QueueHolder,
    desc_table: u64,
    avail_ring: u64,
    used_ring: u64,
) -> u32
    ensures { Calls (λ s t. (r : Result ⊤ Refusal) × (result ≡ outcome_number r) × OnOk r (ByLayout (MovesSplit (regions s) desc_table avail_ring used_ring) (λ q p. ⊥) ⊥ s.ring t.ring) × IfErr r (StaysSplit (regions s) desc_table avail_ring used_ring s.ring) × OnErr r (t.ring ≡ s.ring) × (regions t ≡ regions s)) queue.old.session result queue.new.session }
{
    match queue.take(alloc) {
        None => number_of(Err(Refusal::NoQueue)),
        Some(mut held) => {
            let outcome = held.move_split(desc_table, avail_ring, used_ring);
            queue.put(held);
            number_of(outcome)
        }
    }
}

/// The rings of a packed queue are mapped elsewhere, since regions are.
#[unsafe(no_mangle)]
pub extern "C" fn covretin_queue_move_packed(
    alloc: Global,
    queue: &mut QueueHolder,
    desc_ring: u64,
    driver_event: u64,
    device_event: u64,
) -> u32
    ensures { Calls (λ s t. (r : Result ⊤ Refusal) × (result ≡ outcome_number r) × OnOk r (ByLayout (λ q p. ⊥) (MovesPacked (regions s) desc_ring driver_event device_event) ⊥ s.ring t.ring) × IfErr r (StaysPacked (regions s) desc_ring driver_event device_event s.ring) × OnErr r (t.ring ≡ s.ring) × (regions t ≡ regions s)) queue.old.session result queue.new.session }
{
    match queue.take(alloc) {
        None => number_of(Err(Refusal::NoQueue)),
        Some(mut held) => {
            let outcome = held.move_packed(desc_ring, driver_event, device_event);
            queue.put(held);
            number_of(outcome)
        }
    }
}

/// The base of the ring, for whoever goes on with it.
#[unsafe(no_mangle)]
pub extern "C" fn covretin_queue_base(
    alloc: Global,
    queue: &mut QueueHolder,
    number: &mut u32,
) -> u32
    ensures { Calls (λ s t. (r : Result ℕ Refusal) × Said r result number.old number.new × (r ≡ base s.ring) × (t ≡ s)) queue.old.session result queue.new.session }
{
    match queue.take(alloc) {
        None => number_of(Err(Refusal::NoQueue)),
        Some(held) => {
            let outcome = held.base();
            queue.put(held);
            told(outcome, number)
        }
    }
}

/// The queue has no rings any more.
#[unsafe(no_mangle)]
pub extern "C" fn covretin_queue_stop(alloc: Global, queue: &mut QueueHolder) -> u32
    ensures { Calls (λ s t. (r : Result ⊤ Refusal) × (result ≡ outcome_number r) × (r ≡ Ok tt) × (t.ring ≡ Stopped) × (regions t ≡ regions s)) queue.old.session result queue.new.session }
{
    match queue.take(alloc) {
        None => number_of(Err(Refusal::NoQueue)),
        Some(mut held) => {
            held.stop();
            queue.put(held);
            number_of(Ok(()))
        }
    }
}

/// Whether the driver broke a rule. Then nothing more is taken from the queue.
#[unsafe(no_mangle)]
pub extern "C" fn covretin_queue_needs_reset(
    alloc: Global,
    queue: &mut QueueHolder,
    broken: &mut bool,
) -> u32
    ensures { Calls (λ s t. (r : Result Bool Refusal) × Said r result broken.old broken.new × (r ≡ Ok (needs_reset s.ring)) × (t ≡ s)) queue.old.session result queue.new.session }
{
    match queue.take(alloc) {
        None => number_of(Err(Refusal::NoQueue)),
        Some(held) => {
            let outcome = held.needs_reset();
            queue.put(held);
            told(Ok(outcome), broken)
        }
    }
}
