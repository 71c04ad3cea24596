//! The memory that a queue sees.

ghost use Rattle.std.specs.Prelude.{◌≡◌, ◌++◌, ◌∷◌, [], ◌<◌, ℕ, Result, Ok, Err, ⊤, OnOk, OnErr, IfOk, IfErr, length, remove, slice_index_or, All, true, false};
ghost use Rattle.vhost_queue.specs.Memory.{is_at, translated, AreRegions, Refuses, RefusesAll};
ghost use Rattle.vhost_queue.specs.declared.error.Error.TheVariants.{NoSuchRegion};
ghost use Rattle.vhost_queue.specs.declared.memory.GuestRegion.{GuestRegion as Region};
ghost use Rattle.vhost_queue.specs.declared.memory.HostRange.{HostRange as Range};
ghost use Rattle.vhost_c_queue.specs.DeviceQueue.{Because, regions};
ghost use Rattle.vhost_c_queue.specs.Number.{outcome_number};
ghost use Rattle.vhost_c_queue.specs.declared.refusal.Refusal.{Refusal};
ghost use Rattle.vhost_c_queue_calls.specs.Calls.{Calls, Said, space_of};

use crate::holder::QueueHolder;
use crate::told::{space_of, told};
use std::alloc::Global;
use vhost_c_queue::{Refusal, number_of};
use vhost_queue::{GuestRegion, HostRange};

/// The memory that the queue sees has these regions, in the place of those that it had.
#[unsafe(no_mangle)]
pub extern "C" fn covretin_queue_set_regions(
    alloc: Global,
    queue: &mut QueueHolder,
    given: &[GuestRegion],
) -> u32
    ensures { Calls (λ s t. (r : Result ⊤ Refusal) × (result ≡ outcome_number r) × OnOk r ((regions t ≡ given.now) × AreRegions given.now) × IfErr r (Because (RefusesAll given.now)) × OnErr r (regions t ≡ regions s) × (t.ring ≡ s.ring)) queue.old.session result queue.new.session }
{
    match queue.take(alloc) {
        None => number_of(Err(Refusal::NoQueue)),
        Some(mut held) => {
            let outcome = held.set_regions(alloc, given);
            queue.put(held);
            number_of(outcome)
        }
    }
}

/// A region more.
#[unsafe(no_mangle)]
pub extern "C" fn covretin_queue_add_region(
    alloc: Global,
    queue: &mut QueueHolder,
    region: &GuestRegion,
) -> u32
    ensures { Calls (λ s t. (r : Result ⊤ Refusal) × (result ≡ outcome_number r) × OnOk r (regions t ≡ regions s ++ region.now ∷ []) × IfErr r (Because (Refuses (regions s) region.now)) × OnErr r (regions t ≡ regions s) × (t.ring ≡ s.ring)) queue.old.session result queue.new.session }
{
    match queue.take(alloc) {
        None => number_of(Err(Refusal::NoQueue)),
        Some(mut held) => {
            let outcome = held.add_region(*region);
            queue.put(held);
            number_of(outcome)
        }
    }
}

/// A region less.
#[unsafe(no_mangle)]
pub extern "C" fn covretin_queue_remove_region(
    alloc: Global,
    queue: &mut QueueHolder,
    guest_addr: u64,
    size: u64,
    user_addr: u64,
) -> u32
    ensures { Calls (λ s t. (r : Result ⊤ Refusal) × (result ≡ outcome_number r) × OnOk r ((at : ℕ) × (at < length (regions s)) × (regions t ≡ remove (regions s) at) × ((d : Region) → is_at (slice_index_or (regions s) at d) guest_addr size user_addr ≡ true)) × IfErr r (Because (λ e. (e ≡ NoSuchRegion) × All (λ x. is_at x guest_addr size user_addr ≡ false) (regions s))) × OnErr r (regions t ≡ regions s) × (t.ring ≡ s.ring)) queue.old.session result queue.new.session }
{
    match queue.take(alloc) {
        None => number_of(Err(Refusal::NoQueue)),
        Some(mut held) => {
            let outcome = held.remove_region(guest_addr, size, user_addr);
            queue.put(held);
            number_of(outcome)
        }
    }
}

/// Where a range of the guest's addresses, or of the frontend's, is mapped.
#[unsafe(no_mangle)]
pub extern "C" fn covretin_queue_translate(
    alloc: Global,
    queue: &mut QueueHolder,
    user: bool,
    addr: u64,
    len: u64,
    range: &mut HostRange,
) -> u32
    ensures { Calls (λ s t. (r : Result Range Refusal) × Said r result range.old range.new × IfOk r (λ x. translated (space_of user) (regions s) addr len ≡ Ok x) × IfErr r (Because (λ e. translated (space_of user) (regions s) addr len ≡ Err e)) × (regions t ≡ regions s) × (t.ring ≡ s.ring)) queue.old.session result queue.new.session }
{
    match queue.take(alloc) {
        None => number_of(Err(Refusal::NoQueue)),
        Some(mut held) => {
            let outcome = held.translate(space_of(user), addr, len);
            queue.put(held);
            told(outcome, range)
        }
    }
}
