//! What was read.

ghost use Rattle.std.specs.Prelude.{◌≡◌, ℕ, Bool, Option, None, Result, Err, ⊤, length, take};
ghost use Rattle.vhost_queue.specs.Queue.{adopted, broken, given_back, popped, refused_pop, resubmitted};
ghost use Rattle.vhost_queue.specs.declared.descriptor.Segment.{Segment as Part};
ghost use Rattle.vhost_c_queue.specs.DeviceQueue.{Alters, Answers, ByLayout, HearsPacked, HearsSplit, Takes, TakesAgain, TellsPacked, TellsSplit, UsesPacked, UsesSplit, regions};
ghost use Rattle.vhost_c_queue.specs.Number.{outcome_number};
ghost use Rattle.vhost_c_queue.specs.Using.{UsesAll};
ghost use Rattle.vhost_c_queue.specs.Walking.{Steps};
ghost use Rattle.vhost_c_queue.specs.declared.records.Used.{Used as Elem};
ghost use Rattle.vhost_c_queue.specs.declared.refusal.Refusal.{Refusal};
ghost use Rattle.vhost_c_queue.specs.declared.refusal.Refusal.TheVariants.{NotStarted, OtherLayout};
ghost use Rattle.vhost_c_queue_calls.specs.Calls.{Calls, Said, SaidIf};

use crate::holder::QueueHolder;
use crate::told::{told, told_if};
use std::alloc::Global;
use vhost_c_queue::{Refusal, Used, number_of};
use vhost_queue::{Descriptor, Segment};

/// What is available was read as this: how many chains are. Of a packed queue at most one is told, and it is followed.
#[unsafe(no_mangle)]
pub extern "C" fn covretin_queue_available(
    alloc: Global,
    queue: &mut QueueHolder,
    value: u16,
    count: &mut u16,
) -> u32
    ensures { Calls (λ s t. (r : Result ℕ Refusal) × Said r result count.old count.new × ByLayout (HearsSplit value r) (HearsPacked value r) (r ≡ Err NotStarted) s.ring t.ring × (regions t ≡ regions s)) queue.old.session result queue.new.session }
{
    match queue.take(alloc) {
        None => number_of(Err(Refusal::NoQueue)),
        Some(mut held) => {
            let outcome = held.available(value);
            queue.put(held);
            told(outcome, count)
        }
    }
}

/// The next entry of a split queue's available ring was read as this head, whose chain is followed.
#[unsafe(no_mangle)]
pub extern "C" fn covretin_queue_pop(alloc: Global, queue: &mut QueueHolder, head: u16) -> u32
    ensures { Calls (λ s t. (r : Result ⊤ Refusal) × (result ≡ outcome_number r) × ByLayout (Takes popped refused_pop head r) (λ q p. (r ≡ Err OtherLayout) × (p ≡ q)) (r ≡ Err NotStarted) s.ring t.ring × (regions t ≡ regions s)) queue.old.session result queue.new.session }
{
    match queue.take(alloc) {
        None => number_of(Err(Refusal::NoQueue)),
        Some(mut held) => {
            let outcome = held.pop(head);
            queue.put(held);
            number_of(outcome)
        }
    }
}

/// This head was a split queue's before a crash, and its chain is followed again.
#[unsafe(no_mangle)]
pub extern "C" fn covretin_queue_resubmit(alloc: Global, queue: &mut QueueHolder, head: u16) -> u32
    ensures { Calls (λ s t. (r : Result ⊤ Refusal) × (result ≡ outcome_number r) × ByLayout (Takes resubmitted broken head r) (λ q p. (r ≡ Err OtherLayout) × (p ≡ q)) (r ≡ Err NotStarted) s.ring t.ring × (regions t ≡ regions s)) queue.old.session result queue.new.session }
{
    match queue.take(alloc) {
        None => number_of(Err(Refusal::NoQueue)),
        Some(mut held) => {
            let outcome = held.resubmit(head);
            queue.put(held);
            number_of(outcome)
        }
    }
}

/// The last entry of a split queue's available ring that was read is to be read again, and this head of it is not the device's.
#[unsafe(no_mangle)]
pub extern "C" fn covretin_queue_give_back(alloc: Global, queue: &mut QueueHolder, head: u16) -> u32
    ensures { Calls (λ s t. (r : Result ⊤ Refusal) × (result ≡ outcome_number r) × ByLayout (Alters given_back head r) (λ q p. (r ≡ Err OtherLayout) × (p ≡ q)) (r ≡ Err NotStarted) s.ring t.ring × (regions t ≡ regions s)) queue.old.session result queue.new.session }
{
    match queue.take(alloc) {
        None => number_of(Err(Refusal::NoQueue)),
        Some(mut held) => {
            let outcome = held.give_back(head);
            queue.put(held);
            number_of(outcome)
        }
    }
}

/// The chain of this head is a split queue's device's: it was taken before the queue was started. It is not followed.
#[unsafe(no_mangle)]
pub extern "C" fn covretin_queue_adopt(alloc: Global, queue: &mut QueueHolder, head: u16) -> u32
    ensures { Calls (λ s t. (r : Result ⊤ Refusal) × (result ≡ outcome_number r) × ByLayout (Alters adopted head r) (λ q p. (r ≡ Err OtherLayout) × (p ≡ q)) (r ≡ Err NotStarted) s.ring t.ring × (regions t ≡ regions s)) queue.old.session result queue.new.session }
{
    match queue.take(alloc) {
        None => number_of(Err(Refusal::NoQueue)),
        Some(mut held) => {
            let outcome = held.adopt(head);
            queue.put(held);
            number_of(outcome)
        }
    }
}

/// A chain was a packed queue's before a crash, and is followed again.
#[unsafe(no_mangle)]
pub extern "C" fn covretin_queue_resubmit_packed(alloc: Global, queue: &mut QueueHolder) -> u32
    ensures { Calls (λ s t. (r : Result ⊤ Refusal) × (result ≡ outcome_number r) × ByLayout (λ q p. (r ≡ Err OtherLayout) × (p ≡ q)) (TakesAgain r) (r ≡ Err NotStarted) s.ring t.ring × (regions t ≡ regions s)) queue.old.session result queue.new.session }
{
    match queue.take(alloc) {
        None => number_of(Err(Refusal::NoQueue)),
        Some(mut held) => {
            let outcome = held.resubmit_packed();
            queue.put(held);
            number_of(outcome)
        }
    }
}

/// The next descriptor was read as these 16 bytes: its segment, if it has one.
#[unsafe(no_mangle)]
pub extern "C" fn covretin_queue_step(
    alloc: Global,
    queue: &mut QueueHolder,
    descriptor: &Descriptor,
    segment: &mut Segment,
    found: &mut bool,
) -> u32
    ensures { Calls (λ s t. (r : Result (Option Part) Refusal) × SaidIf r result segment.old segment.new found.old found.new × Steps (regions s) descriptor.now r s.ring t.ring × (regions t ≡ regions s)) queue.old.session result queue.new.session }
{
    match queue.take(alloc) {
        None => number_of(Err(Refusal::NoQueue)),
        Some(mut held) => {
            let outcome = held.step(*descriptor);
            queue.put(held);
            told_if(outcome, segment, found)
        }
    }
}

/// The device is done with the chain of this head or id, and wrote so many bytes: what is to be written.
#[unsafe(no_mangle)]
pub extern "C" fn covretin_queue_add_used(
    alloc: Global,
    queue: &mut QueueHolder,
    id: u16,
    len: u32,
    used: &mut Used,
) -> u32
    ensures { Calls (λ s t. (r : Result Elem Refusal) × Said r result used.old used.new × ByLayout (UsesSplit id len r) (UsesPacked id len r) (r ≡ Err NotStarted) s.ring t.ring × (regions t ≡ regions s)) queue.old.session result queue.new.session }
{
    match queue.take(alloc) {
        None => number_of(Err(Refusal::NoQueue)),
        Some(mut held) => {
            let outcome = held.add_used(id, len);
            queue.put(held);
            told(outcome, used)
        }
    }
}

/// The device is done with the chains of these heads or ids, and wrote so many bytes of each: how many of them it was done with, in order, and what
/// is to be written for each.
#[unsafe(no_mangle)]
pub extern "C" fn covretin_queue_add_used_many(
    alloc: Global,
    queue: &mut QueueHolder,
    ids: &[u16],
    lens: &[u32],
    used: &mut [Used],
    done: &mut usize,
) -> u32
    ensures calls { Calls (λ s t. (r : Result ⊤ Refusal) × (result ≡ outcome_number r) × UsesAll ids.now lens.now (length used.old) r done.new (take done.new used.new) s.ring t.ring × (regions t ≡ regions s)) queue.old.session result queue.new.session }
    ensures len { length used.new ≡ length used.old }
    ensures none { queue.old.session ≡ None → done.new ≡ 0 }
{
    match queue.take(alloc) {
        None => {
            *done = 0;
            number_of(Err(Refusal::NoQueue))
        }
        Some(mut held) => {
            let (count, outcome) = held.add_used_many(ids, lens, used);
            queue.put(held);
            *done = count;
            number_of(outcome)
        }
    }
}

/// Whether the driver is to be told of what was used since this was last asked, where this was read.
#[unsafe(no_mangle)]
pub extern "C" fn covretin_queue_needs_notification(
    alloc: Global,
    queue: &mut QueueHolder,
    value: u16,
    flags: u16,
    told_of: &mut bool,
) -> u32
    ensures { Calls (λ s t. (r : Result Bool Refusal) × Said r result told_of.old told_of.new × Answers r (TellsSplit value) (TellsPacked value flags) s.ring t.ring × (regions t ≡ regions s)) queue.old.session result queue.new.session }
{
    match queue.take(alloc) {
        None => number_of(Err(Refusal::NoQueue)),
        Some(mut held) => {
            let outcome = held.needs_notification(value, flags);
            queue.put(held);
            told(outcome, told_of)
        }
    }
}
