//! A chain whose descriptors were read one behind the other.

ghost use Rattle.std.specs.Prelude.{◌≡◌, Result, Ok, length, IfOk, IfErr};
ghost use Rattle.vhost_c_queue.specs.DeviceQueue.{regions};
ghost use Rattle.vhost_c_queue.specs.Taking.{NotTaken, TakesTo};
ghost use Rattle.vhost_c_queue.specs.Walking.{Stops, WalksTo, chain_of, table_at};
ghost use Rattle.vhost_c_queue.specs.declared.records.Table.{Table as Place};
ghost use Rattle.vhost_c_queue.specs.declared.records.Walked.{Walked as Far};
ghost use Rattle.vhost_c_queue.specs.declared.refusal.Refusal.{Refusal};
ghost use Rattle.vhost_c_queue_calls.specs.Calls.{Calls, Said};

use crate::holder::QueueHolder;
use crate::told::told;
use std::alloc::Global;
use vhost_c_queue::{Refusal, Table, Walked, number_of};
use vhost_queue::{Descriptor, Segment};

/// Where the chain that is followed goes on.
#[unsafe(no_mangle)]
pub extern "C" fn covretin_queue_table(
    alloc: Global,
    queue: &mut QueueHolder,
    table: &mut Table,
) -> u32
    ensures { Calls (λ s t. (r : Result Place Refusal) × Said r result table.old table.new × (r ≡ Ok (table_at (chain_of s.ring))) × (t ≡ s)) queue.old.session result queue.new.session }
{
    match queue.take(alloc) {
        None => number_of(Err(Refusal::NoQueue)),
        Some(held) => {
            let outcome = held.table();
            queue.put(held);
            told(Ok(outcome), table)
        }
    }
}

/// The descriptors that come next were read as these, one behind the other: how far the chain was followed by them, and its segments.
#[unsafe(no_mangle)]
pub extern "C" fn covretin_queue_walk(
    alloc: Global,
    queue: &mut QueueHolder,
    copies: &[Descriptor],
    segments: &mut [Segment],
    walked: &mut Walked,
) -> u32
    ensures { Calls (λ s t. (r : Result Far Refusal) × Said r result walked.old walked.new × IfOk r (λ w. WalksTo (regions s) copies.now segments.new w s.ring t.ring) × IfErr r (λ f. Stops (regions s) copies.now f s.ring t.ring) × (length segments.new ≡ length segments.old) × (regions t ≡ regions s)) queue.old.session result queue.new.session }
{
    match queue.take(alloc) {
        None => number_of(Err(Refusal::NoQueue)),
        Some(mut held) => {
            let outcome = held.walk(copies, segments);
            queue.put(held);
            told(outcome, walked)
        }
    }
}

/// The next chain begins, where this was read: the next entry of a split queue's available ring, or the flags of a packed queue's next place. And its
/// first descriptors were read as these: how far it was followed by them, and its segments.
#[unsafe(no_mangle)]
pub extern "C" fn covretin_queue_take(
    alloc: Global,
    queue: &mut QueueHolder,
    value: u16,
    copies: &[Descriptor],
    segments: &mut [Segment],
    walked: &mut Walked,
) -> u32
    ensures { Calls (λ s t. (r : Result Far Refusal) × Said r result walked.old walked.new × IfOk r (λ w. TakesTo (regions s) value copies.now segments.new w s.ring t.ring) × IfErr r (λ f. NotTaken (regions s) value copies.now f s.ring t.ring) × (length segments.new ≡ length segments.old) × (regions t ≡ regions s)) queue.old.session result queue.new.session }
{
    match queue.take(alloc) {
        None => number_of(Err(Refusal::NoQueue)),
        Some(mut held) => {
            let outcome = held.take(value, copies, segments);
            queue.put(held);
            told(outcome, walked)
        }
    }
}
