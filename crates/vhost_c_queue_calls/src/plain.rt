//! What needs no queue: the inflight region and the dirty log.

ghost use Rattle.std.specs.Prelude.{◌≡◌, ◌≢◌, ℕ, ◌⊎◌, ◌+◌, ◌*◌, ◌/◌, ◌%◌, ◌^◌, ◌<◌, ◌≤◌, ◌↔◌, IsPermutation, Ok, length, take};
ghost use Rattle.std.specs.List.Sorted.{IsNonDecreasingBy};
ghost use Rattle.vhost_queue.specs.Inflight.{at, entry, pending, settled as settled_of};
ghost use Rattle.vhost_queue.specs.Log.{HasByte};
ghost use Rattle.vhost_c_queue_calls.specs.Recovering.{RefusesRecovery};

use std::alloc::Global;
use vhost_c_queue::{Refusal, number_of};
use vhost_queue::{
    InflightEntry, InflightWrite, LogBit, Resubmit, dirty_pages, inflight_after_used,
    inflight_before_used, inflight_take, log_bit, recover,
};

/// What is to be written in the inflight region once this head was taken, and before it is served, in this order.
#[unsafe(no_mangle)]
pub extern "C" fn covretin_inflight_take(
    head: u16,
    counter: u64,
    first: &mut InflightWrite,
    second: &mut InflightWrite,
)
    ensures first { first.new ≡ at (entry head + 8) 8 counter }
    ensures second { second.new ≡ at (entry head) 1 1 }
{
    let [one, two] = inflight_take(head, counter);
    *first = one;
    *second = two;
}

/// What is to be written there before the used ring's index tells of this head, in this order.
#[unsafe(no_mangle)]
pub extern "C" fn covretin_inflight_before_used(
    head: u16,
    last: u16,
    first: &mut InflightWrite,
    second: &mut InflightWrite,
)
    ensures first { first.new ≡ at (entry head + 6) 2 last }
    ensures second { second.new ≡ at 12 2 head }
{
    let [one, two] = inflight_before_used(head, last);
    *first = one;
    *second = two;
}

/// What is to be written there after the used ring's index told of this head, in this order.
#[unsafe(no_mangle)]
pub extern "C" fn covretin_inflight_after_used(
    head: u16,
    idx: u16,
    first: &mut InflightWrite,
    second: &mut InflightWrite,
)
    ensures first { first.new ≡ at (entry head) 1 0 }
    ensures second { second.new ≡ at 14 2 idx }
{
    let [one, two] = inflight_after_used(head, idx);
    *first = one;
    *second = two;
}

/// The pages of a range of guest addresses that a log of so many bytes has bits for: from the first, up to the end.
#[unsafe(no_mangle)]
pub extern "C" fn covretin_log_pages(
    addr: u64,
    len: u64,
    log_size: u64,
    first: &mut u64,
    end: &mut u64,
) -> u32
    ensures touched { result ≡ 0 → (p : ℕ) → ((first.new ≤ p) × (p < end.new)) ↔ (HasByte addr len p × (p < 8 * log_size)) }
    ensures reason { (result ≡ 0) ⊎ ((result ≡ 9) × (2 ^ 64 ≤ addr + len)) }
    ensures err { result ≢ 0 → (first.new ≡ first.old) × (end.new ≡ end.old) }
{
    match dirty_pages(addr, len, log_size) {
        Ok(pages) => {
            *first = pages.first;
            *end = pages.end;
            number_of(Ok(()))
        }
        Err(error) => number_of(Err(Refusal::Queue(error))),
    }
}

/// The bit of a page in the log.
#[unsafe(no_mangle)]
pub extern "C" fn covretin_log_bit_of(page: u64, bit: &mut LogBit)
    ensures byte { bit.new.byte ≡ page / 8 }
    ensures mask { bit.new.mask ≡ 2 ^ (page % 8) }
{
    *bit = log_bit(page);
}

/// Which heads were in flight before a crash, in the order in which they were taken, and of which heads the entry is to be
/// cleared, since they were used. INVALID_INFLIGHT: the last batch has more entries than the queue, or one that it has not. NO_ROOM: there is
/// no mark for each entry, or less room than heads to take again. A refusal writes nothing.
#[unsafe(no_mangle)]
pub extern "C" fn covretin_inflight_recover(
    alloc: Global,
    entries: &[InflightEntry],
    last_batch_head: u16,
    used_idx: u16,
    ring_idx: u16,
    settled: &mut [bool],
    again: &mut [Resubmit],
    count: &mut usize,
) -> u32
    ensures settled { result ≡ 0 → settled_of entries.now last_batch_head used_idx ring_idx ≡ Ok settled.new }
    ensures count { result ≡ 0 → count.new ≡ length (pending entries.now settled.new 0) }
    ensures again { result ≡ 0 → IsPermutation (pending entries.now settled.new 0) (take count.new again.new) }
    ensures in_order { result ≡ 0 → IsNonDecreasingBy (λ a. a.counter) (take count.new again.new) }
    ensures reason { (result ≡ 0) ⊎ RefusesRecovery entries.now (settled_of entries.now last_batch_head used_idx ring_idx) settled.old again.old result }
    ensures err { result ≢ 0 → (settled.new ≡ settled.old) × (again.new ≡ again.old) × (count.new ≡ count.old) }
{
    match recover(alloc, entries, last_batch_head, used_idx, ring_idx) {
        Ok(recovered) => {
            if settled.len() != recovered.settled.len() || again.len() < recovered.again.len() {
                return number_of(Err(Refusal::NoRoom));
            }
            settled.copy_from_slice(&recovered.settled);
            again[..recovered.again.len()].copy_from_slice(&recovered.again);
            *count = recovered.again.len();
            number_of(Ok(()))
        }
        Err(error) => number_of(Err(Refusal::Queue(error))),
    }
}
