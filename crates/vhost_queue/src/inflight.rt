//! What is kept of a split queue in the inflight region, so that whoever comes after a crash knows what was in flight
//! (vhost-user specification, "Inflight I/O tracking").

ghost use Rattle.std.specs.Prelude.{◌≡◌, ℕ, ◌<◌, All, [], ◌∷◌, ◌+◌, ◌≤◌, ◌⊎◌, false, replicate, IsPermutation, IfOk, IfErr, Ok, Err, length};
ghost use Rattle.std.specs.List.Sorted.{IsNonDecreasingBy};
ghost use Rattle.vhost_queue.specs.Inflight.{at, entry, marked, pending, settled, LiesInArea};
ghost use Rattle.vhost_queue.specs.declared.error.Error.TheVariants.{OutOfMemory};

use crate::error::{Error, Result};
use crate::rings::MAX_SIZE;
use std::alloc::Global;

/// Bytes of a value, least first, that are to be written in a queue's area of the region.
#[repr(C)]
#[derive(Clone, Copy, Drop)]
pub struct InflightWrite {
    pub offset: u64,
    pub len: u64,
    pub value: u64,
}

/// The state of a head as the region says it: `DescStateSplit`.
#[repr(C)]
#[derive(Clone, Copy, Drop)]
pub struct InflightEntry {
    pub inflight: bool,
    pub next: u16,
    pub counter: u64,
}

/// A head that is to be taken again.
#[repr(C)]
#[derive(Clone, Copy, Drop)]
pub struct Resubmit {
    pub counter: u64,
    pub head: u16,
}

/// What a crash left: the heads whose entry is to be cleared, since they were used, and those to be taken again, in order.
#[derive(Drop)]
pub struct Recovered {
    pub settled: Vec<bool>,
    pub again: Vec<Resubmit>,
}

// Where an entry's fields lie in the area, and those of its head.
fn entry_at(head: u16) -> u64
    ensures { result ≡ entry head }
{
    16 + 16 * u64::from(head)
}

const LAST_BATCH_HEAD: u64 = 12;

const USED_IDX: u64 = 14;

/// What is to be written once this head was taken, and before it is served, in this order. The counter is that of all heads that
/// were taken so far.
pub fn inflight_take(head: u16, counter: u64) -> [InflightWrite; 2]
    ensures exact { result ≡ at (entry head + 8) 8 counter ∷ at (entry head) 1 1 ∷ [] }
    ensures within { (size : ℕ) → head < size → All (LiesInArea size) result }
{
    let entry = entry_at(head);
    [write(entry + 8, 8, counter), write(entry, 1, 1)]
}

/// What is to be written before the used ring's index tells of this head, in this order. `last` is the head that was used before.
pub fn inflight_before_used(head: u16, last: u16) -> [InflightWrite; 2]
    ensures exact { result ≡ at (entry head + 6) 2 last ∷ at 12 2 head ∷ [] }
    ensures within { (size : ℕ) → head < size → All (LiesInArea size) result }
{
    let entry = entry_at(head);
    [
        write(entry + 6, 2, u64::from(last)),
        write(LAST_BATCH_HEAD, 2, u64::from(head)),
    ]
}

/// What is to be written after the used ring's index told of this head, in this order.
pub fn inflight_after_used(head: u16, idx: u16) -> [InflightWrite; 2]
    ensures exact { result ≡ at (entry head) 1 0 ∷ at 14 2 idx ∷ [] }
    ensures within { (size : ℕ) → head < size → All (LiesInArea size) result }
{
    let entry = entry_at(head);
    [write(entry, 1, 0), write(USED_IDX, 2, u64::from(idx))]
}

pub(crate) fn write(offset: u64, len: u64, value: u64) -> InflightWrite
    ensures { result ≡ at offset len value }
{
    InflightWrite { offset, len, value }
}

/// Which heads were in flight, where the region says this, and the used ring's index is `ring_idx`: each once, in the order in
/// which they were taken. InvalidInflight: the last batch has more entries than the queue, or one that it has not.
pub fn recover(
    alloc: Global,
    entries: &[InflightEntry],
    last_batch_head: u16,
    used_idx: u16,
    ring_idx: u16,
) -> Result<Recovered>
    ensures settled { IfOk result (λ r. settled entries.now last_batch_head used_idx ring_idx ≡ Ok r.settled.items) }
    ensures again { IfOk result (λ r. IsPermutation (pending entries.now r.settled.items 0) r.again.items) }
    ensures in_order { IfOk result (λ r. IsNonDecreasingBy (λ a. a.counter) r.again.items) }
    ensures err { IfErr result (λ e. (e ≡ OutOfMemory) ⊎ (settled entries.now last_batch_head used_idx ring_idx ≡ Err e)) }
{
    let batch = ring_idx.wrapping_sub(used_idx);
    if entries.len() > usize::from(MAX_SIZE) || usize::from(batch) > entries.len() {
        return Err(Error::InvalidInflight);
    }
    let settled = mark_batch(alloc, entries, last_batch_head, batch)?;
    let again = in_flight(alloc, entries, &settled)?;
    Ok(Recovered { settled, again })
}

// The heads of the last batch.
fn mark_batch(alloc: Global, entries: &[InflightEntry], first: u16, count: u16) -> Result<Vec<bool>>
    ensures ok { IfOk result (λ marks. marked entries.now count first (replicate (length entries.now) false) ≡ Ok marks.items) }
    ensures len { IfOk result (λ marks. length marks.items ≡ length entries.now) }
    ensures err { IfErr result (λ e. (e ≡ OutOfMemory) ⊎ (marked entries.now count first (replicate (length entries.now) false) ≡ Err e)) }
{
    let mut marks = vec![in alloc; false; entries.len()]?;
    let mut head = first;
    for _step in 0..count {
        if usize::from(head) >= entries.len() {
            return Err(Error::InvalidInflight);
        }
        marks[usize::from(head)] = true;
        head = entries[usize::from(head)].next;
    }
    Ok(marks)
}

// The heads in flight, but for those that are marked, in the order in which they were taken.
pub(crate) fn in_flight(
    alloc: Global,
    entries: &[InflightEntry],
    marks: &[bool],
) -> Result<Vec<Resubmit>>
    requires few { length entries.now ≤ 32768 }
    requires same { length marks.now ≡ length entries.now }
    ensures ok { IfOk result (λ again. IsPermutation (pending entries.now marks.now 0) again.items) }
    ensures in_order { IfOk result (λ again. IsNonDecreasingBy (λ a. a.counter) again.items) }
    ensures err { IfErr result (λ e. e ≡ OutOfMemory) }
{
    let mut again = Vec::new(alloc);
    for (head, entry) in entries.iter().enumerate() {
        if entry.inflight && !marks[head] {
            let resubmit = Resubmit {
                counter: entry.counter,
                head: head as u16,
            };
            again.push(resubmit).map_err(|_| Error::OutOfMemory)?;
        }
    }
    again.sort_unstable_by_key(|head| head.counter);
    Ok(again)
}
