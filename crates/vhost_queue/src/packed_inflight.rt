//! What is kept of a packed queue in the inflight region (vhost-user specification, "Inflight I/O tracking").

ghost use Rattle.std.specs.Prelude.{◌≡◌, ℕ, ◌<◌, All, [], ◌∷◌, ◌+◌, ◌*◌, ◌^◌, ◌≤◌, ◌⊎◌, false, replicate, IsPermutation, IfOk, IfErr, Ok, Err, length};
ghost use Rattle.std.specs.List.Sorted.{IsNonDecreasingBy};
ghost use Rattle.vhost_queue.specs.Inflight.{at, pending};
ghost use Rattle.vhost_queue.specs.PackedInflight.{bit, entry, freed, free_in, holding, is_same_place, pair, places, IsAligned, LiesInArea};
ghost use Rattle.vhost_queue.specs.declared.error.Error.TheVariants.{OutOfMemory};

use crate::error::{Error, Result};
use crate::inflight::{InflightEntry, InflightWrite, Resubmit, in_flight, write};
use crate::packed::PackedDescriptor;
use crate::rings::MAX_SIZE;
use crate::wrap::Position;
use std::alloc::Global;

/// A state of a queue's area: its free list, and the place that is used next.
#[repr(C)]
#[derive(Clone, Copy, Drop)]
pub struct PackedInflightHead {
    pub free_head: u16,
    pub used_idx: u16,
    pub used_wrap_counter: bool,
}

/// What a crash left: the state of the area that holds, the entries that are free, and the heads of the requests to be taken again, in
/// order.
#[derive(Drop)]
pub struct PackedRecovered {
    pub head: PackedInflightHead,
    pub free: Vec<bool>,
    pub again: Vec<Resubmit>,
}

// Where an entry lies in the area, and fields of its head.
fn entry_at(index: u16) -> u64
    ensures { result ≡ entry index }
{
    32 + 32 * u64::from(index)
}

const FREE_HEADS: u64 = 12;

const USED_PLACES: u64 = 16;

/// What is to be written once a descriptor of a request was read in the ring, in the next entry of the free list.
pub fn packed_inflight_keep(index: u16, descriptor: PackedDescriptor) -> [InflightWrite; 2]
    ensures exact { result ≡ at (entry index + 16) 8 (pair descriptor.id descriptor.flags + 2 ^ 32 * descriptor.len) ∷ at (entry index + 24) 8 descriptor.addr ∷ [] }
    ensures within { (size : ℕ) → index < size → All (LiesInArea size) result }
    ensures aligned { All IsAligned result }
{
    let entry = entry_at(index);
    let words = pair(descriptor.id, descriptor.flags) + (u64::from(descriptor.len) << 32);
    [
        write(entry + 16, 8, words),
        write(entry + 24, 8, descriptor.addr),
    ]
}

/// What is to be written once all of a request was kept, and before it is served, in this order: its entries are `num`, from `head` to
/// `last`, and `free_head` is the free list behind them. The counter is that of all requests that were taken so far.
pub fn packed_inflight_take(
    head: u16,
    last: u16,
    num: u16,
    counter: u64,
    free_head: u16,
) -> [InflightWrite; 4]
    ensures exact { result ≡ at (entry head + 4) 4 (pair last num) ∷ at (entry head + 8) 8 counter ∷ at (entry head) 1 1 ∷ at 12 4 (pair free_head free_head) ∷ [] }
    ensures within { (size : ℕ) → head < size → All (LiesInArea size) result }
    ensures aligned { All IsAligned result }
{
    let entry = entry_at(head);
    [
        write(entry + 4, 4, pair(last, num)),
        write(entry + 8, 8, counter),
        write(entry, 1, 1),
        write(FREE_HEADS, 4, pair(free_head, free_head)),
    ]
}

/// What is to be written before the flags of the used descriptor tell of a request, in this order: the place that is used next goes from
/// `old` to `used`, and the free list began at `free_head`.
pub fn packed_inflight_before_used(
    head: u16,
    last: u16,
    free_head: u16,
    used: Position,
    old: Position,
) -> [InflightWrite; 3]
    ensures exact { result ≡ at (entry last + 2) 2 free_head ∷ at 12 2 head ∷ at 16 8 (places used old) ∷ [] }
    ensures within { (size : ℕ) → last < size → All (LiesInArea size) result }
    ensures aligned { All IsAligned result }
{
    [
        write(entry_at(last) + 2, 2, u64::from(free_head)),
        write(FREE_HEADS, 2, u64::from(head)),
        write(USED_PLACES, 8, places(used, old)),
    ]
}

/// What is to be written after these flags were, in this order.
pub fn packed_inflight_after_used(head: u16, used: Position) -> [InflightWrite; 3]
    ensures exact { result ≡ at (entry head) 1 0 ∷ at 12 4 (pair head head) ∷ at 16 8 (places used used) ∷ [] }
    ensures within { (size : ℕ) → head < size → All (LiesInArea size) result }
    ensures aligned { All IsAligned result }
{
    [
        write(entry_at(head), 1, 0),
        write(FREE_HEADS, 4, pair(head, head)),
        write(USED_PLACES, 8, places(used, used)),
    ]
}

fn pair(low: u16, high: u16) -> u64
    ensures exact { result ≡ pair low high }
    ensures fits { result < 2 ^ 32 }
{
    u64::from(low) + 65536 * u64::from(high)
}

fn places(now: Position, old: Position) -> u64
    ensures { result ≡ places now old }
{
    pair(now.index, old.index) + 4294967296 * bit(now.wrap) + 1099511627776 * bit(old.wrap)
}

fn bit(wrap: bool) -> u64
    ensures exact { result ≡ bit wrap }
    ensures fits { result ≤ 1 }
{
    if wrap { 1 } else { 0 }
}

impl PackedInflightHead {
    // Whether the same place is used next.
    fn is_same_place(&self, other: &PackedInflightHead) -> bool
        ensures { result ≡ is_same_place self.now other.now }
    {
        let same_wrap = if self.used_wrap_counter {
            other.used_wrap_counter
        } else {
            !other.used_wrap_counter
        };
        self.used_idx == other.used_idx && same_wrap
    }
}

/// Which state of an area holds, by the later one, the old one, and the flags of the descriptor at the old one's place.
fn holding(now: PackedInflightHead, old: PackedInflightHead, flags: u16) -> PackedInflightHead
    ensures { result ≡ holding now old flags }
{
    let place = Position {
        index: old.used_idx,
        wrap: old.used_wrap_counter,
    };
    if now.is_same_place(&old) || place.is_available(flags) {
        old
    } else {
        now
    }
}

/// What holds after a crash, where the area says this: the device goes on at its place that is used next, in both respects, and takes
/// these requests again, each once, in the order in which they were taken. InvalidInflight: the place or an entry of the free list is not
/// in the ring, or the list does not end.
pub fn packed_recover(
    alloc: Global,
    entries: &[InflightEntry],
    now: PackedInflightHead,
    old: PackedInflightHead,
    flags: u16,
) -> Result<PackedRecovered>
    ensures head { IfOk result (λ r. r.head ≡ holding now old flags) }
    ensures within { IfOk result (λ r. r.head.used_idx < length entries.now) }
    ensures free { IfOk result (λ r. free_in entries.now (holding now old flags) ≡ Ok r.free.items) }
    ensures again { IfOk result (λ r. IsPermutation (pending entries.now r.free.items 0) r.again.items) }
    ensures in_order { IfOk result (λ r. IsNonDecreasingBy (λ a. a.counter) r.again.items) }
    ensures err { IfErr result (λ e. (e ≡ OutOfMemory) ⊎ (free_in entries.now (holding now old flags) ≡ Err e)) }
{
    let head = holding(now, old, flags);
    if entries.len() > usize::from(MAX_SIZE) || usize::from(head.used_idx) >= entries.len() {
        return Err(Error::InvalidInflight);
    }
    let free = mark_free(alloc, entries, head.free_head)?;
    let again = in_flight(alloc, entries, &free)?;
    Ok(PackedRecovered { head, free, again })
}

// The entries of the free list.
fn mark_free(alloc: Global, entries: &[InflightEntry], first: u16) -> Result<Vec<bool>>
    ensures ok { IfOk result (λ marks. freed entries.now (length entries.now) first (replicate (length entries.now) false) ≡ Ok marks.items) }
    ensures len { IfOk result (λ marks. length marks.items ≡ length entries.now) }
    ensures err { IfErr result (λ e. (e ≡ OutOfMemory) ⊎ (freed entries.now (length entries.now) first (replicate (length entries.now) false) ≡ Err e)) }
{
    let mut marks = vec![in alloc; false; entries.len()]?;
    let mut index = first;
    for _step in 0..entries.len() {
        if usize::from(index) >= entries.len() {
            return Ok(marks);
        }
        marks[usize::from(index)] = true;
        index = entries[usize::from(index)].next;
    }
    if usize::from(index) < entries.len() {
        return Err(Error::InvalidInflight);
    }
    Ok(marks)
}
