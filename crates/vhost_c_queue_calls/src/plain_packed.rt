//! The inflight region of a packed queue, which needs no queue.

ghost use Rattle.std.specs.Prelude.{◌≡◌, ◌≢◌, ◌⊎◌, ◌∷◌, [], ◌+◌, ◌*◌, ◌^◌, ◌<◌, IsPermutation, Ok, length, take};
ghost use Rattle.std.specs.List.Sorted.{IsNonDecreasingBy};
ghost use Rattle.vhost_queue.specs.Inflight.{at, pending};
ghost use Rattle.vhost_queue.specs.PackedInflight.{entry, free_in, holding, pair, places};
ghost use Rattle.vhost_queue.specs.Wrap.{position_of};
ghost use Rattle.vhost_c_queue_calls.specs.Recovering.{RefusesRecovery};

use std::alloc::Global;
use vhost_c_queue::{Refusal, as_packed, number_of};
use vhost_queue::{
    Descriptor, InflightEntry, InflightWrite, PackedInflightHead, Position, Resubmit,
    packed_inflight_after_used, packed_inflight_before_used, packed_inflight_keep,
    packed_inflight_take, packed_recover,
};

/// What is to be written in the inflight region once a descriptor of a request was read in the ring, in the next entry of the free list.
#[unsafe(no_mangle)]
pub extern "C" fn covretin_inflight_keep_packed(
    index: u16,
    descriptor: &Descriptor,
    first: &mut InflightWrite,
    second: &mut InflightWrite,
)
    ensures first { first.new ≡ at (entry index + 16) 8 (pair descriptor.now.flags descriptor.now.next + 2 ^ 32 * descriptor.now.len) }
    ensures second { second.new ≡ at (entry index + 24) 8 descriptor.now.addr }
{
    let [one, two] = packed_inflight_keep(index, as_packed(*descriptor));
    *first = one;
    *second = two;
}

/// What is to be written there once all of a request was kept, and before it is served, in this order.
#[unsafe(no_mangle)]
pub extern "C" fn covretin_inflight_take_packed(
    head: u16,
    last: u16,
    num: u16,
    counter: u64,
    free_head: u16,
    writes: &mut [InflightWrite; 4],
)
    ensures { writes.new ≡ at (entry head + 4) 4 (pair last num) ∷ at (entry head + 8) 8 counter ∷ at (entry head) 1 1 ∷ at 12 4 (pair free_head free_head) ∷ [] }
{
    *writes = packed_inflight_take(head, last, num, counter, free_head);
}

/// What is to be written there before the flags of the used descriptor tell of a request, in this order.
#[unsafe(no_mangle)]
pub extern "C" fn covretin_inflight_before_used_packed(
    head: u16,
    last: u16,
    free_head: u16,
    used: u16,
    old_used: u16,
    writes: &mut [InflightWrite; 3],
)
    ensures { writes.new ≡ at (entry last + 2) 2 free_head ∷ at 12 2 head ∷ at 16 8 (places (position_of used) (position_of old_used)) ∷ [] }
{
    *writes = packed_inflight_before_used(
        head,
        last,
        free_head,
        Position::of_number(used),
        Position::of_number(old_used),
    );
}

/// What is to be written there after these flags were, in this order.
#[unsafe(no_mangle)]
pub extern "C" fn covretin_inflight_after_used_packed(
    head: u16,
    used: u16,
    writes: &mut [InflightWrite; 3],
)
    ensures { writes.new ≡ at (entry head) 1 0 ∷ at 12 4 (pair head head) ∷ at 16 8 (places (position_of used) (position_of used)) ∷ [] }
{
    *writes = packed_inflight_after_used(head, Position::of_number(used));
}

/// What holds after a crash: the state of the area, its free entries, and the requests that are to be taken again, in the order in which
/// they were taken. INVALID_INFLIGHT: the place or an entry of the free list is not in the ring, or the list does not end. NO_ROOM: there is no
/// mark for each entry, or less room than requests to take again. A refusal writes nothing.
#[unsafe(no_mangle)]
pub extern "C" fn covretin_inflight_recover_packed(
    alloc: Global,
    entries: &[InflightEntry],
    now: &PackedInflightHead,
    old: &PackedInflightHead,
    flags: u16,
    head: &mut PackedInflightHead,
    free: &mut [bool],
    again: &mut [Resubmit],
    count: &mut usize,
) -> u32
    ensures head { result ≡ 0 → head.new ≡ holding now.now old.now flags }
    ensures within { result ≡ 0 → head.new.used_idx < length entries.now }
    ensures free { result ≡ 0 → free_in entries.now (holding now.now old.now flags) ≡ Ok free.new }
    ensures count { result ≡ 0 → count.new ≡ length (pending entries.now free.new 0) }
    ensures again { result ≡ 0 → IsPermutation (pending entries.now free.new 0) (take count.new again.new) }
    ensures in_order { result ≡ 0 → IsNonDecreasingBy (λ a. a.counter) (take count.new again.new) }
    ensures reason { (result ≡ 0) ⊎ RefusesRecovery entries.now (free_in entries.now (holding now.now old.now flags)) free.old again.old result }
    ensures err { result ≢ 0 → (head.new ≡ head.old) × (free.new ≡ free.old) × (again.new ≡ again.old) × (count.new ≡ count.old) }
{
    match packed_recover(alloc, entries, *now, *old, flags) {
        Ok(recovered) => {
            if free.len() != recovered.free.len() || again.len() < recovered.again.len() {
                return number_of(Err(Refusal::NoRoom));
            }
            *head = recovered.head;
            free.copy_from_slice(&recovered.free);
            again[..recovered.again.len()].copy_from_slice(&recovered.again);
            *count = recovered.again.len();
            number_of(Ok(()))
        }
        Err(error) => number_of(Err(Refusal::Queue(error))),
    }
}
