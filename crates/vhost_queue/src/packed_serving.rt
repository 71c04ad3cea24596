//! A device that serves a packed queue, whatever its guest writes: what the promises of this crate come to.

ghost use Rattle.std.specs.Prelude.{◌≡◌, ◌+◌, ◌++◌, ◌⊎◌, option_to_list, [], false, true, None, All, OnOk, IfOk, IfErr};
ghost use Rattle.vhost_queue.specs.declared.error.Error.TheVariants.{NotHandedOut, OutOfMemory};
ghost use Rattle.vhost_queue.specs.declared.memory.HostRange.{HostRange};
ghost use Rattle.vhost_queue.specs.Memory.{LiesIn};
ghost use Rattle.vhost_queue.specs.Chain.{table_of, segment_limit, Begins};
ghost use Rattle.vhost_queue.specs.Segment.{IsSafe};
ghost use Rattle.vhost_queue.specs.Packed.{state, IsSameQueue};
ghost use Rattle.vhost_queue.specs.PackedRings.{ring_range};
ghost use Rattle.vhost_queue.specs.Serving.{ArePackedMapped};

use crate::descriptor::Segment;
use crate::error::Result;
use crate::memory::{GuestMemory, HostRange};
use crate::packed::{EventSuppression, PackedDescriptor, PackedQueue, PackedUsed};
use crate::serving::keep;
use std::alloc::Global;

/// Mapped memory with a packed queue, to which a guest writes at any time: nothing is known of what is read.
pub trait PackedShared {
    /// The ranges that may be touched.
    ghost may_touch: { HostRange → Type 0 };

    fn read_flags(&mut self, place: HostRange) -> u16
        requires { may_touch place };

    fn read_descriptor(&mut self, place: HostRange) -> PackedDescriptor
        requires { may_touch place };

    fn write_used(&mut self, used: PackedUsed)
        requires entry { may_touch used.place }
        requires flags { may_touch used.flags_place };

    fn read_event(&mut self, place: HostRange) -> EventSuppression
        requires { may_touch place };

    /// Serves a request: reads and writes its segments, and answers how many bytes it wrote.
    fn serve(&mut self, segments: &[Segment]) -> u32
        requires { All (λ s. may_touch s.range) segments.now };
}

/// Follows the chain that was found, to its end: its id. OutOfMemory; after any other refusal the queue needs a reset.
pub fn follow_packed<S: PackedShared>(
    memory: &mut GuestMemory,
    queue: &mut PackedQueue,
    shared: &mut S,
    segments: &mut Vec<Segment>,
) -> Result<u16>
    requires none { segments.old.items ≡ [] }
    requires table { LiesIn memory.old.regions.items (table_of (state queue.old).chain) }
    requires touch { (range : HostRange) → LiesIn memory.old.regions.items range → S.may_touch range }
    requires readable { (state queue.old).chain.writing ≡ false }
    ensures safe { OnOk result (IsSafe memory.old.regions.items ((state queue.old).chain.left + (state queue.old).chain.splits) segments.new.items) }
    ensures ended { OnOk result ((state queue.new).chain.next ≡ None) }
    ensures reason { IfErr result (λ e. (e ≡ OutOfMemory) ⊎ ((state queue.new).needs_reset ≡ true)) }
    ensures memory { memory.new.regions.items ≡ memory.old.regions.items }
    ensures rings { IsSameQueue queue.old queue.new }
{
    let mut id = 0;
    while let Some(place) = queue.descriptor_place() {
        let descriptor = read_next(shared, place);
        if queue.in_ring() && place.len != 0 {
            id = descriptor.id;
        }
        let segment = queue.step(memory, descriptor)?;
        keep(segments, segment)?;
    }
    Ok(id)
}

// The value of the next descriptor. Where the rest of one comes, nothing is read.
fn read_next<S: PackedShared>(shared: &mut S, place: HostRange) -> PackedDescriptor
    requires { S.may_touch place }
{
    if place.len == 0 {
        return PackedDescriptor {
            addr: 0,
            len: 0,
            id: 0,
            flags: 0,
        };
    }
    shared.read_descriptor(place)
}

/// Serves the next chain, if one is available: whether the driver is to be told. NotHandedOut: the chain had no id that the device has; and
/// those of `follow_packed`.
pub fn serve_next_packed<S: PackedShared>(
    memory: &mut GuestMemory,
    queue: &mut PackedQueue,
    shared: &mut S,
    segments: &mut Vec<Segment>,
) -> Result<bool>
    requires mapped { ArePackedMapped memory.old.regions.items queue.old.rings }
    requires touch { (range : HostRange) → LiesIn memory.old.regions.items range → S.may_touch range }
    ensures reason { IfErr result (λ e. (e ≡ OutOfMemory) ⊎ (e ≡ NotHandedOut) ⊎ ((state queue.new).needs_reset ≡ true)) }
    ensures memory { memory.new.regions.items ≡ memory.old.regions.items }
    ensures rings { IsSameQueue queue.old queue.new }
{
    let flags = shared.read_flags(queue.avail_flags_place());
    if !queue.pop(flags)? {
        return Ok(false);
    }
    segments.clear();
    let id = follow_packed(memory, queue, shared, segments)?;
    let len = shared.serve(segments);
    finish(memory, queue, shared, id, len)
}

// The device is done with this chain: whether the driver is to be told.
fn finish<S: PackedShared>(
    memory: &GuestMemory,
    queue: &mut PackedQueue,
    shared: &mut S,
    id: u16,
    len: u32,
) -> Result<bool>
    requires mapped { ArePackedMapped memory.now.regions.items queue.old.rings }
    requires touch { (range : HostRange) → LiesIn memory.now.regions.items range → S.may_touch range }
    ensures reason { IfErr result (λ e. e ≡ NotHandedOut) }
    ensures rings { IsSameQueue queue.old queue.new }
{
    let used = queue.add_used(id, len)?;
    shared.write_used(used);
    let event = shared.read_event(queue.rings().driver_event_place());
    Ok(queue.needs_notification(event))
}

/// Serves so many chains, or up to a refusal, which is one of `serve_next_packed`. Whatever the guest writes meanwhile, only ranges are
/// touched that lie in a region that the frontend gave.
pub fn serve_packed<S: PackedShared>(
    alloc: Global,
    memory: &mut GuestMemory,
    queue: &mut PackedQueue,
    shared: &mut S,
    steps: u32,
) -> Result<()>
    requires mapped { ArePackedMapped memory.old.regions.items queue.old.rings }
    requires touch { (range : HostRange) → LiesIn memory.old.regions.items range → S.may_touch range }
    ensures reason { IfErr result (λ e. (e ≡ OutOfMemory) ⊎ (e ≡ NotHandedOut) ⊎ ((state queue.new).needs_reset ≡ true)) }
    ensures memory { memory.new.regions.items ≡ memory.old.regions.items }
    ensures rings { IsSameQueue queue.old queue.new }
{
    let mut segments = Vec::new(alloc);
    for _step in 0..steps {
        serve_next_packed(memory, queue, shared, &mut segments)?;
    }
    Ok(())
}
