//! A device that serves a queue, whatever its guest writes: what the promises of this crate come to.

ghost use Rattle.std.specs.Prelude.{◌≡◌, ◌+◌, ◌++◌, ◌⊎◌, option_to_list, slice_index_or, [], false, true, None, All, OnOk, IfOk, IfErr, IfNone, IfSome};
ghost use Rattle.vhost_queue.specs.declared.error.Error.TheVariants.{OutOfMemory};
ghost use Rattle.vhost_queue.specs.declared.memory.HostRange.{HostRange};
ghost use Rattle.vhost_queue.specs.Memory.{LiesIn};
ghost use Rattle.vhost_queue.specs.Chain.{table_of, segment_limit, Begins};
ghost use Rattle.vhost_queue.specs.Segment.{IsSafe};
ghost use Rattle.vhost_queue.specs.Notification.{next_index};
ghost use Rattle.vhost_queue.specs.Queue.{state, IsSameQueue};
ghost use Rattle.vhost_queue.specs.Rings.{table_range};
ghost use Rattle.vhost_queue.specs.Serving.{AreMapped};

use crate::descriptor::{Descriptor, Segment};
use crate::error::{Error, Result};
use crate::memory::{GuestMemory, HostRange};
use crate::queue::{Queue, UsedElem};
use std::alloc::Global;

/// Mapped memory, to which a guest writes at any time: nothing is known of what is read.
pub trait Shared {
    /// The ranges that may be touched.
    ghost may_touch: { HostRange → Type 0 };

    fn read_index(&mut self, place: HostRange) -> u16
        requires { may_touch place };

    fn read_descriptor(&mut self, place: HostRange) -> Descriptor
        requires { may_touch place };

    fn write_used(&mut self, elem: UsedElem)
        requires entry { may_touch elem.place }
        requires index { may_touch elem.idx_place };

    /// Serves a request: reads and writes its segments, and answers how many bytes it wrote.
    fn serve(&mut self, segments: &[Segment]) -> u32
        requires { All (λ s. may_touch s.range) segments.now };
}

/// Follows the chain that was taken from the queue, to its end. OutOfMemory; after any other refusal the queue needs a reset.
pub fn follow<S: Shared>(
    memory: &mut GuestMemory,
    queue: &mut Queue,
    shared: &mut S,
    segments: &mut Vec<Segment>,
) -> Result<()>
    requires none { segments.old.items ≡ [] }
    requires table { LiesIn memory.old.regions.items (table_of (state queue.old).chain) }
    requires touch { (range : HostRange) → LiesIn memory.old.regions.items range → S.may_touch range }
    requires readable { (state queue.old).chain.writing ≡ false }
    ensures safe { OnOk result (IsSafe memory.old.regions.items ((state queue.old).chain.left + (state queue.old).chain.splits) segments.new.items) }
    ensures ended { OnOk result ((state queue.new).chain.next ≡ None) }
    ensures reason { IfErr result (λ e. (e ≡ OutOfMemory) ⊎ ((state queue.new).needs_reset ≡ true)) }
    ensures kept { OnOk result (((state queue.new).next_used ≡ (state queue.old).next_used) × ((state queue.new).out ≡ (state queue.old).out)) }
    ensures memory { memory.new.regions.items ≡ memory.old.regions.items }
    ensures rings { IsSameQueue queue.old queue.new }
{
    while let Some(place) = queue.descriptor_place() {
        let descriptor = read_next(shared, place);
        let segment = queue.step(memory, descriptor)?;
        keep(segments, segment)?;
    }
    Ok(())
}

// The value of the next descriptor. Where the rest of one comes, nothing is read.
fn read_next<S: Shared>(shared: &mut S, place: HostRange) -> Descriptor
    requires { S.may_touch place }
{
    if place.len == 0 {
        return Descriptor {
            addr: 0,
            len: 0,
            flags: 0,
            next: 0,
        };
    }
    shared.read_descriptor(place)
}

/// Serves the next chain, if one is available: whether the driver is to be told. Errors are those of `follow`.
pub fn serve_next<S: Shared>(
    memory: &mut GuestMemory,
    queue: &mut Queue,
    shared: &mut S,
    segments: &mut Vec<Segment>,
) -> Result<bool>
    requires mapped { AreMapped memory.old.regions.items queue.old.rings }
    requires touch { (range : HostRange) → LiesIn memory.old.regions.items range → S.may_touch range }
    ensures served { OnOk result (((state queue.new).next_avail ≡ (state queue.new).avail_idx) ⊎ ((state queue.new).next_used ≡ next_index (state queue.old).next_used)) }
    ensures reason { IfErr result (λ e. (e ≡ OutOfMemory) ⊎ ((state queue.new).needs_reset ≡ true)) }
    ensures memory { memory.new.regions.items ≡ memory.old.regions.items }
    ensures rings { IsSameQueue queue.old queue.new }
{
    let Some(head) = fetch(memory, queue, shared)? else {
        return Ok(false);
    };
    segments.clear();
    follow(memory, queue, shared, segments)?;
    let len = shared.serve(segments);
    finish(memory, queue, shared, head, len)
}

// Takes the next chain, if one is available.
fn fetch<S: Shared>(memory: &GuestMemory, queue: &mut Queue, shared: &mut S) -> Result<Option<u16>>
    requires mapped { AreMapped memory.now.regions.items queue.old.rings }
    requires touch { (range : HostRange) → LiesIn memory.now.regions.items range → S.may_touch range }
    ensures begins { IfOk result (λ head. IfSome head (λ _. Begins (table_range queue.old.rings) (segment_limit queue.old.rings.size queue.old.indirect_desc) (state queue.new).chain)) }
    ensures none { IfOk result (λ head. IfNone head ((state queue.new).next_avail ≡ (state queue.new).avail_idx)) }
    ensures reason { IfErr result (λ _. (state queue.new).needs_reset ≡ true) }
    ensures used { OnOk result ((state queue.new).next_used ≡ (state queue.old).next_used) }
    ensures taken { IfOk result (λ head. IfSome head (λ h. slice_index_or (state queue.new).out h false ≡ true)) }
    ensures rings { IsSameQueue queue.old queue.new }
{
    let idx = shared.read_index(queue.rings().avail_idx_place());
    queue.set_avail_idx(idx)?;
    let Some(place) = queue.avail_entry_place() else {
        return Ok(None);
    };
    let head = shared.read_index(place);
    queue.pop(head)?;
    Ok(Some(head))
}

// The device is done with this chain: whether the driver is to be told.
fn finish<S: Shared>(
    memory: &GuestMemory,
    queue: &mut Queue,
    shared: &mut S,
    head: u16,
    len: u32,
) -> Result<bool>
    requires mapped { AreMapped memory.now.regions.items queue.old.rings }
    requires touch { (range : HostRange) → LiesIn memory.now.regions.items range → S.may_touch range }
    ensures used { OnOk result ((state queue.new).next_used ≡ next_index (state queue.old).next_used) }
    ensures reason { IfErr result (λ _. slice_index_or (state queue.old).out head false ≡ false) }
    ensures rings { IsSameQueue queue.old queue.new }
{
    let elem = queue.add_used(head, len)?;
    shared.write_used(elem);
    let value = shared.read_index(queue.notification_place());
    Ok(queue.needs_notification(value))
}

/// Serves so many chains, or up to a refusal, which is one of `follow`. Whatever the guest writes meanwhile, only ranges are
/// touched that lie in a region that the frontend gave.
pub fn serve<S: Shared>(
    alloc: Global,
    memory: &mut GuestMemory,
    queue: &mut Queue,
    shared: &mut S,
    steps: u32,
) -> Result<()>
    requires mapped { AreMapped memory.old.regions.items queue.old.rings }
    requires touch { (range : HostRange) → LiesIn memory.old.regions.items range → S.may_touch range }
    ensures reason { IfErr result (λ e. (e ≡ OutOfMemory) ⊎ ((state queue.new).needs_reset ≡ true)) }
    ensures memory { memory.new.regions.items ≡ memory.old.regions.items }
    ensures rings { IsSameQueue queue.old queue.new }
{
    let mut segments = Vec::new(alloc);
    for _step in 0..steps {
        serve_next(memory, queue, shared, &mut segments)?;
    }
    Ok(())
}

/// Appends the segment, if there is one.
pub(crate) fn keep(segments: &mut Vec<Segment>, segment: Option<Segment>) -> Result<()>
    ensures ok { OnOk result (segments.new.items ≡ segments.old.items ++ option_to_list segment) }
    ensures reason { IfErr result (λ e. e ≡ OutOfMemory) }
{
    match segment {
        None => Ok(()),
        Some(segment) => segments.push(segment).map_err(|_| Error::OutOfMemory),
    }
}
