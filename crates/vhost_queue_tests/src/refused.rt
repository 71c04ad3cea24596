//! What a refused step leaves to a device, by the contracts of queues alone: nothing more is taken, and what it has is given back.

ghost use Rattle.std.specs.Prelude.{◌≡◌, ◌≢◌, true, false, slice_index_or, Err};
ghost use Rattle.vhost_queue.specs.declared.error.Error.TheVariants.{NeedsReset};
ghost use Rattle.vhost_queue.specs.declared.memory.HostRange.{HostRange};
ghost use Rattle.vhost_queue.specs.Memory.{LiesIn};
ghost use Rattle.vhost_queue.specs.Queue.{state};
ghost use Rattle.vhost_queue.specs.Serving.{AreMapped};
ghost use Rattle.vhost_queue.specs.Packed as packed;

use std::alloc::Global;
use vhost_queue::{
    Descriptor, Error, GuestMemory, PackedDescriptor, PackedQueue, Queue, Shared, serve,
};

/// A head that the device has is given back after a refused step. True.
pub fn gives_back(
    memory: &mut GuestMemory,
    queue: &mut Queue,
    descriptor: Descriptor,
    head: u16,
) -> bool
    requires { slice_index_or (state queue.old).out head false ≡ true }
    ensures { result ≡ true }
{
    match queue.step(memory, descriptor) {
        Ok(_) => true,
        Err(_) => queue.add_used(head, 0).is_ok(),
    }
}

/// The same of an id of a packed queue.
pub fn gives_back_packed(
    memory: &mut GuestMemory,
    queue: &mut PackedQueue,
    descriptor: PackedDescriptor,
    id: u16,
) -> bool
    requires { slice_index_or (packed.state queue.old).out id 0 ≢ 0 }
    ensures { result ≡ true }
{
    match queue.step(memory, descriptor) {
        Ok(_) => true,
        Err(_) => queue.add_used(id, 0).is_ok(),
    }
}

/// After an index that can't be, no head is taken. True.
pub fn takes_nothing(queue: &mut Queue, idx: u16, head: u16) -> bool
    ensures { result ≡ true }
{
    match queue.set_avail_idx(idx) {
        Ok(_) => true,
        Err(_) => needs_reset(queue.pop(head)),
    }
}

/// Where no head was available, one is taken once there is: no harm was done. True.
pub fn takes_later(queue: &mut Queue, head: u16) -> bool
    requires none { (state queue.old).next_avail ≡ (state queue.old).avail_idx }
    requires runs { (state queue.old).needs_reset ≡ false }
    ensures { result ≡ true }
{
    let _refused = queue.pop(head);
    !queue.needs_reset()
}

/// Where a head can't be given back, the next one that the device has is, as if it had not tried: at the same entry of the used ring. True.
pub fn gives_back_next(queue: &mut Queue, not_out: u16, head: u16) -> bool
    requires { slice_index_or (state queue.old).out head false ≡ true }
    ensures { result ≡ true }
{
    let before = queue.next_used();
    match queue.add_used(not_out, 0) {
        Ok(_) => true,
        Err(_) => match queue.add_used(head, 0) {
            Ok(elem) => elem.idx == before.wrapping_add(1),
            Err(_) => false,
        },
    }
}

/// A device that stops serving lacks memory, or its driver broke a rule. True.
pub fn stops_for_the_driver<S: Shared>(
    alloc: Global,
    memory: &mut GuestMemory,
    queue: &mut Queue,
    shared: &mut S,
    steps: u32,
) -> bool
    requires mapped { AreMapped memory.old.regions.items queue.old.rings }
    requires touch { (range : HostRange) → LiesIn memory.old.regions.items range → S.may_touch range }
    ensures { result ≡ true }
{
    match serve(alloc, memory, queue, shared, steps) {
        Ok(()) => true,
        Err(error) => error == Error::OutOfMemory || queue.needs_reset(),
    }
}

fn needs_reset(outcome: Result<(), Error>) -> bool
    ensures { outcome ≡ Err NeedsReset → result ≡ true }
{
    matches!(outcome, Err(Error::NeedsReset))
}
