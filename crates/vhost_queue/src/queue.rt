//! A split queue, as a device sees it.

ghost use Rattle.std.specs.Prelude.{◌≡◌, ◌+◌, ◌*◌, ◌^◌, ◌<◌, ◌≤◌, ◌≢◌, ◌↔◌, length, IfOk, IfErr, OnOk, OnErr, IsTrue, Ok, Err, Some, None, true, false, replicate};
ghost use Rattle.vhost_queue.specs.Chain.{segment_limit};
ghost use Rattle.vhost_queue.specs.Notification.{moved};

use crate::chain::DescriptorChain;
use crate::descriptor::{Descriptor, Segment};
use crate::error::{Error, Result};
use crate::memory::{GuestMemory, HostRange};
use crate::notification::vring_need_event;
use crate::rings::Rings;
use std::alloc::Global;

/// How many descriptors a chain may have at least where indirect tables were negotiated. A driver has to keep within the queue's
/// size (virtio 1.2, 2.7.5.3.1), and drivers do not; QEMU takes so many.
pub const MIN_INDIRECT_LIMIT: u16 = 1024;

// VIRTQ_AVAIL_F_NO_INTERRUPT and VIRTQ_USED_F_NO_NOTIFY.
const NO_INTERRUPT: u16 = 1;

const NO_NOTIFY: u16 = 1;

/// What was negotiated, and where a device begins.
#[derive(Clone, Copy, Drop)]
pub struct QueueConfig {
    /// VIRTIO_F_EVENT_IDX.
    pub event_idx: bool,
    /// VIRTIO_F_INDIRECT_DESC.
    pub indirect_desc: bool,
    /// The entry of the available ring that is next: the base of the ring.
    pub next_avail: u16,
    /// The entry of the used ring that is next: its index, as it is in memory.
    pub next_used: u16,
}

/// What is to be written once a chain was used: the head and the length as eight bytes, and then the index as two.
#[derive(Clone, Copy, Drop)]
pub struct UsedElem {
    pub place: HostRange,
    pub id: u16,
    pub len: u32,
    pub idx_place: HostRange,
    pub idx: u16,
}

/// Two bytes that are to be written.
#[derive(Clone, Copy, Drop)]
pub struct RingWrite {
    pub place: HostRange,
    pub value: u16,
}

/// A split queue. It reads and writes nothing: a call says where, and the next one takes what was read there.
#[derive(Drop)]
pub struct Queue {
    rings: Rings,
    event_idx: bool,
    indirect_desc: bool,
    next_avail: u16,
    avail_idx: u16,
    next_used: u16,
    signalled: Option<u16>,
    out: Vec<bool>,
    chain: DescriptorChain,
    needs_reset: bool,
    ghost heads: { length out.items ≡ rings.size },
    ghost pending: { moved next_avail avail_idx ≤ rings.size },
    ghost longest: { chain.limit ≡ segment_limit rings.size indirect_desc },
}

impl Queue {
    ghost use Rattle.std.specs.Bool.{OnFalse, OnTrue};
    ghost use Rattle.std.specs.Prelude.{◌%◌, bit_and, if◌then◌else◌, slice_index_or, slice_set, IsSome, IfNone, IfSome};
    ghost use Rattle.vhost_queue.specs.Chain.{following, place_of, table_of, Begins, GoesOn};
    ghost use Rattle.vhost_queue.specs.Memory.{LiesIn};
    ghost use Rattle.vhost_queue.specs.declared.error.Error.TheVariants.{InvalidSize, OutOfMemory};
    ghost use Rattle.vhost_queue.specs.Queue.{IsNew, IsSameQueue, state, adopted, broken, entries_ahead, given_back, refused_pop, refused_step, told, popped, resubmitted, stepped, taken, used, IsToldOf, StepsWhole};
    ghost use Rattle.vhost_queue.specs.Rings.{table_range, avail_range, used_range};
    ghost use Rattle.vhost_queue.specs.Places.{at, Within};

    /// A queue whose parts are mapped there.
    pub fn new(alloc: Global, rings: Rings, config: QueueConfig) -> Result<Queue>
        ensures ok { IfOk result (λ queue. IsNew rings config queue) }
        ensures reason { IfErr result (λ e. e ≡ OutOfMemory) }
    {
        let limit = if config.indirect_desc && rings.size() < MIN_INDIRECT_LIMIT {
            MIN_INDIRECT_LIMIT
        } else {
            rings.size()
        };
        let chain = DescriptorChain::new(limit);
        let out = vec![in alloc; false; usize::from(rings.size())]?;
        Ok(Queue {
            rings,
            event_idx: config.event_idx,
            indirect_desc: config.indirect_desc,
            next_avail: config.next_avail,
            avail_idx: config.next_avail,
            next_used: config.next_used,
            signalled: None,
            out,
            chain,
            needs_reset: false,
        })
    }

    /// Where its parts are mapped.
    pub fn rings(&self) -> Rings
        ensures { result ≡ self.now.rings }
    {
        self.rings
    }

    /// The entry of the available ring that is next: the base of the ring for whoever goes on with it.
    pub fn next_avail(&self) -> u16
        ensures { result ≡ (state self.now).next_avail }
    {
        self.next_avail
    }

    /// The entry of the used ring that is next.
    pub fn next_used(&self) -> u16
        ensures { result ≡ (state self.now).next_used }
    {
        self.next_used
    }

    /// Whether the driver broke a rule. Then nothing more is taken from the queue, and what the device has may still be used.
    pub fn needs_reset(&self) -> bool
        ensures { result ≡ (state self.now).needs_reset }
    {
        self.needs_reset
    }

    /// The parts of the queue are mapped elsewhere from now on; the chain that was followed is none any more. InvalidSize: it
    /// would have another size, and nothing changes.
    pub fn set_rings(&mut self, rings: Rings) -> Result<()>
        ensures ok { OnOk result ((self.new.rings ≡ rings) × (state self.new ≡ record (state self.old) { chain = record (state self.old).chain { next = None } })) }
        ensures negotiated { (self.new.event_idx ≡ self.old.event_idx) × (self.new.indirect_desc ≡ self.old.indirect_desc) }
        ensures err { IfErr result (λ e. (e ≡ InvalidSize) × (rings.size ≢ self.old.rings.size)) }
        ensures kept { OnErr result (self.new ≡ self.old) }
    {
        if rings.size() != self.rings.size() {
            return Err(Error::InvalidSize);
        }
        self.rings = rings;
        self.chain.end();
        Ok(())
    }

    /// The index of the available ring was read as this: how many chains are available.
    ///
    /// TooManyAvailable: more than there can be, and the queue needs a reset. NeedsReset: it did before.
    pub fn set_avail_idx(&mut self, idx: u16) -> Result<u16>
        ensures ok { IfOk result (λ n. (n ≡ moved self.old.next_avail idx) × (told self.old.rings.size (state self.old) idx ≡ Ok (state self.new))) }
        ensures err { IfErr result (λ e. told self.old.rings.size (state self.old) idx ≡ Err e) }
        ensures broken { OnErr result (state self.new ≡ broken (state self.old)) }
        ensures rings { IsSameQueue self.old self.new }
    {
        if self.needs_reset {
            return Err(Error::NeedsReset);
        }
        let count = idx.wrapping_sub(self.next_avail);
        if count > self.rings.size() {
            self.needs_reset = true;
            return Err(Error::TooManyAvailable);
        }
        self.avail_idx = idx;
        Ok(count)
    }

    /// The entry of the available ring that is to be read next, if one is available.
    pub fn avail_entry_place(&self) -> Option<HostRange>
        ensures some { IsSome result ↔ ((state self.now).next_avail ≢ (state self.now).avail_idx) }
        ensures within { IfSome result (λ place. Within (avail_range self.now.rings) place) }
        ensures exact { IfSome result (λ place. place ≡ at (self.now.rings.avail_ring + 4 + 2 * ((state self.now).next_avail % self.now.rings.size)) 2) }
    {
        if self.next_avail == self.avail_idx {
            return None;
        }
        Some(self.rings.avail_entry_place(self.next_avail))
    }

    /// The entries of the available ring that are to be read next, one behind the other, if one is available: so many at most, up to the
    /// last one that is available, and up to the end of the ring.
    pub fn avail_entries_place(&self, most: usize) -> Option<HostRange>
        ensures some { IsSome result ↔ ((state self.now).next_avail ≢ (state self.now).avail_idx) }
        ensures within { IfSome result (λ place. Within (avail_range self.now.rings) place) }
        ensures exact { IfSome result (λ place. place ≡ at (self.now.rings.avail_ring + 4 + 2 * ((state self.now).next_avail % self.now.rings.size)) (2 * entries_ahead self.now.rings.size (state self.now) most)) }
    {
        if self.next_avail == self.avail_idx {
            return None;
        }
        let available = usize::from(self.avail_idx.wrapping_sub(self.next_avail));
        Some(
            self.rings
                .avail_entries_place(self.next_avail, most.min(available)),
        )
    }

    /// The next entry of the available ring was read as this head: its chain is the device's from now on, and is followed.
    ///
    /// NotInTable, HeadInUse: the queue needs a reset. NeedsReset: it did before. NothingAvailable: no entry was to be read.
    pub fn pop(&mut self, head: u16) -> Result<()>
        ensures ok { OnOk result (popped self.old (state self.old) head ≡ Ok (state self.new)) }
        ensures begins { OnOk result (Begins (table_range self.old.rings) (segment_limit self.old.rings.size self.old.indirect_desc) (state self.new).chain) }
        ensures once { OnOk result ((slice_index_or (state self.old).out head false ≡ false) × ((state self.new).out ≡ slice_set (state self.old).out head true)) }
        ensures err { IfErr result (λ e. popped self.old (state self.old) head ≡ Err e) }
        ensures kept { OnErr result (state self.new ≡ refused_pop (state self.old)) }
        ensures rings { IsSameQueue self.old self.new }
    {
        if self.needs_reset {
            return Err(Error::NeedsReset);
        }
        if self.next_avail == self.avail_idx {
            return Err(Error::NothingAvailable);
        }
        self.take(head, self.next_avail.wrapping_add(1))
    }

    /// The chain of this head was the device's before a crash, and is again, and is followed. Errors are those of `pop`.
    pub fn resubmit(&mut self, head: u16) -> Result<()>
        ensures ok { OnOk result (resubmitted self.old (state self.old) head ≡ Ok (state self.new)) }
        ensures begins { OnOk result (Begins (table_range self.old.rings) (segment_limit self.old.rings.size self.old.indirect_desc) (state self.new).chain) }
        ensures once { OnOk result ((slice_index_or (state self.old).out head false ≡ false) × ((state self.new).out ≡ slice_set (state self.old).out head true)) }
        ensures err { IfErr result (λ e. resubmitted self.old (state self.old) head ≡ Err e) }
        ensures kept { OnErr result (state self.new ≡ broken (state self.old)) }
        ensures rings { IsSameQueue self.old self.new }
    {
        if self.needs_reset {
            return Err(Error::NeedsReset);
        }
        self.take(head, self.next_avail)
    }

    // The chain of this head is the device's.
    fn take(&mut self, head: u16, next_avail: u16) -> Result<()>
        requires { moved next_avail self.old.avail_idx ≤ self.old.rings.size }
        ensures ok { OnOk result (taken self.old next_avail (state self.old) head ≡ Ok (state self.new)) }
        ensures begins { OnOk result (Begins (table_range self.old.rings) (segment_limit self.old.rings.size self.old.indirect_desc) (state self.new).chain) }
        ensures once { OnOk result ((slice_index_or (state self.old).out head false ≡ false) × ((state self.new).out ≡ slice_set (state self.old).out head true)) }
        ensures err { IfErr result (λ e. taken self.old next_avail (state self.old) head ≡ Err e) }
        ensures kept { OnErr result (state self.new ≡ broken (state self.old)) }
        ensures rings { IsSameQueue self.old self.new }
    {
        if head < self.rings.size() && self.out[usize::from(head)] {
            self.needs_reset = true;
            return Err(Error::HeadInUse);
        }
        let (table, size) = (self.rings.desc_table(), self.rings.size());
        if let Err(error) = self.chain.begin(table, size, self.indirect_desc, head) {
            self.needs_reset = true;
            return Err(error);
        }
        self.out[usize::from(head)] = true;
        self.next_avail = next_avail;
        Ok(())
    }

    /// The last entry of the available ring that was read is to be read again, and its head is not the device's. The chain that was followed
    /// is none any more.
    ///
    /// NotHandedOut: the device has no such chain. TooManyAvailable: more would be available than there can be. Then nothing changes.
    pub fn give_back(&mut self, head: u16) -> Result<()>
        ensures ok { OnOk result (given_back self.old.rings.size (state self.old) head ≡ Ok (state self.new)) }
        ensures once { OnOk result ((slice_index_or (state self.old).out head false ≡ true) × ((state self.new).out ≡ slice_set (state self.old).out head false)) }
        ensures err { IfErr result (λ e. given_back self.old.rings.size (state self.old) head ≡ Err e) }
        ensures kept { OnErr result (self.new ≡ self.old) }
        ensures rings { IsSameQueue self.old self.new }
    {
        if head >= self.rings.size() || !self.out[usize::from(head)] {
            return Err(Error::NotHandedOut);
        }
        let next_avail = self.next_avail.wrapping_sub(1);
        if self.avail_idx.wrapping_sub(next_avail) > self.rings.size() {
            return Err(Error::TooManyAvailable);
        }
        self.out[usize::from(head)] = false;
        self.next_avail = next_avail;
        self.chain.end();
        Ok(())
    }

    /// The chain of this head is the device's, though none was read here: it was taken before the queue was started. It is not followed.
    ///
    /// NotInTable: there is no such head. HeadInUse: the device has its chain. Then nothing changes.
    pub fn adopt(&mut self, head: u16) -> Result<()>
        ensures ok { OnOk result (adopted self.old.rings.size (state self.old) head ≡ Ok (state self.new)) }
        ensures once { OnOk result ((slice_index_or (state self.old).out head false ≡ false) × ((state self.new).out ≡ slice_set (state self.old).out head true)) }
        ensures err { IfErr result (λ e. adopted self.old.rings.size (state self.old) head ≡ Err e) }
        ensures kept { OnErr result (self.new ≡ self.old) }
        ensures rings { IsSameQueue self.old self.new }
    {
        if head >= self.rings.size() {
            return Err(Error::NotInTable);
        }
        if self.out[usize::from(head)] {
            return Err(Error::HeadInUse);
        }
        self.out[usize::from(head)] = true;
        Ok(())
    }

    /// The chain that is followed.
    pub fn chain(&self) -> &DescriptorChain
        ensures { following result.now ≡ (state self.now).chain }
    {
        &self.chain
    }

    /// The descriptor that is to be read next, if the chain that is followed goes on. No bytes: one that was read goes on in another
    /// region, and its rest comes next.
    pub fn descriptor_place(&self) -> Option<HostRange>
        ensures exact { result ≡ place_of (state self.now).chain }
        ensures within { IfSome result (λ place. Within (table_of (state self.now).chain) place) }
    {
        self.chain.place()
    }

    /// The next descriptor was read as this: a segment, or none where it names an indirect table. Where the rest of a descriptor comes,
    /// what is given is not looked at.
    ///
    /// ChainEnded: none was to be read. NeedsReset: the queue did before. After any other the queue needs a reset.
    pub fn step(
        &mut self,
        memory: &mut GuestMemory,
        descriptor: Descriptor,
    ) -> Result<Option<Segment>>
        ensures ok { IfOk result (λ segment. stepped memory.old.regions.items (state self.old) descriptor ≡ Ok (segment, state self.new)) }
        ensures err { IfErr result (λ e. stepped memory.old.regions.items (state self.old) descriptor ≡ Err e) }
        ensures goes_on { IfOk result (λ segment. GoesOn memory.old.regions.items (state self.old).chain segment (state self.new).chain) }
        ensures kept { OnErr result (state self.new ≡ refused_step (state self.old)) }
        ensures rings { IsSameQueue self.old self.new }
        ensures memory { memory.new.regions.items ≡ memory.old.regions.items }
    {
        if self.needs_reset {
            return Err(Error::NeedsReset);
        }
        if self.chain.next().is_none() {
            return Err(Error::ChainEnded);
        }
        let stepped = self.chain.step(memory, descriptor);
        if stepped.is_err() {
            self.needs_reset = true;
        }
        stepped
    }

    /// The next descriptor was read as this, which is as most are: it names no table, and all of its bytes lie in one region. Its segment.
    /// None: it is not, nothing changes, and `step` says what it is.
    pub(crate) fn pass(
        &mut self,
        memory: &mut GuestMemory,
        descriptor: Descriptor,
    ) -> Option<Segment>
        ensures some { IfSome result (λ segment. StepsWhole memory.old.regions.items self.old descriptor (Some segment) self.new) }
        ensures kept { IfNone result (self.new ≡ self.old) }
        ensures rings { IsSameQueue self.old self.new }
        ensures memory { memory.new.regions.items ≡ memory.old.regions.items }
    {
        if self.needs_reset {
            return None;
        }
        self.chain.pass(memory, descriptor)
    }

    /// The next descriptor was read as this, and names an indirect table, in which the chain goes on. False: it does not, nothing changes, and
    /// `step` says what it is.
    pub(crate) fn nest(&mut self, memory: &mut GuestMemory, descriptor: Descriptor) -> bool
        ensures some { OnTrue result (StepsWhole memory.old.regions.items self.old descriptor None self.new) }
        ensures kept { OnFalse result (self.new ≡ self.old) }
        ensures rings { IsSameQueue self.old self.new }
        ensures memory { memory.new.regions.items ≡ memory.old.regions.items }
    {
        !self.needs_reset && self.chain.nest(memory, descriptor)
    }

    /// The device is done with the chain of this head, and wrote so many bytes: what is to be written. NotHandedOut: it has no
    /// such chain, and nothing changes.
    pub fn add_used(&mut self, head: u16, len: u32) -> Result<UsedElem>
        ensures ok { OnOk result (used (state self.old) head ≡ Ok (state self.new)) }
        ensures elem { IfOk result (λ e. (e.id ≡ head) × (e.len ≡ len) × (e.idx ≡ (state self.new).next_used)) }
        ensures place { IfOk result (λ e. (e.place ≡ at (self.old.rings.used_ring + 4 + 8 * ((state self.old).next_used % self.old.rings.size)) 8) × (e.idx_place ≡ at (self.old.rings.used_ring + 2) 2)) }
        ensures within { IfOk result (λ e. Within (used_range self.old.rings) e.place × Within (used_range self.old.rings) e.idx_place) }
        ensures once { OnOk result ((slice_index_or (state self.old).out head false ≡ true) × ((state self.new).out ≡ slice_set (state self.old).out head false)) }
        ensures err { IfErr result (λ e. used (state self.old) head ≡ Err e) }
        ensures kept { OnErr result (self.new ≡ self.old) }
        ensures rings { IsSameQueue self.old self.new }
    {
        if head >= self.rings.size() || !self.out[usize::from(head)] {
            return Err(Error::NotHandedOut);
        }
        let place = self.rings.used_entry_place(self.next_used);
        self.out[usize::from(head)] = false;
        self.next_used = self.next_used.wrapping_add(1);
        Ok(UsedElem {
            place,
            id: head,
            len,
            idx_place: self.rings.used_idx_place(),
            idx: self.next_used,
        })
    }

    /// What is to be read before `needs_notification`: the driver's event index, or its flags.
    pub fn notification_place(&self) -> HostRange
        ensures within { Within (avail_range self.now.rings) result }
        ensures exact { result ≡ (if self.now.event_idx then at (self.now.rings.avail_ring + 4 + 2 * self.now.rings.size) 2 else at self.now.rings.avail_ring 2) }
    {
        if self.event_idx {
            self.rings.used_event_place()
        } else {
            self.rings.avail_flags_place()
        }
    }

    /// Whether the driver is to be told of what was used since this was last asked, where the value was read at
    /// `notification_place` after the index of the used ring was written (virtio 1.2, 2.7.7.2).
    pub fn needs_notification(&mut self, value: u16) -> bool
        ensures by_index { self.old.event_idx ≡ true → (IsTrue result ↔ IsToldOf (state self.old).signalled (state self.old).next_used value) }
        ensures by_flags { self.old.event_idx ≡ false → (IsTrue result ↔ (bit_and value 1 ≡ 0)) }
        ensures kept { state self.new ≡ record (state self.old) { signalled = Some (state self.old).next_used } }
        ensures rings { IsSameQueue self.old self.new }
    {
        let before = self.signalled;
        self.signalled = Some(self.next_used);
        if !self.event_idx {
            return value & NO_INTERRUPT == 0;
        }
        match before {
            Some(old) => vring_need_event(value, self.next_used, old),
            None => true,
        }
    }

    /// What is to be written so that the driver tells, or does not tell, of what it makes available from now on; none where there
    /// is no way to say so. After it was asked to tell, the index of the available ring is to be read again (virtio 1.2, 2.7.10).
    pub fn set_notification(&self, enable: bool) -> Option<RingWrite>
        ensures within { IfSome result (λ w. Within (used_range self.now.rings) w.place) }
        ensures by_index { self.now.event_idx ≡ true → result ≡ (if enable then Some (record { place = at (self.now.rings.used_ring + 4 + 8 * self.now.rings.size) 2; value = (state self.now).next_avail }) else None) }
        ensures by_flags { self.now.event_idx ≡ false → result ≡ Some (record { place = at self.now.rings.used_ring 2; value = (if enable then 0 else 1) }) }
    {
        if !self.event_idx {
            return Some(RingWrite {
                place: self.rings.used_flags_place(),
                value: if enable { 0 } else { NO_NOTIFY },
            });
        }
        if !enable {
            return None;
        }
        Some(RingWrite {
            place: self.rings.avail_event_place(),
            value: self.next_avail,
        })
    }
}
