//! A packed queue, as a device sees it.

ghost use Rattle.std.specs.Prelude.{◌≡◌, ◌+◌, ◌*◌, ◌^◌, ◌<◌, ◌≤◌, ◌≢◌, ◌↔◌, length, All, IfOk, IfErr, OnOk, OnErr, IsTrue, Ok, Err, Some, None, true, false};
ghost use Rattle.std.specs.Option.{ForSome};
ghost use Rattle.vhost_queue.specs.Chain.{segment_limit};

use crate::chain::DescriptorChain;
use crate::descriptor::{Descriptor, Segment};
use crate::error::{Error, Result};
use crate::memory::{GuestMemory, HostRange};
use crate::packed_rings::PackedRings;
use crate::queue::MIN_INDIRECT_LIMIT;
use crate::segment::{INDIRECT, NEXT, WRITE};
use crate::wrap::{Position, passes};
use std::alloc::Global;

// VIRTQ_DESC_F_AVAIL and VIRTQ_DESC_F_USED, as the device writes them in a used descriptor.
const AVAIL_AND_USED: u16 = 0x8080;
// RING_EVENT_FLAGS_ENABLE, _DISABLE and _DESC.
const ENABLE: u16 = 0;

const DISABLE: u16 = 1;

const DESC: u16 = 2;

/// A descriptor of a packed queue, as its 16 bytes say it (virtio 1.2, 2.8.5).
#[derive(Clone, Copy, Drop)]
pub struct PackedDescriptor {
    pub addr: u64,
    pub len: u32,
    pub id: u16,
    pub flags: u16,
}

/// What was negotiated, and where a device begins.
#[derive(Clone, Copy, Drop)]
pub struct PackedConfig {
    /// VIRTIO_F_EVENT_IDX.
    pub event_idx: bool,
    /// VIRTIO_F_INDIRECT_DESC.
    pub indirect_desc: bool,
    /// The place that is available next.
    pub avail: Position,
    /// The place that is used next.
    pub used: Position,
}

/// What is to be written once a chain was used: the length and the id as six bytes, and then the flags as two.
#[derive(Clone, Copy, Drop)]
pub struct PackedUsed {
    pub place: HostRange,
    pub len: u32,
    pub id: u16,
    pub flags_place: HostRange,
    pub flags: u16,
}

/// When a side wants to be told: a place, and flags.
#[derive(Clone, Copy, Drop)]
pub struct EventSuppression {
    pub position: u16,
    pub flags: u16,
}

/// A packed queue. It reads and writes nothing: a call says where, and the next one takes what was read there.
#[derive(Drop)]
pub struct PackedQueue {
    rings: PackedRings,
    event_idx: bool,
    indirect_desc: bool,
    avail: Position,
    used: Position,
    signalled: Option<Position>,
    /// Of how many descriptors each buffer is that the device has; 0: it has none of this id.
    out: Vec<u16>,
    chain: DescriptorChain,
    /// Of how many descriptors of the ring the chain is so far, and whether it is still in the ring.
    slots: u16,
    in_ring: bool,
    needs_reset: bool,
    ghost ids: { length out.items ≡ rings.size },
    ghost counts: { All (λ n. n ≤ rings.size) out.items },
    ghost avail_within: { avail.index < rings.size },
    ghost used_within: { used.index < rings.size },
    ghost signalled_within: { ForSome signalled (λ p. p.index < rings.size) },
    ghost counted: { slots ≤ rings.size },
    ghost longest: { chain.limit ≡ segment_limit rings.size indirect_desc },
}

impl PackedQueue {
    ghost use Rattle.std.specs.Prelude.{◌⊎◌, replicate, slice_index_or, slice_set, if◌then◌else◌, IfSome, IsSome};
    ghost use Rattle.vhost_queue.specs.Chain.{begun, following, place_of, step, table_of, Begins, GoesOn};
    ghost use Rattle.vhost_queue.specs.Packed.{IsNew, IsSameQueue, IsToldOf, as_split, beginning, broken, resubmitted, resumed, refused_step, fault_of, gone_on, is_last, popped, state, stepped, used, used_flags};
    ghost use Rattle.vhost_queue.specs.PackedRings.{ring_range, driver_range, device_range};
    ghost use Rattle.vhost_queue.specs.Places.{at, Within};
    ghost use Rattle.vhost_queue.specs.Wrap.{number_of, position_of, is_available};
    ghost use Rattle.vhost_queue.specs.declared.error.Error.TheVariants.{InvalidSize, InvalidBase, OutOfMemory};

    /// A queue whose parts are mapped there. InvalidBase: a place is not in the ring.
    pub fn new(alloc: Global, rings: PackedRings, config: PackedConfig) -> Result<PackedQueue>
        ensures ok { IfOk result (λ queue. IsNew rings config queue) }
        ensures reason { IfErr result (λ e. (e ≡ OutOfMemory) ⊎ ((e ≡ InvalidBase) × ((rings.size ≤ config.avail.index) ⊎ (rings.size ≤ config.used.index)))) }
    {
        if config.avail.index >= rings.size() || config.used.index >= rings.size() {
            return Err(Error::InvalidBase);
        }
        let limit = if config.indirect_desc && rings.size() < MIN_INDIRECT_LIMIT {
            MIN_INDIRECT_LIMIT
        } else {
            rings.size()
        };
        let chain = DescriptorChain::new(limit);
        let out = vec![in alloc; 0; usize::from(rings.size())]?;
        Ok(PackedQueue {
            rings,
            event_idx: config.event_idx,
            indirect_desc: config.indirect_desc,
            avail: config.avail,
            used: config.used,
            signalled: None,
            out,
            chain,
            slots: 0,
            in_ring: false,
            needs_reset: false,
        })
    }

    /// Where its parts are mapped.
    pub fn rings(&self) -> PackedRings
        ensures { result ≡ self.now.rings }
    {
        self.rings
    }

    /// The place that is available next, and the one that is used next.
    pub fn positions(&self) -> (Position, Position)
        ensures { result ≡ ((state self.now).avail, (state self.now).used) }
    {
        (self.avail, self.used)
    }

    /// Whether the driver broke a rule. Then nothing more is taken from the queue, and what the device has may still be used.
    pub fn needs_reset(&self) -> bool
        ensures { result ≡ (state self.now).needs_reset }
    {
        self.needs_reset
    }

    /// The parts of the queue are mapped elsewhere from now on; the chain that was followed is none any more. InvalidSize: it
    /// would have another size, and nothing changes.
    pub fn set_rings(&mut self, rings: PackedRings) -> Result<()>
        ensures ok { OnOk result ((self.new.rings ≡ rings) × (state self.new ≡ record (state self.old) { chain = record (state self.old).chain { next = None } })) }
        ensures negotiated { (self.new.event_idx ≡ self.old.event_idx) × (self.new.indirect_desc ≡ self.old.indirect_desc) }
        ensures err { IfErr result (λ e. (e ≡ InvalidSize) × (rings.size ≢ self.old.rings.size)) }
        ensures kept { OnErr result (self.new ≡ self.old) }
    {
        if rings.size() != self.rings.size() {
            return Err(Error::InvalidSize);
        }
        self.rings = rings;
        self.chain.end();
        Ok(())
    }

    /// The flags that are to be read before `pop`: those of the place that is available next.
    pub fn avail_flags_place(&self) -> HostRange
        ensures exact { result ≡ at (self.now.rings.desc_ring + 16 * (state self.now).avail.index + 14) 2 }
        ensures within { Within (ring_range self.now.rings) result }
    {
        self.rings.flags_place(self.avail.index)
    }

    /// The flags of the next place were read as this: whether a chain is available there, which is then followed.
    pub fn pop(&mut self, flags: u16) -> Result<bool>
        ensures ok { IfOk result (λ found. popped self.old (state self.old) flags ≡ Ok (found, state self.new)) }
        ensures err { IfErr result (λ e. popped self.old (state self.old) flags ≡ Err e) }
        ensures begins { IfOk result (λ found. found ≡ true → Begins (ring_range self.old.rings) (segment_limit self.old.rings.size self.old.indirect_desc) (state self.new).chain) }
        ensures kept { OnErr result (state self.new ≡ state self.old) }
        ensures rings { IsSameQueue self.old self.new }
    {
        if self.needs_reset {
            return Err(Error::NeedsReset);
        }
        if !self.avail.is_available(flags) {
            return Ok(false);
        }
        self.begin()?;
        Ok(true)
    }

    /// A chain that was the device's before a crash is again, and is followed. Until it has left the ring its descriptors are those that
    /// the inflight region has, and none is read at its place. NeedsReset.
    pub fn resubmit(&mut self) -> Result<()>
        ensures ok { OnOk result (resubmitted self.old (state self.old) ≡ Ok (true, state self.new)) }
        ensures begins { OnOk result (Begins (ring_range self.old.rings) (segment_limit self.old.rings.size self.old.indirect_desc) (state self.new).chain) }
        ensures err { IfErr result (λ e. resubmitted self.old (state self.old) ≡ Err e) }
        ensures kept { OnErr result (state self.new ≡ state self.old) }
        ensures rings { IsSameQueue self.old self.new }
    {
        if self.needs_reset {
            return Err(Error::NeedsReset);
        }
        self.begin()
    }

    // The chain at the next place is followed.
    fn begin(&mut self) -> Result<()>
        ensures ok { OnOk result (beginning (state self.old) (begun self.old.rings.desc_ring self.old.rings.size (segment_limit self.old.rings.size self.old.indirect_desc) self.old.indirect_desc (state self.old).avail.index) ≡ Ok (true, state self.new)) }
        ensures begins { OnOk result (Begins (ring_range self.old.rings) (segment_limit self.old.rings.size self.old.indirect_desc) (state self.new).chain) }
        ensures err { IfErr result (λ e. beginning (state self.old) (begun self.old.rings.desc_ring self.old.rings.size (segment_limit self.old.rings.size self.old.indirect_desc) self.old.indirect_desc (state self.old).avail.index) ≡ Err e) }
        ensures kept { OnErr result (state self.new ≡ state self.old) }
        ensures rings { IsSameQueue self.old self.new }
    {
        let (ring, size) = (self.rings.desc_ring(), self.rings.size());
        self.chain
            .begin(ring, size, self.indirect_desc, self.avail.index)?;
        self.slots = 0;
        self.in_ring = true;
        Ok(())
    }

    /// Whether the descriptor that is to be read next is in the ring, so that its id may be the chain's.
    pub fn in_ring(&self) -> bool
        ensures { result ≡ (state self.now).in_ring }
    {
        self.in_ring
    }

    /// The chain that is followed.
    pub fn chain(&self) -> &DescriptorChain
        ensures { following result.now ≡ (state self.now).chain }
    {
        &self.chain
    }

    /// The descriptor that is to be read next, if the chain that is followed goes on. No bytes: one that was read goes on in another
    /// region, and its rest comes next.
    pub fn descriptor_place(&self) -> Option<HostRange>
        ensures exact { result ≡ place_of (state self.now).chain }
        ensures within { IfSome result (λ place. Within (table_of (state self.now).chain) place) }
    {
        self.chain.place()
    }

    /// The next descriptor was read as this: a segment, or none where it names an indirect table. Once the last one of the ring
    /// was read, the chain is the device's, by the id that this has. Where the rest of a descriptor comes, what is given is not looked at.
    ///
    /// ChainEnded: none was to be read. NeedsReset: the queue did before. After any other the queue needs a reset.
    pub fn step(
        &mut self,
        memory: &mut GuestMemory,
        descriptor: PackedDescriptor,
    ) -> Result<Option<Segment>>
        ensures ok { IfOk result (λ segment. stepped memory.old.regions.items self.old.rings.size (state self.old) descriptor ≡ Ok (segment, state self.new)) }
        ensures err { IfErr result (λ e. stepped memory.old.regions.items self.old.rings.size (state self.old) descriptor ≡ Err e) }
        ensures goes_on { IfOk result (λ segment. GoesOn memory.old.regions.items (state self.old).chain segment (state self.new).chain) }
        ensures taken_once { OnOk result ((state self.old).chain.rest ≡ None → is_last (state self.old) descriptor ≡ true → slice_index_or (state self.old).out descriptor.id 0 ≡ 0) }
        ensures kept { OnErr result (state self.new ≡ refused_step (state self.old)) }
        ensures rings { IsSameQueue self.old self.new }
        ensures memory { memory.new.regions.items ≡ memory.old.regions.items }
    {
        if self.needs_reset {
            return Err(Error::NeedsReset);
        }
        let Some(at) = self.chain.next() else {
            return Err(Error::ChainEnded);
        };
        let begins = !self.chain.has_rest();
        if begins && let Some(error) = self.fault_of(&descriptor) {
            self.needs_reset = true;
            return Err(error);
        }
        let split = self.as_split(at, &descriptor);
        let stepped = self.chain.step(memory, split);
        if stepped.is_err() {
            self.needs_reset = true;
        } else if begins {
            self.go_on(&descriptor);
        }
        stepped
    }

    // Whether this descriptor is the chain's last in the ring.
    fn is_last(&self, descriptor: &PackedDescriptor) -> bool
        ensures { result ≡ is_last (state self.now) descriptor.now }
    {
        self.in_ring && (descriptor.flags & INDIRECT != 0 || descriptor.flags & NEXT == 0)
    }

    // What is wrong with the place of a descriptor, or its id.
    fn fault_of(&self, descriptor: &PackedDescriptor) -> Option<Error>
        ensures { result ≡ fault_of self.now.rings.size (state self.now) descriptor.now }
    {
        if self.in_ring && self.slots >= self.rings.size() {
            return Some(Error::ChainTooLong);
        }
        if !self.is_last(descriptor) {
            return None;
        }
        if descriptor.id >= self.rings.size() {
            return Some(Error::NotInTable);
        }
        if self.out[usize::from(descriptor.id)] != 0 {
            return Some(Error::HeadInUse);
        }
        None
    }

    // The descriptor as one of a split chain.
    fn as_split(&self, at: u16, descriptor: &PackedDescriptor) -> Descriptor
        requires { at < (state self.now).chain.entries }
        ensures { result ≡ as_split (state self.now) at descriptor.now }
    {
        let goes_on = at + 1 < self.chain.entries();
        let flags = if self.in_ring {
            descriptor.flags
        } else if goes_on {
            descriptor.flags & (WRITE | INDIRECT) | NEXT
        } else {
            descriptor.flags & (WRITE | INDIRECT)
        };
        Descriptor {
            addr: descriptor.addr,
            len: descriptor.len,
            flags,
            next: if goes_on { at + 1 } else { 0 },
        }
    }

    // The chain has gone on behind this descriptor, and is the device's if that was its last in the ring.
    fn go_on(&mut self, descriptor: &PackedDescriptor)
        requires no_fault { fault_of self.old.rings.size (state self.old) descriptor.now ≡ None }
        ensures exact { state self.new ≡ gone_on self.old.rings.size (state self.old) descriptor.now (state self.old).chain }
        ensures rings { IsSameQueue self.old self.new }
    {
        if !self.in_ring {
            return;
        }
        self.slots += 1;
        if self.is_last(descriptor) {
            self.in_ring = false;
            self.out[usize::from(descriptor.id)] = self.slots;
            self.avail = self.avail.advanced(self.rings.size(), self.slots);
        }
    }

    /// The device is done with the chain of this id, and wrote so many bytes: what is to be written. NotHandedOut: it has no such
    /// chain, and nothing changes.
    pub fn add_used(&mut self, id: u16, len: u32) -> Result<PackedUsed>
        ensures ok { OnOk result (used self.old.rings.size (state self.old) id ≡ Ok (state self.new)) }
        ensures elem { IfOk result (λ e. (e.id ≡ id) × (e.len ≡ len) × (e.flags ≡ used_flags (state self.old).used.wrap len)) }
        ensures place { IfOk result (λ e. (e.place ≡ at (self.old.rings.desc_ring + 16 * (state self.old).used.index + 8) 6) × (e.flags_place ≡ at (self.old.rings.desc_ring + 16 * (state self.old).used.index + 14) 2)) }
        ensures within { IfOk result (λ e. Within (ring_range self.old.rings) e.place × Within (ring_range self.old.rings) e.flags_place) }
        ensures once { OnOk result ((slice_index_or (state self.old).out id 0 ≢ 0) × ((state self.new).out ≡ slice_set (state self.old).out id 0)) }
        ensures err { IfErr result (λ e. used self.old.rings.size (state self.old) id ≡ Err e) }
        ensures kept { OnErr result (self.new ≡ self.old) }
        ensures rings { IsSameQueue self.old self.new }
    {
        if id >= self.rings.size() || self.out[usize::from(id)] == 0 {
            return Err(Error::NotHandedOut);
        }
        let written = if len == 0 { 0 } else { WRITE };
        let flags = if self.used.wrap {
            AVAIL_AND_USED + written
        } else {
            written
        };
        let place = self.rings.elem_place(self.used.index);
        let flags_place = self.rings.flags_place(self.used.index);
        let count = self.out[usize::from(id)];
        self.used = self.used.advanced(self.rings.size(), count);
        self.out[usize::from(id)] = 0;
        Ok(PackedUsed {
            place,
            len,
            id,
            flags_place,
            flags,
        })
    }

    /// Whether the driver is to be told of what was used since this was last asked, where this was read at `driver_event_place`
    /// after the flags of what was used were written (virtio 1.2, 2.8.10).
    pub fn needs_notification(&mut self, event: EventSuppression) -> bool
        ensures by_place { self.old.event_idx ≡ true → event.flags ≡ 2 → (IsTrue result ↔ IsToldOf self.old.rings.size (state self.old).signalled (state self.old).used (position_of event.position)) }
        ensures by_flags { self.old.event_idx ≡ false → (IsTrue result ↔ (event.flags ≢ 1)) }
        ensures else_by_flags { event.flags ≢ 2 → (IsTrue result ↔ (event.flags ≢ 1)) }
        ensures kept { state self.new ≡ record (state self.old) { signalled = Some (state self.old).used } }
        ensures rings { IsSameQueue self.old self.new }
    {
        let before = self.signalled;
        self.signalled = Some(self.used);
        if !self.event_idx || event.flags != DESC {
            return event.flags != DISABLE;
        }
        let wanted = Position::of_number(event.position);
        match before {
            Some(old) if wanted.index < self.rings.size() => passes(
                self.rings.size(),
                wanted,
                self.used,
                old,
            ),
            _ => true,
        }
    }

    /// What is to be written at `device_event_place` so that the driver tells, or does not tell, of what it makes available from
    /// now on. After it was asked to tell, the flags of the next place are to be read again.
    pub fn set_notification(&self, enable: bool) -> EventSuppression
        ensures { result ≡ (if enable then (if self.now.event_idx then record { position = number_of (state self.now).avail; flags = 2 } else record { position = 0; flags = 0 }) else record { position = 0; flags = 1 }) }
    {
        if !enable {
            EventSuppression {
                position: 0,
                flags: DISABLE,
            }
        } else if self.event_idx {
            EventSuppression {
                position: self.avail.number(),
                flags: DESC,
            }
        } else {
            EventSuppression {
                position: 0,
                flags: ENABLE,
            }
        }
    }
}
