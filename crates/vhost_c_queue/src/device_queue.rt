//! A queue of either layout, and the memory that it sees.

ghost use Rattle.std.specs.Prelude.{◌≡◌, [], ◌++◌, ◌∷◌, Ok, Err, OnOk, OnErr, IfOk, IfErr};
ghost use Rattle.vhost_queue.specs.Chain.{following};
ghost use Rattle.vhost_c_queue.specs.Walking.{table_at};

use crate::bytes::as_packed;
use crate::records::{EventWrite, PackedRing, SplitRing, Table, Used, Walked};
use crate::refusal::Refusal;
use crate::walking::put;
use std::alloc::Global;
use vhost_queue::{
    AddressSpace, Descriptor, DescriptorChain, Error, EventSuppression, GuestMemory, GuestRegion,
    HostRange, PackedConfig, PackedQueue, PackedRings, Position, Queue, QueueConfig, Rings,
    Segment, run_of,
};

// What a number counts for above 32 bits.
const HIGH: u64 = 1 << 32;

/// What a queue's rings are.
#[derive(Drop)]
pub enum Ring {
    Stopped,
    Split(Queue),
    Packed(PackedQueue),
}

/// A queue, and the memory that it sees.
#[derive(Drop)]
pub struct DeviceQueue {
    memory: GuestMemory,
    ring: Ring,
}

// Where a chain goes on.
fn table_of(chain: &DescriptorChain) -> Table
    ensures { result ≡ table_at (following chain.now) }
{
    let next = chain.next();
    Table {
        range: chain.table(),
        next: next.unwrap_or(0),
        goes_on: next.is_some(),
    }
}

impl DeviceQueue {
    ghost use Rattle.std.specs.Prelude.{ℕ, ◌<◌, ◌≤◌, length, is_some, take, remove, slice_index_or, All, true, false};
    ghost use Rattle.vhost_queue.specs.Chain.{GoesOn};
    ghost use Rattle.vhost_c_queue.specs.Taking.{Begins, NotTaken, TakesTo};
    ghost use Rattle.vhost_c_queue.specs.Using.{UsesAll};
    ghost use Rattle.vhost_c_queue.specs.Walking.{RunsBy, Steps, Stops, WalksTo, chain_of};
    ghost use Rattle.vhost_queue.specs.Memory.{is_at, translated, AreRegions, Refuses, RefusesAll};
    ghost use Rattle.vhost_queue.specs.declared.error.Error.TheVariants.{NoSuchRegion};
    ghost use Rattle.vhost_queue.specs.Queue.{adopted, broken, given_back, popped, refused_pop, resubmitted};
    ghost use Rattle.vhost_queue.specs.declared.memory.GuestRegion.{GuestRegion};
    ghost use Rattle.vhost_c_queue.specs.DeviceQueue.{Alters, Answers, ByLayout, HearsPacked, HearsSplit, Takes, TakesAgain, Because, IsPacked, IsSplit, MovesPacked, MovesSplit, RefusesPacked, RefusesSplit, StartsPacked, StartsSplit, StaysPacked, StaysSplit, TellsPacked, TellsSplit, UsesPacked, UsesSplit, available_place, base, descriptor_place, event_write, head_place, heads_place, needs_reset, notification_place, regions};
    ghost use Rattle.vhost_c_queue.specs.declared.device_queue.Ring.TheVariants.{Stopped};
    ghost use Rattle.vhost_c_queue.specs.declared.refusal.Refusal.TheVariants.{NotStarted, OtherLayout};

    /// A queue without rings, which sees no memory.
    pub fn new(alloc: Global) -> DeviceQueue
        ensures none { regions result ≡ [] }
        ensures stopped { result.ring ≡ Stopped }
    {
        DeviceQueue {
            memory: GuestMemory::new(alloc),
            ring: Ring::Stopped,
        }
    }

    /// The next descriptor was read as these 16 bytes: its segment, or none where it names an indirect table.
    pub fn step(&mut self, descriptor: Descriptor) -> Result<Option<Segment>, Refusal>
        ensures steps { Steps (regions self.old) descriptor result self.old.ring self.new.ring }
        ensures goes_on { IfOk result (λ segment. GoesOn (regions self.old) (chain_of self.old.ring) segment (chain_of self.new.ring)) }
        ensures memory { regions self.new ≡ regions self.old }
    {
        match &mut self.ring {
            Ring::Stopped => Err(Refusal::NotStarted),
            Ring::Split(queue) => match queue.step(&mut self.memory, descriptor) {
                Ok(segment) => Ok(segment),
                Err(error) => Err(Refusal::Queue(error)),
            },
            Ring::Packed(queue) => match queue.step(&mut self.memory, as_packed(descriptor)) {
                Ok(segment) => Ok(segment),
                Err(error) => Err(Refusal::Queue(error)),
            },
        }
    }

    /// The descriptors that come next were read as these, one behind the other: how far the chain was followed by them. They are not all taken
    /// where the segments fill their places before. A refusal is one of `step`: of the first descriptor that is refused, and those before it were
    /// taken.
    pub fn walk(
        &mut self,
        copies: &[Descriptor],
        segments: &mut [Segment],
    ) -> Result<Walked, Refusal>
        ensures ok { IfOk result (λ w. WalksTo (regions self.old) copies.now segments.new w self.old.ring self.new.ring) }
        ensures err { IfErr result (λ f. Stops (regions self.old) copies.now f self.old.ring self.new.ring) }
        ensures len { length segments.new ≡ length segments.old }
        ensures memory { regions self.new ≡ regions self.old }
    {
        let (mut taken, mut count) = self.run(copies, segments);
        while taken < copies.len() && count < segments.len() {
            let segment = self.step(copies[taken])?;
            count = put(segments, count, segment);
            if !self.has_rest() {
                taken += 1;
            }
        }
        Ok(Walked {
            taken,
            count,
            table: self.table(),
        })
    }

    /// The next entry of a split queue's available ring was read as this, or the flags of a packed queue's next place; and the first descriptors
    /// of the chain that begins there were read as these: how far it was followed by them, as `walk` tells it. A refusal is one of `pop`, or of
    /// `available`, where no chain is available too; or one of `walk`, and then the chain is followed.
    pub fn take(
        &mut self,
        value: u16,
        copies: &[Descriptor],
        segments: &mut [Segment],
    ) -> Result<Walked, Refusal>
        ensures ok { IfOk result (λ w. TakesTo (regions self.old) value copies.now segments.new w self.old.ring self.new.ring) }
        ensures err { IfErr result (λ f. NotTaken (regions self.old) value copies.now f self.old.ring self.new.ring) }
        ensures len { length segments.new ≡ length segments.old }
        ensures memory { regions self.new ≡ regions self.old }
    {
        self.begin(value)?;
        self.walk(copies, segments)
    }

    // The next chain is followed, where this was read of it: a head, or flags.
    fn begin(&mut self, value: u16) -> Result<(), Refusal>
        ensures begins { Begins value result self.old.ring self.new.ring }
        ensures memory { regions self.new ≡ regions self.old }
    {
        match &mut self.ring {
            Ring::Stopped => Err(Refusal::NotStarted),
            Ring::Split(queue) => match queue.pop(value) {
                Ok(()) => Ok(()),
                Err(error) => Err(Refusal::Queue(error)),
            },
            Ring::Packed(queue) => match queue.pop(value) {
                Ok(true) => Ok(()),
                Ok(false) => Err(Refusal::Queue(Error::NothingAvailable)),
                Err(error) => Err(Refusal::Queue(error)),
            },
        }
    }

    // The first of these descriptors are followed that are as most are, in a split queue: how many, and how many segments they are.
    fn run(&mut self, copies: &[Descriptor], segments: &mut [Segment]) -> (usize, usize)
        ensures runs { RunsBy (regions self.old) copies.now result.0 (take result.1 segments.new) self.old.ring self.new.ring }
        ensures most { (result.0 ≤ length copies.now) × (result.1 ≤ length segments.new) }
        ensures len { length segments.new ≡ length segments.old }
        ensures memory { regions self.new ≡ regions self.old }
    {
        match &mut self.ring {
            Ring::Split(queue) => run_of(&mut self.memory, queue, copies, segments),
            _ => (0, 0),
        }
    }

    // Whether a descriptor's first bytes came, and the rest of it comes next.
    fn has_rest(&self) -> bool
        ensures { result ≡ is_some (chain_of self.now.ring).rest }
    {
        match &self.ring {
            Ring::Stopped => false,
            Ring::Split(queue) => queue.chain().has_rest(),
            Ring::Packed(queue) => queue.chain().has_rest(),
        }
    }

    /// Where the chain that is followed goes on.
    pub fn table(&self) -> Table
        ensures { result ≡ table_at (chain_of self.now.ring) }
    {
        match &self.ring {
            Ring::Stopped => Table {
                range: HostRange { addr: 0, len: 0 },
                next: 0,
                goes_on: false,
            },
            Ring::Split(queue) => table_of(queue.chain()),
            Ring::Packed(queue) => table_of(queue.chain()),
        }
    }

    /// The memory that it sees has these regions, in the place of those that it had. Its rings stay where they are mapped, until
    /// they are started again or moved. A refusal changes nothing.
    pub fn set_regions(&mut self, alloc: Global, given: &[GuestRegion]) -> Result<(), Refusal>
        ensures ok { OnOk result ((regions self.new ≡ given.now) × AreRegions given.now) }
        ensures reason { IfErr result (Because (RefusesAll given.now)) }
        ensures err { OnErr result (regions self.new ≡ regions self.old) }
        ensures ring { self.new.ring ≡ self.old.ring }
    {
        self.memory.set(alloc, given)?;
        Ok(())
    }

    /// A region more. A refusal changes nothing.
    pub fn add_region(&mut self, region: GuestRegion) -> Result<(), Refusal>
        ensures ok { OnOk result (regions self.new ≡ regions self.old ++ region ∷ []) }
        ensures reason { IfErr result (Because (Refuses (regions self.old) region)) }
        ensures err { OnErr result (regions self.new ≡ regions self.old) }
        ensures ring { self.new.ring ≡ self.old.ring }
    {
        self.memory.add(region)?;
        Ok(())
    }

    /// A region less. A refusal changes nothing.
    pub fn remove_region(
        &mut self,
        guest_addr: u64,
        size: u64,
        user_addr: u64,
    ) -> Result<(), Refusal>
        ensures ok { OnOk result ((at : ℕ) × (at < length (regions self.old)) × (regions self.new ≡ remove (regions self.old) at) × ((d : GuestRegion) → is_at (slice_index_or (regions self.old) at d) guest_addr size user_addr ≡ true)) }
        ensures reason { IfErr result (Because (λ e. (e ≡ NoSuchRegion) × All (λ r. is_at r guest_addr size user_addr ≡ false) (regions self.old))) }
        ensures err { OnErr result (regions self.new ≡ regions self.old) }
        ensures ring { self.new.ring ≡ self.old.ring }
    {
        self.memory.remove(guest_addr, size, user_addr)?;
        Ok(())
    }

    /// Where a range of the guest's addresses, or of the frontend's, is mapped.
    pub fn translate(
        &mut self,
        space: AddressSpace,
        addr: u64,
        len: u64,
    ) -> Result<HostRange, Refusal>
        ensures ok { IfOk result (λ range. translated space (regions self.old) addr len ≡ Ok range) }
        ensures err { IfErr result (Because (λ e. translated space (regions self.old) addr len ≡ Err e)) }
        ensures memory { regions self.new ≡ regions self.old }
        ensures ring { self.new.ring ≡ self.old.ring }
    {
        match self.memory.translate(space, addr, len) {
            Ok(range) => Ok(range),
            Err(error) => Err(Refusal::Queue(error)),
        }
    }

    /// The queue is a split one from now on, and begins there. A refusal changes nothing.
    pub fn start_split(&mut self, alloc: Global, given: SplitRing) -> Result<(), Refusal>
        ensures ok { OnOk result (IsSplit (StartsSplit (regions self.old) given) self.new.ring) }
        ensures reason { IfErr result (Because (RefusesSplit (regions self.old) given)) }
        ensures err { OnErr result (self.new.ring ≡ self.old.ring) }
        ensures memory { regions self.new ≡ regions self.old }
    {
        let rings = Rings::map(
            &mut self.memory,
            given.size,
            given.desc_table,
            given.avail_ring,
            given.used_ring,
        )?;
        let config = QueueConfig {
            event_idx: given.event_idx,
            indirect_desc: given.indirect_desc,
            next_avail: given.next_avail,
            next_used: given.next_used,
        };
        let queue = Queue::new(alloc, rings, config)?;
        self.ring = Ring::Split(queue);
        Ok(())
    }

    /// The queue is a packed one from now on, and begins there. A refusal changes nothing.
    pub fn start_packed(&mut self, alloc: Global, given: PackedRing) -> Result<(), Refusal>
        ensures ok { OnOk result (IsPacked (StartsPacked (regions self.old) given) self.new.ring) }
        ensures reason { IfErr result (Because (RefusesPacked (regions self.old) given)) }
        ensures err { OnErr result (self.new.ring ≡ self.old.ring) }
        ensures memory { regions self.new ≡ regions self.old }
    {
        let rings = PackedRings::map(
            &mut self.memory,
            given.size,
            given.desc_ring,
            given.driver_event,
            given.device_event,
        )?;
        let config = PackedConfig {
            event_idx: given.event_idx,
            indirect_desc: given.indirect_desc,
            avail: Position::of_number(given.avail),
            used: Position::of_number(given.used),
        };
        let queue = PackedQueue::new(alloc, rings, config)?;
        self.ring = Ring::Packed(queue);
        Ok(())
    }

    /// It has no rings any more.
    pub fn stop(&mut self)
        ensures stopped { self.new.ring ≡ Stopped }
        ensures memory { regions self.new ≡ regions self.old }
    {
        self.ring = Ring::Stopped;
    }

    /// The rings are mapped elsewhere from now on, since regions are: those of a split queue. The chain that was followed is none any
    /// more. A refusal changes nothing of the rings.
    pub fn move_split(
        &mut self,
        desc_table: u64,
        avail_ring: u64,
        used_ring: u64,
    ) -> Result<(), Refusal>
        ensures ok { OnOk result (ByLayout (MovesSplit (regions self.old) desc_table avail_ring used_ring) (λ q p. ⊥) ⊥ self.old.ring self.new.ring) }
        ensures reason { IfErr result (StaysSplit (regions self.old) desc_table avail_ring used_ring self.old.ring) }
        ensures err { OnErr result (self.new.ring ≡ self.old.ring) }
        ensures memory { regions self.new ≡ regions self.old }
    {
        match &mut self.ring {
            Ring::Stopped => Err(Refusal::NotStarted),
            Ring::Packed(_) => Err(Refusal::OtherLayout),
            Ring::Split(queue) => {
                let size = queue.rings().size();
                let rings = Rings::map(&mut self.memory, size, desc_table, avail_ring, used_ring)?;
                queue.set_rings(rings)?;
                Ok(())
            }
        }
    }

    /// The same of a packed queue.
    pub fn move_packed(
        &mut self,
        desc_ring: u64,
        driver_event: u64,
        device_event: u64,
    ) -> Result<(), Refusal>
        ensures ok { OnOk result (ByLayout (λ q p. ⊥) (MovesPacked (regions self.old) desc_ring driver_event device_event) ⊥ self.old.ring self.new.ring) }
        ensures reason { IfErr result (StaysPacked (regions self.old) desc_ring driver_event device_event self.old.ring) }
        ensures err { OnErr result (self.new.ring ≡ self.old.ring) }
        ensures memory { regions self.new ≡ regions self.old }
    {
        match &mut self.ring {
            Ring::Stopped => Err(Refusal::NotStarted),
            Ring::Split(_) => Err(Refusal::OtherLayout),
            Ring::Packed(queue) => {
                let size = queue.rings().size();
                let rings = PackedRings::map(
                    &mut self.memory,
                    size,
                    desc_ring,
                    driver_event,
                    device_event,
                )?;
                queue.set_rings(rings)?;
                Ok(())
            }
        }
    }

    /// Where what is available is to be read.
    pub fn available_place(&self) -> Result<HostRange, Refusal>
        ensures { result ≡ available_place self.now.ring }
    {
        match &self.ring {
            Ring::Stopped => Err(Refusal::NotStarted),
            Ring::Split(queue) => Ok(queue.rings().avail_idx_place()),
            Ring::Packed(queue) => Ok(queue.avail_flags_place()),
        }
    }

    /// What is available was read as this: how many chains are. Of a packed queue at most one is told, and it is followed.
    pub fn available(&mut self, value: u16) -> Result<u16, Refusal>
        ensures hears { ByLayout (HearsSplit value result) (HearsPacked value result) (result ≡ Err NotStarted) self.old.ring self.new.ring }
        ensures memory { regions self.new ≡ regions self.old }
    {
        match &mut self.ring {
            Ring::Stopped => Err(Refusal::NotStarted),
            Ring::Split(queue) => match queue.set_avail_idx(value) {
                Ok(count) => Ok(count),
                Err(error) => Err(Refusal::Queue(error)),
            },
            Ring::Packed(queue) => match queue.pop(value) {
                Ok(true) => Ok(1),
                Ok(false) => Ok(0),
                Err(error) => Err(Refusal::Queue(error)),
            },
        }
    }

    /// The entry of a split queue's available ring that is to be read next.
    pub fn head_place(&self) -> Result<HostRange, Refusal>
        ensures { result ≡ head_place self.now.ring }
    {
        match &self.ring {
            Ring::Stopped => Err(Refusal::NotStarted),
            Ring::Packed(_) => Err(Refusal::OtherLayout),
            Ring::Split(queue) => match queue.avail_entry_place() {
                Some(place) => Ok(place),
                None => Err(Refusal::Queue(Error::NothingAvailable)),
            },
        }
    }

    /// The entries of a split queue's available ring that are to be read next, one behind the other: so many at most, up to the last one
    /// that is available, and up to the end of the ring.
    pub fn heads_place(&self, most: usize) -> Result<HostRange, Refusal>
        ensures { result ≡ heads_place self.now.ring most }
    {
        match &self.ring {
            Ring::Stopped => Err(Refusal::NotStarted),
            Ring::Packed(_) => Err(Refusal::OtherLayout),
            Ring::Split(queue) => match queue.avail_entries_place(most) {
                Some(place) => Ok(place),
                None => Err(Refusal::Queue(Error::NothingAvailable)),
            },
        }
    }

    /// The next entry of a split queue's available ring was read as this head, whose chain is followed.
    pub fn pop(&mut self, head: u16) -> Result<(), Refusal>
        ensures takes { ByLayout (Takes popped refused_pop head result) (λ q p. (result ≡ Err OtherLayout) × (p ≡ q)) (result ≡ Err NotStarted) self.old.ring self.new.ring }
        ensures memory { regions self.new ≡ regions self.old }
    {
        match &mut self.ring {
            Ring::Stopped => Err(Refusal::NotStarted),
            Ring::Packed(_) => Err(Refusal::OtherLayout),
            Ring::Split(queue) => match queue.pop(head) {
                Ok(()) => Ok(()),
                Err(error) => Err(Refusal::Queue(error)),
            },
        }
    }

    /// This head was a split queue's before a crash, and its chain is followed again.
    pub fn resubmit(&mut self, head: u16) -> Result<(), Refusal>
        ensures takes { ByLayout (Takes resubmitted broken head result) (λ q p. (result ≡ Err OtherLayout) × (p ≡ q)) (result ≡ Err NotStarted) self.old.ring self.new.ring }
        ensures memory { regions self.new ≡ regions self.old }
    {
        match &mut self.ring {
            Ring::Stopped => Err(Refusal::NotStarted),
            Ring::Packed(_) => Err(Refusal::OtherLayout),
            Ring::Split(queue) => match queue.resubmit(head) {
                Ok(()) => Ok(()),
                Err(error) => Err(Refusal::Queue(error)),
            },
        }
    }

    /// The last entry of a split queue's available ring that was read is to be read again, and this head of it is not the device's. The
    /// chain that was followed is none any more.
    pub fn give_back(&mut self, head: u16) -> Result<(), Refusal>
        ensures gives_back { ByLayout (Alters given_back head result) (λ q p. (result ≡ Err OtherLayout) × (p ≡ q)) (result ≡ Err NotStarted) self.old.ring self.new.ring }
        ensures memory { regions self.new ≡ regions self.old }
    {
        match &mut self.ring {
            Ring::Stopped => Err(Refusal::NotStarted),
            Ring::Packed(_) => Err(Refusal::OtherLayout),
            Ring::Split(queue) => match queue.give_back(head) {
                Ok(()) => Ok(()),
                Err(error) => Err(Refusal::Queue(error)),
            },
        }
    }

    /// The chain of this head is a split queue's device's: it was taken before the queue was started. It is not followed.
    pub fn adopt(&mut self, head: u16) -> Result<(), Refusal>
        ensures adopts { ByLayout (Alters adopted head result) (λ q p. (result ≡ Err OtherLayout) × (p ≡ q)) (result ≡ Err NotStarted) self.old.ring self.new.ring }
        ensures memory { regions self.new ≡ regions self.old }
    {
        match &mut self.ring {
            Ring::Stopped => Err(Refusal::NotStarted),
            Ring::Packed(_) => Err(Refusal::OtherLayout),
            Ring::Split(queue) => match queue.adopt(head) {
                Ok(()) => Ok(()),
                Err(error) => Err(Refusal::Queue(error)),
            },
        }
    }

    /// A chain was a packed queue's before a crash, and is followed again. Until it has left the ring its descriptors are those that
    /// the inflight region has.
    pub fn resubmit_packed(&mut self) -> Result<(), Refusal>
        ensures takes { ByLayout (λ q p. (result ≡ Err OtherLayout) × (p ≡ q)) (TakesAgain result) (result ≡ Err NotStarted) self.old.ring self.new.ring }
        ensures memory { regions self.new ≡ regions self.old }
    {
        match &mut self.ring {
            Ring::Stopped => Err(Refusal::NotStarted),
            Ring::Split(_) => Err(Refusal::OtherLayout),
            Ring::Packed(queue) => match queue.resubmit() {
                Ok(()) => Ok(()),
                Err(error) => Err(Refusal::Queue(error)),
            },
        }
    }

    /// The descriptor that is to be read next, if the chain that is followed goes on.
    pub fn descriptor_place(&self) -> Option<HostRange>
        ensures { result ≡ descriptor_place self.now.ring }
    {
        match &self.ring {
            Ring::Stopped => None,
            Ring::Split(queue) => queue.descriptor_place(),
            Ring::Packed(queue) => queue.descriptor_place(),
        }
    }

    /// The device is done with the chain of this head or id, and wrote so many bytes: what is to be written.
    pub fn add_used(&mut self, id: u16, len: u32) -> Result<Used, Refusal>
        ensures uses { ByLayout (UsesSplit id len result) (UsesPacked id len result) (result ≡ Err NotStarted) self.old.ring self.new.ring }
        ensures memory { regions self.new ≡ regions self.old }
    {
        match &mut self.ring {
            Ring::Stopped => Err(Refusal::NotStarted),
            Ring::Split(queue) => match queue.add_used(id, len) {
                Ok(used) => Ok(Used {
                    elem: used.place,
                    elem_value: u64::from(used.id) + HIGH * u64::from(used.len),
                    then: used.idx_place,
                    then_value: used.idx,
                }),
                Err(error) => Err(Refusal::Queue(error)),
            },
            Ring::Packed(queue) => match queue.add_used(id, len) {
                Ok(used) => Ok(Used {
                    elem: used.place,
                    elem_value: u64::from(used.len) + HIGH * u64::from(used.id),
                    then: used.flags_place,
                    then_value: used.flags,
                }),
                Err(error) => Err(Refusal::Queue(error)),
            },
        }
    }

    /// The device is done with the chains of these heads or ids, and wrote so many bytes of each: how many of them it was done with, in order, and
    /// what is to be written for each. All of them were, or the next is refused, as `add_used` says. NoRoom: one has no length or no place, and none
    /// was.
    pub fn add_used_many(
        &mut self,
        ids: &[u16],
        lens: &[u32],
        used: &mut [Used],
    ) -> (usize, Result<(), Refusal>)
        ensures uses { UsesAll ids.now lens.now (length used.old) result.1 result.0 (take result.0 used.new) self.old.ring self.new.ring }
        ensures len { length used.new ≡ length used.old }
        ensures memory { regions self.new ≡ regions self.old }
    {
        if lens.len() < ids.len() || used.len() < ids.len() {
            return (0, Err(Refusal::NoRoom));
        }
        let mut done = 0usize;
        while done < ids.len() {
            match self.add_used(ids[done], lens[done]) {
                Ok(elem) => used[done] = elem,
                Err(refusal) => return (done, Err(refusal)),
            }
            done += 1;
        }
        (done, Ok(()))
    }

    /// What is to be read before `needs_notification`.
    pub fn notification_place(&self) -> Result<HostRange, Refusal>
        ensures { result ≡ notification_place self.now.ring }
    {
        match &self.ring {
            Ring::Stopped => Err(Refusal::NotStarted),
            Ring::Split(queue) => Ok(queue.notification_place()),
            Ring::Packed(queue) => Ok(queue.rings().driver_event_place()),
        }
    }

    /// Whether the driver is to be told of what was used since this was last asked, where this was read: two bytes, and of a packed
    /// queue two bytes of flags behind them.
    pub fn needs_notification(&mut self, value: u16, flags: u16) -> Result<bool, Refusal>
        ensures tells { Answers result (TellsSplit value) (TellsPacked value flags) self.old.ring self.new.ring }
        ensures memory { regions self.new ≡ regions self.old }
    {
        match &mut self.ring {
            Ring::Stopped => Err(Refusal::NotStarted),
            Ring::Split(queue) => Ok(queue.needs_notification(value)),
            Ring::Packed(queue) => {
                let event = EventSuppression {
                    position: value,
                    flags,
                };
                Ok(queue.needs_notification(event))
            }
        }
    }

    /// What is to be written so that the driver tells, or does not tell, of what it makes available from now on.
    pub fn set_notification(&self, enable: bool) -> Result<EventWrite, Refusal>
        ensures { result ≡ event_write self.now.ring enable }
    {
        match &self.ring {
            Ring::Stopped => Err(Refusal::NotStarted),
            Ring::Split(queue) => match queue.set_notification(enable) {
                Some(write) => Ok(EventWrite {
                    place: write.place,
                    value: u32::from(write.value),
                }),
                None => Ok(EventWrite {
                    place: HostRange { addr: 0, len: 0 },
                    value: 0,
                }),
            },
            Ring::Packed(queue) => {
                let event = queue.set_notification(enable);
                Ok(EventWrite {
                    place: queue.rings().device_event_place(),
                    value: u32::from(event.position) + 0x1_0000 * u32::from(event.flags),
                })
            }
        }
    }

    /// The base of the ring, for whoever goes on with it.
    pub fn base(&self) -> Result<u32, Refusal>
        ensures { result ≡ base self.now.ring }
    {
        match &self.ring {
            Ring::Stopped => Err(Refusal::NotStarted),
            Ring::Split(queue) => Ok(u32::from(queue.next_avail())),
            Ring::Packed(queue) => {
                let (avail, used) = queue.positions();
                Ok(u32::from(avail.number()) + 0x1_0000 * u32::from(used.number()))
            }
        }
    }

    /// Whether the driver broke a rule.
    pub fn needs_reset(&self) -> bool
        ensures { result ≡ needs_reset self.now.ring }
    {
        match &self.ring {
            Ring::Stopped => false,
            Ring::Split(queue) => queue.needs_reset(),
            Ring::Packed(queue) => queue.needs_reset(),
        }
    }
}
