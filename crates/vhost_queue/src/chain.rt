//! A chain of descriptors, followed one segment at a time.

ghost use Rattle.std.specs.Prelude.{◌≡◌, ◌+◌, ◌*◌, ◌^◌, ◌<◌, ◌≤◌, ◌≢◌, length, take, IfOk, IfErr, OnOk, OnErr, Ok, Err, Some, None, true, false, replicate, slice_index_or};
ghost use Rattle.std.specs.Option.{ForSome};

use crate::descriptor::{DESCRIPTOR_SIZE, Descriptor, Segment};
use crate::error::{Error, Result};
use crate::memory::{AddressSpace, GuestMemory, HostRange};
use crate::segment::{INDIRECT, NEXT, WRITE, segment_of, whole_segment_of};
use crate::table::table_entries;

// How many times the descriptors of a chain go on in another region: as many borders lie between the regions that there may be.
const MAX_SPLITS: u16 = 508;

/// A chain that is being followed.
#[derive(Drop)]
pub struct DescriptorChain {
    /// Where the table is mapped, and how many descriptors it has.
    table: u64,
    entries: u16,
    /// The descriptor that is to be read.
    next: Option<u16>,
    /// What of it is left, where its first bytes came already.
    rest: Option<Descriptor>,
    /// How many descriptors may come yet, and how many times one may go on in another region.
    left: u16,
    splits: u16,
    /// Whether a writable one came.
    writing: bool,
    /// Whether an indirect table may come.
    nests: bool,
    /// How many descriptors with bytes a chain has at most.
    limit: u16,
    ghost fits: { table + 16 * entries < 2 ^ 64 },
    ghost small: { entries ≤ limit },
    ghost enough: { left ≤ limit },
    ghost within: { ForSome next (λ i. i < entries) },
    ghost some: { ForSome next (λ _. 0 < left) },
}

impl DescriptorChain {
    ghost use Rattle.vhost_queue.specs.Chain.{after, begun, following, gone_on, split, table_of, Begins, GoesOn, IsPart, limit_of, nested, next_of, next_value, place_of, rest_of, step};
    ghost use Rattle.vhost_queue.specs.Places.{at, Within};
    ghost use Rattle.vhost_queue.specs.Segment.{is_writable};
    ghost use Rattle.std.specs.Bool.{OnFalse, OnTrue};
    ghost use Rattle.std.specs.Prelude.{IfNone, IfSome, IsSome, is_some};

    /// No chain yet. Each will have at most so many descriptors with bytes.
    pub fn new(limit: u16) -> DescriptorChain
        ensures limit { limit_of result ≡ limit }
        ensures ended { (following result).next ≡ None }
    {
        DescriptorChain {
            table: 0,
            entries: 0,
            next: None,
            rest: None,
            left: 0,
            splits: 0,
            writing: false,
            nests: false,
            limit,
        }
    }

    /// The chain that was followed is none any more.
    pub fn end(&mut self)
        ensures ended { following self.new ≡ record (following self.old) { next = None } }
        ensures limit { limit_of self.new ≡ limit_of self.old }
    {
        self.next = None;
    }

    /// The chain begins at this descriptor of a queue's table, and may have as many of them as was said.
    pub fn begin(&mut self, table: u64, size: u16, nests: bool, head: u16) -> Result<()>
        requires small { size ≤ limit_of self.old }
        requires fits { table + 16 * size < 2 ^ 64 }
        ensures ok { OnOk result (begun table size (limit_of self.old) nests head ≡ Ok (following self.new)) }
        ensures begins { OnOk result (Begins (at table (16 * size)) (limit_of self.old) (following self.new)) }
        ensures err { IfErr result (λ e. begun table size (limit_of self.old) nests head ≡ Err e) }
        ensures kept { OnErr result (following self.new ≡ following self.old) }
        ensures limit { limit_of self.new ≡ limit_of self.old }
    {
        if head >= size {
            return Err(Error::NotInTable);
        }
        self.table = table;
        self.entries = size;
        self.next = Some(head);
        self.rest = None;
        self.left = self.limit;
        self.splits = MAX_SPLITS;
        self.writing = false;
        self.nests = nests;
        Ok(())
    }

    /// The place in its table of the descriptor that is next, if the chain goes on.
    pub fn next(&self) -> Option<u16>
        ensures exact { result ≡ (following self.now).next }
        ensures within { IfSome result (λ i. i < (following self.now).entries) }
    {
        self.next
    }

    /// Where its table is mapped.
    pub fn table(&self) -> HostRange
        ensures { result ≡ table_of (following self.now) }
    {
        HostRange {
            addr: self.table,
            len: DESCRIPTOR_SIZE * u64::from(self.entries),
        }
    }

    /// How many descriptors its table has.
    pub fn entries(&self) -> u16
        ensures { result ≡ (following self.now).entries }
    {
        self.entries
    }

    /// Whether a descriptor's first bytes came, and the rest of it comes next.
    pub fn has_rest(&self) -> bool
        ensures { result ≡ is_some (following self.now).rest }
    {
        self.rest.is_some()
    }

    /// The 16 bytes that are to be read next, if the chain goes on; none of them where the rest of a descriptor comes.
    pub fn place(&self) -> Option<HostRange>
        ensures exact { result ≡ place_of (following self.now) }
        ensures within { IfSome result (λ place. Within (table_of (following self.now)) place) }
    {
        match self.next {
            Some(at) => Some(HostRange {
                addr: self.table + DESCRIPTOR_SIZE * u64::from(at),
                len: if self.has_rest() { 0 } else { DESCRIPTOR_SIZE },
            }),
            None => None,
        }
    }

    /// The next descriptor has this value: a segment, or none where it names an indirect table; the chain goes on behind it. The segment
    /// is all of the descriptor's bytes, or the first of them where these lie in more than one region. Then its rest comes next, and
    /// the value that is given is not looked at. A refusal names what is wrong with the value, and changes nothing.
    pub fn step(
        &mut self,
        memory: &mut GuestMemory,
        descriptor: Descriptor,
    ) -> Result<Option<Segment>>
        ensures ok { IfOk result (λ segment. step memory.old.regions.items (following self.old) descriptor ≡ Ok (segment, following self.new)) }
        ensures err { IfErr result (λ e. step memory.old.regions.items (following self.old) descriptor ≡ Err e) }
        ensures goes_on { IfOk result (λ segment. GoesOn memory.old.regions.items (following self.old) segment (following self.new)) }
        ensures part { IfOk result (λ segment. IsPart (next_value (following self.old).rest descriptor) segment (following self.new).rest) }
        ensures kept { OnErr result (self.new ≡ self.old) }
        ensures limit { limit_of self.new ≡ limit_of self.old }
        ensures memory { memory.new.regions.items ≡ memory.old.regions.items }
    {
        if self.next.is_none() {
            return Err(Error::ChainEnded);
        }
        let descriptor = self.rest.unwrap_or(descriptor);
        if descriptor.flags & INDIRECT != 0 {
            self.enter(memory, descriptor)?;
            return Ok(None);
        }
        let Descriptor {
            addr,
            len,
            flags,
            next: _,
        } = descriptor;
        let segment = segment_of(memory, self.writing, addr, len, flags)?;
        self.go_on(descriptor, segment.range.len)?;
        Ok(Some(segment))
    }

    /// The next descriptor has this value, which is as most are: it names no table, and all of its bytes lie in one region. Its segment.
    /// None: it is not, nothing changes, and `step` says what it is.
    pub(crate) fn pass(
        &mut self,
        memory: &mut GuestMemory,
        descriptor: Descriptor,
    ) -> Option<Segment>
        ensures some { IfSome result (λ segment. step memory.old.regions.items (following self.old) descriptor ≡ Ok (Some segment, following self.new)) }
        ensures goes_on { IfSome result (λ segment. GoesOn memory.old.regions.items (following self.old) (Some segment) (following self.new)) }
        ensures whole { IfSome result (λ _. (following self.new).rest ≡ None) }
        ensures kept { IfNone result (self.new ≡ self.old) }
        ensures limit { limit_of self.new ≡ limit_of self.old }
        ensures memory { memory.new.regions.items ≡ memory.old.regions.items }
    {
        let Descriptor {
            addr,
            len,
            flags,
            next: _,
        } = descriptor;
        if flags & INDIRECT != 0 || self.rest.is_some() || self.next.is_none() {
            return None;
        }
        let Ok(next) = self.next_of(descriptor) else {
            return None;
        };
        let Some(segment) = whole_segment_of(memory, self.writing, addr, len, flags) else {
            return None;
        };
        self.next = next;
        self.left -= 1;
        self.writing = flags & WRITE != 0;
        Some(segment)
    }

    /// The next descriptor has this value, and names an indirect table, in which the chain goes on. False: it does not, nothing changes, and
    /// `step` says what it is.
    pub(crate) fn nest(&mut self, memory: &mut GuestMemory, descriptor: Descriptor) -> bool
        ensures some { OnTrue result (step memory.old.regions.items (following self.old) descriptor ≡ Ok (None, following self.new)) }
        ensures goes_on { OnTrue result (GoesOn memory.old.regions.items (following self.old) None (following self.new)) }
        ensures whole { OnTrue result ((following self.new).rest ≡ None) }
        ensures kept { OnFalse result (self.new ≡ self.old) }
        ensures limit { limit_of self.new ≡ limit_of self.old }
        ensures memory { memory.new.regions.items ≡ memory.old.regions.items }
    {
        if descriptor.flags & INDIRECT == 0 || self.rest.is_some() || self.next.is_none() {
            return false;
        }
        self.enter(memory, descriptor).is_ok()
    }

    // The chain goes on in the indirect table that this descriptor names.
    fn enter(&mut self, memory: &mut GuestMemory, descriptor: Descriptor) -> Result<()>
        ensures ok { OnOk result (nested memory.old.regions.items (following self.old) descriptor ≡ Ok (None, following self.new)) }
        ensures goes_on { OnOk result (GoesOn memory.old.regions.items (following self.old) None (following self.new)) }
        ensures err { IfErr result (λ e. nested memory.old.regions.items (following self.old) descriptor ≡ Err e) }
        ensures kept { OnErr result (self.new ≡ self.old) }
        ensures limit { limit_of self.new ≡ limit_of self.old }
        ensures memory { memory.new.regions.items ≡ memory.old.regions.items }
    {
        if !self.nests {
            return Err(Error::UnexpectedIndirect);
        }
        if descriptor.flags & NEXT != 0 {
            return Err(Error::IndirectGoesOn);
        }
        let len = u64::from(descriptor.len);
        let entries = table_entries(len, self.left)?;
        let table = memory.translate(AddressSpace::Guest, descriptor.addr, len)?;
        self.table = table.addr;
        self.entries = entries;
        self.next = Some(0);
        self.rest = None;
        self.nests = false;
        Ok(())
    }

    // The chain goes on behind these first bytes of a descriptor, or all of them.
    fn go_on(&mut self, descriptor: Descriptor, len: u64) -> Result<()>
        requires next { IsSome self.old.next }
        requires some { 0 < len }
        requires most { len ≤ descriptor.len }
        requires fits { descriptor.addr + len < 2 ^ 64 }
        ensures ok { OnOk result (gone_on (following self.old) descriptor len ≡ Ok (following self.new)) }
        ensures goes_on { OnOk result (((following self.new).left + (following self.new).splits + 1 ≡ (following self.old).left + (following self.old).splits) × ((following self.new).writing ≡ is_writable descriptor.flags) × (table_of (following self.new) ≡ table_of (following self.old)) × ((following self.new).nests ≡ (following self.old).nests)) }
        ensures whole { OnOk result ((following self.new).rest ≡ None → len ≡ descriptor.len) }
        ensures part { OnOk result (IfSome (following self.new).rest (λ rest. (len < descriptor.len) × (rest ≡ rest_of descriptor len))) }
        ensures err { IfErr result (λ e. gone_on (following self.old) descriptor len ≡ Err e) }
        ensures kept { OnErr result (self.new ≡ self.old) }
        ensures limit { limit_of self.new ≡ limit_of self.old }
    {
        if len == u64::from(descriptor.len) {
            return self.follow(descriptor);
        }
        if self.splits == 0 {
            return Err(Error::ChainTooLong);
        }
        self.rest = Some(Descriptor {
            addr: descriptor.addr + len,
            len: descriptor.len - len as u32,
            flags: descriptor.flags,
            next: descriptor.next,
        });
        self.splits -= 1;
        self.writing = descriptor.flags & WRITE != 0;
        Ok(())
    }

    // The chain goes on behind this descriptor, if it does.
    fn follow(&mut self, descriptor: Descriptor) -> Result<()>
        requires next { IsSome self.old.next }
        ensures ok { OnOk result (after (following self.old) descriptor ≡ Ok (following self.new)) }
        ensures goes_on { OnOk result (((following self.new).left + 1 ≡ (following self.old).left) × ((following self.new).splits ≡ (following self.old).splits) × ((following self.new).rest ≡ None) × ((following self.new).writing ≡ is_writable descriptor.flags) × (table_of (following self.new) ≡ table_of (following self.old)) × ((following self.new).nests ≡ (following self.old).nests)) }
        ensures err { IfErr result (λ e. after (following self.old) descriptor ≡ Err e) }
        ensures kept { OnErr result (self.new ≡ self.old) }
        ensures limit { limit_of self.new ≡ limit_of self.old }
    {
        let next = self.next_of(descriptor)?;
        self.next = next;
        self.rest = None;
        self.left -= 1;
        self.writing = descriptor.flags & WRITE != 0;
        Ok(())
    }

    // Which descriptor comes behind one of this value, if any does.
    fn next_of(&self, descriptor: Descriptor) -> Result<Option<u16>>
        ensures exact { result ≡ next_of (following self.now) descriptor }
        ensures within { IfOk result (λ next. ForSome next (λ i. i < self.now.entries)) }
        ensures some { IfOk result (λ next. ForSome next (λ i. self.now.left ≢ 1)) }
    {
        if descriptor.flags & NEXT == 0 {
            return Ok(None);
        }
        let next = descriptor.next;
        if next >= self.entries {
            return Err(Error::NotInTable);
        }
        if self.left == 1 {
            return Err(Error::ChainTooLong);
        }
        Ok(Some(next))
    }
}
