//! Guest memory: the regions that a frontend gave, and where each is mapped.

ghost use Rattle.std.specs.Prelude.{◌≡◌, ℕ, ◌+◌, ◌^◌, ◌<◌, ◌≤◌, ◌||◌, ◌++◌, ◌∷◌, [], nat_le, nat_lt, All, AllPairs, OnOk, OnErr, IfNone, IfOk, IfSome, true, false, length, slice_index_or};
ghost use Rattle.std.specs.Bool.{OnFalse, OnTrue};
ghost use Rattle.vhost_queue.specs.Memory.{are_apart, base, is_apart, holds, is_at, is_region, translated, translated_part, AreRegions, LiesIn, Overlaps, Refuses, RefusesAll};

use crate::error::{Error, Result};
use std::alloc::Global;

/// How many regions there are at most.
pub const MAX_REGIONS: usize = 509;

/// Whose addresses are meant: the guest's, as in descriptors, or the frontend's, as in the addresses of a ring.
#[derive(Clone, Copy, PartialEq, Eq, Debug, Drop)]
pub enum AddressSpace {
    Guest,
    User,
}

/// A region: where it begins for the guest and for the frontend, how long it is, and where it is mapped.
#[repr(C)]
#[derive(Clone, Copy, Drop)]
pub struct GuestRegion {
    pub guest_addr: u64,
    pub size: u64,
    pub user_addr: u64,
    pub host_addr: u64,
}

/// A range of mapped memory.
#[repr(C)]
#[derive(Clone, Copy, Drop)]
pub struct HostRange {
    pub addr: u64,
    pub len: u64,
}

impl GuestRegion {
    /// Whether it is not empty and ends within 64 bits, in each of the three kinds of address.
    pub fn is_valid(&self) -> bool
        ensures { result ≡ is_region self.now }
    {
        self.size != 0
            && self.guest_addr.checked_add(self.size).is_some()
            && self.user_addr.checked_add(self.size).is_some()
            && self.host_addr.checked_add(self.size).is_some()
    }

    /// Whether neither the guest nor the frontend has an address in both.
    pub fn is_apart(&self, other: &GuestRegion) -> bool
        ensures { result ≡ is_apart self.now other.now }
    {
        are_apart(self.guest_addr, self.size, other.guest_addr, other.size)
            && are_apart(self.user_addr, self.size, other.user_addr, other.size)
    }

    /// Whether it is the region of these addresses and this size.
    pub fn is_at(&self, guest_addr: u64, size: u64, user_addr: u64) -> bool
        ensures { result ≡ is_at self.now guest_addr size user_addr }
    {
        self.guest_addr == guest_addr && self.size == size && self.user_addr == user_addr
    }

    /// Where it begins.
    pub fn base(&self, space: AddressSpace) -> u64
        ensures { result ≡ base space self.now }
    {
        match space {
            AddressSpace::Guest => self.guest_addr,
            AddressSpace::User => self.user_addr,
        }
    }

    /// Whether the range has a byte, and lies in the region as a whole.
    pub fn holds(&self, space: AddressSpace, addr: u64, len: u64) -> bool
        ensures { result ≡ holds space self.now addr len }
    {
        let base = self.base(space);
        len != 0 && base <= addr && len <= self.size && addr - base <= self.size - len
    }
}

// Whether n bytes at an address end before m bytes at another begin, or the other way round.
fn are_apart(a: u64, n: u64, b: u64, m: u64) -> bool
    ensures { result ≡ are_apart a n b m }
{
    (n <= b && a <= b - n) || (m <= a && b <= a - m)
}

/// The regions of a session. A look-up begins with the region that had the last range. The places of the regions in the order of their
/// guest addresses say only where to look first for one of the guest's: what is found there is looked at, so no promise rests on them.
#[derive(Drop)]
pub struct GuestMemory {
    regions: Vec<GuestRegion>,
    order: Vec<u16>,
    last: usize,
    ghost valid: { All (λ r. is_region r ≡ true) regions.items },
    ghost apart: { AllPairs (λ r s. is_apart r s ≡ true) regions.items },
    ghost few: { length regions.items ≤ 509 },
}

impl GuestMemory {
    ghost use Rattle.std.specs.Prelude.{remove, Err, IfErr, Ok};
    ghost use Rattle.vhost_queue.specs.declared.memory.AddressSpace.TheVariants.{Guest};
    ghost use Rattle.vhost_queue.specs.declared.memory.GuestRegion.{GuestRegion};
    ghost use Rattle.vhost_queue.specs.declared.error.Error.TheVariants.{NoSuchRegion, NotInGuest, OutOfMemory};

    pub fn new(alloc: Global) -> GuestMemory
        ensures { result.regions.items ≡ [] }
    {
        GuestMemory {
            regions: Vec::new(alloc),
            order: Vec::new(alloc),
            last: 0,
        }
    }

    /// A region more. InvalidRegion: it is empty, or ends beyond 64 bits. TooManyRegions: there are as many as there may be.
    /// RegionOverlap: one of them has an address of it. A refusal changes nothing.
    pub fn add(&mut self, region: GuestRegion) -> Result<()>
        ensures ok { OnOk result (self.new.regions.items ≡ self.old.regions.items ++ region ∷ []) }
        ensures valid { OnOk result (is_region region ≡ true) }
        ensures apart { OnOk result (All (λ r. is_apart r region ≡ true) self.old.regions.items) }
        ensures reason { IfErr result (Refuses self.old.regions.items region) }
        ensures err { OnErr result (self.new.regions.items ≡ self.old.regions.items) }
    {
        if !region.is_valid() {
            return Err(Error::InvalidRegion);
        }
        if self.regions.len() >= MAX_REGIONS {
            return Err(Error::TooManyRegions);
        }
        if self.overlaps(&region) {
            return Err(Error::RegionOverlap);
        }
        let rank = self.rank(region.guest_addr);
        let at = self.regions.len() as u16;
        if self.order.insert(rank, at).is_err() {
            return Err(Error::OutOfMemory);
        }
        self.regions.push(region).map_err(|_| Error::OutOfMemory)
    }

    // How many places come before those of the regions that begin above this address of the guest's.
    fn rank(&self, addr: u64) -> usize
        ensures { result ≤ length self.now.order.items }
    {
        let mut low = 0usize;
        let mut high = self.order.len();
        while low < high {
            let middle = low + (high - low) / 2;
            if self.begins_by(self.order[middle], addr) {
                low = middle + 1;
            } else {
                high = middle;
            }
        }
        low
    }

    // Whether the region at this place begins at an address of the guest's, or below.
    fn begins_by(&self, at: u16, addr: u64) -> bool {
        let at = usize::from(at);
        at < self.regions.len() && self.regions[at].guest_addr <= addr
    }

    /// The region of these addresses and this size goes. NoSuchRegion: there is none, and nothing changes.
    pub fn remove(&mut self, guest_addr: u64, size: u64, user_addr: u64) -> Result<()>
        ensures ok { OnOk result ((at : ℕ) × (at < length self.old.regions.items) × (self.new.regions.items ≡ remove self.old.regions.items at) × ((d : GuestRegion) → is_at (slice_index_or self.old.regions.items at d) guest_addr size user_addr ≡ true)) }
        ensures err { IfErr result (λ e. (e ≡ NoSuchRegion) × All (λ r. is_at r guest_addr size user_addr ≡ false) self.old.regions.items) }
        ensures kept { OnErr result (self.new.regions.items ≡ self.old.regions.items) }
    {
        let Some(at) = self.position(guest_addr, size, user_addr) else {
            return Err(Error::NoSuchRegion);
        };
        let _gone = self.regions.remove(at);
        self.close_up(at);
        Ok(())
    }

    // The region at this place is gone, and those behind it are one place lower.
    fn close_up(&mut self, gone: usize)
        ensures regions { self.new.regions ≡ self.old.regions }
    {
        let mut kept = 0usize;
        for index in 0..self.order.len() {
            let at = self.order[index];
            if usize::from(at) != gone {
                self.order[kept] = if usize::from(at) > gone { at - 1 } else { at };
                kept += 1;
            }
        }
        self.order.truncate(kept);
    }

    // Which region has these addresses and this size.
    fn position(&self, guest_addr: u64, size: u64, user_addr: u64) -> Option<usize>
        ensures some { IfSome result (λ at. (at < length self.now.regions.items) × ((d : GuestRegion) → is_at (slice_index_or self.now.regions.items at d) guest_addr size user_addr ≡ true)) }
        ensures none { IfNone result (All (λ r. is_at r guest_addr size user_addr ≡ false) self.now.regions.items) }
    {
        for (at, region) in self.regions.iter().enumerate() {
            if region.is_at(guest_addr, size, user_addr) {
                return Some(at);
            }
        }
        None
    }

    /// These regions, in the place of those that were there. InvalidRegion: one of them is empty, or ends beyond 64 bits. TooManyRegions:
    /// there are more than there may be. RegionOverlap: two of them have an address in common. A refusal changes nothing.
    pub fn set(&mut self, alloc: Global, regions: &[GuestRegion]) -> Result<()>
        ensures ok { OnOk result (self.new.regions.items ≡ regions.now) }
        ensures valid { OnOk result (AreRegions regions.now) }
        ensures reason { IfErr result (RefusesAll regions.now) }
        ensures err { OnErr result (self.new.regions.items ≡ self.old.regions.items) }
    {
        let mut memory = GuestMemory::new(alloc);
        for region in regions {
            if let Err(error) = memory.add(*region) {
                return Err(error);
            }
        }
        *self = memory;
        Ok(())
    }

    // Whether one of the regions has an address of this one.
    fn overlaps(&self, region: &GuestRegion) -> bool
        ensures apart { OnFalse result (All (λ r. is_apart r region.now ≡ true) self.now.regions.items) }
        ensures overlaps { OnTrue result (Overlaps self.now.regions.items region.now) }
    {
        for old in self.regions.iter() {
            if !old.is_apart(region) {
                return true;
            }
        }
        false
    }

    // The region that begins last at this address of the guest's, or below: no other can have it.
    fn below(&self, addr: u64) -> Option<usize> {
        let rank = self.rank(addr);
        if rank == 0 {
            return None;
        }
        Some(usize::from(self.order[rank - 1]))
    }

    // Whether there is a region at this place that has all of the range.
    fn has(&self, at: usize, space: AddressSpace, addr: u64, len: u64) -> bool
        ensures { OnTrue result ((at < length self.now.regions.items) × ((d : GuestRegion) → holds space (slice_index_or self.now.regions.items at d) addr len ≡ true)) }
    {
        at < self.regions.len() && self.regions[at].holds(space, addr, len)
    }

    // A region that has all of the range: the last one that was found, or else another.
    fn region_of(&self, space: AddressSpace, addr: u64, len: u64) -> Option<usize>
        ensures some { IfSome result (λ at. (at < length self.now.regions.items) × ((d : GuestRegion) → holds space (slice_index_or self.now.regions.items at d) addr len ≡ true)) }
        ensures none { IfNone result (translated space self.now.regions.items addr len ≡ Err NotInGuest) }
    {
        if self.has(self.last, space, addr, len) {
            return Some(self.last);
        }
        self.find(space, addr, len)
    }

    // A region that has all of the range: that which a search finds, or else the first.
    fn find(&self, space: AddressSpace, addr: u64, len: u64) -> Option<usize>
        ensures some { IfSome result (λ at. (at < length self.now.regions.items) × ((d : GuestRegion) → holds space (slice_index_or self.now.regions.items at d) addr len ≡ true)) }
        ensures none { IfNone result (translated space self.now.regions.items addr len ≡ Err NotInGuest) }
    {
        if let Some(at) = self.below(addr)
            && self.has(at, space, addr, len)
        {
            return Some(at);
        }
        for (at, region) in self.regions.iter().enumerate() {
            if region.holds(space, addr, len) {
                return Some(at);
            }
        }
        None
    }

    /// Where the range is mapped: in a region that has all of it. NotInGuest: no one region has, or there is no byte in it.
    pub fn translate(&mut self, space: AddressSpace, addr: u64, len: u64) -> Result<HostRange>
        ensures exact { result ≡ translated space self.old.regions.items addr len }
        ensures kept { self.new.regions.items ≡ self.old.regions.items }
        ensures len { IfOk result (λ range. range.len ≡ len) }
        ensures fits { IfOk result (λ range. range.addr + range.len < 2 ^ 64) }
        ensures inside { IfOk result (λ range. LiesIn self.old.regions.items range) }
    {
        let Some(at) = self.region_of(space, addr, len) else {
            return Err(Error::NotInGuest);
        };
        self.last = at;
        let region = self.regions[at];
        Ok(HostRange {
            addr: region.host_addr + (addr - region.base(space)),
            len,
        })
    }

    /// Where the first bytes of a range of the guest's are mapped: as many as lie in the region that has the first of them. NotInGuest:
    /// no region has.
    pub fn translate_part(&mut self, addr: u64, len: u64) -> Result<HostRange>
        requires { 0 < len }
        ensures exact { result ≡ translated_part self.old.regions.items addr len }
        ensures kept { self.new.regions.items ≡ self.old.regions.items }
        ensures some { IfOk result (λ range. 0 < range.len) }
        ensures most { IfOk result (λ range. range.len ≤ len) }
        ensures fits { IfOk result (λ range. addr + range.len < 2 ^ 64) }
        ensures inside { IfOk result (λ range. LiesIn self.old.regions.items range) }
    {
        let Some(at) = self.region_of(AddressSpace::Guest, addr, 1) else {
            return Err(Error::NotInGuest);
        };
        self.last = at;
        let region = self.regions[at];
        let offset = addr - region.guest_addr;
        Ok(HostRange {
            addr: region.host_addr + offset,
            len: len.min(region.size - offset),
        })
    }
    /// Where all of a range of the guest's is mapped, if it lies in one region. None: `translate_part` says what lies where.
    pub(crate) fn translate_whole(&mut self, addr: u64, len: u64) -> Option<HostRange>
        requires { 0 < len }
        ensures exact { IfSome result (λ range. translated_part self.old.regions.items addr len ≡ Ok range) }
        ensures len { IfSome result (λ range. range.len ≡ len) }
        ensures inside { IfSome result (λ range. LiesIn self.old.regions.items range) }
        ensures kept { self.new.regions.items ≡ self.old.regions.items }
    {
        if self.has(self.last, AddressSpace::Guest, addr, len) {
            return Some(self.mapped(self.last, addr, len));
        }
        let Some(at) = self.find(AddressSpace::Guest, addr, len) else {
            return None;
        };
        self.last = at;
        Some(self.mapped(at, addr, len))
    }

    // Where a range of the guest's is mapped that the region at this place has.
    fn mapped(&self, at: usize, addr: u64, len: u64) -> HostRange
        requires some { 0 < len }
        requires within { at < length self.now.regions.items }
        requires holds { (d : GuestRegion) → holds Guest (slice_index_or self.now.regions.items at d) addr len ≡ true }
        ensures exact { translated_part self.now.regions.items addr len ≡ Ok result }
        ensures len { result.len ≡ len }
        ensures inside { LiesIn self.now.regions.items result }
    {
        let region = self.regions[at];
        HostRange {
            addr: region.host_addr + (addr - region.guest_addr),
            len,
        }
    }
}
