//! Memory tables.

ghost use Rattle.std.specs.Prelude.{◌≡◌, refl};
ghost use Rattle.vhost_message.specs.declared.limits.TheConstants.{MEMORY_HEAD_SIZE, MEMORY_REGION_SIZE};
ghost use Rattle.vhost_message.specs.Records.{memory_text, memory_of, region_text, region_at, single_region_text, single_region_of, single_region, region_within};
ghost use Rattle.vhost_message.specs.RecordLaws.{MemoryFits, RegionFits, SingleRegionFits, memory-reads_back, region-reads_back, single_region-reads_back};
ghost use Rattle.vhost_message.specs.Valid.{is_valid_memory, is_valid_region};

use crate::bytes::{ByteValued, VhostUserMsgValidator};
use crate::limits::{MAX_MEM_REGIONS, MEMORY_HEAD_SIZE, MEMORY_REGION_SIZE};
use byteorder::{ByteOrder, LittleEndian};

/// The head of a memory table: how many regions follow (vhost-user specification, "Multiple memory regions
/// description").
#[derive(Clone, Copy, Default)]
pub struct VhostUserMemory {
    /// How many regions follow.
    pub num_regions: u32,
    /// Always 0.
    pub padding1: u32,
}

impl VhostUserMemory {
    /// The head of a table of `count` regions.
    pub fn new(count: u32) -> Self
        ensures { result ≡ record { num_regions = count; padding1 = 0 } }
    {
        VhostUserMemory {
            num_regions: count,
            padding1: 0,
        }
    }
}

impl ByteValued for VhostUserMemory {
    const SIZE: usize = MEMORY_HEAD_SIZE;

    ghost SIZE = { MEMORY_HEAD_SIZE };

    ghost text = { memory_text };

    ghost read = { memory_of };

    ghost fits = { MemoryFits };

    ghost text_length = { λ _ _. refl };

    ghost reads_back = { memory-reads_back };

    fn encode_into(&self, out: &mut [u8]) {
        let VhostUserMemory {
            num_regions,
            padding1,
        } = *self;
        LittleEndian::write_u32(out, num_regions);
        LittleEndian::write_u32(&mut out[4..], padding1);
    }

    fn decode(b: &[u8]) -> Self {
        VhostUserMemory {
            num_regions: LittleEndian::read_u32(b),
            padding1: LittleEndian::read_u32(&b[4..]),
        }
    }
}

impl VhostUserMsgValidator for VhostUserMemory {
    ghost valid = { is_valid_memory };

    fn is_valid(&self) -> bool {
        self.padding1 == 0 && self.num_regions >= 1 && self.num_regions <= MAX_MEM_REGIONS as u32
    }
}

/// A region of guest memory, all in bytes: where it begins in the guest, its size, its address in the frontend, and its
/// offset in the memory that comes with it (vhost-user specification, "Memory region description").
#[derive(Clone, Copy, Default)]
pub struct VhostUserMemoryRegion {
    /// Where the region begins in the guest.
    pub guest_phys_addr: u64,
    /// Its size.
    pub memory_size: u64,
    /// Where it begins in the frontend's memory.
    pub user_addr: u64,
    /// Where it begins in the memory that comes with it.
    pub mmap_offset: u64,
}

impl VhostUserMemoryRegion {
    /// The region of these numbers of bytes.
    pub fn new(guest_phys_addr: u64, memory_size: u64, user_addr: u64, mmap_offset: u64) -> Self
        ensures { result ≡ record { guest_phys_addr = guest_phys_addr; memory_size = memory_size; user_addr = user_addr; mmap_offset = mmap_offset } }
    {
        VhostUserMemoryRegion {
            guest_phys_addr,
            memory_size,
            user_addr,
            mmap_offset,
        }
    }
}

impl ByteValued for VhostUserMemoryRegion {
    const SIZE: usize = MEMORY_REGION_SIZE;

    ghost SIZE = { MEMORY_REGION_SIZE };

    ghost text = { region_text };

    ghost read = { region_at 0 };

    ghost fits = { RegionFits };

    ghost text_length = { λ _ _. refl };

    ghost reads_back = { region-reads_back };

    fn encode_into(&self, out: &mut [u8]) {
        let VhostUserMemoryRegion {
            guest_phys_addr: start,
            memory_size: size,
            user_addr: user,
            mmap_offset: offset,
        } = *self;
        LittleEndian::write_u64(out, start);
        LittleEndian::write_u64(&mut out[8..], size);
        LittleEndian::write_u64(&mut out[16..], user);
        LittleEndian::write_u64(&mut out[24..], offset);
    }

    fn decode(b: &[u8]) -> Self {
        VhostUserMemoryRegion {
            guest_phys_addr: LittleEndian::read_u64(b),
            memory_size: LittleEndian::read_u64(&b[8..]),
            user_addr: LittleEndian::read_u64(&b[16..]),
            mmap_offset: LittleEndian::read_u64(&b[24..]),
        }
    }
}

impl VhostUserMsgValidator for VhostUserMemoryRegion {
    ghost valid = { is_valid_region };

    fn is_valid(&self) -> bool {
        self.memory_size != 0
            && self.guest_phys_addr.checked_add(self.memory_size).is_some()
            && self.user_addr.checked_add(self.memory_size).is_some()
            && self.mmap_offset.checked_add(self.memory_size).is_some()
    }
}

/// One region on its own, behind eight bytes without a meaning (vhost-user specification, "Single memory region
/// description").
#[derive(Clone, Copy, Default)]
pub struct VhostUserSingleMemoryRegion {
    padding: u64,
    region: VhostUserMemoryRegion,
}

impl VhostUserSingleMemoryRegion {
    /// The region of these numbers of bytes, as `VhostUserMemoryRegion::new` takes them.
    pub fn new(guest_phys_addr: u64, memory_size: u64, user_addr: u64, mmap_offset: u64) -> Self
        ensures { result ≡ single_region (record { guest_phys_addr = guest_phys_addr; memory_size = memory_size; user_addr = user_addr; mmap_offset = mmap_offset }) }
    {
        let region = VhostUserMemoryRegion::new(
            guest_phys_addr,
            memory_size,
            user_addr,
            mmap_offset,
        );
        VhostUserSingleMemoryRegion { padding: 0, region }
    }

    /// Lends the region.
    pub fn region(&self) -> &VhostUserMemoryRegion
        ensures { result.now ≡ region_within self.now }
    {
        &self.region
    }
}

impl ByteValued for VhostUserSingleMemoryRegion {
    const SIZE: usize = 40;

    ghost SIZE = { 40 };

    ghost text = { single_region_text };

    ghost read = { single_region_of };

    ghost fits = { SingleRegionFits };

    ghost text_length = { λ _ _. refl };

    ghost reads_back = { single_region-reads_back };

    fn encode_into(&self, out: &mut [u8]) {
        let padding = self.padding;
        LittleEndian::write_u64(out, padding);
        self.region.encode_into(&mut out[8..]);
    }

    fn decode(b: &[u8]) -> Self {
        VhostUserSingleMemoryRegion {
            padding: LittleEndian::read_u64(b),
            region: VhostUserMemoryRegion::decode(&b[8..]),
        }
    }
}

impl VhostUserMsgValidator for VhostUserSingleMemoryRegion {
    fn is_valid(&self) -> bool {
        true
    }
}

/// The regions that follow the head of a memory table.
pub type VhostUserMemoryPayload = Vec<VhostUserMemoryRegion>;

/// Where the backend has mapped a region, in its own memory.
pub type VhostUserMemoryRegionBase = u64;
