//! Regions of guest memory, with the descriptors that map them.

ghost use Rattle.std.specs.Prelude.{◌≡◌, ⊤};
ghost use Rattle.vhost_message.specs.Records.{single_region};
ghost use Rattle.vhost_backend.specs.Region.{region_in, no_region};

use std::alloc::AllocError;
use vhost_message::{VhostUserMemoryRegion, VhostUserSingleMemoryRegion};

/// How many regions of memory a backend may be given at most.
pub const VHOST_MAX_MEMORY_REGIONS: usize = 255;

/// A region of guest memory, all in bytes, and the descriptor that maps it.
#[derive(Drop)]
pub struct VhostUserMemoryRegionInfo<'a, H> {
    /// Where the region begins in the guest.
    pub guest_phys_addr: u64,
    pub memory_size: u64,
    /// Where the region begins in the frontend's memory.
    pub userspace_addr: u64,
    /// Where the region begins in what the descriptor maps.
    pub mmap_offset: u64,
    pub mmap_handle: Option<&'a H>,
}

impl<'a, H> VhostUserMemoryRegionInfo<'a, H> {
    /// The region of these numbers of bytes.
    pub fn new(
        guest_phys_addr: u64,
        memory_size: u64,
        userspace_addr: u64,
        mmap_offset: u64,
        mmap_handle: Option<&'a H>,
    ) -> Self
        ensures { result ≡ record { guest_phys_addr = guest_phys_addr; memory_size = memory_size; userspace_addr = userspace_addr; mmap_offset = mmap_offset; mmap_handle = mmap_handle.entry } }
    {
        VhostUserMemoryRegionInfo {
            guest_phys_addr,
            memory_size,
            userspace_addr,
            mmap_offset,
            mmap_handle,
        }
    }

    /// The region as a memory table has it.
    pub fn to_region(&self) -> VhostUserMemoryRegion
        ensures { result ≡ region_in self.now }
    {
        VhostUserMemoryRegion {
            guest_phys_addr: self.guest_phys_addr,
            memory_size: self.memory_size,
            user_addr: self.userspace_addr,
            mmap_offset: self.mmap_offset,
        }
    }

    /// The region as a message of its own.
    pub fn to_single_region(&self) -> VhostUserSingleMemoryRegion
        ensures { result ≡ single_region (region_in self.now) }
    {
        let region = self.to_region();
        VhostUserSingleMemoryRegion::new(
            region.guest_phys_addr,
            region.memory_size,
            region.user_addr,
            region.mmap_offset,
        )
    }
}

impl<'a, H> Clone for VhostUserMemoryRegionInfo<'a, H> {
    ghost is_clone = { λ x y. y ≡ x };

    ghost is_infallible = { λ _. ⊤ };

    fn clone(&self) -> Result<Self, AllocError> {
        Ok(*self)
    }
}

impl<'a, H> Copy for VhostUserMemoryRegionInfo<'a, H> {}

impl<'a, H> Default for VhostUserMemoryRegionInfo<'a, H> {
    ghost is_default = { λ info. info ≡ no_region };

    fn default() -> Self {
        VhostUserMemoryRegionInfo::new(0, 0, 0, 0, None)
    }
}
