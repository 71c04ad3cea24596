//! Where the log of dirty pages lies.

ghost use Rattle.std.specs.Prelude.{◌≡◌, ⊤};
ghost use Rattle.vhost_backend.specs.Region.{no_log_region};

use std::alloc::AllocError;

/// Where the log of dirty pages lies, in bytes, and the descriptor that maps it.
#[derive(Drop)]
pub struct VhostUserDirtyLogRegion<'a, H> {
    pub mmap_size: u64,
    /// Where the log begins in what the descriptor maps.
    pub mmap_offset: u64,
    pub mmap_handle: Option<&'a H>,
}

impl<'a, H> Clone for VhostUserDirtyLogRegion<'a, H> {
    ghost is_clone = { λ x y. y ≡ x };

    ghost is_infallible = { λ _. ⊤ };

    fn clone(&self) -> Result<Self, AllocError> {
        Ok(*self)
    }
}

impl<'a, H> Copy for VhostUserDirtyLogRegion<'a, H> {}

impl<'a, H> Default for VhostUserDirtyLogRegion<'a, H> {
    ghost is_default = { λ region. region ≡ no_log_region };

    fn default() -> Self {
        VhostUserDirtyLogRegion {
            mmap_size: 0,
            mmap_offset: 0,
            mmap_handle: None,
        }
    }
}
