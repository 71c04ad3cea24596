//! Regions of a program in C, as a frontend's calls take them.

ghost use Rattle.std.specs.Prelude.{◌≡◌, ◌<◌, ◌⊎◌, length, map, Some, IfOk, IfErr};
ghost use Rattle.vhost_message.specs.declared.error.Error.TheVariants.{OutOfMemory, InvalidParam};
ghost use Rattle.vhost_message.specs.declared.limits.TheConstants.{MAX_MEM_REGIONS};
ghost use Rattle.vhost_frontend_core.specs.Regions.{info_of as as_info};
ghost use Rattle.vhost_frontend_core.specs.Values.{log_region_of};
ghost use Rattle.vhost_c.specs.Records.{info_in, log_in};

use std::alloc::Global;
use vhost_c_common::{Region, handle_of};
use vhost_frontend_core::{LogRegion, RegionInfo};
use vhost_link::PlainHandle;
use vhost_message::{Error, MAX_MEM_REGIONS, Result, VhostUserMemoryRegion};

/// The region of a call.
pub(crate) fn info_of(region: &Region) -> RegionInfo<PlainHandle>
    ensures { as_info result ≡ info_in region.now }
{
    RegionInfo {
        region: VhostUserMemoryRegion::new(
            region.guest_phys_addr,
            region.memory_size,
            region.user_addr,
            region.mmap_offset,
        ),
        mmap_handle: handle_of(region.fd),
    }
}

/// The region as the place of a log.
pub(crate) fn log_of(region: &Region) -> LogRegion
    ensures { log_region_of (Some result) ≡ Some (log_in region.now) }
{
    LogRegion {
        mmap_size: region.memory_size,
        mmap_offset: region.mmap_offset,
        mmap_handle: handle_of(region.fd),
    }
}

/// The regions of a table.
///
/// InvalidParam: there are more than a table may have. OutOfMemory: an allocation failed.
pub(crate) fn infos_of(alloc: Global, regions: &[Region]) -> Result<Vec<RegionInfo<PlainHandle>>>
    ensures infos { IfOk result (λ infos. map as_info infos.items ≡ map info_in regions.now) }
    ensures reason { IfErr result (λ e. (e ≡ OutOfMemory) ⊎ ((e ≡ InvalidParam) × (MAX_MEM_REGIONS < length regions.now))) }
{
    if regions.len() > MAX_MEM_REGIONS {
        return Err(Error::InvalidParam);
    }
    let mut infos = Vec::new(alloc);
    'regions: for region in regions {
        if infos.push(info_of(region)).is_err() {
            return Err(Error::OutOfMemory);
        }
    }
    Ok(infos)
}
