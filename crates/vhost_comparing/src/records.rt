//! Whether two records are the same: all their fields are.

ghost use Rattle.std.specs.Prelude.{◌≡◌, ◌↔◌, IsTrue, map, not};
ghost use Rattle.vhost_message.specs.HeardReq.{is_named};
ghost use Rattle.vhost_frontend_core.specs.Regions.{info_of};
ghost use Rattle.vhost_frontend_core.specs.Values.{log_region_of};

use vhost_frontend_core::{LogRegion, RegionInfo};
use vhost_link::PlainHandle;
use vhost_message::{
    HeardReq, VhostUserConfig, VhostUserInflight, VhostUserMemoryRegion, VhostUserSharedMsg,
    VringConfigData,
};

/// Of two regions of guest memory.
fn is_same_region(a: &VhostUserMemoryRegion, b: &VhostUserMemoryRegion) -> bool
    ensures { IsTrue result ↔ a.now ≡ b.now }
{
    a.guest_phys_addr == b.guest_phys_addr
        && a.memory_size == b.memory_size
        && a.user_addr == b.user_addr
        && a.mmap_offset == b.mmap_offset
}

/// Of two regions with their file descriptors.
pub fn is_same_info(a: &RegionInfo<PlainHandle>, b: &RegionInfo<PlainHandle>) -> bool
    ensures { IsTrue result ↔ info_of a.now ≡ info_of b.now }
{
    is_same_region(&a.region, &b.region) && a.mmap_handle == b.mmap_handle
}

/// Of two tables of regions: they are as long, and the regions are the same one by one.
pub fn are_same_infos(a: &[RegionInfo<PlainHandle>], b: &[RegionInfo<PlainHandle>]) -> bool
    ensures { IsTrue result ↔ map info_of a.now ≡ map info_of b.now }
{
    if a.len() != b.len() {
        return false;
    }
    for i in 0..a.len() {
        if !is_same_info(&a[i], &b[i]) {
            return false;
        }
    }
    true
}

/// Of two requests: their numbers are the same, and both have a name or none.
#[tactic(auto, using(crate::proofs::Requests::same_request))]
pub fn is_same_request(a: HeardReq, b: HeardReq) -> bool
    ensures { IsTrue result ↔ a ≡ b }
{
    u32::from(a) == u32::from(b) && is_other(a) == is_other(b)
}

/// Whether a request has no name.
fn is_other(code: HeardReq) -> bool
    ensures { result ≡ not (is_named code) }
{
    matches!(code, HeardReq::OTHER(_))
}

/// Of two places of a dirty log.
pub fn is_same_log_region(a: &Option<LogRegion>, b: &Option<LogRegion>) -> bool
    ensures { IsTrue result ↔ log_region_of a.now ≡ log_region_of b.now }
{
    match (a, b) {
        (Some(a), Some(b)) => {
            a.mmap_size == b.mmap_size
                && a.mmap_offset == b.mmap_offset
                && a.mmap_handle == b.mmap_handle
        }
        (None, None) => true,
        _ => false,
    }
}

/// Of two configurations of a ring.
pub fn is_same_ring(a: &VringConfigData, b: &VringConfigData) -> bool
    ensures { IsTrue result ↔ a.now ≡ b.now }
{
    a.queue_max_size == b.queue_max_size
        && a.queue_size == b.queue_size
        && a.flags == b.flags
        && a.desc_table_addr == b.desc_table_addr
        && a.used_ring_addr == b.used_ring_addr
        && a.avail_ring_addr == b.avail_ring_addr
        && a.log_addr == b.log_addr
}

/// Of two names of shared objects.
pub fn is_same_name(a: &VhostUserSharedMsg, b: &VhostUserSharedMsg) -> bool
    ensures { IsTrue result ↔ a.now ≡ b.now }
{
    a.uuid == b.uuid
}

/// Of two inflight regions.
pub fn is_same_inflight(a: &VhostUserInflight, b: &VhostUserInflight) -> bool
    ensures { IsTrue result ↔ a.now ≡ b.now }
{
    a.mmap_size == b.mmap_size
        && a.mmap_offset == b.mmap_offset
        && a.num_queues == b.num_queues
        && a.queue_size == b.queue_size
}

/// Of two parts of the configuration space.
pub fn is_same_config(a: &VhostUserConfig, b: &VhostUserConfig) -> bool
    ensures { IsTrue result ↔ a.now ≡ b.now }
{
    a.offset == b.offset && a.size == b.size && a.flags == b.flags
}
