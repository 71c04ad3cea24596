//! What a request becomes: a call of the device, or a refusal.

ghost use Rattle.std.specs.Prelude.{◌≡◌, ◌≤◌, ◌+◌, ◌*◌, length};
ghost use Rattle.vhost_message.specs.declared.limits.TheConstants.{MAX_MEM_REGIONS, MAX_MSG_SIZE, MEMORY_REGION_SIZE};

use crate::refusal::Refusal;
use std::alloc::AllocError;
use vhost_message::{
    VhostTransferStateDirection, VhostTransferStatePhase, VhostUserConfig, VhostUserInflight,
    VhostUserLog, VhostUserMemoryRegion, VhostUserSharedMsg, VhostUserSingleMemoryRegion,
    VhostUserVringAddr, read_regions,
};

/// The regions of a table, as they lie in the body of their request.
#[derive(Copy)]
pub struct RegionTable<'a> {
    pub(crate) bytes: &'a [u8],
    pub(crate) count: usize,
    ghost whole: { length bytes.now ≡ MEMORY_REGION_SIZE * count },
    ghost few: { count ≤ MAX_MEM_REGIONS },
}

impl<'a> Clone for RegionTable<'a> {
    ghost use Rattle.std.specs.Prelude.{◌≡◌, ⊤};

    ghost is_clone = { λ table copy. copy ≡ table };

    ghost is_infallible = { λ _. ⊤ };

    fn clone(&self) -> Result<RegionTable<'a>, AllocError> {
        Ok(*self)
    }
}

impl RegionTable<'_> {
    ghost use Rattle.vhost_backend_req_handler_core.specs.Beginning.{regions_in};

    /// How many regions there are: `MAX_MEM_REGIONS` at most.
    pub fn len(&self) -> usize
        ensures count { result ≡ self.now.count }
        ensures len { result ≡ length (regions_in self.now) }
        ensures few { result ≤ MAX_MEM_REGIONS }
    {
        self.count
    }

    /// Reads the regions to places for as many.
    pub fn read(&self, regions: &mut [VhostUserMemoryRegion])
        requires { length regions.old ≡ length (regions_in self.now) }
        ensures { regions.new ≡ regions_in self.now }
    {
        read_regions(self.bytes, regions);
    }
}

/// A part of configuration space, which fits into a message behind its record.
#[derive(Copy)]
pub struct Area {
    pub(crate) config: VhostUserConfig,
    ghost small: { 12 + config.size ≤ MAX_MSG_SIZE },
}

impl Clone for Area {
    ghost use Rattle.std.specs.Prelude.{◌≡◌, ⊤};

    ghost is_clone = { λ area copy. copy ≡ area };

    ghost is_infallible = { λ _. ⊤ };

    fn clone(&self) -> Result<Area, AllocError> {
        Ok(*self)
    }
}

impl Area {
    ghost use Rattle.vhost_backend_req_handler_core.specs.Beginning.{config_in};

    /// Where it begins, how many bytes it has, and flags.
    pub fn config(&self) -> VhostUserConfig
        ensures config { result ≡ config_in self.now }
        ensures small { 12 + result.size ≤ MAX_MSG_SIZE }
    {
        self.config
    }
}

/// A call of the device with its arguments. Regions and bytes are lent by the body of the request. Its file descriptors lie
/// beside it, in the list that came with the request.
#[derive(Clone, Copy)]
pub enum DeviceCall<'a> {
    SetOwner,
    ResetOwner,
    ResetDevice,
    GetFeatures,
    SetFeatures(u64),
    /// The regions, and whether postcopy listens. Each region comes with a file descriptor.
    SetMemTable(RegionTable<'a>, bool),
    /// The log's area; it comes with one file descriptor.
    SetLogBase(VhostUserLog),
    /// The index of a ring, and its size.
    SetVringNum(u32, u32),
    /// The index of a ring, and where it begins.
    SetVringBase(u32, u32),
    SetVringAddr(VhostUserVringAddr),
    GetVringBase(u32),
    /// The index of a ring, and whether one file descriptor comes with it.
    SetVringKick(u8, bool),
    SetVringCall(u8, bool),
    SetVringErr(u8, bool),
    GetProtocolFeatures,
    SetProtocolFeatures(u64),
    GetQueueNum,
    GetMaxMemSlots,
    SetVringEnable(u32, bool),
    SetMtu(u16),
    GetConfig(Area),
    SetConfig(Area, &'a [u8]),
    /// The one file descriptor is opened as the backend channel first.
    SetBackendReqFd,
    /// The one file descriptor is opened as the vhost-user-gpu channel first.
    SetGpuSocket,
    GetSharedObject(VhostUserSharedMsg),
    GetInflightFd(VhostUserInflight),
    /// It comes with one file descriptor.
    SetInflightFd(VhostUserInflight),
    /// A region, and whether postcopy listens. It comes with one file descriptor.
    AddMemRegion(VhostUserSingleMemoryRegion, bool),
    RemoveMemRegion(VhostUserSingleMemoryRegion),
    /// It comes with one file descriptor.
    SetDeviceStateFd(VhostTransferStateDirection, VhostTransferStatePhase),
    CheckDeviceState,
    GetShmemConfig,
    PostcopyAdvice,
    PostcopyListen,
    PostcopyEnd,
    /// The frontend has mapped the regions.
    PostcopyAckMemRegions,
    /// A request without a row of its own: its number, and its body. Its file descriptors are all that came with it.
    Other(u32, &'a [u8]),
}

/// What a request becomes that is not refused without a reply.
#[derive(Drop)]
pub enum Begun<'a> {
    /// The device is to be called.
    Calls(DeviceCall<'a>),
    /// It is refused; where it asks for it, that is acknowledged.
    Refuses(Refusal),
}
