//! What a caller asks of a frontend.

ghost use Rattle.std.specs.Prelude.{◌≡◌, ◌<◌, ◌^◌, Some, IfSome, All, length};
ghost use Rattle.vhost_message.specs.RecordLaws.{InflightFits, RegionFits};
ghost use Rattle.vhost_frontend_core.specs.Regions.{log_region_in};
ghost use Rattle.vhost_frontend_core.specs.Values.{log_region_of};

use crate::call::Call;
use crate::regions::{RegionInfo, Regions};
use bitflags::Flags;
use vhost_backend::VhostUserDirtyLogRegion;
use vhost_link::PlainHandle;
use vhost_message::{
    ByteValued, HeardReq, VhostTransferStateDirection, VhostTransferStatePhase,
    VhostUserConfigFlags, VhostUserHeaderFlag, VhostUserInflight, VhostUserProtocolFeatures,
    VhostUserSharedMsg, VringConfigData,
};

/// Where the dirty log is kept: a part of what a descriptor maps, in bytes.
#[derive(Clone, Copy)]
pub struct LogRegion {
    pub mmap_size: u64,
    pub mmap_offset: u64,
    pub mmap_handle: Option<PlainHandle>,
}

impl LogRegion {
    /// The same, with its descriptor lent.
    pub(crate) fn lent(&self) -> VhostUserDirtyLogRegion<'_, PlainHandle>
        ensures same { log_region_in (Some result) ≡ log_region_of (Some self.now) }
        ensures fits { (self.now.mmap_size < 2 ^ 64) × (self.now.mmap_offset < 2 ^ 64) }
    {
        lent_log(self.mmap_size, self.mmap_offset, self.mmap_handle.as_ref())
    }
}

/// The part of these numbers of bytes, which fit their places.
fn lent_log(
    mmap_size: u64,
    mmap_offset: u64,
    mmap_handle: Option<&PlainHandle>,
) -> VhostUserDirtyLogRegion<'_, PlainHandle>
    ensures same { result ≡ record { mmap_size = mmap_size; mmap_offset = mmap_offset; mmap_handle = mmap_handle.entry } }
    ensures fits { (mmap_size < 2 ^ 64) × (mmap_offset < 2 ^ 64) }
{
    VhostUserDirtyLogRegion {
        mmap_size,
        mmap_offset,
        mmap_handle,
    }
}

/// A call of a frontend with its arguments, as logs and lines keep it: it owns what it is made of, over links in memory. Each is the
/// `Call` of its name.
#[derive(Drop)]
pub enum FrontendCall {
    GetFeatures,
    SetFeatures(u64),
    SetOwner,
    ResetOwner,
    GetProtocolFeatures,
    SetProtocolFeatures(VhostUserProtocolFeatures),
    GetQueueNum,
    ResetDevice,
    SetMemTable(Vec<RegionInfo<PlainHandle>>),
    /// The log's base, and where it is kept.
    SetLogBase(u64, Option<LogRegion>),
    SetLogFd(PlainHandle),
    /// A ring's size, in descriptors.
    SetVringNum(usize, u16),
    SetVringBase(usize, u32),
    SetVringAddr(usize, VringConfigData),
    GetVringBase(usize),
    /// Where there is no file descriptor, the driver polls.
    SetVringCall(usize, Option<PlainHandle>),
    SetVringKick(usize, Option<PlainHandle>),
    SetVringErr(usize, Option<PlainHandle>),
    SetVringEnable(usize, bool),
    /// Offset and size, in bytes, and the buffer that the answer fills.
    GetConfig(u32, u32, VhostUserConfigFlags, Vec<u8>),
    SetConfig(u32, VhostUserConfigFlags, Vec<u8>),
    SetBackendRequestFd(PlainHandle),
    GetSharedObject(VhostUserSharedMsg),
    GetInflightFd(VhostUserInflight),
    SetInflightFd(VhostUserInflight, PlainHandle),
    GetMaxMemSlots,
    AddMemRegion(RegionInfo<PlainHandle>),
    RemoveMemRegion(RegionInfo<PlainHandle>),
    GetShmemConfig,
    SetDeviceStateFd(VhostTransferStateDirection, VhostTransferStatePhase, PlainHandle),
    CheckDeviceState,
    PostcopyAdvise,
    PostcopyListen,
    PostcopyEnd,
    /// Which request brought the regions.
    PostcopyAckMemRegions(HeardReq),
    /// The MTU, in bytes.
    SetMtu(u16),
    /// The flags of each request from then on. Nothing is sent for it.
    SetHdrFlags(VhostUserHeaderFlag),
}

impl FrontendCall {
    ghost use Rattle.vhost_protocol.specs.Agreement.{Fits};
    ghost use Rattle.vhost_protocol.specs.Heard.{CallFits, IsNamedWell};
    ghost use Rattle.vhost_frontend_core.specs.ValueHalves.{IsSent};
    ghost use Rattle.vhost_frontend_core.specs.Values.{call_in, call_of};

    /// The same, with what it is made of lent; but the call for which nothing is sent.
    pub(crate) fn lent(&self) -> Call<'_, PlainHandle>
        requires { IsSent (call_of self.now) }
        ensures same { call_in result ≡ call_of self.now }
        ensures named { IsNamedWell (call_of self.now) }
        ensures bits { Fits (call_of self.now) }
        ensures small { CallFits (call_of self.now) }
    {
        match self {
            FrontendCall::GetFeatures => Call::GetFeatures,
            FrontendCall::SetFeatures(features) => Call::SetFeatures(*features),
            FrontendCall::SetOwner => Call::SetOwner,
            FrontendCall::ResetOwner => Call::ResetOwner,
            FrontendCall::GetProtocolFeatures => Call::GetProtocolFeatures,
            FrontendCall::SetProtocolFeatures(features) => {
                measure_bits(features);
                Call::SetProtocolFeatures(*features)
            }
            FrontendCall::GetQueueNum => Call::GetQueueNum,
            FrontendCall::ResetDevice => Call::ResetDevice,
            FrontendCall::SetMemTable(regions) => {
                measure_regions(regions);
                Call::SetMemTable(Regions::Kept(regions))
            }
            FrontendCall::SetLogBase(base, region) => Call::SetLogBase(*base, lent_log_of(region)),
            FrontendCall::SetLogFd(handle) => Call::SetLogFd(handle),
            FrontendCall::SetVringNum(index, num) => Call::SetVringNum(*index, *num),
            FrontendCall::SetVringBase(index, base) => Call::SetVringBase(*index, *base),
            FrontendCall::SetVringAddr(index, config) => Call::SetVringAddr(*index, *config),
            FrontendCall::GetVringBase(index) => Call::GetVringBase(*index),
            FrontendCall::SetVringCall(index, handle) => Call::SetVringCall(
                *index,
                handle.as_ref(),
            ),
            FrontendCall::SetVringKick(index, handle) => Call::SetVringKick(
                *index,
                handle.as_ref(),
            ),
            FrontendCall::SetVringErr(index, handle) => Call::SetVringErr(*index, handle.as_ref()),
            FrontendCall::SetVringEnable(index, enable) => Call::SetVringEnable(*index, *enable),
            FrontendCall::GetConfig(offset, size, flags, buffer) => {
                Call::GetConfig(*offset, *size, *flags, buffer)
            }
            FrontendCall::SetConfig(offset, flags, buffer) => {
                Call::SetConfig(*offset, *flags, buffer)
            }
            FrontendCall::SetBackendRequestFd(handle) => Call::SetBackendRequestFd(handle),
            FrontendCall::GetSharedObject(name) => {
                measure(name);
                Call::GetSharedObject(*name)
            }
            FrontendCall::GetInflightFd(area) => {
                measure_area(area);
                Call::GetInflightFd(*area)
            }
            FrontendCall::SetInflightFd(area, handle) => Call::SetInflightFd(*area, handle),
            FrontendCall::GetMaxMemSlots => Call::GetMaxMemSlots,
            FrontendCall::AddMemRegion(info) => Call::AddMemRegion(info.lent()),
            FrontendCall::RemoveMemRegion(info) => Call::RemoveMemRegion(info.lent()),
            FrontendCall::GetShmemConfig => Call::GetShmemConfig,
            FrontendCall::SetDeviceStateFd(direction, phase, handle) => {
                Call::SetDeviceStateFd(*direction, *phase, handle)
            }
            FrontendCall::CheckDeviceState => Call::CheckDeviceState,
            FrontendCall::PostcopyAdvise => Call::PostcopyAdvise,
            FrontendCall::PostcopyListen => Call::PostcopyListen,
            FrontendCall::PostcopyEnd => Call::PostcopyEnd,
            FrontendCall::PostcopyAckMemRegions(code) => Call::PostcopyAckMemRegions(*code),
            FrontendCall::SetMtu(mtu) => Call::SetMtu(*mtu),
            FrontendCall::SetHdrFlags(_) => Call::GetFeatures,
        }
    }
}

/// Where the log is kept, with its descriptor lent.
fn lent_log_of(region: &Option<LogRegion>) -> Option<VhostUserDirtyLogRegion<'_, PlainHandle>>
    ensures same { log_region_in result ≡ log_region_of region.now }
    ensures fits { IfSome region.now (λ area. (area.mmap_size < 2 ^ 64) × (area.mmap_offset < 2 ^ 64)) }
{
    let Some(region) = region else {
        return None;
    };
    Some(region.lent())
}

/// The numbers of regions have sixty-four bits.
fn measure_regions(regions: &[RegionInfo<PlainHandle>])
    ensures { All (λ info. RegionFits info.region) regions.now }
{
    'regions: for i in 0..regions.len() {
        let _region = regions[i].lent();
    }
}

/// The numbers of an inflight region have the bits of their types.
fn measure_area(area: &VhostUserInflight)
    ensures { InflightFits area.now }
{
    let VhostUserInflight {
        mmap_size: _size,
        mmap_offset: _offset,
        num_queues: _queues,
        queue_size: _length,
    } = *area;
}

/// A name has sixteen bytes.
fn measure(name: &VhostUserSharedMsg)
    ensures { length name.now.uuid ≡ 16 }
{
    let mut text = [0; 16];
    name.encode_into(&mut text);
}

/// Features have sixty-four bits.
fn measure_bits(features: &VhostUserProtocolFeatures)
    ensures { features.now.bits < 2 ^ 64 }
{
    let _bits = features.bits();
}
