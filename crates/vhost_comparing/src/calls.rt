//! Whether two calls are the same.

ghost use Rattle.std.specs.Prelude.{◌≡◌, ◌↔◌, IsTrue};
ghost use Rattle.vhost_frontend_core.specs.Values.{call_of};

use crate::records::{
    are_same_infos, is_same_inflight, is_same_info, is_same_log_region, is_same_name,
    is_same_request, is_same_ring,
};
use bitflags::Flags;
use vhost_frontend_core::FrontendCall;

/// Whether both are the same call with the same arguments.
pub fn is_same_call(a: &FrontendCall, b: &FrontendCall) -> bool
    ensures { IsTrue result ↔ call_of a.now ≡ call_of b.now }
{
    match a {
        // generated from protocol/requests.toml: calls
        FrontendCall::GetFeatures => matches!(b, FrontendCall::GetFeatures),
        FrontendCall::SetFeatures(features) =>
            matches!(b, FrontendCall::SetFeatures(other_features) if features == other_features),
        FrontendCall::SetOwner => matches!(b, FrontendCall::SetOwner),
        FrontendCall::ResetOwner => matches!(b, FrontendCall::ResetOwner),
        FrontendCall::GetProtocolFeatures => matches!(b, FrontendCall::GetProtocolFeatures),
        FrontendCall::SetProtocolFeatures(features) =>
            matches!(b, FrontendCall::SetProtocolFeatures(other_features) if features.bits() == other_features.bits()),
        FrontendCall::GetQueueNum => matches!(b, FrontendCall::GetQueueNum),
        FrontendCall::ResetDevice => matches!(b, FrontendCall::ResetDevice),
        FrontendCall::SetMemTable(regions) =>
            matches!(b, FrontendCall::SetMemTable(other_regions) if are_same_infos(regions, other_regions)),
        FrontendCall::SetLogBase(base, region) =>
            matches!(b, FrontendCall::SetLogBase(other_base, other_region) if base == other_base && is_same_log_region(region, other_region)),
        FrontendCall::SetLogFd(handle) =>
            matches!(b, FrontendCall::SetLogFd(other_handle) if handle == other_handle),
        FrontendCall::SetVringNum(index, num) =>
            matches!(b, FrontendCall::SetVringNum(other_index, other_num) if index == other_index && num == other_num),
        FrontendCall::SetVringBase(index, base) =>
            matches!(b, FrontendCall::SetVringBase(other_index, other_base) if index == other_index && base == other_base),
        FrontendCall::SetVringAddr(index, ring) =>
            matches!(b, FrontendCall::SetVringAddr(other_index, other_ring) if index == other_index && is_same_ring(ring, other_ring)),
        FrontendCall::GetVringBase(index) =>
            matches!(b, FrontendCall::GetVringBase(other_index) if index == other_index),
        FrontendCall::SetVringCall(index, handle) =>
            matches!(b, FrontendCall::SetVringCall(other_index, other_handle) if index == other_index && handle == other_handle),
        FrontendCall::SetVringKick(index, handle) =>
            matches!(b, FrontendCall::SetVringKick(other_index, other_handle) if index == other_index && handle == other_handle),
        FrontendCall::SetVringErr(index, handle) =>
            matches!(b, FrontendCall::SetVringErr(other_index, other_handle) if index == other_index && handle == other_handle),
        FrontendCall::SetVringEnable(index, enable) =>
            matches!(b, FrontendCall::SetVringEnable(other_index, other_enable) if index == other_index && enable == other_enable),
        FrontendCall::GetConfig(offset, size, flags, buffer) =>
            matches!(b, FrontendCall::GetConfig(other_offset, other_size, other_flags, other_buffer) if offset == other_offset && size == other_size && flags.bits() == other_flags.bits() && buffer.as_slice() == other_buffer.as_slice()),
        FrontendCall::SetConfig(offset, flags, buffer) =>
            matches!(b, FrontendCall::SetConfig(other_offset, other_flags, other_buffer) if offset == other_offset && flags.bits() == other_flags.bits() && buffer.as_slice() == other_buffer.as_slice()),
        FrontendCall::SetBackendRequestFd(handle) =>
            matches!(b, FrontendCall::SetBackendRequestFd(other_handle) if handle == other_handle),
        FrontendCall::GetSharedObject(name) =>
            matches!(b, FrontendCall::GetSharedObject(other_name) if is_same_name(name, other_name)),
        FrontendCall::GetInflightFd(area) =>
            matches!(b, FrontendCall::GetInflightFd(other_area) if is_same_inflight(area, other_area)),
        FrontendCall::SetInflightFd(area, handle) =>
            matches!(b, FrontendCall::SetInflightFd(other_area, other_handle) if is_same_inflight(area, other_area) && handle == other_handle),
        FrontendCall::GetMaxMemSlots => matches!(b, FrontendCall::GetMaxMemSlots),
        FrontendCall::AddMemRegion(info) =>
            matches!(b, FrontendCall::AddMemRegion(other_info) if is_same_info(info, other_info)),
        FrontendCall::RemoveMemRegion(info) =>
            matches!(b, FrontendCall::RemoveMemRegion(other_info) if is_same_info(info, other_info)),
        FrontendCall::GetShmemConfig => matches!(b, FrontendCall::GetShmemConfig),
        FrontendCall::SetDeviceStateFd(direction, phase, handle) =>
            matches!(b, FrontendCall::SetDeviceStateFd(other_direction, other_phase, other_handle) if direction == other_direction && phase == other_phase && handle == other_handle),
        FrontendCall::CheckDeviceState => matches!(b, FrontendCall::CheckDeviceState),
        FrontendCall::PostcopyAdvise => matches!(b, FrontendCall::PostcopyAdvise),
        FrontendCall::PostcopyListen => matches!(b, FrontendCall::PostcopyListen),
        FrontendCall::PostcopyEnd => matches!(b, FrontendCall::PostcopyEnd),
        FrontendCall::PostcopyAckMemRegions(code) =>
            matches!(b, FrontendCall::PostcopyAckMemRegions(other_code) if is_same_request(*code, *other_code)),
        FrontendCall::SetMtu(mtu) =>
            matches!(b, FrontendCall::SetMtu(other_mtu) if mtu == other_mtu),
        FrontendCall::SetHdrFlags(flags) =>
            matches!(b, FrontendCall::SetHdrFlags(other_flags) if flags.bits() == other_flags.bits()),
        // end
    }
}
