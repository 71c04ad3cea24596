//! Copies of calls.

ghost use Rattle.std.specs.Prelude.{◌≡◌, IfOk};
ghost use Rattle.vhost_frontend_core.specs.Values.{call_of};

use bitflags::Flags;
use std::alloc::{AllocError, Global};
use vhost_joined::FrontendCall;
use vhost_message::VhostUserHeaderFlag;

/// The same items, in a list of their own.
fn copied<T: Copy + Drop>(alloc: Global, items: &[T]) -> Result<Vec<T>, AllocError>
    ensures { IfOk result (λ list. list.items ≡ items.now) }
{
    let mut list = Vec::new(alloc);
    list.extend_from_slice(items)?;
    Ok(list)
}

/// The same call with the same arguments.
pub fn copy_call(alloc: Global, call: &FrontendCall) -> Result<FrontendCall, AllocError>
    ensures { IfOk result (λ copy. call_of copy ≡ call_of call.now) }
{
    Ok(match call {
        // generated from protocol/requests.toml: calls
        FrontendCall::GetFeatures => FrontendCall::GetFeatures,
        FrontendCall::SetFeatures(features) => FrontendCall::SetFeatures(*features),
        FrontendCall::SetOwner => FrontendCall::SetOwner,
        FrontendCall::ResetOwner => FrontendCall::ResetOwner,
        FrontendCall::GetProtocolFeatures => FrontendCall::GetProtocolFeatures,
        FrontendCall::SetProtocolFeatures(features) => FrontendCall::SetProtocolFeatures(*features),
        FrontendCall::GetQueueNum => FrontendCall::GetQueueNum,
        FrontendCall::ResetDevice => FrontendCall::ResetDevice,
        FrontendCall::SetMemTable(regions) => FrontendCall::SetMemTable(copied(alloc, regions)?),
        FrontendCall::SetLogBase(base, region) => FrontendCall::SetLogBase(*base, *region),
        FrontendCall::SetLogFd(handle) => FrontendCall::SetLogFd(*handle),
        FrontendCall::SetVringNum(index, num) => FrontendCall::SetVringNum(*index, *num),
        FrontendCall::SetVringBase(index, base) => FrontendCall::SetVringBase(*index, *base),
        FrontendCall::SetVringAddr(index, ring) => FrontendCall::SetVringAddr(*index, *ring),
        FrontendCall::GetVringBase(index) => FrontendCall::GetVringBase(*index),
        FrontendCall::SetVringCall(index, handle) => FrontendCall::SetVringCall(*index, *handle),
        FrontendCall::SetVringKick(index, handle) => FrontendCall::SetVringKick(*index, *handle),
        FrontendCall::SetVringErr(index, handle) => FrontendCall::SetVringErr(*index, *handle),
        FrontendCall::SetVringEnable(index, enable) => FrontendCall::SetVringEnable(
            *index, *enable,
        ),
        FrontendCall::GetConfig(offset, size, flags, buffer) => FrontendCall::GetConfig(
            *offset,
            *size,
            *flags,
            copied(alloc, buffer)?,
        ),
        FrontendCall::SetConfig(offset, flags, buffer) => FrontendCall::SetConfig(
            *offset,
            *flags,
            copied(alloc, buffer)?,
        ),
        FrontendCall::SetBackendRequestFd(handle) => FrontendCall::SetBackendRequestFd(*handle),
        FrontendCall::GetSharedObject(name) => FrontendCall::GetSharedObject(*name),
        FrontendCall::GetInflightFd(area) => FrontendCall::GetInflightFd(*area),
        FrontendCall::SetInflightFd(area, handle) => FrontendCall::SetInflightFd(*area, *handle),
        FrontendCall::GetMaxMemSlots => FrontendCall::GetMaxMemSlots,
        FrontendCall::AddMemRegion(info) => FrontendCall::AddMemRegion(*info),
        FrontendCall::RemoveMemRegion(info) => FrontendCall::RemoveMemRegion(*info),
        FrontendCall::GetShmemConfig => FrontendCall::GetShmemConfig,
        FrontendCall::SetDeviceStateFd(direction, phase, handle) => FrontendCall::SetDeviceStateFd(
            *direction, *phase, *handle,
        ),
        FrontendCall::CheckDeviceState => FrontendCall::CheckDeviceState,
        FrontendCall::PostcopyAdvise => FrontendCall::PostcopyAdvise,
        FrontendCall::PostcopyListen => FrontendCall::PostcopyListen,
        FrontendCall::PostcopyEnd => FrontendCall::PostcopyEnd,
        FrontendCall::PostcopyAckMemRegions(code) => FrontendCall::PostcopyAckMemRegions(*code),
        FrontendCall::SetMtu(mtu) => FrontendCall::SetMtu(*mtu),
        FrontendCall::SetHdrFlags(flags) => FrontendCall::SetHdrFlags(
            VhostUserHeaderFlag::from_bits_retain(flags.bits()),
        ),
        // end
    })
}
