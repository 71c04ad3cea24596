//! Calls of a device, by their numbers.

ghost use Rattle.std.specs.Prelude.{◌≡◌};
ghost use Rattle.vhost_c_backend.specs.Calls.{call_number};

use vhost_backend_req_handler_core::DeviceCall;

/// The number of `enum covretin_call`.
pub(crate) fn number_of_call(call: &DeviceCall) -> u32
    ensures { result ≡ call_number call.now }
{
    match call {
        DeviceCall::GetFeatures => 1,
        DeviceCall::SetFeatures(_) => 2,
        DeviceCall::SetOwner => 3,
        DeviceCall::ResetOwner => 4,
        DeviceCall::SetMemTable(_, _) => 5,
        DeviceCall::SetLogBase(_) => 6,
        DeviceCall::SetVringNum(_, _) => 8,
        DeviceCall::SetVringAddr(_) => 9,
        DeviceCall::SetVringBase(_, _) => 10,
        DeviceCall::GetVringBase(_) => 11,
        DeviceCall::SetVringKick(_, _) => 12,
        DeviceCall::SetVringCall(_, _) => 13,
        DeviceCall::SetVringErr(_, _) => 14,
        DeviceCall::GetProtocolFeatures => 15,
        DeviceCall::SetProtocolFeatures(_) => 16,
        DeviceCall::GetQueueNum => 17,
        DeviceCall::SetVringEnable(_, _) => 18,
        DeviceCall::SetMtu(_) => 20,
        DeviceCall::SetBackendReqFd => 21,
        DeviceCall::GetConfig(_) => 24,
        DeviceCall::SetConfig(_, _) => 25,
        DeviceCall::PostcopyAdvice => 28,
        DeviceCall::PostcopyListen => 29,
        DeviceCall::PostcopyEnd => 30,
        DeviceCall::GetInflightFd(_) => 31,
        DeviceCall::SetInflightFd(_) => 32,
        DeviceCall::SetGpuSocket => 33,
        DeviceCall::ResetDevice => 34,
        DeviceCall::GetMaxMemSlots => 36,
        DeviceCall::AddMemRegion(_, _) => 37,
        DeviceCall::RemoveMemRegion(_) => 38,
        DeviceCall::GetSharedObject(_) => 41,
        DeviceCall::SetDeviceStateFd(_, _) => 42,
        DeviceCall::CheckDeviceState => 43,
        DeviceCall::GetShmemConfig => 44,
        DeviceCall::PostcopyAckMemRegions => 256,
        DeviceCall::Other(_, _) => 257,
    }
}
