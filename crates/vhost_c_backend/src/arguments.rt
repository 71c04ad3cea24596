//! The arguments of a call of a device, by its form.

ghost use Rattle.std.specs.Prelude.{◌≡◌};
ghost use Rattle.vhost_c_backend.specs.Arguments.{number_arg, ring_arg, vring_arg, ring_fd_arg, fd_arg, inflight_arg, transfer_arg, log_arg, vring_at, first_fd as fd_first};

use vhost_backend_req_handler_core::DeviceCall;
use vhost_c_common::{Inflight, Region, Vring, fd_of};
use vhost_link::PlainHandle;
use vhost_message::VhostUserVringAddr;

/// A number, or features.
pub(crate) fn number_of(call: &DeviceCall) -> Option<u64>
    ensures { result ≡ number_arg call.now }
{
    match call {
        DeviceCall::SetFeatures(number) | DeviceCall::SetProtocolFeatures(number) => Some(*number),
        DeviceCall::SetMtu(number) => Some(*number as u64),
        _ => None,
    }
}

/// The index of a ring, and a number.
pub(crate) fn ring_of(call: &DeviceCall) -> Option<(u32, u32)>
    ensures { result ≡ ring_arg call.now }
{
    match call {
        DeviceCall::SetVringNum(index, number) | DeviceCall::SetVringBase(index, number) => {
            Some((*index, *number))
        }
        DeviceCall::SetVringEnable(index, enable) => Some((*index, *enable as u32)),
        DeviceCall::GetVringBase(index) => Some((*index, 0)),
        _ => None,
    }
}

/// The index of a ring, and where it lies.
pub(crate) fn vring_of(call: &DeviceCall) -> Option<(u32, Vring)>
    ensures { result ≡ vring_arg call.now }
{
    match call {
        DeviceCall::SetVringAddr(ring) => Some((ring.index, placed(ring))),
        _ => None,
    }
}

/// Where a ring lies, in the form of C.
fn placed(ring: &VhostUserVringAddr) -> Vring
    ensures { result ≡ vring_at ring.now }
{
    Vring {
        queue_max_size: 0,
        queue_size: 0,
        flags: ring.flags,
        desc_table_addr: ring.descriptor,
        used_ring_addr: ring.used,
        avail_ring_addr: ring.available,
        log_addr: ring.log,
        has_log_addr: ring.flags & 1 != 0,
    }
}

/// The first file descriptor; -1 where there is none.
fn first_fd(handles: &[PlainHandle]) -> i32
    ensures { result ≡ fd_first handles.now }
{
    match handles.first() {
        Some(handle) => fd_of(*handle),
        None => -1,
    }
}

/// The index of a ring, and a file descriptor; -1: none.
pub(crate) fn ring_fd_of(call: &DeviceCall, handles: &[PlainHandle]) -> Option<(u32, i32)>
    ensures { result ≡ ring_fd_arg handles.now call.now }
{
    match call {
        DeviceCall::SetVringKick(index, given)
        | DeviceCall::SetVringCall(index, given)
        | DeviceCall::SetVringErr(index, given) => {
            let fd = if *given { first_fd(handles) } else { -1 };
            Some((*index as u32, fd))
        }
        _ => None,
    }
}

/// The socket of a channel.
pub(crate) fn fd_of_call(call: &DeviceCall, handles: &[PlainHandle]) -> Option<i32>
    ensures { result ≡ fd_arg handles.now call.now }
{
    match call {
        DeviceCall::SetBackendReqFd | DeviceCall::SetGpuSocket => Some(first_fd(handles)),
        _ => None,
    }
}

/// The inflight region, and the file descriptor that maps it; -1: none.
pub(crate) fn inflight_of(call: &DeviceCall, handles: &[PlainHandle]) -> Option<(Inflight, i32)>
    ensures { result ≡ inflight_arg handles.now call.now }
{
    match call {
        DeviceCall::GetInflightFd(area) => Some((Inflight::of(area), -1)),
        DeviceCall::SetInflightFd(area) => Some((Inflight::of(area), first_fd(handles))),
        _ => None,
    }
}

/// The direction and the phase of a transfer of the device's state, and its file descriptor.
pub(crate) fn transfer_of(call: &DeviceCall, handles: &[PlainHandle]) -> Option<(u32, u32, i32)>
    ensures { result ≡ transfer_arg handles.now call.now }
{
    match call {
        DeviceCall::SetDeviceStateFd(direction, phase) => {
            Some(((*direction).into(), (*phase).into(), first_fd(handles)))
        }
        _ => None,
    }
}

/// The log: its size, where it begins in what its file descriptor maps, and that.
pub(crate) fn log_of(call: &DeviceCall, handles: &[PlainHandle]) -> Option<Region>
    ensures { result ≡ log_arg handles.now call.now }
{
    match call {
        DeviceCall::SetLogBase(log) => Some(Region {
            guest_phys_addr: 0,
            memory_size: log.mmap_size,
            user_addr: 0,
            mmap_offset: log.mmap_offset,
            fd: first_fd(handles),
        }),
        _ => None,
    }
}
