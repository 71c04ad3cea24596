//! Calls of several arguments. Each is none where there is another count of arguments, or where one of them is none.

ghost use Rattle.std.specs.Prelude.{◌≡◌};
ghost use Rattle.vhost_lines.specs.Calls.{set_log_base, set_vring_addr, get_inflight_fd, set_inflight_fd, set_device_state_fd, add_mem_region, remove_mem_region};
ghost use Rattle.vhost_lines.specs.Read.{called, texts};
ghost use Rattle.vhost_lines.specs.Number.{u64};
ghost use Rattle.vhost_lines.specs.Shapes.{optional};

use crate::call_words::argument::{area, direction, handle, phase};
use crate::call_words::number::{index, number, number_32};
use crate::call_words::region::only_region;
use vhost_frontend_core::{FrontendCall, LogRegion};
use vhost_message::VringConfigData;

/// The log's base, and where the log is kept.
pub(crate) fn set_log_base(args: &[&str]) -> Option<FrontendCall>
    ensures { called result ≡ set_log_base (texts args.now) }
{
    match args {
        [base] => Some(FrontendCall::SetLogBase(number(base)?, None)),
        [base, size, offset, mapping] => {
            let base = number(base)?;
            let region = LogRegion {
                mmap_size: number(size)?,
                mmap_offset: number(offset)?,
                mmap_handle: Some(handle(mapping)?),
            };
            Some(FrontendCall::SetLogBase(base, Some(region)))
        }
        _ => None,
    }
}

/// A number that may be left out.
fn optional_number(args: &[&str]) -> Option<Option<u64>>
    ensures { result ≡ optional u64 (texts args.now) }
{
    match args {
        [] => Some(None),
        [word] => Some(Some(number(word)?)),
        _ => None,
    }
}

/// How a ring is configured.
pub(crate) fn set_vring_addr(args: &[&str]) -> Option<FrontendCall>
    ensures { called result ≡ set_vring_addr (texts args.now) }
{
    let [ring, flags, descriptor, used, available, log @ ..] = args else {
        return None;
    };
    let ring = index(ring)?;
    let config = VringConfigData {
        queue_max_size: 0,
        queue_size: 0,
        flags: number_32(flags)?,
        desc_table_addr: number(descriptor)?,
        used_ring_addr: number(used)?,
        avail_ring_addr: number(available)?,
        log_addr: optional_number(log)?,
    };
    Some(FrontendCall::SetVringAddr(ring, config))
}

/// The inflight region that is asked for.
pub(crate) fn get_inflight_fd(args: &[&str]) -> Option<FrontendCall>
    ensures { called result ≡ get_inflight_fd (texts args.now) }
{
    let [size, offset, queues, descriptors] = args else {
        return None;
    };
    let area = area(size, offset, queues, descriptors)?;
    Some(FrontendCall::GetInflightFd(area))
}

/// The inflight region that is given, and its file descriptor.
pub(crate) fn set_inflight_fd(args: &[&str]) -> Option<FrontendCall>
    ensures { called result ≡ set_inflight_fd (texts args.now) }
{
    let [size, offset, queues, descriptors, mapping] = args else {
        return None;
    };
    let area = area(size, offset, queues, descriptors)?;
    Some(FrontendCall::SetInflightFd(area, handle(mapping)?))
}

/// Which way the state of the device goes, when, and over which file descriptor.
pub(crate) fn set_device_state_fd(args: &[&str]) -> Option<FrontendCall>
    ensures { called result ≡ set_device_state_fd (texts args.now) }
{
    let [way, time, pipe] = args else { return None };
    let way = direction(way)?;
    let time = phase(time)?;
    Some(FrontendCall::SetDeviceStateFd(way, time, handle(pipe)?))
}

/// The region that is added.
pub(crate) fn add_mem_region(args: &[&str]) -> Option<FrontendCall>
    ensures { called result ≡ add_mem_region (texts args.now) }
{
    Some(FrontendCall::AddMemRegion(only_region(args)?))
}

/// The region that is removed.
pub(crate) fn remove_mem_region(args: &[&str]) -> Option<FrontendCall>
    ensures { called result ≡ remove_mem_region (texts args.now) }
{
    Some(FrontendCall::RemoveMemRegion(only_region(args)?))
}
