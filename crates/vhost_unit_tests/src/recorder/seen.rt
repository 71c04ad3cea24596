//! What four callers see, whatever the schedule, and one whose calls have lists.

use crate::recorder::drive::{Crowd, four_callers};
use std::alloc::{AllocError, Global};
use std::sync::Wait;
use std::thread::Threads;
use vhost_device::VhostUserBackendReqHandlerMut;
use vhost_dummy_backend::DummyBackendReqHandler;
use vhost_frontend_core::RegionInfo;
use vhost_link::{Cut, Kind, MemLink, PlainHandle};
use vhost_message::{VhostUserMemoryRegion, VhostUserProtocolFeatures, VhostUserShMemConfig};
use vhost_recorder::{FrontendAnswer, FrontendCall, Halt, Log, Receipt, Recorded, Stop};

/// The example device, over links in memory.
type Device = DummyBackendReqHandler<MemLink>;

/// How many receipts in a row are confirmed, and have this caller, the serials from 0 on, and the features.
fn confirmed<D: VhostUserBackendReqHandlerMut<Link = MemLink>>(
    log: &Log<D>,
    caller: u32,
    receipts: &[Receipt],
) -> u64 {
    let mut count = 0;
    for receipt in receipts {
        let is_next = receipt.caller() == caller && receipt.serial() == count;
        let is_answered = matches!(receipt.answer(), FrontendAnswer::Number(0x4000_0003));
        if is_next && is_answered && log.confirms(receipt) {
            count = count.saturating_add(1);
        }
    }
    count
}

/// What four callers saw, as plain values.
#[derive(Clone, Copy, Debug, PartialEq, Eq)]
struct Seen {
    /// How many receipts are confirmed so.
    confirmed: u64,
    /// How many entries the log has.
    entries: usize,
    /// Why the run stopped.
    stopped: Option<Stop>,
}

fn seen_of<D: VhostUserBackendReqHandlerMut<Link = MemLink>>(crowd: &Crowd<D>) -> Seen {
    let log = &crowd.log;
    let left = confirmed(log, 1, &crowd.first).saturating_add(confirmed(log, 2, &crowd.second));
    let right = confirmed(log, 3, &crowd.third).saturating_add(confirmed(log, 4, &crowd.fourth));
    Seen {
        confirmed: left.saturating_add(right),
        entries: log.entries().len(),
        stopped: log.stopped(),
    }
}

/// So many calls for the device's features.
fn asking(alloc: Global, count: u32) -> Result<Vec<FrontendCall>, AllocError> {
    let mut calls = Vec::new(alloc);
    for _i in 0..count {
        calls.push(FrontendCall::GetFeatures)?;
    }
    Ok(calls)
}

/// So many retries of the frontend's link, one after another.
fn retries(alloc: Global, count: u32) -> Result<Vec<Cut>, AllocError> {
    let mut script = Vec::new(alloc);
    for _i in 0..count {
        script.push(Cut::Retry)?;
    }
    Ok(script)
}

/// What four callers see who ask a device so often each, over a link with four retries, of which so many are allowed.
fn four<D: VhostUserBackendReqHandlerMut<Link = MemLink> + Send, R: Threads + Wait + Sync>(
    rt: &R,
    alloc: Global,
    device: D,
    count: u32,
    budget: u32,
) -> Result<Seen, Halt> {
    let (Ok(calls), Ok(script)) = (asking(alloc, count), retries(alloc, 4)) else {
        return Err(Halt::OutOfMemory);
    };
    let crowd = four_callers(rt, alloc, device, &calls, (budget, script))?;
    Ok(seen_of(&crowd))
}

/// How many of these calls are recorded, so that the log has their receipts.
fn kept<D: VhostUserBackendReqHandlerMut<Link = MemLink>>(
    recorded: &mut Recorded<D>,
    calls: &[FrontendCall],
) -> u64 {
    let mut count = 0u64;
    for call in calls {
        if let Ok(receipt) = recorded.step(7, call) {
            count = count.saturating_add(u64::from(recorded.has(&receipt)));
        }
    }
    count
}

/// A table of one region.
fn table(alloc: Global) -> Result<Vec<RegionInfo<PlainHandle>>, AllocError> {
    let region = VhostUserMemoryRegion::new(0x1000, 0x1000, 0x7000, 0);
    let mmap_handle = Some(PlainHandle {
        id: 3,
        kind: Kind::NoSocket,
    });
    let mut regions = Vec::new(alloc);
    regions.push(RegionInfo {
        region,
        mmap_handle,
    })?;
    Ok(regions)
}

/// Calls with lists: a table, and the sizes of shared memory.
fn lists(alloc: Global) -> Result<[FrontendCall; 4], AllocError> {
    let regions = table(alloc)?;
    Ok([
        FrontendCall::GetFeatures,
        FrontendCall::SetProtocolFeatures(VhostUserProtocolFeatures::SHMEM),
        FrontendCall::GetShmemConfig,
        FrontendCall::SetMemTable(regions),
    ])
}

/// A recorded run over a device with shared memory.
fn with_shared_memory(alloc: Global) -> Option<Recorded<Device>> {
    let mut device = new_device(alloc);
    device.set_shmem_config(VhostUserShMemConfig::new(2, &[0x1000, 0x2000]));
    let scripts = (Vec::new(alloc), Vec::new(alloc));
    Recorded::new(alloc, device, 2, 3, scripts).ok()
}

/// How many of these calls are recorded.
fn lists_kept(alloc: Global) -> Option<u64> {
    let calls = lists(alloc).ok()?;
    kept_of(with_shared_memory(alloc), &calls)
}

/// The same of a run that was made.
fn kept_of<D: VhostUserBackendReqHandlerMut<Link = MemLink>>(
    recorded: Option<Recorded<D>>,
    calls: &[FrontendCall],
) -> Option<u64> {
    let mut recorded = recorded?;
    Some(kept(&mut recorded, calls))
}

/// Whether four callers see each call of theirs recorded, of one device, and that a retry limit is that of the recorder, of another.
fn are_recorded<D: VhostUserBackendReqHandlerMut<Link = MemLink> + Send, R: Threads + Wait + Sync>(
    rt: &R,
    alloc: Global,
    device: D,
    other: D,
) -> [bool; 2] {
    let all = Seen {
        confirmed: 400,
        entries: 400,
        stopped: None,
    };
    let none = Seen {
        confirmed: 0,
        entries: 1,
        stopped: Some(Stop::Premise),
    };
    [
        four(rt, alloc, device, 100, 4) == Ok(all),
        four(rt, alloc, other, 1, 3) == Ok(none),
    ]
}

fn new_device(alloc: Global) -> Device {
    Device::new(alloc, Vec::new(alloc))
}

#[test]
fn four_callers_are_recorded(rt: HostRuntime) {
    let alloc = rt.alloc();
    let recorded = are_recorded(&rt, alloc, new_device(alloc), new_device(alloc));
    assert!(rt; recorded == [true; 2]);
}

#[test]
fn calls_with_lists_are_recorded(rt: HostRuntime) {
    assert!(rt; lists_kept(rt.alloc()) == Some(4));
}
