//! What sessions answer where their links want to be asked again.

use std::alloc::Global;
use vhost_backend_req_handler::SessionCore;
use vhost_device::VhostUserBackendReqHandlerMut;
use vhost_frontend_core::{FrontendAnswer, FrontendCall, FrontendInternal};
use vhost_link::{Cut, MemLink};
use vhost_message::{Error, IoCause, Result as Answer};
use vhost_promises::{Device, meets_fault, meets_fault_calling};

/// SET_OWNER.
static OWN: [u8; 12] = [3, 0, 0, 0, 1, 0, 0, 0, 0, 0, 0, 0];

/// How a call ended: as it should, with a retry too many, or since the endpoint was poisoned by one.
#[derive(Clone, Copy, PartialEq, Eq)]
enum Ended {
    Done,
    Retried,
    Broken,
    Otherwise,
}

fn end_of(error: Option<&Error>) -> Ended {
    match error {
        None => Ended::Done,
        Some(Error::SocketRetry(IoCause::Raw(11))) => Ended::Retried,
        Some(Error::SocketBroken(IoCause::Raw(11))) => Ended::Broken,
        Some(_) => Ended::Otherwise,
    }
}

/// Two retries, as many as a message may take; one more before its first byte; and one more amid it.
static ENOUGH: [Cut; 3] = [Cut::Give(5), Cut::Retry, Cut::Retry];

static BEFORE: [Cut; 3] = [Cut::Retry, Cut::Retry, Cut::Retry];

static AMID: [Cut; 4] = [Cut::Give(5), Cut::Retry, Cut::Retry, Cut::Retry];

/// How a handler's answer ended.
fn ended_serving(answer: &Answer<()>) -> Ended {
    end_of(answer.as_ref().err())
}

/// A link with this script, on which SET_OWNER came twice.
fn owned_twice(alloc: Global, cuts: &[Cut]) -> Option<MemLink> {
    let mut link = MemLink::new(alloc, Vec::from_slice(alloc, cuts).ok()?);
    link.push(&OWN, &[]).ok()?;
    link.push(&OWN, &[]).ok()?;
    Some(link)
}

/// How two requests are served.
fn served_by<D: VhostUserBackendReqHandlerMut<Link = MemLink>>(
    core: &mut SessionCore<MemLink>,
    device: &mut D,
) -> [Ended; 2] {
    let first = ended_serving(&meets_fault(core, device));
    [first, ended_serving(&meets_fault(core, device))]
}

/// The same over the example device, and a link with this script.
fn served(alloc: Global, cuts: &[Cut]) -> Option<[Ended; 2]> {
    let mut core = SessionCore::new(alloc, owned_twice(alloc, cuts)?, 2).ok()?;
    let mut device = Device::new(alloc, Vec::new(alloc));
    Some(served_by(&mut core, &mut device))
}

/// (the device is owned once, so the second request is refused otherwise)
#[test]
fn serves_with_retries(rt: HostRuntime) {
    let alloc = rt.alloc();
    assert!(rt; served(alloc, &ENOUGH) == Some([Ended::Done, Ended::Otherwise]));
    assert!(rt; served(alloc, &BEFORE) == Some([Ended::Retried, Ended::Done]));
    assert!(rt; served(alloc, &AMID) == Some([Ended::Retried, Ended::Broken]));
}

/// How a frontend's answer ended.
fn ended_asking(answer: &FrontendAnswer) -> Ended {
    match answer {
        FrontendAnswer::Failed(error) => end_of(Some(error)),
        _ => Ended::Done,
    }
}

/// How two calls are answered, over a link with this script.
fn asked(alloc: Global, cuts: &[Cut]) -> Option<[Ended; 2]> {
    let link = MemLink::new(alloc, Vec::from_slice(alloc, cuts).ok()?);
    let mut frontend = FrontendInternal::new(alloc, link, 4, 2).ok()?;
    let call = FrontendCall::SetVringNum(0, 128);
    let first = ended_asking(&meets_fault_calling(&mut frontend, &call));
    Some([
        first,
        ended_asking(&meets_fault_calling(&mut frontend, &call)),
    ])
}

#[test]
fn asks_with_retries(rt: HostRuntime) {
    let alloc = rt.alloc();
    assert!(rt; asked(alloc, &ENOUGH) == Some([Ended::Done, Ended::Done]));
    assert!(rt; asked(alloc, &BEFORE) == Some([Ended::Retried, Ended::Done]));
    assert!(rt; asked(alloc, &AMID) == Some([Ended::Retried, Ended::Broken]));
}
