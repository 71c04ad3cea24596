//! What a handler answers where its link fails, or its stream has no message.

use crate::example::Example;
use std::alloc::Global;
use vhost_backend_req_handler::SessionCore;
use vhost_link::{Cut, MemLink};
use vhost_message::{Error, IoCause, Result as Answer};
use vhost_promises::{finds_none, meets_fault, serves_no_broken, stays_broken};

/// GET_FEATURES.
static GET: [u8; 12] = [1, 0, 0, 0, 1, 0, 0, 0, 0, 0, 0, 0];

/// A session on which these bytes came, over a link with this script.
fn new_core(alloc: Global, bytes: &[u8], cuts: Vec<Cut>) -> Option<SessionCore<MemLink>> {
    let mut link = MemLink::new(alloc, cuts);
    link.push(bytes, &[]).ok()?;
    SessionCore::new(alloc, link, 0).ok()
}

/// Whether a call failed since the endpoint is poisoned by the link's error 5.
fn is_broken(answer: &Answer<()>) -> bool {
    matches!(answer, Err(Error::SocketBroken(IoCause::Raw(5))))
}

/// Whether a request that the link's error 5 stops is answered so, and those behind it that the endpoint is poisoned.
fn stopped<D: Example>(
    alloc: Global,
    core: &mut SessionCore<MemLink>,
    device: &mut D,
) -> Option<[bool; 3]> {
    let first = meets_fault(core, device);
    let later = stays_broken(alloc, core, device, 2).ok()?;
    Some([
        matches!(first, Err(Error::SocketError(IoCause::Raw(5)))),
        later.len() == 2 && later.as_slice().iter().all(is_broken),
        is_broken(&serves_no_broken(core, device)),
    ])
}

/// Whether a stream that ends inside a header is answered so.
fn none_found<D: Example>(core: &mut SessionCore<MemLink>, device: &mut D) -> bool {
    matches!(finds_none(core, device), Err(Error::PartialMessage))
}

/// A session whose link fails inside a request.
fn torn(alloc: Global) -> Option<SessionCore<MemLink>> {
    let cuts = vec![in alloc; Cut::Give(5), Cut::Fault(5)].ok()?;
    new_core(alloc, &GET, cuts)
}

/// Whether both are so, over one device.
fn torn_and_short<D: Example>(alloc: Global) -> Option<([bool; 3], bool)> {
    let mut torn = torn(alloc)?;
    let mut short = new_core(alloc, &GET[..5], Vec::new(alloc))?;
    let mut device = D::fresh(alloc);
    let is_none = none_found(&mut short, &mut device);
    match stopped(alloc, &mut torn, &mut device) {
        Some(stopped) => Some((stopped, is_none)),
        None => None,
    }
}

pub(crate) fn hold<D: Example>(alloc: Global) -> bool {
    torn_and_short::<D>(alloc) == Some(([true; 3], true))
}
