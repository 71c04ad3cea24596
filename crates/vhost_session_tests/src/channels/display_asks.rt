//! What a device asks a display.

use std::alloc::Global;
use vhost_gpu_backend_req::BackendInternal;
use vhost_gpu_message::{VhostUserGpuCursorPos, VhostUserGpuEdidRequest};
use vhost_link::{Cut, MemLink};
use vhost_message::{Error, HandlerResult, IoCause, IoError, VhostUserU64};
use vhost_promises::{asks_features, displays_broken, moves_cursor};

/// The reply to GET_PROTOCOL_FEATURES: 3.
static FEATURES: [u8; 20] = [1, 0, 0, 0, 4, 0, 0, 0, 8, 0, 0, 0, 3, 0, 0, 0, 0, 0, 0, 0];

/// The features that a display replies, and whether a cursor then moves without an answer.
fn asked(alloc: Global) -> Option<(u64, bool)> {
    let mut link = MemLink::new(alloc, Vec::new(alloc));
    link.push(&FEATURES, &[]).ok()?;
    let mut channel = BackendInternal::from_stream(alloc, link, 0).ok()?;
    let features = asks_features(&mut channel).ok()?;
    let cursor = VhostUserGpuCursorPos {
        scanout_id: 1,
        x: 10,
        y: 20,
    };
    Some((features.value, moves_cursor(&mut channel, &cursor).is_ok()))
}

/// Whether the first of three calls fails by the link's error 5, and the others since the endpoint is poisoned.
fn broken(alloc: Global) -> Option<bool> {
    let cuts = vec![in alloc; Cut::Give(5), Cut::Fault(5)].ok()?;
    let mut channel = BackendInternal::from_stream(alloc, MemLink::new(alloc, cuts), 0).ok()?;
    let is_torn = matches!(
        asks_features(&mut channel),
        Err(IoError::In(_, Error::SocketError(IoCause::Raw(5))))
    );
    match displays_broken(alloc, &mut channel, 2) {
        Ok(later) => Some(is_torn && later.len() == 2 && later.as_slice().iter().all(is_broken)),
        Err(_) => None,
    }
}

/// Whether a call failed since the endpoint is poisoned by that error.
fn is_broken(answer: &HandlerResult<VhostUserU64>) -> bool {
    matches!(
        answer,
        Err(IoError::In("send_header", Error::SocketBroken(IoCause::Raw(5))))
    )
}

/// GET_EDID of screen 1, and the header of the reply to it, whose body is 1056 bytes.
static EDID: [u8; 16] = [11, 0, 0, 0, 0, 0, 0, 0, 4, 0, 0, 0, 1, 0, 0, 0];

static EDID_HEADER: [u8; 12] = [11, 0, 0, 0, 4, 0, 0, 0, 0x20, 4, 0, 0];

/// Whether a screen's EDID is asked for so, and the reply is taken.
fn edid(alloc: Global) -> Option<bool> {
    let mut link = MemLink::new(alloc, Vec::new(alloc));
    link.push(&EDID_HEADER, &[]).ok()?;
    link.push(&[7; 1056], &[]).ok()?;
    let mut channel = BackendInternal::from_stream(alloc, link, 0).ok()?;
    let reply = channel
        .get_edid(&VhostUserGpuEdidRequest { scanout_id: 1 })
        .ok()?;
    let is_asked = channel.endpoint_mut().link().taken().bytes() == EDID.as_slice();
    Some(is_asked && reply.edid[1023] == 7)
}

pub(crate) fn hold(alloc: Global) -> [bool; 3] {
    [
        asked(alloc) == Some((3, true)),
        broken(alloc) == Some(true),
        edid(alloc) == Some(true),
    ]
}
