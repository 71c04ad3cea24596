//! What a device asks its frontend.

use std::alloc::Global;
use uuid::Uuid;
use vhost_backend_req::BackendInternal;
use vhost_link::{Cut, Kind, Link, MemLink, PlainHandle};
use vhost_message::{
    Error, HandlerResult, IoCause, IoError, Result, VhostUserMMap, VhostUserSharedMsg,
};
use vhost_promises::{adds_again, adds_broken, adds_object, maps_memory};

const HANDLE: PlainHandle = PlainHandle {
    id: 7,
    kind: Kind::NoSocket,
};

/// The reply to SHARED_OBJECT_ADD: 0.
static ADDED: [u8; 20] = [6, 0, 0, 0, 5, 0, 0, 0, 8, 0, 0, 0, 0, 0, 0, 0, 0, 0, 0, 0];

fn name() -> VhostUserSharedMsg {
    VhostUserSharedMsg {
        uuid: Uuid::from_bytes([1, 2, 3, 4, 5, 6, 7, 8, 9, 10, 11, 12, 13, 14, 15, 16]),
    }
}

/// A channel on which all is agreed, over this link.
fn channel<L: Link>(alloc: Global, link: L, reply_ack: bool) -> Result<BackendInternal<L>> {
    let mut channel = BackendInternal::from_stream(alloc, link, 0)?;
    channel.set_reply_ack_flag(reply_ack);
    channel.set_shared_object_flag(true);
    channel.set_shmem_flag(true);
    Ok(channel)
}

/// What an object is answered that is added and acknowledged.
fn added(alloc: Global) -> Option<HandlerResult<u64>> {
    let mut link = MemLink::new(alloc, Vec::new(alloc));
    link.push(&ADDED, &[]).ok()?;
    let mut channel = channel(alloc, link, true).ok()?;
    Some(adds_object(&mut channel, &name()))
}

/// Whether memory is mapped, with a descriptor, and objects are added, without an answer.
fn unanswered(alloc: Global) -> Option<[bool; 3]> {
    let link = MemLink::new(alloc, Vec::new(alloc));
    let mut channel = channel(alloc, link, false).ok()?;
    let mapped = matches!(
        maps_memory(&mut channel, &VhostUserMMap::default(), &HANDLE),
        Ok(0)
    );
    let brought = channel.endpoint_mut().link().taken().handles(0).len() == 1;
    Some([
        mapped,
        brought,
        adds_again(&mut channel, &name(), 2).is_ok(),
    ])
}

/// Whether the first of three calls fails by the link's error 5, and the others since the endpoint is poisoned.
fn broken(alloc: Global) -> Option<bool> {
    let cuts = vec![in alloc; Cut::Give(5), Cut::Fault(5)].ok()?;
    let mut channel = channel(alloc, MemLink::new(alloc, cuts), true).ok()?;
    let is_torn = matches!(
        adds_object(&mut channel, &name()),
        Err(IoError::Of(Error::SocketError(IoCause::Raw(5))))
    );
    match adds_broken(alloc, &mut channel, &name(), 2) {
        Ok(later) => Some(is_torn && later.len() == 2 && later.as_slice().iter().all(is_broken)),
        Err(_) => None,
    }
}

/// Whether a call failed since the endpoint is poisoned by that error.
fn is_broken(answer: &HandlerResult<u64>) -> bool {
    matches!(
        answer,
        Err(IoError::Of(Error::SocketBroken(IoCause::Raw(5))))
    )
}

pub(crate) fn hold(alloc: Global) -> [bool; 3] {
    [
        matches!(added(alloc), Some(Ok(0))),
        unanswered(alloc) == Some([true; 3]),
        broken(alloc) == Some(true),
    ]
}
