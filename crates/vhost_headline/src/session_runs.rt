//! A run of each statement of the other sessions, and of queues.

ghost use Rattle.vhost_frontend_core.specs.Frontend.{MayAsk};

use crate::sessions;
use std::alloc::Global;
use uuid::Uuid;
use vhost_backend_req::{Asked, BackendInternal, ReverseCall};
use vhost_frontend_core::{Answer, Call, FrontendInternal, Sent};
use vhost_frontend_req_handler::{FrontendReqCore, VhostUserFrontendReqHandlerMut};
use vhost_gpu_backend_req::{Awaited, BackendInternal as Display, GpuCall, GpuReply};
use vhost_link::{Link, MemLink, PlainHandle};
use vhost_message::{
    BackendReq, HandlerResult, Result, VhostUserMMap, VhostUserMsgHeader, VhostUserSharedMsg,
};
use vhost_protocol::{Awaited as Awaits, Shape};
use vhost_queue::{
    Descriptor, GuestMemory, GuestRegion, PackedConfig, PackedDescriptor, PackedQueue, PackedRings,
    Position, Queue, QueueConfig, Result as QueueResult, Rings, Segment,
};

/// GET_FEATURES.
static ASKED: [u8; 12] = [1, 0, 0, 0, 1, 0, 0, 0, 0, 0, 0, 0];

/// The reply to GET_FEATURES: 0x40000003.
static FEATURES: [u8; 20] = [
    1, 0, 0, 0, 5, 0, 0, 0, 8, 0, 0, 0, 3, 0, 0, 0x40, 0, 0, 0, 0,
];

/// A backend adds an object, whose name is sixteen sevens.
static OBJECT: [u8; 28] = [
    6, 0, 0, 0, 1, 0, 0, 0, 16, 0, 0, 0, 7, 7, 7, 7, 7, 7, 7, 7, 7, 7, 7, 7, 7, 7, 7, 7,
];

/// The frontend took it.
static TAKEN: [u8; 20] = [6, 0, 0, 0, 5, 0, 0, 0, 8, 0, 0, 0, 0, 0, 0, 0, 0, 0, 0, 0];

type Header = VhostUserMsgHeader<BackendReq>;

/// The side of a frontend that counts the objects that are added.
#[derive(Drop)]
struct Counter {
    objects: u64,
}

impl VhostUserFrontendReqHandlerMut for Counter {
    type Handle = PlainHandle;

    ghost gives = { λ _ _ _ _. Unit {0} };

    fn handle_config_change(&mut self) -> HandlerResult<u64> {
        Ok(0)
    }

    fn shared_object_add(&mut self, _uuid: &VhostUserSharedMsg) -> HandlerResult<u64> {
        self.objects = self.objects.wrapping_add(1);
        Ok(0)
    }

    fn shared_object_remove(&mut self, _uuid: &VhostUserSharedMsg) -> HandlerResult<u64> {
        Ok(0)
    }

    fn shared_object_lookup(
        &mut self,
        _uuid: &VhostUserSharedMsg,
        _fd: &PlainHandle,
    ) -> HandlerResult<u64> {
        Ok(0)
    }

    fn shmem_map(&mut self, _req: &VhostUserMMap, _fd: &PlainHandle) -> HandlerResult<u64> {
        Ok(0)
    }

    fn shmem_unmap(&mut self, _req: &VhostUserMMap) -> HandlerResult<u64> {
        Ok(0)
    }
}

/// A link that hands out these bytes, and then its end.
fn link(alloc: Global, bytes: &[u8]) -> Option<MemLink> {
    let mut link = MemLink::new(alloc, Vec::new(alloc));
    link.push(bytes, &[]).ok()?;
    Some(link)
}

/// Asks a backend for its features.
fn asks_features<L: Link>(frontend: &mut FrontendInternal<L>) -> Result<Sent>
    requires { MayAsk frontend.old }
{
    sessions::frontend_asks(frontend, &Call::GetFeatures)
}

/// The features that it answers, where a number is awaited.
fn takes_features<L: Link>(frontend: &mut FrontendInternal<L>, sent: Sent) -> Option<u64> {
    match (sent.awaited(), frontend.awaited()) {
        (Awaits::Reply(Shape::U64), Awaits::Reply(Shape::U64)) => {
            match sessions::frontend_takes(frontend, &Call::GetFeatures, sent) {
                Answer::Number(features) => Some(features),
                _ => None,
            }
        }
        _ => None,
    }
}

/// Whether a frontend asks for the features by a header alone, and awaits them.
pub(crate) fn asked(alloc: Global) -> Option<bool> {
    let mut frontend = FrontendInternal::new(alloc, link(alloc, &[])?, 2, 3).ok()?;
    let sent = asks_features(&mut frontend).ok()?;
    let wrote = frontend.endpoint_mut().link().taken().bytes() == &ASKED[..];
    Some(wrote && matches!(sent.awaited(), Awaits::Reply(_)))
}

/// Whether a frontend asks for the features, and takes them.
pub(crate) fn features(alloc: Global) -> Option<bool> {
    let mut frontend = FrontendInternal::new(alloc, link(alloc, &FEATURES)?, 2, 3).ok()?;
    let sent = asks_features(&mut frontend).ok()?;
    Some(takes_features(&mut frontend, sent) == Some(0x4000_0003))
}

/// Whether a frontend serves a backend that adds an object.
pub(crate) fn served(alloc: Global) -> Option<bool> {
    let mut core = FrontendReqCore::new(alloc, link(alloc, &OBJECT)?, 3).ok()?;
    let mut counter = Counter { objects: 0 };
    let answer = sessions::channel_serves(&mut core, &mut counter);
    Some(answer.is_ok() && counter.objects == 1)
}

/// Whether it serves that, and then finds the end.
pub(crate) fn served_twice(alloc: Global) -> Option<bool> {
    let mut core = FrontendReqCore::new(alloc, link(alloc, &OBJECT)?, 3).ok()?;
    let mut counter = Counter { objects: 0 };
    let mut answers = Vec::new(alloc);
    sessions::channel_runs(&mut core, 2, &mut counter, &mut answers).ok()?;
    Some(matches!(answers.as_slice(), [Ok(0), Err(_)]) && counter.objects == 1)
}

/// A backend whose frontend replies by these bytes, and what it awaits of that for an object that it adds.
fn adds(
    alloc: Global,
    bytes: &[u8],
    is_acked: bool,
) -> Option<(BackendInternal<MemLink>, Option<Header>)> {
    let mut backend = BackendInternal::from_stream(alloc, link(alloc, bytes)?, 3).ok()?;
    backend.set_shared_object_flag(true);
    backend.set_reply_ack_flag(is_acked);
    let uuid = Uuid::from_bytes([7; 16]);
    let call = ReverseCall::SharedObjectAdd(VhostUserSharedMsg { uuid });
    match sessions::channel_asks(&mut backend, &call) {
        Ok(Asked::Sent(sent)) => Some((backend, sent)),
        _ => None,
    }
}

/// Whether a backend adds an object by this message, for which it awaits nothing.
pub(crate) fn added(alloc: Global) -> Option<bool> {
    let (mut backend, sent) = adds(alloc, &[], false)?;
    let wrote = backend.endpoint_mut().link().taken().bytes() == OBJECT.as_slice();
    Some(wrote && sent.is_none())
}

/// Whether it hears that its frontend took the object.
pub(crate) fn acknowledged(alloc: Global) -> Option<bool> {
    let (mut backend, sent) = adds(alloc, &TAKEN, true)?;
    let is_awaited = sent.is_some();
    let answer = sessions::channel_takes(&mut backend, sent);
    Some(is_awaited && matches!(answer, Ok(0)))
}

/// Whether a device asks a display for its features, whose record it awaits.
pub(crate) fn displayed(alloc: Global) -> Option<bool> {
    let mut display = Display::from_stream(alloc, link(alloc, &[])?, 3).ok()?;
    let asked = sessions::display_asks(&mut display, &GpuCall::GetProtocolFeatures);
    Some(matches!(
        asked,
        Ok(Some(Awaited {
            reply: GpuReply::Features,
            ..
        }))
    ))
}

/// Memory of a guest, in one region.
fn memory(alloc: Global) -> QueueResult<GuestMemory> {
    let mut memory = GuestMemory::new(alloc);
    memory.add(GuestRegion {
        guest_addr: 0,
        size: 0x1000,
        user_addr: 0x10000,
        host_addr: 0x1000,
    })?;
    Ok(memory)
}

/// Whether it is these bytes of the guest, as they are mapped.
fn is_first(segment: Option<Segment>) -> bool {
    match segment {
        Some(segment) => segment.guest_addr == 0x400 && segment.range.addr == 0x1400,
        None => false,
    }
}

/// Whether a chain of a split queue is followed, and a descriptor outside the guest's memory breaks it.
fn follows(alloc: Global) -> QueueResult<bool> {
    let mut memory = memory(alloc)?;
    let rings = Rings::map(&mut memory, 4, 0x10000, 0x10100, 0x10200)?;
    let begin = QueueConfig {
        event_idx: false,
        indirect_desc: false,
        next_avail: 0,
        next_used: 0,
    };
    let mut queue = Queue::new(alloc, rings, begin)?;
    queue.set_avail_idx(1)?;
    queue.pop(0)?;
    let inside = Descriptor {
        addr: 0x400,
        len: 16,
        flags: 1,
        next: 1,
    };
    let outside = Descriptor {
        addr: 0x2000,
        flags: 0,
        ..inside
    };
    let segment = sessions::queue_follows(&mut queue, &mut memory, inside)?;
    let is_broken = sessions::queue_follows(&mut queue, &mut memory, outside).is_err();
    Ok(is_first(segment) && is_broken && queue.needs_reset())
}

/// The same of a packed queue.
fn follows_packed(alloc: Global) -> QueueResult<bool> {
    let mut memory = memory(alloc)?;
    let rings = PackedRings::map(&mut memory, 4, 0x10000, 0x10100, 0x10200)?;
    let begin = PackedConfig {
        event_idx: false,
        indirect_desc: false,
        avail: Position::of_number(0x8000),
        used: Position::of_number(0x8000),
    };
    let mut queue = PackedQueue::new(alloc, rings, begin)?;
    queue.pop(0x81)?;
    let inside = PackedDescriptor {
        addr: 0x400,
        len: 16,
        id: 0,
        flags: 0x81,
    };
    let outside = PackedDescriptor {
        addr: 0x2000,
        flags: 0x80,
        ..inside
    };
    let segment = sessions::packed_queue_follows(&mut queue, &mut memory, inside)?;
    let is_broken = sessions::packed_queue_follows(&mut queue, &mut memory, outside).is_err();
    Ok(is_first(segment) && is_broken && queue.needs_reset())
}

pub(crate) fn followed(alloc: Global) -> Option<bool> {
    follows(alloc).ok()
}

pub(crate) fn followed_packed(alloc: Global) -> Option<bool> {
    follows_packed(alloc).ok()
}
