//! What a device asks, as its frontend serves it.

ghost use Rattle.std.specs.Prelude.{⊤};

use std::alloc::{AllocError, Global};
use std::sync::{Arc, Wait};
use vhost_frontend_req_handler::{
    FrontendReqCore, FrontendReqHandler, VhostUserFrontendReqHandler,
    VhostUserFrontendReqHandlerMut,
};
use vhost_link::{Cut, Kind, Link, MemLink, PlainHandle};
use vhost_message::{Error, HandlerResult, IoCause, Result, VhostUserMMap, VhostUserSharedMsg};
use vhost_promises::{
    answers_by_halves, finds_none_back, meets_fault_back, serves_no_broken_back, serves_whole_back,
    stays_broken_back,
};

/// SHARED_OBJECT_ADD, which wants an acknowledgement.
static ADD: [u8; 28] = [
    6, 0, 0, 0, 9, 0, 0, 0, 16, 0, 0, 0, 1, 2, 3, 4, 5, 6, 7, 8, 9, 10, 11, 12, 13, 14, 15, 16,
];

/// The acknowledgement: 5.
static ADDED: [u8; 20] = [6, 0, 0, 0, 5, 0, 0, 0, 8, 0, 0, 0, 5, 0, 0, 0, 0, 0, 0, 0];

/// Answers each call with the number 5.
#[derive(Drop)]
struct Five;

impl VhostUserFrontendReqHandlerMut for Five {
    type Handle = PlainHandle;

    ghost gives = { λ _ _ _ _. ⊤ };

    fn handle_config_change(&mut self) -> HandlerResult<u64> {
        Ok(5)
    }

    fn shared_object_add(&mut self, _uuid: &VhostUserSharedMsg) -> HandlerResult<u64> {
        Ok(5)
    }

    fn shared_object_remove(&mut self, _uuid: &VhostUserSharedMsg) -> HandlerResult<u64> {
        Ok(5)
    }

    fn shared_object_lookup(
        &mut self,
        _uuid: &VhostUserSharedMsg,
        _fd: &PlainHandle,
    ) -> HandlerResult<u64> {
        Ok(5)
    }

    fn shmem_map(&mut self, _req: &VhostUserMMap, _fd: &PlainHandle) -> HandlerResult<u64> {
        Ok(5)
    }

    fn shmem_unmap(&mut self, _req: &VhostUserMMap) -> HandlerResult<u64> {
        Ok(5)
    }
}

/// Whoever answers the calls of a session in memory, so that what is generic in it is called with `Five` once.
trait Frontend: VhostUserFrontendReqHandlerMut<Handle = PlainHandle> {}

impl Frontend for Five {}

/// A session on which these bytes came, over a link with this script.
fn new_core(alloc: Global, bytes: &[u8], cuts: Vec<Cut>) -> Option<FrontendReqCore<MemLink>> {
    let mut link = MemLink::new(alloc, cuts);
    link.push(bytes, &[]).ok()?;
    FrontendReqCore::new(alloc, link, 0).ok()
}

/// Whether a request is served, and the end of the stream is the answer after it.
fn served_whole<F: Frontend>(alloc: Global, frontend: &mut F) -> Option<bool> {
    let mut core = new_core(alloc, &ADD, Vec::new(alloc))?;
    let answers = serves_whole_back(alloc, &mut core, frontend, 2).ok()?;
    Some(matches!(answers.as_slice(), [Ok(5), Err(Error::Disconnected)]))
}

/// Whether a request is answered that the endpoint was poisoned before.
fn unserved<F: Frontend>(alloc: Global, frontend: &mut F) -> Option<bool> {
    let mut core = new_core(alloc, &ADD, Vec::new(alloc))?;
    core.endpoint_mut().break_with(IoCause::Raw(5));
    let answer = serves_no_broken_back(&mut core, frontend);
    Some(matches!(answer, Err(Error::SocketBroken(IoCause::Raw(5)))))
}

/// Whether a request that the link's error 5 stops after five bytes is answered so, and one behind it that the endpoint is poisoned.
fn stopped<F: Frontend>(alloc: Global, frontend: &mut F, cuts: Vec<Cut>) -> Option<[bool; 2]> {
    let mut core = new_core(alloc, &ADD, cuts)?;
    let first = meets_fault_back(&mut core, frontend);
    let later = stays_broken_back(alloc, &mut core, frontend, 1).ok()?;
    Some([
        matches!(first, Err(Error::SocketError(IoCause::Raw(5)))),
        matches!(
            later.as_slice(),
            [Err(Error::SocketBroken(IoCause::Raw(5)))]
        ),
    ])
}

/// The same over such a link.
fn torn<F: Frontend>(alloc: Global, frontend: &mut F) -> Option<[bool; 2]> {
    let cuts = vec![in alloc; Cut::Give(5), Cut::Fault(5)].ok()?;
    stopped(alloc, frontend, cuts)
}

/// Whether a stream that ends inside a header is answered so.
fn none_found<F: Frontend>(alloc: Global, frontend: &mut F) -> Option<bool> {
    let mut core = new_core(alloc, &ADD[..5], Vec::new(alloc))?;
    let answer = finds_none_back(&mut core, frontend);
    Some(matches!(answer, Err(Error::PartialMessage)))
}

/// Whether a request that is served in two halves is answered, and acknowledged. None where a new session has a call before it.
fn in_halves<F: Frontend>(alloc: Global, frontend: &mut F) -> Option<[bool; 2]> {
    let mut core = new_core(alloc, &ADD, Vec::new(alloc))?;
    core.set_reply_ack_flag(true);
    if core.has_call() {
        return None;
    }
    let answer = answers_by_halves(&mut core, frontend);
    let written = core.endpoint_mut().link().taken().bytes() == ADDED.as_slice();
    Some([matches!(answer, Ok(5)), written])
}

/// Has none of the calls.
#[derive(Drop)]
struct Nothing;

impl VhostUserFrontendReqHandler for Nothing {
    type Handle = PlainHandle;
}

/// What a frontend that has none of the calls, and is shared, answers to one.
fn shared_nothing(rt: &impl Wait, alloc: Global) -> Option<i32> {
    let mut link = MemLink::new(alloc, Vec::new(alloc));
    link.push(&ADD, &[]).ok()?;
    let tx = PlainHandle {
        id: 7,
        kind: Kind::NoSocket,
    };
    let mut handler = FrontendReqHandler::new(alloc, tx, link, 0, shared(alloc).ok()?).ok()?;
    match handler.handle_request(rt) {
        Err(Error::ReqHandlerError(IoCause::Raw(number))) => Some(number),
        _ => None,
    }
}

/// Such a frontend.
fn shared(alloc: Global) -> std::result::Result<Arc<Nothing, Global>, AllocError> {
    Arc::new(alloc, Nothing).map_err(|_| AllocError)
}

/// Whether those hold that are of a frontend which answers 5.
fn hold_over<F: Frontend>(alloc: Global, five: &mut F) -> [bool; 5] {
    [
        served_whole(alloc, five) == Some(true),
        unserved(alloc, five) == Some(true),
        torn(alloc, five) == Some([true; 2]),
        none_found(alloc, five) == Some(true),
        in_halves(alloc, five) == Some([true; 2]),
    ]
}

pub(crate) fn hold(rt: &impl Wait, alloc: Global) -> bool {
    hold_over(alloc, &mut Five) == [true; 5] && shared_nothing(rt, alloc) == Some(38)
}
