//! One session: a handler, until it ends.

ghost use Rattle.std.specs.Prelude.{◌≡◌, Some, None, IfSome};
ghost use Rattle.vhost_backend_req_handler.specs.Sharing.{ServesShared, core_of};
ghost use Rattle.vhost_sockets.specs.Session.{IsServed, ends};

use std::sync::Wait;
use vhost_backend_req_handler::{BackendReqHandler, Gate};
use vhost_device::VhostUserBackendReqHandler;
use vhost_link::Link;
use vhost_message::{Error, Result};

/// How many retries a message of a session may use.
pub const BUDGET: u32 = 3;

/// How a session ended.
#[derive(Clone, Copy, Debug)]
pub struct Ended {
    /// The requests that were answered before the one that ended it.
    pub requests: u32,
    /// The name of the error that ended it, or `Gate`.
    pub end: &'static str,
}

/// Is told of each request that a session refuses, and of what else ends it.
pub trait Watch: Drop {
    /// This request, counted from 1, was answered so.
    fn refused(&self, request: u32, error: &Error);
}

/// Looks at nothing.
#[derive(Clone, Copy, Debug)]
pub struct Unwatched;

impl Watch for Unwatched {
    fn refused(&self, _request: u32, _error: &Error) {}
}

/// Serves requests until one ends the session, or the gate does. A session is ended by the end of its stream, a message that is
/// malformed, an I/O error of its link, and a failed allocation; after any other refusal it goes on.
pub fn serve_session<R: Wait, G: Gate, L: Link, S: VhostUserBackendReqHandler<Link = L>>(
    rt: &R,
    session: u32,
    handler: &mut BackendReqHandler<L, S>,
    gate: &G,
) -> Ended
    ensures { IsServed (ServesShared L.event L.opens L.Handle.kinds) (core_of handler.old) result (core_of handler.new) }
{
    serve_watched(rt, session, handler, gate, &Unwatched)
}

/// The same, and reports each refusal.
pub fn serve_watched<R: Wait, G: Gate, L: Link, S: VhostUserBackendReqHandler<Link = L>, W: Watch>(
    rt: &R,
    session: u32,
    handler: &mut BackendReqHandler<L, S>,
    gate: &G,
    watch: &W,
) -> Ended
    ensures { IsServed (ServesShared L.event L.opens L.Handle.kinds) (core_of handler.old) result (core_of handler.new) }
{
    let mut requests: u32 = 0;
    'requests: for _ in rt.forever() {
        let request = requests.saturating_add(1);
        if !gate.before(session, request) {
            return Ended {
                requests,
                end: "Gate",
            };
        }
        let answer = handler.handle_request(rt);
        gate.after(session, request);
        if let Err(error) = &answer {
            watch.refused(request, error);
        }
        if let Some(end) = end_of(&answer) {
            return Ended { requests, end };
        }
        requests = request;
    }
    unreachable!()
}

/// The name of an answer that ends a session.
fn end_of(answer: &Result<()>) -> Option<&'static str>
    ensures some { IfSome result (λ name. ends answer.now ≡ Some name.now) }
    ensures none { result ≡ None → ends answer.now ≡ None }
{
    match answer {
        Ok(()) => None,
        Err(Error::Disconnected) => Some("Disconnected"),
        Err(Error::PartialMessage) => Some("PartialMessage"),
        Err(Error::InvalidMessage) => Some("InvalidMessage"),
        Err(Error::SocketBroken(_)) => Some("SocketBroken"),
        Err(Error::SocketError(_)) => Some("SocketError"),
        Err(Error::SocketConnect(_)) => Some("SocketConnect"),
        Err(Error::SocketRetry(_)) => Some("SocketRetry"),
        Err(Error::OutOfMemory) => Some("OutOfMemory"),
        Err(_) => None,
    }
}
