//! The session of a handler over any link.

ghost use Rattle.std.specs.Prelude.{◌≡◌, ◌+◌, ◌<◌, false, is_some, Some, None, Err, ℤ, IfOk, IfErr, vec_len, vec_capacity};
ghost use Rattle.vhost_message.specs.declared.cause.IoCause.TheVariants.{Raw};
ghost use Rattle.vhost_message.specs.declared.error.Error.TheVariants.{SocketBroken, OutOfMemory};
ghost use Rattle.vhost_protocol.specs.Session.{fresh as new_session};
ghost use Rattle.vhost_device.specs.Reached.{by_trait};

use crate::halves::Pending;
use crate::service::{Header, Service};
use std::alloc::Global;
use vhost_backend_req_handler_core::{Incoming, Session};
use vhost_connection::{Body, Endpoint, Request, new_body};
use vhost_device::VhostUserBackendReqHandlerMut;
use vhost_link::Link;
use vhost_message::{
    Error, HeardReq, IoCause, MAX_MEM_REGIONS, Result, VhostUserMemoryRegion, VhostUserShMemConfig,
};
use vhost_protocol::Profile;

/// A handler's session over a link, without its device.
///
/// Mirrors `vhost::vhost_user::BackendReqHandler`, which holds its device behind a lock.
#[derive(Drop)]
pub struct SessionCore<L: Link> {
    pub(crate) endpoint: Endpoint<Header, L>,
    pub(crate) service: Service,
    /// The body of the request that is served lies at its start.
    pub(crate) body: Body,
    /// The request whose call is to be answered.
    pub(crate) pending: Option<Pending<L::Handle>>,
}

impl<L: Link> SessionCore<L> {
    ghost use Rattle.vhost_connection.specs.State.{fresh, state};
    ghost use Rattle.vhost_protocol.specs.Profile.{is_standard};
    ghost use Rattle.vhost_backend_req_handler.specs.Core.{endpoint_of, session_in, MeetsRowWith};
    ghost use Rattle.std.specs.Borrow.{sem, Lends};
    ghost use Rattle.vhost_backend_req_handler.specs.Core.{with_endpoint};
    ghost use Rattle.vhost_backend_req_handler.specs.contracts.session_core.SessionCore.{the_row};
    ghost use Rattle.vhost_connection.specs.contracts.endpoint.Endpoint.{the_row as endpoint_row};
    ghost use Rattle.vhost_message.specs.contracts.header.VhostUserMsgHeader.{the_row as header_row};
    ghost use Rattle.vhost_message.specs.contracts.heard_req.HeardReq.{the_row as code_row};
    ghost use Rattle.vhost_backend_req_handler.specs.Opening.{OpensAsBackend, OpensAsGpu};
    ghost use Rattle.vhost_backend_req_handler.specs.Serving.{HandlesOne, Runs};

    /// A new session over a link. Each message may use at most so many retries.
    ///
    /// OutOfMemory: an allocation failed.
    pub fn new(alloc: Global, link: L, budget: u32) -> Result<Self>
        ensures endpoint { IfOk result (λ c. endpoint_of c ≡ fresh link budget) }
        ensures session { IfOk result (λ c. session_in c ≡ new_session) }
        ensures idle { IfOk result (λ c. is_some c.pending ≡ false) }
        ensures memory { IfErr result (λ e. e ≡ OutOfMemory) }
    {
        let body = new_body(alloc)?;
        let endpoint = Endpoint::from_stream(alloc, link, budget)?;
        Ok(SessionCore::over(alloc, endpoint, body))
    }

    /// A new session over an endpoint.
    pub(crate) fn over(alloc: Global, endpoint: Endpoint<Header, L>, body: Body) -> Self
        ensures endpoint { endpoint_of result ≡ state endpoint }
        ensures session { session_in result ≡ new_session }
        ensures idle { is_some result.pending ≡ false }
    {
        let service = Service {
            session: Session::new(),
            shmem: VhostUserShMemConfig::default(),
            regions: [VhostUserMemoryRegion::default(); MAX_MEM_REGIONS],
            alloc,
        };
        SessionCore {
            endpoint,
            service,
            body,
            pending: None,
        }
    }

    /// A duplicate of its link, or why there is none. It doesn't see what was received ahead.
    pub fn try_clone_connection(&self) -> std::result::Result<L, IoCause>
        ensures { L.duplicates (endpoint_of self.now).link result }
    {
        self.endpoint.try_clone_sock()
    }

    /// Whether the last call that sent or received met an I/O error: the link failed, or retried once too often.
    pub fn faulted(&self) -> bool
        ensures { result ≡ (endpoint_of self.now).faulted }
    {
        self.endpoint.faulted()
    }

    /// Marks the session as failed with the number of a system's error, also with 0: from now on each request is
    /// answered `SocketBroken` with that number, and nothing is read.
    pub fn set_failed(&mut self, number: i32)
        ensures endpoint { endpoint_of self.new ≡ endpoint_of self.old }
        ensures session { session_in self.new ≡ record (session_in self.old) { failed = Some number } }
        ensures pending { self.new.pending ≡ self.old.pending }
    {
        let session = &mut self.service.session;
        session.failed = Some(number);
    }

    /// The number that marks the session as failed, which each later call answers: that of `set_failed`, or `EPROTO` where it
    /// has ended, since it could not answer whoever waits.
    pub fn failed(&self) -> Option<i32>
        ensures { result ≡ (session_in self.now).failed }
    {
        self.service.session.failed
    }

    /// Whether any number is heard as that of a request, which nobody may serve.
    pub fn hears_any_number(&self) -> bool
        ensures { result ≡ is_standard (session_in self.now).profile }
    {
        self.service.session.is_standard()
    }

    /// Whose behaviour the session has from now on: that of the crate `vhost`, as at first, or that of the specification and of
    /// real frontends.
    pub fn set_profile(&mut self, profile: Profile)
        ensures endpoint { endpoint_of self.new ≡ endpoint_of self.old }
        ensures session { session_in self.new ≡ record (session_in self.old) { profile = profile } }
        ensures pending { self.new.pending ≡ self.old.pending }
    {
        let session = &mut self.service.session;
        session.profile = profile;
    }

    /// Reads one request and serves it.
    ///
    /// SocketBroken: the session is marked as failed, and nothing was read; or the endpoint is poisoned.
    /// Disconnected: the stream ended between two requests. PartialMessage: it ended in a header.
    /// InvalidMessage: the message is malformed, or its request is not served. OutOfMemory: the endpoint's descriptor
    /// buffer was moved out, and another could not be allocated; nothing was read. Other errors are those of the
    /// request's handling rule, and those of the link, which poison the endpoint once a byte of the request has moved.
    pub fn handle_request<D: VhostUserBackendReqHandlerMut<Link = L>>(
        &mut self,
        device: &mut D,
    ) -> Result<()>
        ensures failed { (n : ℤ) → (session_in self.old).failed ≡ Some n
            → (result ≡ Err (SocketBroken (Raw n))) × (endpoint_of self.new ≡ endpoint_of self.old) × (session_in self.new ≡ session_in self.old) × (device.new ≡ device.old) }
        ensures handled { (session_in self.old).failed ≡ None
            → HandlesOne L.event (by_trait D.gives) (λ h o. OpensAsBackend L.opens L.Handle.kinds (endpoint_of self.old).budget h o) (λ h o. OpensAsGpu L.opens L.Handle.kinds (endpoint_of self.old).budget h o) (endpoint_of self.old) (session_in self.old) device.old result (endpoint_of self.new) (session_in self.new) device.new }
        ensures idle { (session_in self.old).failed ≡ None → is_some self.new.pending ≡ false }
        ensures kept { (n : ℤ) → (session_in self.old).failed ≡ Some n → self.new.pending ≡ self.old.pending }
    {
        if let Some(number) = self.service.session.failed {
            return Err(Error::SocketBroken(IoCause::Raw(number)));
        }
        self.pending = None;
        let any_number = self.hears_any_number();
        let (request, mut handles) = self.endpoint.recv_request(any_number, &mut self.body[..])?;
        self.answer(device, request, &mut handles)
    }

    /// Reads and serves so many requests, one after another, and appends their answers to `out`. A failed session is
    /// asked as often.
    ///
    /// OutOfMemory: `out` could not grow; nothing was read.
    pub fn run<D: VhostUserBackendReqHandlerMut<Link = L>>(
        &mut self,
        count: usize,
        device: &mut D,
        out: &mut Vec<Result<()>>,
    ) -> Result<()>
        ensures run { IfOk result (λ _. Runs L.event (by_trait D.gives) (λ h o. OpensAsBackend L.opens L.Handle.kinds (endpoint_of self.old).budget h o) (λ h o. OpensAsGpu L.opens L.Handle.kinds (endpoint_of self.old).budget h o) (endpoint_of self.old) (session_in self.old) device.old count out.old.items out.new.items (endpoint_of self.new) (session_in self.new) device.new) }
        ensures memory { IfErr result (λ e. (e ≡ OutOfMemory) × (endpoint_of self.new ≡ endpoint_of self.old) × (session_in self.new ≡ session_in self.old) × (device.new ≡ device.old) × (out.new.items ≡ out.old.items)) }
        ensures room { IfErr result (λ _. vec_capacity out.old < vec_len out.old + count) }
        ensures idle { is_some self.old.pending ≡ false → is_some self.new.pending ≡ false }
    {
        if out.reserve(count).is_err() {
            return Err(Error::OutOfMemory);
        }
        'calls: for _ in 0..count {
            let answer = self.handle_request(device);
            out.push_reserved(answer);
        }
        Ok(())
    }

    /// Lends its endpoint.
    pub fn endpoint_mut(&mut self) -> &mut Endpoint<Header, L>
        ensures* lender { sem 𝓛 (Lends (the_row L.row L.Handle.row) (endpoint_row (header_row code_row) L.row L.Handle.row) self.entry result (λ e. with_endpoint self.old e)) }
        ensures value { state result.now ≡ endpoint_of self.old }
    {
        &mut self.endpoint
    }

    /// Answers a request that was read, by its handling rule. It may move the descriptors out.
    fn answer<D: VhostUserBackendReqHandlerMut<Link = L>>(
        &mut self,
        device: &mut D,
        request: Request<HeardReq>,
        handles: &mut Option<Vec<L::Handle>>,
    ) -> Result<()>
        ensures pending { self.new.pending ≡ self.old.pending }
        ensures meets { MeetsRowWith L.event L.opens L.Handle.kinds (by_trait D.gives) request.code self.old device.old request handles.old result self.new device.new }
    {
        let message = Incoming::new(
            request.code,
            request.reply,
            request.need_reply,
            &self.body[..request.len],
        );
        self.service
            .serve(&mut self.endpoint, device, &message, handles)
    }
}
