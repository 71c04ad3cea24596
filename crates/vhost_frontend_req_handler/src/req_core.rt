//! The frontend's side of the backend channel over any link.

ghost use Rattle.std.specs.Prelude.{◌≡◌, ◌≢◌, ◌+◌, ◌<◌, ◌&&◌, ℤ, pos, Some, None, Err, is_some, false, IfOk, IfErr, vec_len, vec_capacity};
ghost use Rattle.vhost_message.specs.declared.cause.IoCause.TheVariants.{Raw};
ghost use Rattle.vhost_message.specs.declared.error.Error.TheVariants.{SocketBroken, OutOfMemory};

use crate::asked::Asked;
use crate::call::{Begun, call_device};
use crate::device::VhostUserFrontendReqHandlerMut;
use crate::numbers::{EINVAL, hand_on, number_of};
use std::alloc::Global;
use vhost_connection::{Body, Endpoint, new_body};
use vhost_link::Link;
use vhost_message::{BackendReq, Error, IoCause, Result, VhostUserMsgHeader, VhostUserU64};

mod halves;
mod rows;

pub use halves::halves_law;

type Header = VhostUserMsgHeader<BackendReq>;

/// A request of a backend as it was read.
type Request = vhost_connection::Request<BackendReq>;

/// The frontend's side of the backend channel over a link, without what serves the requests.
///
/// Mirrors `vhost::vhost_user::FrontendReqHandler`, which holds that behind an `Arc`.
#[derive(Drop)]
pub struct FrontendReqCore<L: Link> {
    endpoint: Endpoint<Header, L>,
    /// Whether requests that ask for it are acknowledged.
    reply_ack: bool,
    /// The failure that marks it, if any.
    failed: Option<i32>,
    /// The body of the request that is served lies at its start.
    body: Body,
    /// The request whose call is to be answered, if any.
    pending: Option<Request>,
}

impl<L: Link> FrontendReqCore<L> {
    ghost use Rattle.std.specs.Borrow.{sem, Lends};
    ghost use Rattle.vhost_connection.specs.State.{fresh, state};
    ghost use Rattle.vhost_connection.specs.contracts.endpoint.Endpoint.{the_row as endpoint_row};
    ghost use Rattle.vhost_message.specs.contracts.backend_req.BackendReq.{the_row as code_row};
    ghost use Rattle.vhost_message.specs.contracts.header.VhostUserMsgHeader.{the_row as header_row};
    ghost use Rattle.vhost_frontend_req_handler.specs.contracts.req_core.FrontendReqCore.{the_row};
    ghost use Rattle.vhost_frontend_req_handler.specs.Core.{endpoint_of, server_in, with_endpoint, AsksRowWith, MeetsRow, Acknowledges};
    ghost use Rattle.vhost_frontend_req_handler.specs.Handling.{HandlesOne, Runs};

    /// The frontend's side over a link, without acknowledgements. Each message may use at most so many retries.
    ///
    /// OutOfMemory: an allocation failed.
    pub fn new(alloc: Global, rx: L, budget: u32) -> Result<Self>
        ensures endpoint { IfOk result (λ c. endpoint_of c ≡ fresh rx budget) }
        ensures server { IfOk result (λ c. server_in c ≡ record { reply_ack = false; failed = None }) }
        ensures idle { IfOk result (λ c. is_some c.pending ≡ false) }
        ensures memory { IfErr result (λ e. e ≡ OutOfMemory) }
    {
        let body = new_body(alloc)?;
        Ok(FrontendReqCore {
            endpoint: Endpoint::from_stream(alloc, rx, budget)?,
            reply_ack: false,
            failed: None,
            body,
            pending: None,
        })
    }

    /// Whether the last call that sent or received met an I/O error: the link failed, or retried once too often.
    pub fn faulted(&self) -> bool
        ensures { result ≡ (endpoint_of self.now).faulted }
    {
        self.endpoint.faulted()
    }

    /// Says whether requests that ask for it are acknowledged.
    pub fn set_reply_ack_flag(&mut self, enable: bool)
        ensures endpoint { endpoint_of self.new ≡ endpoint_of self.old }
        ensures server { server_in self.new ≡ record (server_in self.old) { reply_ack = enable } }
        ensures pending { self.new.pending ≡ self.old.pending }
    {
        self.reply_ack = enable;
    }

    /// Marks it as failed with the number of a system's error: from now on each request is answered `SocketBroken` with
    /// that number, and nothing is read. The number 0 removes the mark.
    pub fn set_failed(&mut self, error: i32)
        ensures endpoint { endpoint_of self.new ≡ endpoint_of self.old }
        ensures cleared { error ≡ pos 0 → server_in self.new ≡ record (server_in self.old) { failed = None } }
        ensures marked { error ≢ pos 0 → server_in self.new ≡ record (server_in self.old) { failed = Some error } }
        ensures pending { self.new.pending ≡ self.old.pending }
    {
        self.failed = if error == 0 { None } else { Some(error) };
    }

    /// Reads one request and serves it; the answer is the number of the one that serves it.
    ///
    /// SocketBroken: it is marked as failed, and nothing was read; or the endpoint is poisoned. Disconnected: the stream
    /// ended between two requests. PartialMessage: it ended in a header. InvalidMessage: the message is malformed, or its
    /// request is not served. ReqHandlerError: the error of the one that serves it, as its cause. OutOfMemory: the endpoint's
    /// descriptor buffer was moved out, and another could not be allocated; nothing was read. Other errors are those of the
    /// link, which poison the endpoint once a byte of the request has moved.
    pub fn handle_request<D: VhostUserFrontendReqHandlerMut<Handle = L::Handle>>(
        &mut self,
        device: &mut D,
    ) -> Result<u64>
        ensures failed { (n : ℤ) → (server_in self.old).failed ≡ Some n
            → (result ≡ Err (SocketBroken (Raw n))) × (endpoint_of self.new ≡ endpoint_of self.old) × (server_in self.new ≡ server_in self.old) × (device.new ≡ device.old) }
        ensures handled { (server_in self.old).failed ≡ None
            → HandlesOne L.event D.gives (endpoint_of self.old) (server_in self.old) device.old result (endpoint_of self.new) (server_in self.new) device.new }
        ensures idle { (server_in self.old).failed ≡ None → is_some self.new.pending ≡ false }
    {
        if let Some(number) = self.failed {
            return Err(Error::SocketBroken(IoCause::Raw(number)));
        }
        self.pending = None;
        let (request, handles) = self.endpoint.recv_request(false, &mut self.body[..])?;
        self.answer(device, request, handles)
    }

    /// Reads and serves so many requests, one after another, and appends their answers to `out`. One that is marked as
    /// failed is asked as often.
    ///
    /// OutOfMemory: `out` could not grow; nothing was read.
    pub fn run<D: VhostUserFrontendReqHandlerMut<Handle = L::Handle>>(
        &mut self,
        count: usize,
        device: &mut D,
        out: &mut Vec<Result<u64>>,
    ) -> Result<()>
        ensures run { IfOk result (λ _. Runs L.event D.gives (endpoint_of self.old) (server_in self.old) device.old count out.old.items out.new.items (endpoint_of self.new) (server_in self.new) device.new) }
        ensures memory { IfErr result (λ e. (e ≡ OutOfMemory) × (endpoint_of self.new ≡ endpoint_of self.old) × (server_in self.new ≡ server_in self.old) × (device.new ≡ device.old) × (out.new.items ≡ out.old.items)) }
        ensures room { IfErr result (λ _. vec_capacity out.old < vec_len out.old + count) }
    {
        if out.reserve(count).is_err() {
            return Err(Error::OutOfMemory);
        }
        'calls: for _ in 0..count {
            let answer = self.handle_request(device);
            out.push_reserved(answer);
        }
        Ok(())
    }

    /// Lends its endpoint.
    pub fn endpoint_mut(&mut self) -> &mut Endpoint<Header, L>
        ensures* lender { sem 𝓛 (Lends (the_row L.row L.Handle.row) (endpoint_row (header_row code_row) L.row L.Handle.row) self.entry result (λ e. with_endpoint self.old e)) }
        ensures value { state result.now ≡ endpoint_of self.old }
    {
        &mut self.endpoint
    }

    /// Answers a request that was read, by the handling rule of its code. A bad body is refused without a reply.
    fn answer<D: VhostUserFrontendReqHandlerMut<Handle = L::Handle>>(
        &mut self,
        device: &mut D,
        request: Request,
        handles: Option<Vec<L::Handle>>,
    ) -> Result<u64>
        ensures pending { self.new.pending ≡ self.old.pending }
        ensures meets { MeetsRow L.event D.gives self.old device.old request handles result self.new device.new }
    {
        match self.ask(device, request, handles) {
            Asked::Answered(answer) => {
                self.acknowledge(request, number_of(&answer))?;
                hand_on(answer)
            }
            Asked::Unserved => {
                self.acknowledge(request, EINVAL)?;
                Err(Error::InvalidMessage)
            }
            Asked::BadBody => Err(Error::InvalidMessage),
        }
    }

    /// What became of a request that was read.
    fn ask<D: VhostUserFrontendReqHandlerMut<Handle = L::Handle>>(
        &self,
        device: &mut D,
        request: Request,
        handles: Option<Vec<L::Handle>>,
    ) -> Asked
        ensures { AsksRowWith D.gives request.code self.now device.old request handles result device.new }
    {
        match self.begun(request, handles) {
            Begun::Calls(call) => Asked::Answered(call_device(device, call)),
            Begun::BadBody => Asked::BadBody,
            Begun::Unserved => Asked::Unserved,
        }
    }

    /// Acknowledges a request by a number, where it asks for it and acknowledgements are on.
    fn acknowledge(&mut self, request: Request, number: u64) -> Result<()>
        ensures acknowledges { Acknowledges L.event self.old request number result self.new }
        ensures server { server_in self.new ≡ server_in self.old }
        ensures pending { self.new.pending ≡ self.old.pending }
    {
        if !self.acknowledges(request) {
            return Ok(());
        }
        self.endpoint
            .reply(request.code, &VhostUserU64::new(number), &[], &[])
    }

    /// Whether a request is acknowledged: it asks for it, and acknowledgements are on.
    fn acknowledges(&self, request: Request) -> bool
        ensures { result ≡ ((server_in self.now).reply_ack && request.need_reply) }
    {
        self.reply_ack && request.need_reply
    }
}
