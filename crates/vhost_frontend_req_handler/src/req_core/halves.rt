//! Serving a request in two halves, without a frontend's side: it is read, and becomes a call; the call's answer is reported.

ghost use Rattle.std.specs.Prelude.{◌≡◌, ◌<◌, ◌^◌, ℤ, IfOk, IfErr, Some, None, Err, is_some, false};
ghost use Rattle.vhost_message.specs.declared.cause.IoCause.TheVariants.{Raw};
ghost use Rattle.vhost_message.specs.declared.error.Error.TheVariants.{SocketBroken};
ghost use Rattle.vhost_protocol.specs.IoError.{seen_io_result};
ghost use Rattle.vhost_protocol.specs.Reverse.{result_number};
ghost use Rattle.vhost_frontend_req_handler.specs.Halves.{HalvesRefuse, HalvesServe};

use super::{FrontendReqCore, Request};
use crate::call::{Begun, FrontendSideCall};
use crate::device::VhostUserFrontendReqHandlerMut;
use crate::numbers::{EINVAL, hand_on, number_of};
use vhost_link::Link;
use vhost_message::{Error, HandlerResult, IoCause, Result};

impl<L: Link> FrontendReqCore<L> {
    ghost use Rattle.vhost_message.specs.declared.backend_req.BackendReq.{BackendReq};
    ghost use Rattle.vhost_connection.specs.Requests.{IsReady};
    ghost use Rattle.vhost_connection.specs.declared.request.Request.{Request};
    ghost use Rattle.vhost_frontend_req_handler.specs.Core.{endpoint_of, server_in};
    ghost use Rattle.vhost_frontend_req_handler.specs.Halves.{BeginsCall, Concludes, Refuses};

    /// Whether a call is to be answered.
    pub fn has_call(&self) -> bool
        ensures { result ≡ is_some self.now.pending }
    {
        self.pending.is_some()
    }

    /// The first half: reads one request. It became this call of the frontend's side, whose answer `conclude` reports.
    ///
    /// The errors are those of `handle_request` for a request that is refused before the frontend's side is called, and are
    /// acknowledged as there. No call is to be answered then.
    pub fn begin(&mut self) -> Result<FrontendSideCall<L::Handle>>
        requires { is_some self.old.pending ≡ false }
        ensures failed { (n : ℤ) → (server_in self.old).failed ≡ Some n
            → (result ≡ Err (SocketBroken (Raw n))) × (endpoint_of self.new ≡ endpoint_of self.old) × (server_in self.new ≡ server_in self.old) }
        ensures begun { (server_in self.old).failed ≡ None → IfOk result (λ call. BeginsCall L.event self.old call self.new) }
        ensures refused { (server_in self.old).failed ≡ None → IfErr result (λ e. Refuses L.event self.old e self.new) }
        ensures none { IfErr result (λ _. is_some self.new.pending ≡ false) }
    {
        if let Some(number) = self.failed {
            return Err(Error::SocketBroken(IoCause::Raw(number)));
        }
        let (request, handles) = self.endpoint.recv_request(false, &mut self.body[..])?;
        match self.begun(request, handles) {
            Begun::Calls(call) => {
                self.pending = Some(request);
                Ok(call)
            }
            Begun::Unserved => {
                self.acknowledge(request, EINVAL)?;
                Err(Error::InvalidMessage)
            }
            Begun::BadBody => Err(Error::InvalidMessage),
        }
    }

    /// The second half: reports the answer of the call that is to be answered, and hands it on.
    ///
    /// InvalidOperation: no call is to be answered, and nothing changed. ReqHandlerError: the error that was answered, as its
    /// cause. The other errors are those of the link.
    pub fn conclude(&mut self, answer: HandlerResult<u64>) -> Result<u64>
        ensures concluded { (request : Request BackendReq) → self.old.pending ≡ Some request → IsReady (endpoint_of self.old)
            → Concludes L.event request (seen_io_result answer) (endpoint_of self.old) (server_in self.old) result (endpoint_of self.new) (server_in self.new) }
        ensures idle { self.old.pending ≡ None → (self.new ≡ self.old) × IfOk result (λ _. ⊥) }
        ensures fits { result_number (seen_io_result answer) < 2 ^ 64 }
        ensures none { is_some self.new.pending ≡ false }
    {
        let number = number_of(&answer);
        match self.pending.take() {
            Some(request) => {
                self.acknowledge(request, number)?;
                hand_on(answer)
            }
            None => Err(Error::InvalidOperation("no call is to be answered")),
        }
    }
}

/// The two halves, with an answer of the frontend's side between them, are what `handle_request` does with that side; and so is
/// a request that the first one refuses.
pub fn halves_law<L: Link, D: VhostUserFrontendReqHandlerMut<Handle = L::Handle>>()
    ensures served { HalvesServe L.event D.gives }
    ensures refused { HalvesRefuse L.event D.gives }
{}
