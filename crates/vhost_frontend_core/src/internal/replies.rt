//! What all halves that receive have in common: an acknowledgement or a reply comes.

ghost use Rattle.std.specs.Prelude.{◌≡◌, ◌≤◌, List};
ghost use Rattle.vhost_message.specs.declared.limits.TheConstants.{MAX_MSG_SIZE};
ghost use Rattle.vhost_message.specs.MsgHeader.{fields_of};
ghost use Rattle.vhost_protocol.specs.declared.asked.Awaited.TheVariants.{Nobody};
ghost use Rattle.vhost_protocol.specs.AnswerTable.{after_success, plain_value};
ghost use Rattle.vhost_protocol.specs.FrontendCall.{FrontendCall, Nothing};
ghost use Rattle.vhost_protocol.specs.Error.{seen_result};
ghost use Rattle.vhost_connection.specs.Calls.{HandsOver};
ghost use Rattle.vhost_frontend_core.specs.Taking.{one_unless};

use crate::asked::Sent;
use crate::internal::{FrontendInternal, Header};
use vhost_link::Link;
use vhost_message::{Error, Result, VhostUserMsgValidator, VhostUserU64};
use vhost_protocol::Awaited;

impl<L: Link> FrontendInternal<L> {
    ghost use Rattle.vhost_frontend_core.specs.Frontend.{endpoint_of, session_of, awaits};
    ghost use Rattle.vhost_frontend_core.specs.Halves.{TakesAck};
    ghost use Rattle.vhost_frontend_core.specs.Taking.{Recvs, Awaits, AwaitsAlone, AwaitsAny, RecvsAck, Acks};

    /// Receives the reply for a request: a record, and the descriptors.
    fn recv_record<T: VhostUserMsgValidator + Drop>(
        &mut self,
        request: &Header,
    ) -> Result<(T, Option<Vec<L::Handle>>)>
        requires { T.SIZE ≤ MAX_MSG_SIZE }
        ensures same { self.new ≡ record self.old { endpoint = self.new.endpoint } }
        ensures received { Recvs L.event (session_of self.old).profile T.SIZE T.read T.valid (endpoint_of self.old) (fields_of request.now) result (endpoint_of self.new) }
    {
        let profile = self.session.profile;
        match self.endpoint.recv_reply(profile, request, &mut []) {
            Ok((_, body, _, handles)) => Ok((body, handles)),
            Err(error) => Err(error),
        }
    }

    /// Receives an acknowledgement where one is awaited: 0 is success.
    ///
    /// BackendInternalError: another number. InvalidMessage: what came has descriptors, is not valid, or does not
    /// acknowledge the request. PartialMessage: the stream ended.
    pub(crate) fn take_ack(&mut self, sent: Sent) -> Result<()>
        ensures session { session_of self.new ≡ session_of self.old }
        ensures quiet { awaits self.new ≡ Nobody }
        ensures taken { Acks L.event (session_of self.old).profile (endpoint_of self.old) (fields_of sent.request) sent.awaited result (endpoint_of self.new) }
    {
        self.awaited = Awaited::Nobody;
        let (request, awaited) = (sent.request, sent.awaited);
        drop(sent);
        match awaited {
            Awaited::Nobody => Ok(()),
            _ => self.recv_ack(&request),
        }
    }

    /// Receives what is awaited of any call that is only acknowledged and leaves the session as it is.
    pub(crate) fn take_done(&mut self, sent: Sent) -> Result<()>
        ensures taken { (call : FrontendCall L.Handle) → plain_value call ≡ Nothing → after_success (session_of self.old) call ≡ session_of self.old → TakesAck L.event call sent self.old result self.new }
        ensures quiet { awaits self.new ≡ Nobody }
    {
        self.take_ack(sent)
    }

    /// Receives an acknowledgement of a request.
    fn recv_ack(&mut self, request: &Header) -> Result<()>
        ensures same { self.new ≡ record self.old { endpoint = self.new.endpoint } }
        ensures received { RecvsAck L.event (session_of self.old).profile (endpoint_of self.old) (fields_of request.now) result (endpoint_of self.new) }
    {
        let (number, handles): (VhostUserU64, Option<Vec<L::Handle>>) = self.recv_record(request)?;
        if handles.is_some() {
            return Err(Error::InvalidMessage);
        }
        if number.value != 0 {
            return Err(Error::BackendInternalError);
        }
        Ok(())
    }

    /// Receives a reply: a record, and the descriptors.
    ///
    /// InvalidParam: the request was sent as a reply, so there is none.
    pub(crate) fn take_reply<T: VhostUserMsgValidator + Drop>(
        &mut self,
        sent: Sent,
    ) -> Result<(T, Option<Vec<L::Handle>>)>
        requires { T.SIZE ≤ MAX_MSG_SIZE }
        ensures session { session_of self.new ≡ session_of self.old }
        ensures quiet { awaits self.new ≡ Nobody }
        ensures taken { Awaits L.event (session_of self.old).profile T.SIZE T.read T.valid (endpoint_of self.old) (fields_of sent.request) result (endpoint_of self.new) }
    {
        self.awaited = Awaited::Nobody;
        if sent.request.is_reply() {
            return Err(Error::InvalidParam);
        }
        self.recv_record(&sent.request)
    }

    /// Receives a reply that has no descriptor.
    pub(crate) fn take_plain_reply<T: VhostUserMsgValidator + Drop>(
        &mut self,
        sent: Sent,
    ) -> Result<T>
        requires { T.SIZE ≤ MAX_MSG_SIZE }
        ensures session { session_of self.new ≡ session_of self.old }
        ensures quiet { awaits self.new ≡ Nobody }
        ensures taken { AwaitsAlone L.event (session_of self.old).profile T.SIZE T.read T.valid (endpoint_of self.old) (fields_of sent.request) result (endpoint_of self.new) }
    {
        let (body, handles) = self.take_reply(sent)?;
        if handles.is_some() {
            return Err(Error::InvalidMessage);
        }
        Ok(body)
    }

    /// Receives a reply of any size that has no descriptor.
    ///
    /// InvalidParam: the request was sent as a reply, so there is none. InvalidMessage: it has a descriptor.
    pub(crate) fn take_any_reply(&mut self, sent: Sent) -> Result<()>
        ensures session { session_of self.new ≡ session_of self.old }
        ensures quiet { awaits self.new ≡ Nobody }
        ensures taken { AwaitsAny L.event (endpoint_of self.old) (fields_of sent.request) result (endpoint_of self.new) }
    {
        self.awaited = Awaited::Nobody;
        if sent.request.is_reply() {
            return Err(Error::InvalidParam);
        }
        let handles = self.endpoint.recv_any_reply(&sent.request)?;
        if handles.is_some() {
            return Err(Error::InvalidMessage);
        }
        Ok(())
    }
}

/// The one descriptor that came. Where none came: BackendInternalError, if so a backend says that there is no such thing, else
/// InvalidMessage. IncorrectFds: several did.
pub(crate) fn one_of<H: Drop>(handles: Option<Vec<H>>, says_none: bool) -> Result<H>
    ensures { (hs : List H) → HandsOver handles hs → one_unless says_none hs (λ h. h) ≡ seen_result result }
{
    let Some(mut handles) = handles else {
        let error = if says_none {
            Error::BackendInternalError
        } else {
            Error::InvalidMessage
        };
        return Err(error);
    };
    if handles.len() > 1 {
        return Err(Error::IncorrectFds);
    }
    handles.pop().ok_or(Error::InvalidMessage)
}
