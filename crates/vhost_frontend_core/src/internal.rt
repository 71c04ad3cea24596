//! The session of a frontend over any link.

ghost use Rattle.std.specs.Prelude.{◌≡◌, IfOk, IfErr};
ghost use Rattle.vhost_message.specs.declared.error.Error.TheVariants.{OutOfMemory};
ghost use Rattle.vhost_protocol.specs.FrontendCall.{new_frontend};
ghost use Rattle.vhost_protocol.specs.declared.asked.Awaited.TheVariants.{Nobody};

use crate::session::FrontendSession;
use bitflags::Flags;
use std::alloc::Global;
use vhost_connection::Endpoint;
use vhost_link::Link;
use vhost_message::{HeardReq, Result, VhostUserHeaderFlag, VhostUserMsgHeader};
use vhost_protocol::{Awaited, Profile};

mod asking;
mod config;
mod halves;
mod plan;
mod replies;
mod table;
mod taking;

type Header = VhostUserMsgHeader<HeardReq>;

/// A frontend's session over a link. Each call has a half that sends the request and a half that receives the answer.
///
/// Before the half of a call that sends, nothing is awaited, or the endpoint is poisoned; the half that receives is given
/// what that call's other half answered last. An I/O error of the link between a request and the end of its answer poisons
/// the endpoint.
///
/// Mirrors what `vhost::vhost_user::Frontend` holds behind its lock.
#[derive(Drop)]
pub struct FrontendInternal<L: Link> {
    endpoint: Endpoint<Header, L>,
    session: FrontendSession,
    /// What is awaited of the request that was sent last.
    awaited: Awaited,
    alloc: Global,
}

impl<L: Link> FrontendInternal<L> {
    ghost use Rattle.std.specs.Borrow.{sem, Lends};
    ghost use Rattle.vhost_connection.specs.State.{fresh, state};
    ghost use Rattle.vhost_connection.specs.contracts.endpoint.Endpoint.{the_row as endpoint_row};
    ghost use Rattle.vhost_message.specs.contracts.header.VhostUserMsgHeader.{the_row as header_row};
    ghost use Rattle.vhost_message.specs.contracts.heard_req.HeardReq.{the_row as code_row};
    ghost use Rattle.vhost_frontend_core.specs.contracts.internal.FrontendInternal.{the_row};
    ghost use Rattle.vhost_frontend_core.specs.Frontend.{endpoint_of, session_of, awaits, with_endpoint};

    /// A new session over a link, with a backend of at most so many queues and a retry limit for each message.
    ///
    /// OutOfMemory: an allocation failed.
    pub fn new(alloc: Global, link: L, max_queue_num: u64, budget: u32) -> Result<Self>
        ensures endpoint { IfOk result (λ f. endpoint_of f ≡ fresh link budget) }
        ensures session { IfOk result (λ f. session_of f ≡ new_frontend max_queue_num) }
        ensures awaited { IfOk result (λ f. awaits f ≡ Nobody) }
        ensures memory { IfErr result (λ e. e ≡ OutOfMemory) }
    {
        Ok(FrontendInternal {
            endpoint: Endpoint::from_stream(alloc, link, budget)?,
            session: FrontendSession::new(max_queue_num),
            awaited: Awaited::Nobody,
            alloc,
        })
    }

    /// The flags of each request from now on: of these, REPLY and NEED_REPLY are sent.
    pub fn set_hdr_flags(&mut self, flags: VhostUserHeaderFlag)
        ensures endpoint { endpoint_of self.new ≡ endpoint_of self.old }
        ensures session { session_of self.new ≡ record (session_of self.old) { header_flags = flags.bits } }
        ensures awaited { awaits self.new ≡ awaits self.old }
    {
        let session = &mut self.session;
        session.header_flags = flags.bits();
    }

    /// Whose behaviour it has from now on: that of the crate `vhost`, as a new session, or that of the specification and of
    /// real backends.
    pub fn set_profile(&mut self, profile: Profile)
        ensures endpoint { endpoint_of self.new ≡ endpoint_of self.old }
        ensures session { session_of self.new ≡ record (session_of self.old) { profile = profile } }
        ensures awaited { awaits self.new ≡ awaits self.old }
    {
        let session = &mut self.session;
        session.profile = profile;
    }

    /// Whose behaviour it has.
    pub fn profile(&self) -> Profile
        ensures { result ≡ (session_of self.now).profile }
    {
        self.session.profile
    }

    /// What is awaited of the request that was sent last.
    pub fn awaited(&self) -> Awaited
        ensures { result ≡ awaits self.now }
    {
        self.awaited
    }

    /// Whether the last call that sent or received met an I/O error: the link failed, or retried once too often.
    pub fn faulted(&self) -> bool
        ensures { result ≡ (endpoint_of self.now).faulted }
    {
        self.endpoint.faulted()
    }

    /// Lends its endpoint.
    pub fn endpoint_mut(&mut self) -> &mut Endpoint<Header, L>
        ensures* lender { sem 𝓛 (Lends (the_row L.row L.Handle.row) (endpoint_row (header_row code_row) L.row L.Handle.row) self.entry result (λ e. with_endpoint self.old e)) }
        ensures value { state result.now ≡ endpoint_of self.old }
    {
        &mut self.endpoint
    }
}
