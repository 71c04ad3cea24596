//! Serving a frontend with a shared device.

ghost use Rattle.std.specs.Prelude.{◌≡◌, IfErr, IfOk, Some};
ghost use Rattle.vhost_message.specs.declared.error.Error.TheVariants.{OutOfMemory};

use crate::service::Header;
use crate::session_core::SessionCore;
use std::alloc::Global;
use std::net::Net;
use std::sync::{Arc, Wait};
use vhost_connection::{Body, Endpoint, new_body};
use vhost_device::{SharedDevice, VhostUserBackendReqHandler};
use vhost_link::{Link, UnixLink};
use vhost_message::{IoCause, Result};
use vhost_protocol::Profile;

/// The backend's side of a connection, and its shared device.
///
/// Mirrors `vhost::vhost_user::BackendReqHandler`.
#[derive(Drop)]
pub struct BackendReqHandler<L: Link, S> {
    core: SessionCore<L>,
    backend: Arc<S, Global>,
}

impl<L: Link, S: VhostUserBackendReqHandler<Link = L>> BackendReqHandler<L, S> {
    ghost use Rattle.vhost_connection.specs.State.{fresh, state};
    ghost use Rattle.vhost_protocol.specs.Session.{fresh as new_session};
    ghost use Rattle.vhost_backend_req_handler.specs.Core.{endpoint_of, session_in};
    ghost use Rattle.vhost_backend_req_handler.specs.Sharing.{ServesShared};

    /// A new session over a link. Each message may use at most so many retries.
    ///
    /// OutOfMemory: an allocation failed.
    pub fn from_stream(alloc: Global, link: L, budget: u32, backend: Arc<S, Global>) -> Result<Self>
        ensures endpoint { IfOk result (λ h. endpoint_of h.core ≡ fresh link budget) }
        ensures session { IfOk result (λ h. session_in h.core ≡ new_session) }
        ensures device { IfOk result (λ h. h.backend ≡ backend) }
        ensures memory { IfErr result (λ e. e ≡ OutOfMemory) }
    {
        Ok(BackendReqHandler {
            core: SessionCore::new(alloc, link, budget)?,
            backend,
        })
    }

    /// A new session over an endpoint.
    pub(crate) fn over(
        alloc: Global,
        endpoint: Endpoint<Header, L>,
        body: Body,
        backend: Arc<S, Global>,
    ) -> Self
        ensures endpoint { endpoint_of result.core ≡ state endpoint }
        ensures session { session_in result.core ≡ new_session }
        ensures device { result.backend ≡ backend }
    {
        BackendReqHandler {
            core: SessionCore::over(alloc, endpoint, body),
            backend,
        }
    }

    /// A duplicate of its link, or why there is none. It doesn't see what was received ahead.
    pub fn try_clone_connection(&self) -> std::result::Result<L, IoCause>
        ensures { L.duplicates (endpoint_of self.now.core).link result }
    {
        self.core.try_clone_connection()
    }

    /// Marks the session as failed with the number of a system's error, also with 0: from now on each request is
    /// answered `SocketBroken` with that number, and nothing is read.
    pub fn set_failed(&mut self, error: i32)
        ensures endpoint { endpoint_of self.new.core ≡ endpoint_of self.old.core }
        ensures session { session_in self.new.core ≡ record (session_in self.old.core) { failed = Some error } }
    {
        self.core.set_failed(error);
    }

    /// Whose behaviour the session has from now on, as [`SessionCore::set_profile`] says.
    pub fn set_profile(&mut self, profile: Profile)
        ensures endpoint { endpoint_of self.new.core ≡ endpoint_of self.old.core }
        ensures session { session_in self.new.core ≡ record (session_in self.old.core) { profile = profile } }
    {
        self.core.set_profile(profile);
    }

    /// Reads one request and serves it, as [`SessionCore::handle_request`] does. It may wait for the device.
    pub fn handle_request<R: Wait>(&mut self, rt: &R) -> Result<()>
        ensures { ServesShared L.event L.opens L.Handle.kinds self.old.core result self.new.core }
    {
        let mut served = SharedDevice {
            device: &self.backend,
            rt,
        };
        self.core.handle_request(&mut served)
    }
}

impl<S: VhostUserBackendReqHandler<Link = UnixLink>> BackendReqHandler<UnixLink, S> {
    ghost use Rattle.vhost_connection.specs.Sockets.{IsConnectError};
    ghost use Rattle.vhost_backend_req_handler.specs.Accepting.{IsNew};

    /// Connects to the socket at a path, for a new session. Each message may use at most so many retries.
    ///
    /// SocketConnect: the system refused, whatever the number. OutOfMemory: an allocation failed.
    pub fn connect(
        rt: &impl Net,
        alloc: Global,
        path: &str,
        budget: u32,
        backend: Arc<S, Global>,
    ) -> Result<Self>
        ensures session { IfOk result (λ h. IsNew budget h) }
        ensures device { IfOk result (λ h. h.backend ≡ backend) }
        ensures refused { IfErr result IsConnectError }
    {
        let body = new_body(alloc)?;
        let endpoint = Endpoint::connect(rt, alloc, path, budget)?;
        Ok(BackendReqHandler::over(alloc, endpoint, body, backend))
    }
}
