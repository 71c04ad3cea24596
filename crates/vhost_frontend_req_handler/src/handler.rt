//! Serving the backend channel by a shared frontend's side.

ghost use Rattle.std.specs.Prelude.{◌≡◌, ◌≢◌, pos, Some, None, false, IfErr, IfOk};
ghost use Rattle.vhost_message.specs.declared.error.Error.TheVariants.{OutOfMemory};

use crate::req_core::FrontendReqCore;
use crate::shared::VhostUserFrontendReqHandler;
use crate::shared_frontend::SharedFrontend;
use std::alloc::Global;
use std::sync::{Arc, Wait};
use vhost_link::Link;
use vhost_message::Result;

/// The frontend's side of the backend channel: the end by which it serves, the other end to be given to the backend, and
/// what serves the requests, which is shared.
///
/// Mirrors `vhost::vhost_user::FrontendReqHandler`.
#[derive(Drop)]
pub struct FrontendReqHandler<L: Link, S> {
    core: FrontendReqCore<L>,
    /// The backend's end.
    tx: L::Handle,
    backend: Arc<S, Global>,
}

impl<L: Link, S: VhostUserFrontendReqHandler<Handle = L::Handle>> FrontendReqHandler<L, S> {
    ghost use Rattle.vhost_connection.specs.State.{fresh};
    ghost use Rattle.vhost_frontend_req_handler.specs.Core.{endpoint_of, server_in};
    ghost use Rattle.vhost_frontend_req_handler.specs.Sharing.{ServesShared};

    /// A handler over both ends of a connection, without acknowledgements. Each message may use at most so many retries.
    ///
    /// OutOfMemory: an allocation failed.
    pub fn new(
        alloc: Global,
        tx: L::Handle,
        rx: L,
        budget: u32,
        backend: Arc<S, Global>,
    ) -> Result<Self>
        ensures endpoint { IfOk result (λ h. endpoint_of h.core ≡ fresh rx budget) }
        ensures server { IfOk result (λ h. server_in h.core ≡ record { reply_ack = false; failed = None }) }
        ensures tx { IfOk result (λ h. h.tx ≡ tx) }
        ensures memory { IfErr result (λ e. e ≡ OutOfMemory) }
    {
        Ok(FrontendReqHandler {
            core: FrontendReqCore::new(alloc, rx, budget)?,
            tx,
            backend,
        })
    }

    /// Lends the backend's end.
    pub fn get_tx_raw_fd(&self) -> &L::Handle
        ensures { result.now ≡ self.now.tx }
    {
        &self.tx
    }

    /// Says whether requests that ask for it are acknowledged.
    pub fn set_reply_ack_flag(&mut self, enable: bool)
        ensures endpoint { endpoint_of self.new.core ≡ endpoint_of self.old.core }
        ensures server { server_in self.new.core ≡ record (server_in self.old.core) { reply_ack = enable } }
        ensures tx { self.new.tx ≡ self.old.tx }
    {
        self.core.set_reply_ack_flag(enable);
    }

    /// Marks it as failed with the number of a system's error: from now on each request is answered `SocketBroken` with
    /// that number, and nothing is read. The number 0 removes the mark.
    pub fn set_failed(&mut self, error: i32)
        ensures endpoint { endpoint_of self.new.core ≡ endpoint_of self.old.core }
        ensures cleared { error ≡ pos 0 → server_in self.new.core ≡ record (server_in self.old.core) { failed = None } }
        ensures marked { error ≢ pos 0 → server_in self.new.core ≡ record (server_in self.old.core) { failed = Some error } }
        ensures tx { self.new.tx ≡ self.old.tx }
    {
        self.core.set_failed(error);
    }

    /// Reads one request and serves it, as [`FrontendReqCore::handle_request`] does. It may wait.
    pub fn handle_request<R: Wait>(&mut self, rt: &R) -> Result<u64>
        ensures served { ServesShared L.event self.old.core result self.new.core }
        ensures tx { self.new.tx ≡ self.old.tx }
    {
        let mut served = SharedFrontend {
            device: &self.backend,
            rt,
        };
        self.core.handle_request(&mut served)
    }
}
