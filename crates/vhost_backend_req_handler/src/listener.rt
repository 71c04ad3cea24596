//! Handing a device to the first frontend that connects.

ghost use Rattle.std.specs.Prelude.{◌≡◌, Some, IsOkAnd, IfErr};

use crate::handler::BackendReqHandler;
use std::alloc::Global;
use std::fs::Files;
use std::sync::Arc;
use vhost_connection::{Body, Buffers, Endpoint, Listener, new_body};
use vhost_device::VhostUserBackendReqHandler;
use vhost_link::{NoHandle, UnixLink};
use vhost_message::{Error, Result};

/// A listening socket, and the device that the first connection is for.
///
/// Mirrors `vhost::vhost_user::BackendListener`.
#[derive(Drop)]
pub struct BackendListener<'a, R: Files + Drop, S> {
    listener: &'a mut Listener<R>,
    /// The device, until it was handed out.
    backend: Option<Arc<S, Global>>,
    budget: u32,
    alloc: Global,
}

impl<'a, R: Files + Drop, S: VhostUserBackendReqHandler<Link = UnixLink>> BackendListener<
    'a,
    R,
    S,
> {
    ghost use Rattle.vhost_backend_req_handler.specs.Accepting.{Accepts};
    ghost use Rattle.vhost_connection.specs.Sockets.{IsSocketError, IsListenError};

    /// With the device that the first connection is for. Each message of its session may use at most so many retries.
    pub fn new(
        alloc: Global,
        listener: &'a mut Listener<R>,
        backend: Arc<S, Global>,
        budget: u32,
    ) -> Result<Self>
        ensures { IsOkAnd result (λ l. (l.backend ≡ Some backend) × (l.budget ≡ budget)) }
    {
        Ok(BackendListener {
            listener,
            backend: Some(backend),
            budget,
            alloc,
        })
    }

    /// Accepts the next connection, and hands the device out for it. None: the listener would have to wait for one, or
    /// the other side gave up; the device is still there.
    ///
    /// InvalidOperation: the device was handed out before, and no connection is accepted. OutOfMemory: an allocation
    /// failed, and no connection is accepted. SocketError: the listener failed. The device stays where it was.
    pub fn accept(&mut self) -> Result<Option<BackendReqHandler<UnixLink, S>>>
        ensures device { Accepts self.old.backend self.old.budget result self.new.backend }
        ensures budget { self.new.budget ≡ self.old.budget }
    {
        let Some(backend) = self.backend.take() else {
            return Err(Error::InvalidOperation("backend already handed out"));
        };
        match self.next_connection() {
            Ok(Some((buffers, body, link))) => {
                let endpoint = Endpoint::with_buffers(buffers, link, self.budget);
                Ok(Some(BackendReqHandler::over(self.alloc, endpoint, body, backend)))
            }
            Ok(None) => {
                self.backend = Some(backend);
                Ok(None)
            }
            Err(error) => {
                self.backend = Some(backend);
                Err(error)
            }
        }
    }

    /// The next connection, and what a session allocates, which is made first.
    fn next_connection(&self) -> Result<Option<(Buffers<NoHandle>, Body, UnixLink)>>
        ensures { IfErr result IsListenError }
    {
        let (buffers, body) = (Buffers::new(self.alloc)?, new_body(self.alloc)?);
        match self.listener.accept()? {
            Some(link) => Ok(Some((buffers, body, link))),
            None => Ok(None),
        }
    }

    /// Whether `accept` answers None where it would have to wait.
    ///
    /// SocketError: the system refused.
    pub fn set_nonblocking(&self, nonblocking: bool) -> Result<()>
        ensures { IfErr result IsSocketError }
    {
        self.listener.set_nonblocking(nonblocking)
    }
}
