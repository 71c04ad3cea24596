//! Listening for connections at a path.

ghost use Rattle.std.specs.Prelude.{IfErr};
ghost use Rattle.vhost_connection.specs.Sockets.{IsSocketError, IsListenError};

use std::alloc::Global;
use std::fs;
use std::fs::Files;
use std::io::ErrorKind;
use std::net::Net;
use std::os::unix::net::UnixListener;
use vhost_link::{UnixLink, cause_of};
use vhost_message::errno::EINTR;
use vhost_message::{Error, IoCause, Result};

/// How often one `accept` may be interrupted.
const MAX_INTERRUPTIONS: u32 = 1024;

/// A path that is removed at the end of its listener, and the capability to remove it.
#[derive(Drop)]
struct Kept<R> {
    path: String,
    rt: R,
}

/// A socket that waits for connections. At its end it removes the path that it was made at.
///
/// Mirrors `vhost::vhost_user::Listener`.
pub struct Listener<R: Files + Drop> {
    socket: UnixListener,
    kept: Option<Kept<R>>,
}

impl<R: Files + Net + Drop> Listener<R> {
    /// Listens at a path; with `unlink`, what is there is removed first, and a failure to do so is ignored.
    ///
    /// OutOfMemory: an allocation failed, and nothing was done. SocketError: the system made no socket there.
    pub fn new(rt: R, alloc: Global, path: &str, unlink: bool) -> Result<Listener<R>>
        ensures { IfErr result IsListenError }
    {
        let Ok(kept) = String::from_str(alloc, path) else {
            return Err(Error::OutOfMemory);
        };
        if unlink {
            let _ = fs::remove_file(&rt, path);
        }
        match UnixListener::bind(&rt, path) {
            Ok(socket) => Ok(Listener {
                socket,
                kept: Some(Kept { path: kept, rt }),
            }),
            Err(error) => Err(Error::SocketError(cause_of(&error))),
        }
    }
}

impl<R: Files + Drop> Listener<R> {
    /// The path that it was made at, and removes at its end.
    pub fn path(&self) -> Option<&str> {
        match &self.kept {
            Some(kept) => Some(kept.path.as_str()),
            None => None,
        }
    }

    /// Accepts the next connection. None: it would have to wait for one, or the other side gave up.
    ///
    /// SocketError: the system failed, or interrupted the call 1024 times (`Raw(EINTR)`).
    pub fn accept(&self) -> Result<Option<UnixLink>>
        ensures { IfErr result IsSocketError }
    {
        for _ in 0..MAX_INTERRUPTIONS {
            match self.socket.accept() {
                Ok((stream, _)) => return Ok(Some(UnixLink::from(stream))),
                Err(error) => match error.kind() {
                    ErrorKind::WouldBlock | ErrorKind::ConnectionAborted => return Ok(None),
                    ErrorKind::Interrupted => {}
                    _ => return Err(Error::SocketError(cause_of(&error))),
                },
            }
        }
        Err(Error::SocketError(IoCause::Raw(EINTR)))
    }

    /// Whether `accept` answers None where it would have to wait.
    ///
    /// SocketError: the system refused.
    pub fn set_nonblocking(&self, nonblocking: bool) -> Result<()>
        ensures { IfErr result IsSocketError }
    {
        match self.socket.set_nonblocking(nonblocking) {
            Ok(()) => Ok(()),
            Err(error) => Err(Error::SocketError(cause_of(&error))),
        }
    }
}

impl<R: Files + Drop> From<UnixListener> for Listener<R> {
    /// It has no path to remove.
    fn from(socket: UnixListener) -> Listener<R> {
        Listener { socket, kept: None }
    }
}

impl<R: Files + Drop> Drop for Listener<R> {
    fn drop(self) {
        let Listener { socket, kept } = self;
        drop(socket);
        if let Some(Kept { path, rt }) = kept {
            let _ = fs::remove_file(&rt, path.as_str());
        }
    }
}
