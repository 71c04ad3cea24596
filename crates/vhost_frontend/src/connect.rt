//! Connecting to a backend over a Unix socket.

ghost use Rattle.std.specs.Prelude.{IfErr};
ghost use Rattle.vhost_connection.specs.Sockets.{IsConnectError};

use crate::frontend::Frontend;
use std::alloc::Global;
use std::io::ErrorKind;
use std::net::Net;
use std::rt::Clock;
use std::thread;
use std::time::Duration;
use vhost_link::{UnixLink, cause_of};
use vhost_message::{Error, Result};

/// How often a refused connection is tried again, and how long after.
const MORE_TRIES: u32 = 5;

const MILLISECONDS_BETWEEN: u64 = 100;

impl Frontend<UnixLink> {
    /// Connects to the socket at a path, for a new session with a backend of at most so many queues and a retry limit for
    /// each message. Where nobody listens yet, it tries up to five times more, after 100 ms each.
    ///
    /// SocketConnect: the system refused, whatever the number. OutOfMemory: an allocation failed.
    pub fn connect(
        rt: &(impl Net + Clock),
        alloc: Global,
        path: &str,
        max_queue_num: u64,
        budget: u32,
    ) -> Result<Self>
        ensures { IfErr result IsConnectError }
    {
        let link = connect_patiently(rt, path)?;
        Frontend::from_stream(alloc, link, max_queue_num, budget)
    }
}

/// A connection to the socket at a path, at the sixth try at last.
fn connect_patiently(rt: &(impl Net + Clock), path: &str) -> Result<UnixLink>
    ensures { IfErr result IsConnectError }
{
    for _ in 0..MORE_TRIES {
        match UnixLink::connect(rt, path) {
            Ok(link) => return Ok(link),
            Err(error) if error.kind() == ErrorKind::ConnectionRefused => {}
            Err(error) => return Err(Error::SocketConnect(cause_of(&error))),
        }
        thread::sleep(rt, Duration::from_millis(MILLISECONDS_BETWEEN));
    }
    match UnixLink::connect(rt, path) {
        Ok(link) => Ok(link),
        Err(error) => Err(Error::SocketConnect(cause_of(&error))),
    }
}
