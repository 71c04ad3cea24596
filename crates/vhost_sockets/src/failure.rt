//! Why no more sessions could be served.

use std::{fmt, io};
use vhost_message::errno::{ENOBUFS, ENOMEM};
use vhost_message::{Error, IoCause};

/// The numbers of the system's errors: there are too many descriptors in the whole system; in this process.
const ENFILE: i32 = 23;

const EMFILE: i32 = 24;

/// What failed outside of all sessions.
#[derive(Drop)]
pub enum Failure {
    /// The listening socket.
    Listener(Error),
    /// Memory could not be allocated.
    OutOfMemory,
    /// No thread could be started.
    Thread,
    /// The lines could not be written.
    Output(io::Error),
}

impl Failure {
    /// Whether the system only lacks what it may give back later.
    pub(crate) fn may_pass(&self) -> bool {
        matches!(
            self,
            Failure::Listener(Error::SocketError(IoCause::Raw(ENFILE | EMFILE | ENOBUFS | ENOMEM)))
        )
    }
}

impl fmt::Display for Failure {
    fn fmt<W: fmt::Write>(&self, f: &mut fmt::Formatter<W>) -> fmt::Result {
        match self {
            Failure::Listener(error) => write!(f, "no more connections: {error}"),
            Failure::OutOfMemory => f.write_str("out of memory"),
            Failure::Thread => f.write_str("no thread could be started"),
            Failure::Output(error) => write!(f, "the output failed: {error}"),
        }
    }
}
