//! A link over a Unix stream socket.

ghost use Rattle.std.specs.Prelude.{◌≡◌, ⊤};
ghost use Rattle.vhost_link.specs.Unix.{IsCauseOf};

use crate::handle::{Handle, Kind};
use crate::law::Link;
use std::io;
use std::io::{ErrorKind, Read, Write};
use std::net::{Net, Shutdown};
use std::os::unix::net::UnixStream;
use vhost_message::IoCause;
use vhost_message::errno::{EACCES, EAGAIN, ECONNRESET, EINTR, EPIPE};

/// How many bytes one receive hands out at most.
const MAX_PIECE: usize = 8192;

/// Why a descriptor cannot travel over a socket.
const NOT_CARRIED: IoCause = IoCause::Named("handles cannot be carried");

/// The descriptors of a link that carries none: nothing makes one.
#[derive(Drop)]
pub struct NoHandle {
    none: (),
}

impl Handle for NoHandle {
    ghost kinds = { λ _ _. ⊤ };

    ghost duplicates = { λ _ _. ⊤ };

    fn kind(&self) -> Result<Kind, IoCause> {
        Err(NOT_CARRIED)
    }

    fn duplicate(&self) -> Result<NoHandle, IoCause> {
        Err(NOT_CARRIED)
    }
}

/// One end of a connection over a Unix stream socket. It carries no descriptors.
#[derive(Drop)]
pub struct UnixLink {
    stream: UnixStream,
}

impl From<UnixStream> for UnixLink {
    ghost from_gives = { λ stream link. link.stream ≡ stream };

    fn from(stream: UnixStream) -> UnixLink {
        UnixLink { stream }
    }
}

impl UnixLink {
    /// Connects to the socket at a path. The error is the system's.
    pub fn connect(rt: &impl Net, path: &str) -> io::Result<UnixLink> {
        Ok(UnixLink::from(UnixStream::connect(rt, path)?))
    }

    /// Ends the stream both ways, for each duplicate too: what waits to receive meets the end. The error is the system's.
    pub fn shutdown(&self) -> io::Result<()> {
        self.stream.shutdown(Shutdown::Both)
    }
}

impl Link for UnixLink {
    ghost use Rattle.std.specs.Prelude.{⊤};
    ghost use Rattle.vhost_link.specs.Unix.{event, duplicates};

    type Handle = NoHandle;

    ghost event = { event };

    ghost duplicates = { λ _ result. duplicates result };

    ghost opens = { λ _ _ _. ⊤ };

    /// Sends as many of the bytes as the system accepts at once.
    fn send(&mut self, bytes: &[u8], handles: &[&NoHandle]) -> Result<usize, IoCause> {
        let [] = handles else {
            return Err(NOT_CARRIED);
        };
        match (&self.stream).write(bytes) {
            Ok(0) => Err(cause_of(&io::Error::from(ErrorKind::WriteZero))),
            Ok(count) => Ok(count),
            Err(error) => Err(cause_of(&error)),
        }
    }

    /// Receives what the system hands out at once.
    fn recv(&mut self, room: &mut [u8], _handles: &mut Vec<NoHandle>) -> Result<usize, IoCause> {
        let mut bytes = [0; MAX_PIECE];
        let most = room.len().min(MAX_PIECE);
        match (&self.stream).read(&mut bytes[..most]) {
            Ok(count) => {
                room[..count].copy_from_slice(&bytes[..count]);
                Ok(count)
            }
            Err(error) => Err(cause_of(&error)),
        }
    }

    /// A duplicate: one more file descriptor of the same socket.
    fn duplicate(&self) -> Result<UnixLink, IoCause> {
        match self.stream.try_clone() {
            Ok(stream) => Ok(UnixLink { stream }),
            Err(error) => Err(cause_of(&error)),
        }
    }

    fn of_handle(&self, _handle: NoHandle) -> Result<UnixLink, IoCause> {
        Err(NOT_CARRIED)
    }
}

/// The cause of an error of the system: its number; without one, the number of its kind, if the protocol tells it apart;
/// else `Named("io error")`.
pub fn cause_of(error: &io::Error) -> IoCause
    ensures { IsCauseOf error.now result }
{
    if let Some(number) = error.raw_os_error() {
        return IoCause::Raw(number);
    }
    match error.kind() {
        ErrorKind::WouldBlock => IoCause::Raw(EAGAIN),
        ErrorKind::Interrupted => IoCause::Raw(EINTR),
        ErrorKind::ConnectionReset => IoCause::Raw(ECONNRESET),
        ErrorKind::BrokenPipe => IoCause::Raw(EPIPE),
        ErrorKind::PermissionDenied => IoCause::Raw(EACCES),
        _ => IoCause::Named("io error"),
    }
}
