//! Whether a process has the socket at a path, which it does not notice.

ghost use Rattle.std.specs.Prelude.{◌+◌, ◌≤◌, length, IfOk};

use libc::net as c;
use os::FromRawFd;
use std::io;
use std::net::Net;
use std::os::fd::{AsRawFd, OwnedFd};

/// Where the path starts in an address, after the family, and how many bytes it may have, a zero after it among them.
const PATH_AT: usize = 2;

const PATH_SIZE: usize = 108;

/// The numbers of the system's errors: the socket is of another type; nobody has it.
const EPROTOTYPE: i32 = 91;

const ECONNREFUSED: i32 = 111;

/// Whether a process has the socket at a path. It is asked for as a datagram socket: one that takes streams is of another type, and the system
/// refuses that before the process could notice; a full queue of connections is not waited for either.
///
/// The error is the system's.
pub(crate) fn is_bound<R: Net>(_rt: &R, path: &str) -> io::Result<bool> {
    let socket = datagram()?;
    let (address, len) = address_of(path.as_bytes())?;
    if unsafe { c::connect(socket.as_raw_fd(), &address, len) } == 0 {
        return Ok(true);
    }
    match os::errno() {
        ECONNREFUSED => Ok(false),
        EPROTOTYPE => Ok(true),
        number => Err(io::Error::from_raw_os_error(number)),
    }
}

/// A datagram socket.
fn datagram() -> io::Result<OwnedFd> {
    let made = unsafe { c::socket(c::AF_UNIX, c::SOCK_DGRAM | c::SOCK_CLOEXEC, 0) };
    if made < 0 {
        return Err(io::Error::from_raw_os_error(os::errno()));
    }
    Ok(unsafe { OwnedFd::from_raw_fd(made) })
}

/// The address of a path: its bytes, and how many they are.
fn address_of(path: &[u8]) -> io::Result<([u8; c::_SS_SIZE], u32)>
    ensures { IfOk result (λ r. r.1 ≤ 128) }
{
    if path.len() >= PATH_SIZE {
        return Err(io::Error::from(io::ErrorKind::InvalidInput));
    }
    let mut raw = [0u8; c::_SS_SIZE];
    raw[..PATH_AT].copy_from_slice(&(c::AF_UNIX as u16).to_ne_bytes());
    raw[PATH_AT..PATH_AT + path.len()].copy_from_slice(path);
    Ok((raw, (PATH_AT + path.len() + 1) as u32))
}
