//! Serves a device of one's own at one end of a Unix socket, one request after another.

use crate::device::Device;
use std::io::{Read, Write};
use std::net::Shutdown;
use std::os::unix::net::UnixStream;
use vhost_backend_req_handler::SessionCore;
use vhost_link::UnixLink;

/// The retry limit of each message.
const BUDGET: u32 = 3;

/// What a frontend sends: a request's name, its bytes.
const REQUESTS: [(&str, &[u8]); 5] = [
    ("GET_FEATURES", &[1, 0, 0, 0, 1, 0, 0, 0, 0, 0, 0, 0]),
    ("SET_OWNER", &[3, 0, 0, 0, 1, 0, 0, 0, 0, 0, 0, 0]),
    (
        "SET_FEATURES of bit 0",
        &[2, 0, 0, 0, 1, 0, 0, 0, 8, 0, 0, 0, 1, 0, 0, 0, 0, 0, 0, 0],
    ),
    (
        "SET_FEATURES of bit 1",
        &[2, 0, 0, 0, 1, 0, 0, 0, 8, 0, 0, 0, 2, 0, 0, 0, 0, 0, 0, 0],
    ),
    ("a header cut short", &[3, 0, 0, 0, 1]),
];

/// Writes the requests, and ends the stream.
fn send(frontend: &mut UnixStream) -> anyhow::Result<()> {
    for (_, bytes) in &REQUESTS {
        frontend.write_all(bytes)?;
    }
    Ok(frontend.shutdown(Shutdown::Write)?)
}

/// Serves the requests, and prints how each was answered, and what the device has become.
fn serve(rt: &HostRuntime, session: &mut SessionCore<UnixLink>) -> anyhow::Result<()> {
    let mut device = Device::new();
    for (name, _) in &REQUESTS {
        match session.handle_request(&mut device) {
            Ok(()) => println!(rt; "{name}: served")?,
            Err(error) => println!(rt; "{name}: {error}")?,
        }
    }
    println!(rt; "owned: {}, features: {:#x}", device.owned, device.features)?;
    Ok(())
}

/// Prints the reply to GET_FEATURES.
fn show_reply(rt: &HostRuntime, frontend: &mut UnixStream) -> anyhow::Result<()> {
    let mut reply = [0; 20];
    frontend.read_exact(&mut reply)?;
    println!(rt; "reply: {reply:?}")?;
    Ok(())
}

/// A session over this socket.
fn open(rt: &HostRuntime, socket: UnixStream) -> anyhow::Result<SessionCore<UnixLink>> {
    Ok(SessionCore::new(rt.alloc(), UnixLink::from(socket), BUDGET)?)
}

pub(crate) fn run(rt: &HostRuntime) -> anyhow::Result<()> {
    let (mut frontend, socket) = UnixStream::pair(rt)?;
    send(&mut frontend)?;
    serve(rt, &mut open(rt, socket)?)?;
    show_reply(rt, &mut frontend)
}
