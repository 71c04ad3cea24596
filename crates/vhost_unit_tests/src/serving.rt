//! Gates that end sessions, and that hold one. What else a daemon does at a socket, `./test daemon` shows.

use std::io::{Read, Write};
use std::net::Net;
use std::os::unix::net::UnixStream;
use std::sync::atomic::{AtomicBool, Ordering};
use std::test::Fail;
use std::time::Duration;
use std::{io, thread};
use vhost_backend_req_handler::Gate;
use vhost_connection::Listener;
use vhost_sockets::serve;

/// GET_FEATURES, and the length of its reply.
static GET_FEATURES: [u8; 12] = [1, 0, 0, 0, 1, 0, 0, 0, 0, 0, 0, 0];

const REPLY: usize = 20;

/// Ends the second session before its first request, and the first before its third.
#[derive(Drop)]
struct Closing;

impl Gate for Closing {
    fn before(&self, session: u32, request: u32) -> bool {
        session != 2 && request < 3
    }

    fn after(&self, _session: u32, _request: u32) {}
}

/// Connects, asks twice, and receives both replies.
fn ask_twice(rt: &impl Net, path: &str) -> io::Result<()> {
    let mut stream = UnixStream::connect(rt, path)?;
    stream.write_all(&GET_FEATURES)?;
    stream.write_all(&GET_FEATURES)?;
    stream.read_exact(&mut [0; 2 * REPLY])
}

#[test]
fn ended_by_the_gate(rt: HostRuntime) -> Result<(), Fail> {
    let path = "ended_by_the_gate.sock";
    let mut listener = Listener::new(&rt, rt.alloc(), path, true)?;
    let (mut output, mut errors) = (Vec::new(rt.alloc()), Vec::new(rt.alloc()));
    let (status, clients) = thread::join(
        &rt,
        || serve(
            &rt,
            rt.alloc(),
            &mut listener,
            2,
            &Closing,
            &mut output,
            &mut errors,
        ),
        || -> io::Result<()> {
            ask_twice(&rt, path)?;
            drop(UnixStream::connect(&rt, path)?);
            Ok(())
        },
    );
    clients?;
    let lines = "session 1: 2 requests, end Gate\nsession 2: 0 requests, end Gate\n";
    assert!(rt; status == 0 && output.as_slice() == lines.as_bytes());
    Ok(())
}

/// Holds the first session until the second was answered, and ends it where that does not come.
struct Held<'a> {
    rt: &'a HostRuntime,
    answered: AtomicBool,
}

impl<'a> Drop for Held<'a> {
    fn drop(self) {
        let Held { rt: _, answered: _ } = self;
    }
}

impl<'a> Gate for Held<'a> {
    fn before(&self, session: u32, _request: u32) -> bool {
        if session != 1 {
            return true;
        }
        for _ in 0..1_000_000 {
            if self.answered.load(Ordering::SeqCst) {
                return true;
            }
            thread::sleep(self.rt, Duration::from_micros(10));
        }
        false
    }

    fn after(&self, session: u32, _request: u32) {
        if session == 2 {
            self.answered.store(true, Ordering::SeqCst);
        }
    }
}

/// Connects twice; the second client is answered before the first asks.
fn ask_second_first(rt: &impl Net, path: &str) -> io::Result<()> {
    let mut first = UnixStream::connect(rt, path)?;
    let mut second = UnixStream::connect(rt, path)?;
    first.write_all(&GET_FEATURES)?;
    second.write_all(&GET_FEATURES)?;
    second.read_exact(&mut [0; REPLY])?;
    first.read_exact(&mut [0; REPLY])
}

#[test]
fn side_by_side(rt: HostRuntime) -> Result<(), Fail> {
    let path = "side_by_side.sock";
    let mut listener = Listener::new(&rt, rt.alloc(), path, true)?;
    let gate = Held {
        rt: &rt,
        answered: AtomicBool::new(false),
    };
    let (mut output, mut errors) = (Vec::new(rt.alloc()), Vec::new(rt.alloc()));
    let (status, clients) = thread::join(
        &rt,
        || serve(
            &rt,
            rt.alloc(),
            &mut listener,
            2,
            &gate,
            &mut output,
            &mut errors,
        ),
        || ask_second_first(&rt, path),
    );
    clients?;
    let lines =
        "session 1: 1 requests, end Disconnected\nsession 2: 1 requests, end Disconnected\n";
    assert!(rt; status == 0 && output.as_slice() == lines.as_bytes());
    Ok(())
}
