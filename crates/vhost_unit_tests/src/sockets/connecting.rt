//! Connecting.

use crate::sockets::device::{BUDGET, QUEUES, TOO_LONG, Trial, with_device};
use crate::sockets::outcome::{Outcome, outcome_of, outcome_of_error};
use crate::system::System;
use std::alloc::Global;
use std::cell::Cell;
use std::net::{Net, SocketAddr, TcpListener, TcpStream};
use std::os::unix::net::{SocketAddr as UnixAddr, UnixListener, UnixStream};
use std::rt::Clock;
use std::sync::Arc;
use std::test::Fail;
use std::time::{Duration, Instant};
use std::{fs, io};
use vhost_backend_req_handler::BackendReqHandler;
use vhost_connection::Endpoint;
use vhost_device::VhostUserBackendReqHandler;
use vhost_frontend::Frontend;
use vhost_link::UnixLink;
use vhost_message::{FrontendReq, VhostUserMsgHeader};

type Header = VhostUserMsgHeader<FrontendReq>;

/// A system that refuses the first connections with this number, and only counts the time that is slept.
#[derive(Drop)]
struct Busy<'a> {
    rt: &'a HostRuntime,
    refused: u32,
    number: i32,
    tries: Cell<u32>,
    slept: Cell<Duration>,
}

impl<'a> Net for Busy<'a> {
    type Stream = TcpStream;

    type Listener = TcpListener;

    fn bind(&self, _addr: SocketAddr) -> io::Result<TcpListener> {
        Err(io::Error::from(io::ErrorKind::Unsupported))
    }

    fn connect(&self, _addr: SocketAddr) -> io::Result<TcpStream> {
        Err(io::Error::from(io::ErrorKind::Unsupported))
    }

    fn connect_unix(&self, addr: &UnixAddr) -> io::Result<UnixStream> {
        self.tries.set(self.tries.get().saturating_add(1));
        if self.tries.get() <= self.refused {
            return Err(io::Error::from_raw_os_error(self.number));
        }
        self.rt.connect_unix(addr)
    }
}

impl<'a> Clock for Busy<'a> {
    fn monotonic(&self) -> io::Result<Duration> {
        self.rt.monotonic()
    }

    fn since_1970(&self) -> io::Result<Duration> {
        self.rt.since_1970()
    }

    fn sleep(&self, duration: Duration) {
        self.slept.set(self.slept.get().saturating_add(duration));
    }
}

/// What connecting to a system that refuses so often answered, how often it tried, and how long it slept.
fn connect_at(rt: &HostRuntime, path: &str, refused: u32, number: i32) -> (Outcome, u32, Duration) {
    let system = Busy {
        rt,
        refused,
        number,
        tries: Cell::new(0),
        slept: Cell::new(Duration::from_millis(0)),
    };
    let told = outcome_of(Frontend::connect(&system, rt.alloc(), path, QUEUES, BUDGET));
    (told, system.tries.get(), system.slept.get())
}

#[test]
fn tries_until_somebody_listens(rt: HostRuntime) -> Result<(), Fail> {
    let path = "until.sock";
    let _listener = UnixListener::bind(&rt, path)?;
    let told = [
        connect_at(&rt, path, 0, 111),
        connect_at(&rt, path, 3, 111),
        connect_at(&rt, path, 5, 111),
    ];
    fs::remove_file(&rt, path)?;
    let want = [
        (Outcome::Given, 1, Duration::from_millis(0)),
        (Outcome::Given, 4, Duration::from_millis(300)),
        (Outcome::Given, 6, Duration::from_millis(500)),
    ];
    assert!(rt; told == want);
    Ok(())
}

#[test]
fn gives_up_after_six_tries(rt: HostRuntime) {
    let (told, tries, waited) = connect_at(&rt, "never.sock", 7, 111);
    let want = (Outcome::Connect(111), 6, Duration::from_millis(500));
    assert!(rt; (told, tries, waited) == want);
}

#[test]
fn tries_once_where_it_fails_otherwise(rt: HostRuntime) {
    for number in [2, 4, 11, 13, 32, 104] {
        let (told, tries, _) = connect_at(&rt, "other.sock", 1, number);
        assert!(rt; (told, tries) == (Outcome::Connect(number), 1));
    }
}

#[test]
fn nobody_listens_on_a_left_over_path(rt: HostRuntime) -> Result<(), Fail> {
    let path = "left.sock";
    drop(UnixListener::bind(&rt, path)?);
    let start = Instant::now(&rt)?;
    assert!(rt; frontend_at(&rt, path) == Outcome::Connect(111));
    assert!(rt; start.elapsed(&rt)? >= Duration::from_millis(500));
    fs::remove_file(&rt, path)?;
    Ok(())
}

fn endpoint_at(rt: &HostRuntime, path: &str) -> Outcome {
    outcome_of(Endpoint::<Header, UnixLink>::connect(rt, rt.alloc(), path, BUDGET))
}

/// A handler connects to a path.
#[derive(Drop)]
struct Connecting<'a>(&'a str);

impl<'a> Trial for Connecting<'a> {
    type Output = Outcome;

    fn on<R: System, S: VhostUserBackendReqHandler<Link = UnixLink>>(
        self,
        rt: &R,
        alloc: Global,
        device: Arc<S, Global>,
    ) -> Outcome {
        match BackendReqHandler::connect(rt, alloc, self.0, BUDGET, device) {
            Ok(_) => Outcome::Given,
            Err(error) => outcome_of_error(error),
        }
    }
}

fn frontend_at(rt: &HostRuntime, path: &str) -> Outcome {
    outcome_of(Frontend::connect(rt, rt.alloc(), path, QUEUES, BUDGET))
}

#[test]
fn no_way_leads_to_no_socket(rt: HostRuntime) -> Result<(), Fail> {
    for (path, want) in [
        ("no_such.sock", Outcome::Connect(2)),
        (TOO_LONG, Outcome::ConnectUnnumbered),
        ("a\0zero.sock", Outcome::ConnectUnnumbered),
    ] {
        assert!(rt; endpoint_at(&rt, path) == want);
        assert!(rt; with_device(&rt, rt.alloc(), Connecting(path))? == want);
        assert!(rt; frontend_at(&rt, path) == want);
    }
    Ok(())
}
