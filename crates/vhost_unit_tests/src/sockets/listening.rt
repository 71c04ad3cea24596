//! Listening, and handing a device out.

use crate::sockets::device::{BUDGET, QUEUES, TOO_LONG, Trial, with_device};
use crate::sockets::outcome::{Outcome, outcome_if_any, outcome_of, outcome_of_error};
use crate::system::System;
use std::alloc::Global;
use std::fs;
use std::fs::Files;
use std::net::Net;
use std::os::unix::net::{UnixListener, UnixStream};
use std::sync::{Arc, Wait};
use std::test::Fail;
use std::time::Clock;
use vhost_backend::VhostBackend;
use vhost_backend_req_handler::{BackendListener, BackendReqHandler};
use vhost_connection::Listener;
use vhost_device::VhostUserBackendReqHandler;
use vhost_frontend::Frontend;
use vhost_link::UnixLink;
use vhost_message::{Error, Result as Answer};

/// How one call of `accept` goes.
fn accept<F: Files + Drop, S: VhostUserBackendReqHandler<Link = UnixLink>>(
    backend: &mut BackendListener<F, S>,
) -> Outcome {
    match backend.accept() {
        Ok(Some(_)) => Outcome::Given,
        Ok(None) => Outcome::Nothing,
        Err(error) => outcome_of_error(error),
    }
}

/// What four calls of `accept` answered, where a connection comes after the second, and another after the third.
fn accept_four<R: Net + Clock, F: Files + Drop, S: VhostUserBackendReqHandler<Link = UnixLink>>(
    rt: &R,
    alloc: Global,
    listener: &mut Listener<F>,
    path: &str,
    device: Arc<S, Global>,
) -> Answer<[Outcome; 4]> {
    let mut backend = BackendListener::new(alloc, listener, device, BUDGET)?;
    backend.set_nonblocking(true)?;
    let first = accept(&mut backend);
    let second = accept(&mut backend);
    let _near = Frontend::connect(rt, alloc, path, QUEUES, BUDGET);
    let third = accept(&mut backend);
    let _far = UnixStream::connect(rt, path);
    Ok([first, second, third, accept(&mut backend)])
}

/// Four calls of `accept`, and then two of the listener below.
#[derive(Drop)]
struct Accepting<'a>(&'a str);

impl<'a> Trial for Accepting<'a> {
    type Output = Answer<([Outcome; 4], [Outcome; 2])>;

    fn on<R: System, S: VhostUserBackendReqHandler<Link = UnixLink>>(
        self,
        rt: &R,
        alloc: Global,
        device: Arc<S, Global>,
    ) -> Self::Output {
        let mut listener = Listener::new(rt, alloc, self.0, false)?;
        let told = accept_four(rt, alloc, &mut listener, self.0, device)?;
        Ok((told, accept_two(&listener)))
    }
}

/// What two more calls of `accept` answer.
fn accept_two<F: Files + Drop>(listener: &Listener<F>) -> [Outcome; 2] {
    [
        outcome_if_any(listener.accept()),
        outcome_if_any(listener.accept()),
    ]
}

#[test]
fn hands_the_device_out_once(rt: HostRuntime) -> Result<(), Fail> {
    let (told, later) = with_device(&rt, rt.alloc(), Accepting("once.sock"))??;
    assert!(rt;
        told == [
            Outcome::Nothing,
            Outcome::Nothing,
            Outcome::Given,
            Outcome::HandedOut
        ]
    );
    // The second connection was not accepted: it still waits, and no other.
    assert!(rt; later == [Outcome::Given, Outcome::Nothing]);
    Ok(())
}

/// A frontend over the connection that waits.
fn connected<F: Files + Drop>(alloc: Global, listener: &Listener<F>) -> Answer<Frontend<UnixLink>> {
    match listener.accept()? {
        Some(link) => Frontend::from_stream(alloc, link, QUEUES, BUDGET),
        None => Err(Error::Disconnected),
    }
}

/// A frontend sets its owner, a device that connected to it serves the request, and the frontend ends: what the frontend's
/// call answered, and the two calls of the handler.
fn own_once<R: Net + Wait, F: Files + Drop, S: VhostUserBackendReqHandler<Link = UnixLink>>(
    rt: &R,
    alloc: Global,
    listener: &Listener<F>,
    path: &str,
    device: Arc<S, Global>,
) -> Answer<(bool, Answer<()>, Answer<()>)> {
    let mut handler = BackendReqHandler::connect(rt, alloc, path, BUDGET, device)?;
    let frontend = connected(alloc, listener)?;
    let asked = frontend.set_owner(rt).is_ok();
    let served = handler.handle_request(rt);
    drop(frontend);
    Ok((asked, served, handler.handle_request(rt)))
}

/// A device that connects serves one request.
#[derive(Drop)]
struct Owning<'a>(&'a str);

impl<'a> Trial for Owning<'a> {
    type Output = Answer<(bool, Answer<()>, Answer<()>)>;

    fn on<R: System, S: VhostUserBackendReqHandler<Link = UnixLink>>(
        self,
        rt: &R,
        alloc: Global,
        device: Arc<S, Global>,
    ) -> Self::Output {
        let listener = Listener::new(rt, alloc, self.0, false)?;
        own_once(rt, alloc, &listener, self.0, device)
    }
}

#[test]
fn serves_where_the_device_connects(rt: HostRuntime) -> Result<(), Fail> {
    let (asked, served, last) = with_device(&rt, rt.alloc(), Owning("device.sock"))??;
    assert!(rt; asked);
    assert!(rt; served.is_ok());
    assert!(rt; matches!(last, Err(Error::Disconnected)));
    Ok(())
}

/// How listening at a path went, where the listener ends at once.
fn listen_at(rt: &HostRuntime, path: &str, unlink: bool) -> Outcome {
    outcome_of(Listener::new(rt, rt.alloc(), path, unlink))
}

#[test]
fn takes_a_left_over_path_over(rt: HostRuntime) -> Result<(), Fail> {
    let path = "over.sock";
    drop(UnixListener::bind(&rt, path)?);
    assert!(rt; listen_at(&rt, path, false) == Outcome::Socket(98));
    assert!(rt; fs::exists(&rt, path)?);
    assert!(rt; listen_at(&rt, path, true) == Outcome::Given);
    assert!(rt; !fs::exists(&rt, path)?);
    Ok(())
}

/// Whether a listener reports the path that it was made at.
fn tells_its_path(rt: &HostRuntime, path: &str) -> bool {
    match Listener::new(rt, rt.alloc(), path, false) {
        Ok(listener) => listener.path() == Some(path),
        Err(_) => false,
    }
}

#[test]
fn tells_where_it_listens(rt: HostRuntime) {
    assert!(rt; tells_its_path(&rt, "told.sock"));
}

/// How an `accept` of a listener went that has no path.
fn accept_without_path<F: Files + Drop>(listener: &Listener<F>) -> Outcome {
    match (listener.path(), listener.set_nonblocking(true)) {
        (None, Ok(())) => outcome_if_any(listener.accept()),
        _ => Outcome::Other,
    }
}

#[test]
fn leaves_the_path_that_it_was_not_made_at(rt: HostRuntime) -> Result<(), Fail> {
    let path = "kept.sock";
    let socket = UnixListener::bind(&rt, path)?;
    let listener: Listener<&HostRuntime> = Listener::from(socket);
    assert!(rt; accept_without_path(&listener) == Outcome::Nothing);
    fs::remove_file(&rt, path)?;
    Ok(())
}

/// Where nothing may be left behind.
const FOLDER: &str = "nothing_here";

#[test]
fn listens_at_no_such_path(rt: HostRuntime) -> Result<(), Fail> {
    fs::create_dir(&rt, FOLDER)?;
    for (path, want) in [
        (TOO_LONG, Outcome::SocketUnnumbered),
        ("nothing_here/a\0zero.sock", Outcome::SocketUnnumbered),
        ("nothing_here/no_folder/a.sock", Outcome::Socket(2)),
    ] {
        assert!(rt; listen_at(&rt, path, true) == want);
    }
    fs::remove_dir(&rt, FOLDER)?;
    Ok(())
}
