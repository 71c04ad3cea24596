//! A link over a socket, by itself.

use crate::sockets::device::{BUDGET, Trial, with_device};
use crate::system::System;
use std::alloc::Global;
use std::os::unix::net::UnixStream;
use std::sync::Arc;
use std::test::Fail;
use vhost_backend_req_handler::BackendReqHandler;
use vhost_connection::Endpoint;
use vhost_device::VhostUserBackendReqHandler;
use vhost_link::{Link, NoHandle, UnixLink};
use vhost_message::{FrontendReq, IoCause, MAX_ATTACHED_FD_ENTRIES, VhostUserMsgHeader};

type Header = VhostUserMsgHeader<FrontendReq>;

/// What one receive with so much room answered: how many bytes, or why none.
fn receive(alloc: Global, link: &mut UnixLink, room: &mut [u8]) -> Result<usize, IoCause> {
    if room.is_empty() {
        return Ok(0);
    }
    let Ok(mut handles) = Vec::<NoHandle>::with_capacity(alloc, MAX_ATTACHED_FD_ENTRIES) else {
        return Err(IoCause::Raw(12));
    };
    link.recv(room, &mut handles)
}

/// Five bytes from one link to another: how many went, and came in two parts, and these.
fn carried(
    alloc: Global,
    near: &mut UnixLink,
    far: &mut UnixLink,
) -> ([Option<usize>; 3], [u8; 2], [u8; 3]) {
    let (mut front, mut rest) = ([0u8; 2], [0u8; 3]);
    let sent = near.send(b"hello", &[]).ok();
    let first = receive(alloc, far, &mut front).ok();
    let second = receive(alloc, far, &mut rest).ok();
    ([sent, first, second], front, rest)
}

/// What a link receives and sends whose peer has gone.
fn left_alone(alloc: Global, far: &mut UnixLink) -> [bool; 2] {
    let mut room = [0u8; 3];
    let ended = matches!(receive(alloc, far, &mut room), Ok(0));
    [ended, matches!(far.send(b"x", &[]), Err(IoCause::Raw(32)))]
}

#[test]
fn carries_bytes_and_an_end(rt: HostRuntime) -> Result<(), Fail> {
    let (near, far) = UnixStream::pair(&rt)?;
    let (mut near, mut far) = (UnixLink::from(near), UnixLink::from(far));
    let told = carried(rt.alloc(), &mut near, &mut far);
    drop(near);
    let alone = left_alone(rt.alloc(), &mut far);
    drop(far);
    assert!(rt; told == ([Some(5), Some(2), Some(3)], *b"he", *b"llo"));
    assert!(rt; alone == [true; 2]);
    Ok(())
}

#[test]
fn says_that_it_would_wait(rt: HostRuntime) -> Result<(), Fail> {
    let (near, far) = UnixStream::pair(&rt)?;
    far.set_nonblocking(true)?;
    let mut far = UnixLink::from(far);
    assert!(rt;
        matches!(
            receive(rt.alloc(), &mut far, &mut [0; 4]),
            Err(IoCause::Raw(11))
        )
    );
    drop(near);
    Ok(())
}

#[test]
fn duplicates_share_a_stream(rt: HostRuntime) -> Result<(), Fail> {
    let (near, far) = UnixStream::pair(&rt)?;
    let (near, mut far) = (UnixLink::from(near), UnixLink::from(far));
    let Ok(mut second) = near.duplicate() else {
        return Err(Fail::from("no duplicate"));
    };
    drop(near);
    assert!(rt; matches!(second.send(b"abc", &[]), Ok(3)));
    let mut room = [0u8; 8];
    assert!(rt; matches!(receive(rt.alloc(), &mut far, &mut room), Ok(3)));
    drop(second);
    assert!(rt; matches!(receive(rt.alloc(), &mut far, &mut room), Ok(0)));
    Ok(())
}

/// A duplicate of an endpoint's link; the endpoint itself ends.
fn duplicate_below_endpoint(alloc: Global, link: UnixLink) -> Option<UnixLink> {
    let endpoint = Endpoint::<Header, UnixLink>::from_stream(alloc, link, BUDGET).ok()?;
    endpoint.try_clone_sock().ok()
}

/// A duplicate of a handler's link; the handler itself ends.
#[derive(Drop)]
struct BelowHandler(UnixLink);

impl Trial for BelowHandler {
    type Output = Option<UnixLink>;

    fn on<R: System, S: VhostUserBackendReqHandler<Link = UnixLink>>(
        self,
        rt: &R,
        alloc: Global,
        device: Arc<S, Global>,
    ) -> Option<UnixLink> {
        let BelowHandler(link) = self;
        let handler = BackendReqHandler::from_stream(alloc, link, BUDGET, device).ok()?;
        handler.try_clone_connection().ok()
    }
}

#[test]
fn duplicates_outlive_a_session(rt: HostRuntime) -> Result<(), Fail> {
    let (near, far) = UnixStream::pair(&rt)?;
    let near = duplicate_below_endpoint(rt.alloc(), UnixLink::from(near)).ok_or("no duplicate")?;
    let mut near = with_device(&rt, rt.alloc(), BelowHandler(near))?.ok_or("no duplicate")?;
    assert!(rt; matches!(near.send(b"abc", &[]), Ok(3)));
    let mut room = [0u8; 8];
    assert!(rt;
        matches!(
            receive(rt.alloc(), &mut UnixLink::from(far), &mut room),
            Ok(3)
        )
    );
    Ok(())
}
