//! Clones of one frontend in threads of their own, served in another, over a ring of the least size.

use std::alloc::Global;
use std::sync::{Arc, Wait};
use std::test::Fail;
use std::thread::{Threads, join};
use vhost_backend::VhostBackend;
use vhost_backend_req_handler::SessionCore;
use vhost_device::VhostUserBackendReqHandlerMut;
use vhost_dummy_backend::DummyBackendReqHandler;
use vhost_frontend::Frontend;
use vhost_link::{Hub, Link, PlainHandle, SharedLink};
use vhost_message::{Error, MAX_ATTACHED_FD_ENTRIES};

/// How many retries a message may use: a ring is full until the other side has received.
const BUDGET: u32 = u32::MAX;

/// How often each clone asks.
const CALLS: u32 = 100;

/// How often a frontend reads these features, of so many calls.
fn reads<F: VhostBackend>(frontend: &F, rt: &impl Wait) -> u32 {
    let mut read: u32 = 0;
    for _ in 0..CALLS {
        if matches!(frontend.get_features(rt), Ok(0x4000_0003)) {
            read = read.wrapping_add(1);
        }
    }
    read
}

/// How often four clones of a frontend read these features, each in a thread of its own.
fn read_by_four<R: Threads + Wait + Sync>(
    rt: &R,
    alloc: Global,
    link: SharedLink<&R>,
) -> Option<u32> {
    let frontend = Frontend::from_stream(alloc, link, 2, BUDGET).ok()?;
    let shared = &frontend;
    let first = frontend.clone().ok()?;
    let second = frontend.clone().ok()?;
    let third = frontend.clone().ok()?;
    let (front, back) = join(
        rt,
        || join(rt, || reads(shared, rt), || reads(&first, rt)),
        || join(rt, || reads(&second, rt), || reads(&third, rt)),
    );
    Some(
        front
            .0
            .wrapping_add(front.1)
            .wrapping_add(back.0)
            .wrapping_add(back.1),
    )
}

/// Serves a frontend until it is gone, or a request is refused; why it ended.
fn serve_with<L: Link, D: VhostUserBackendReqHandlerMut<Link = L>>(
    link: L,
    alloc: Global,
    mut device: D,
) -> Result<(), Error> {
    let mut core = SessionCore::new(alloc, link, BUDGET)?;
    for _i in 0..1_000u32 {
        core.handle_request(&mut device)?;
    }
    Ok(())
}

/// The same over an example device.
fn serve<L: Link<Handle = PlainHandle>>(link: L, alloc: Global) -> Result<(), Error> {
    serve_with(
        link,
        alloc,
        DummyBackendReqHandler::new(alloc, Vec::new(alloc)),
    )
}

#[test]
fn four_clones(rt: HostRuntime) -> Result<(), Fail> {
    let hub = Arc::new(rt.alloc(), Hub::new(rt.alloc()))?;
    let (near, far) = SharedLink::pair(&rt, rt.alloc(), &hub, MAX_ATTACHED_FD_ENTRIES + 1)?;
    let (read, end) = join(
        &rt,
        || read_by_four(&rt, rt.alloc(), near),
        || serve(far, rt.alloc()),
    );
    assert!(rt; read == Some(400));
    assert!(rt; matches!(end, Err(Error::Disconnected)));
    Ok(())
}
