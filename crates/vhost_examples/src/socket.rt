//! Serves a device of one's own at a Unix socket in one thread, and asks it as a VMM does from another. `main` starts both.

use crate::device::Device;
use std::alloc::Global;
use std::net::Net;
use std::rt::{Clock, Files};
use std::sync::{Arc, Mutex, Wait};
use vhost_backend::VhostBackend;
use vhost_backend_req_handler::{BackendListener, BackendReqHandler};
use vhost_connection::Listener;
use vhost_device::VhostUserBackendReqHandler;
use vhost_frontend::{Frontend, VhostUserFrontend};
use vhost_link::UnixLink;
use vhost_message::{Error, Result, VhostUserProtocolFeatures};

/// Where the backend listens.
pub(crate) const PATH: &str = "device.sock";

/// How many rings the frontend has at first, and the retry limit of each message.
const RINGS: u64 = 1;

const BUDGET: u32 = 3;

/// Serves the first frontend that connects until it ends the session; how many requests that were. The listener ends with
/// it, so that nobody waits for an answer any more.
pub(crate) fn serve<R: Files + Drop>(
    rt: &impl Wait,
    alloc: Global,
    mut listener: Listener<R>,
) -> Result<u64> {
    serve_device(rt, alloc, &mut listener, Mutex::new(Device::new()))
}

/// Serves this device to the first frontend that connects.
fn serve_device<R: Files + Drop, D: VhostUserBackendReqHandler<Link = UnixLink>>(
    rt: &impl Wait,
    alloc: Global,
    listener: &mut Listener<R>,
    device: D,
) -> Result<u64> {
    let Ok(device) = Arc::new(alloc, device) else {
        return Err(Error::OutOfMemory);
    };
    let mut backend = BackendListener::new(alloc, listener, device, BUDGET)?;
    serve_first(rt, &mut backend)
}

/// Serves the first frontend that connects. None is there where it gave up before it was accepted.
fn serve_first<R: Files + Drop, D: VhostUserBackendReqHandler<Link = UnixLink>>(
    rt: &impl Wait,
    backend: &mut BackendListener<'_, R, D>,
) -> Result<u64> {
    match backend.accept()? {
        Some(mut handler) => serve_all(rt, &mut handler),
        None => Ok(0),
    }
}

/// Serves requests until the frontend is gone.
fn serve_all<D: VhostUserBackendReqHandler<Link = UnixLink>>(
    rt: &impl Wait,
    handler: &mut BackendReqHandler<UnixLink, D>,
) -> Result<u64> {
    for served in 0..u64::MAX {
        match handler.handle_request(rt) {
            Ok(()) => {}
            Err(Error::Disconnected) => return Ok(served),
            Err(error) => return Err(error),
        }
    }
    Ok(u64::MAX)
}

/// Connects, and asks for the backend's features and for how many rings it has.
pub(crate) fn ask(
    rt: &(impl Net + Clock + Wait),
    alloc: Global,
) -> vhost_backend::Result<(u64, u64)> {
    let mut frontend = Frontend::connect(rt, alloc, PATH, RINGS, BUDGET)?;
    let features = frontend.get_features(rt)?;
    frontend.set_protocol_features(rt, VhostUserProtocolFeatures::MQ)?;
    Ok((features, frontend.get_queue_num(rt)?))
}
