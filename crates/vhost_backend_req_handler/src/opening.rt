//! Channels that a file descriptor opens.

ghost use Rattle.std.specs.Prelude.{◌≡◌};
ghost use Rattle.vhost_protocol.specs.Error.{seen_result};
ghost use Rattle.vhost_connection.specs.State.{state};
ghost use Rattle.vhost_backend_req_handler.specs.Calling.{GivesBackend, GivesGpu};
ghost use Rattle.vhost_backend_req_handler.specs.Opening.{OpensAsBackend, OpensAsGpu, OpensLink};

use crate::service::Header;
use std::alloc::Global;
use vhost_backend_req::Backend;
use vhost_connection::Endpoint;
use vhost_device::VhostUserBackendReqHandlerMut;
use vhost_gpu_backend_req::GpuBackend;
use vhost_link::{Handle, Kind, Link};
use vhost_message::{Error, IoCause, Result};

/// Opens a file descriptor as the backend channel, and gives that to the device.
pub(crate) fn give_backend<L: Link, D: VhostUserBackendReqHandlerMut<Link = L>>(
    alloc: Global,
    endpoint: &mut Endpoint<Header, L>,
    device: &mut D,
    file: L::Handle,
) -> Result<()>
    ensures gives { GivesBackend D.gives (λ h o. OpensAsBackend L.opens L.Handle.kinds (state endpoint.old).budget h o) device.old file result device.new }
    ensures same { endpoint.new ≡ endpoint.old }
{
    match open_backend(alloc, endpoint, file) {
        Ok(backend) => {
            device.set_backend_req_fd(backend);
            Ok(())
        }
        Err(error) => Err(error),
    }
}

/// Opens a file descriptor as the vhost-user-gpu channel, and gives that to the device.
pub(crate) fn give_gpu<L: Link, D: VhostUserBackendReqHandlerMut<Link = L>>(
    alloc: Global,
    endpoint: &mut Endpoint<Header, L>,
    device: &mut D,
    file: L::Handle,
) -> Result<()>
    ensures gives { GivesGpu D.gives (λ h o. OpensAsGpu L.opens L.Handle.kinds (state endpoint.old).budget h o) device.old file result device.new }
    ensures same { endpoint.new ≡ endpoint.old }
{
    match open_gpu(alloc, endpoint, file) {
        Ok(gpu) => device.set_gpu_socket(gpu),
        Err(error) => Err(error),
    }
}

/// Opens a file descriptor as the backend channel, with the session's retry limit.
fn open_backend<L: Link>(
    alloc: Global,
    endpoint: &mut Endpoint<Header, L>,
    file: L::Handle,
) -> Result<Backend<L>>
    ensures opened { OpensAsBackend L.opens L.Handle.kinds (state endpoint.old).budget file (seen_result result) }
    ensures same { endpoint.new ≡ endpoint.old }
{
    match open(endpoint, file) {
        Ok(link) => Backend::from_stream(alloc, link, endpoint.budget()),
        Err(error) => Err(error),
    }
}

/// Opens a file descriptor as the vhost-user-gpu channel, with the session's retry limit.
fn open_gpu<L: Link>(
    alloc: Global,
    endpoint: &mut Endpoint<Header, L>,
    file: L::Handle,
) -> Result<GpuBackend<L>>
    ensures opened { OpensAsGpu L.opens L.Handle.kinds (state endpoint.old).budget file (seen_result result) }
    ensures same { endpoint.new ≡ endpoint.old }
{
    match open(endpoint, file) {
        Ok(link) => GpuBackend::from_stream(alloc, link, endpoint.budget()),
        Err(error) => Err(error),
    }
}

/// Opens a file descriptor as a link. InvalidSocketFd, NotUnixSocket, NotStreamSocket: it is no Unix stream socket, or could
/// not be opened.
fn open<L: Link>(endpoint: &mut Endpoint<Header, L>, file: L::Handle) -> Result<L>
    ensures opened { OpensLink L.opens L.Handle.kinds file (seen_result result) }
    ensures same { endpoint.new ≡ endpoint.old }
{
    match file.kind() {
        Ok(Kind::UnixStream) => {}
        Ok(Kind::NoSocket) => {
            return Err(Error::InvalidSocketFd(IoCause::Named("not a socket")));
        }
        Ok(Kind::NotUnix) => return Err(Error::NotUnixSocket),
        Ok(Kind::NotStream) => return Err(Error::NotStreamSocket),
        Err(cause) => return Err(Error::InvalidSocketFd(cause)),
    }
    match endpoint.link().of_handle(file) {
        Ok(link) => Ok(link),
        Err(cause) => Err(Error::InvalidSocketFd(cause)),
    }
}
