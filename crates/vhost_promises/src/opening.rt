//! The channel that a request opens.

ghost use Rattle.std.specs.Prelude.{◌≡◌, None, IfOk};
ghost use Rattle.vhost_backend_req_handler.specs.Core.{endpoint_of, session_in};
ghost use Rattle.vhost_promises.specs.Opening.{OpensItsOwn};
ghost use Rattle.vhost_device.specs.Reached.{by_trait};

use vhost_backend_req_handler::SessionCore;
use vhost_device::VhostUserBackendReqHandlerMut;
use vhost_link::Link;
use vhost_message::Result;

/// Serves one request of a frontend, of a session that is not marked as failed. Where it succeeds and asks for the backend channel,
/// the device was given a channel over the link that the request's one file descriptor was opened as, with the session's retry limit.
pub fn opens_its_own<L: Link, D: VhostUserBackendReqHandlerMut<Link = L>>(
    core: &mut SessionCore<L>,
    device: &mut D,
) -> Result<()>
    ensures { (session_in core.old).failed ≡ None → IfOk result (λ _. OpensItsOwn L.opens L.Handle.kinds (by_trait D.gives) L.event (session_in core.old) (endpoint_of core.old) device.old device.new) }
{
    core.handle_request(device)
}
