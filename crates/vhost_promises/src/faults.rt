//! A handler whose link fails, and what comes after it.

ghost use Rattle.std.specs.Prelude.{◌≡◌, None, Some, true, IfOk};
ghost use Rattle.vhost_backend_req_handler.specs.Core.{endpoint_of, session_in};
ghost use Rattle.vhost_frontend_req_handler.specs.Core.{endpoint_of as endpoint_back, server_in};
ghost use Rattle.vhost_message.specs.declared.cause.IoCause.{IoCause};
ghost use Rattle.vhost_message.specs.declared.error.Error.TheVariants.{SocketBroken};
ghost use Rattle.vhost_promises.specs.Faults.{MeetsFault, StaysBroken};

use std::alloc::Global;
use vhost_backend_req_handler::SessionCore;
use vhost_device::VhostUserBackendReqHandlerMut;
use vhost_frontend_req_handler::{FrontendReqCore, VhostUserFrontendReqHandlerMut};
use vhost_link::Link;
use vhost_message::Result;

/// Serves one request of a frontend. Where the endpoint says that it met an I/O error, the answer is the error of the link's last event,
/// and that poisoned the endpoint if a byte of request or reply had moved before, and only then.
pub fn meets_fault<L: Link, D: VhostUserBackendReqHandlerMut<Link = L>>(
    core: &mut SessionCore<L>,
    device: &mut D,
) -> Result<()>
    ensures { (session_in core.old).failed ≡ None → (endpoint_of core.new).faulted ≡ true → MeetsFault L.event (endpoint_of core.old) result (endpoint_of core.new) }
{
    core.handle_request(device)
}

/// The same of a device's requests to its frontend.
pub fn meets_fault_back<L: Link, D: VhostUserFrontendReqHandlerMut<Handle = L::Handle>>(
    core: &mut FrontendReqCore<L>,
    device: &mut D,
) -> Result<u64>
    ensures { (server_in core.old).failed ≡ None → (endpoint_back core.new).faulted ≡ true → MeetsFault L.event (endpoint_back core.old) result (endpoint_back core.new) }
{
    core.handle_request(device)
}

/// Serves so many requests over an endpoint that an I/O error has poisoned and that has its descriptor buffer: each answer is SocketBroken
/// with its cause, and neither the endpoint nor the session nor the device changes.
pub fn stays_broken<L: Link, D: VhostUserBackendReqHandlerMut<Link = L>>(
    alloc: Global,
    core: &mut SessionCore<L>,
    device: &mut D,
    count: usize,
) -> Result<Vec<Result<()>>>
    ensures { IfOk result (λ answers. (session_in core.old).failed ≡ None → (endpoint_of core.old).list ≡ true → (c : IoCause) → (endpoint_of core.old).broken ≡ Some c
        → StaysBroken c (SocketBroken c) count (endpoint_of core.old) answers.items (endpoint_of core.new) × (session_in core.new ≡ session_in core.old) × (device.new ≡ device.old)) }
{
    let mut answers = Vec::new(alloc);
    core.run(count, device, &mut answers)?;
    Ok(answers)
}

/// The same of a device's requests to its frontend.
pub fn stays_broken_back<L: Link, D: VhostUserFrontendReqHandlerMut<Handle = L::Handle>>(
    alloc: Global,
    core: &mut FrontendReqCore<L>,
    device: &mut D,
    count: usize,
) -> Result<Vec<Result<u64>>>
    ensures { IfOk result (λ answers. (server_in core.old).failed ≡ None → (endpoint_back core.old).list ≡ true → (c : IoCause) → (endpoint_back core.old).broken ≡ Some c
        → StaysBroken c (SocketBroken c) count (endpoint_back core.old) answers.items (endpoint_back core.new) × (server_in core.new ≡ server_in core.old) × (device.new ≡ device.old)) }
{
    let mut answers = Vec::new(alloc);
    core.run(count, device, &mut answers)?;
    Ok(answers)
}
