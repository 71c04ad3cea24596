//! Whole runs of a handler.

ghost use Rattle.std.specs.Prelude.{◌≡◌, None, Some, false, IfOk};
ghost use Rattle.vhost_message.specs.declared.cause.IoCause.{IoCause};
ghost use Rattle.std.specs.List.{list_any};
ghost use Rattle.vhost_backend_req_handler.specs.Core.{endpoint_of, session_in};
ghost use Rattle.vhost_backend_req_handler.specs.Opening.{OpensAsBackend, OpensAsGpu};
ghost use Rattle.vhost_frontend_req_handler.specs.Core.{endpoint_of as endpoint_back, server_in};
ghost use Rattle.vhost_protocol.specs.declared.profile.Profile.TheVariants.{Standard};
ghost use Rattle.vhost_promises.specs.Waiting.{AnswersWaiting};
ghost use Rattle.vhost_promises.specs.Runs.{Unserved, WholeBack, WholeServed, answer_of_link};
ghost use Rattle.vhost_device.specs.Reached.{by_trait};

use std::alloc::Global;
use vhost_backend_req_handler::SessionCore;
use vhost_device::VhostUserBackendReqHandlerMut;
use vhost_frontend_req_handler::{FrontendReqCore, VhostUserFrontendReqHandlerMut};
use vhost_link::Link;
use vhost_message::Result;

/// Serves so many requests of a frontend. Where none of the answers is an error that a link or a failed allocation may bring, they, what
/// was received and what was written are a run of the protocol table, over every device and every link.
pub fn serves_whole<L: Link, D: VhostUserBackendReqHandlerMut<Link = L>>(
    alloc: Global,
    core: &mut SessionCore<L>,
    device: &mut D,
    count: usize,
) -> Result<Vec<Result<()>>>
    ensures { IfOk result (λ answers. list_any answer_of_link answers.items ≡ false →
        WholeServed L.event (by_trait D.gives) (λ h o. OpensAsBackend L.opens L.Handle.kinds (endpoint_of core.old).budget h o) (λ h o. OpensAsGpu L.opens L.Handle.kinds (endpoint_of core.old).budget h o) (endpoint_of core.old) (session_in core.old) device.old count answers.items (endpoint_of core.new) (session_in core.new) device.new) }
{
    let mut answers = Vec::new(alloc);
    core.run(count, device, &mut answers)?;
    Ok(answers)
}

/// Under Standard serves so many requests of a frontend. Where none of the answers is an error that a link or a failed allocation may
/// bring, whoever waited was answered, once, or the session has ended, over every device and every link; and nobody else was answered.
pub fn answers_whoever_waits<L: Link, D: VhostUserBackendReqHandlerMut<Link = L>>(
    alloc: Global,
    core: &mut SessionCore<L>,
    device: &mut D,
    count: usize,
) -> Result<Vec<Result<()>>>
    ensures { IfOk result (λ answers. list_any answer_of_link answers.items ≡ false → (session_in core.old).profile ≡ Standard →
        AnswersWaiting L.event (endpoint_of core.old) (session_in core.old) count answers.items (endpoint_of core.new) (session_in core.new)) }
{
    serves_whole(alloc, core, device, count)
}

/// The same of a device's requests to its frontend.
pub fn serves_whole_back<L: Link, D: VhostUserFrontendReqHandlerMut<Handle = L::Handle>>(
    alloc: Global,
    core: &mut FrontendReqCore<L>,
    device: &mut D,
    count: usize,
) -> Result<Vec<Result<u64>>>
    ensures { IfOk result (λ answers. list_any answer_of_link answers.items ≡ false →
        WholeBack L.event D.gives (endpoint_back core.old) (server_in core.old) device.old count answers.items (endpoint_back core.new) (server_in core.new) device.new) }
{
    let mut answers = Vec::new(alloc);
    core.run(count, device, &mut answers)?;
    Ok(answers)
}

/// Serves one request of a frontend, of a session that is not marked as failed. Where its endpoint is poisoned, the answer says why,
/// and neither the session nor the device has changed.
pub fn serves_no_broken<L: Link, D: VhostUserBackendReqHandlerMut<Link = L>>(
    core: &mut SessionCore<L>,
    device: &mut D,
) -> Result<()>
    ensures { (session_in core.old).failed ≡ None → (c : IoCause) → (endpoint_of core.old).broken ≡ Some c
        → Unserved (endpoint_of core.old) (session_in core.old) device.old c result (endpoint_of core.new) (session_in core.new) device.new }
{
    core.handle_request(device)
}

/// The same of a device's requests to its frontend.
pub fn serves_no_broken_back<L: Link, D: VhostUserFrontendReqHandlerMut<Handle = L::Handle>>(
    core: &mut FrontendReqCore<L>,
    device: &mut D,
) -> Result<u64>
    ensures { (server_in core.old).failed ≡ None → (c : IoCause) → (endpoint_back core.old).broken ≡ Some c
        → Unserved (endpoint_back core.old) (server_in core.old) device.old c result (endpoint_back core.new) (server_in core.new) device.new }
{
    core.handle_request(device)
}
