//! A side that sends requests over a poisoned endpoint.

ghost use Rattle.std.specs.Prelude.{◌≡◌, None, Some, true, IfOk, map, codes};
ghost use Rattle.vhost_backend_req.specs.Channel.{channel};
ghost use Rattle.vhost_frontend_core.specs.Frontend.{endpoint_of, session_of};
ghost use Rattle.vhost_gpu_backend_req.specs.Channel.{channel as display_channel};
ghost use Rattle.vhost_message.specs.declared.cause.IoCause.{IoCause};
ghost use Rattle.vhost_message.specs.declared.error.Error.TheVariants.{SocketBroken};
ghost use Rattle.vhost_message.specs.declared.io_error.IoError.TheVariants.{Of};
ghost use Rattle.vhost_promises.specs.Faults.{MeetsFault, StaysBroken};
ghost use Rattle.vhost_protocol.specs.Error.{seen};
ghost use Rattle.vhost_protocol.specs.IoError.{In, seen_io_result};

use std::alloc::{AllocError, Global};
use vhost_backend_req::BackendInternal;
use vhost_frontend::{Call, Quiet};
use vhost_gpu_backend_req::BackendInternal as Display;
use vhost_link::Link;
use vhost_message::{HandlerResult, Result as VhostResult, VhostUserSharedMsg, VhostUserU64};

/// Asks for the features of a backend. Where the endpoint says that it met an I/O error, the answer is the error of the link's last event,
/// and that poisoned the endpoint if a byte of request or reply had moved before, and only then.
pub fn meets_fault_asking<L: Link>(frontend: &mut Quiet<L>) -> VhostResult<u64>
    ensures { (endpoint_of frontend.new.inner).faulted ≡ true → MeetsFault L.event (endpoint_of frontend.old.inner) result (endpoint_of frontend.new.inner) }
{
    frontend.number(&Call::GetFeatures)
}

/// Asks so many times over an endpoint that an I/O error has poisoned and that has its descriptor buffer: each answer is SocketBroken with
/// its cause, and neither the endpoint nor the session changes.
pub fn asks_broken<L: Link>(
    alloc: Global,
    frontend: &mut Quiet<L>,
    count: usize,
) -> Result<Vec<VhostResult<u64>>, AllocError>
    ensures { IfOk result (λ answers. (endpoint_of frontend.old.inner).list ≡ true → (c : IoCause) → (endpoint_of frontend.old.inner).broken ≡ Some c
        → StaysBroken c (SocketBroken c) count (endpoint_of frontend.old.inner) answers.items (endpoint_of frontend.new.inner) × (session_of frontend.new.inner ≡ session_of frontend.old.inner)) }
{
    let mut answers = Vec::new(alloc);
    'calls: for _ in 0..count {
        let answer = frontend.number(&Call::GetFeatures);
        answers.push(answer)?;
    }
    Ok(answers)
}

/// The same of a device that announces an object to its frontend, over a channel that has agreed on objects and is not marked as failed.
pub fn adds_broken<L: Link>(
    alloc: Global,
    frontend: &mut BackendInternal<L>,
    name: &VhostUserSharedMsg,
    count: usize,
) -> Result<Vec<HandlerResult<u64>>, AllocError>
    ensures { IfOk result (λ answers. (channel frontend.old).failed ≡ None → (channel frontend.old).shared_object ≡ true → (channel frontend.old).endpoint.list ≡ true
        → (c : IoCause) → (channel frontend.old).endpoint.broken ≡ Some c
        → StaysBroken c (Of (SocketBroken c)) count (channel frontend.old).endpoint answers.items (channel frontend.new).endpoint
        × (channel frontend.new ≡ record (channel frontend.old) { endpoint = (channel frontend.new).endpoint })) }
{
    let mut answers = Vec::new(alloc);
    'calls: for _ in 0..count {
        let answer = frontend.shared_object_add(name);
        answers.push(answer)?;
    }
    Ok(answers)
}

/// The same of a device that asks a display for its features, over a channel that is not marked as failed.
pub fn displays_broken<L: Link>(
    alloc: Global,
    display: &mut Display<L>,
    count: usize,
) -> Result<Vec<HandlerResult<VhostUserU64>>, AllocError>
    ensures { IfOk result (λ answers. (display_channel display.old).failed ≡ None → (display_channel display.old).endpoint.list ≡ true
        → (c : IoCause) → (display_channel display.old).endpoint.broken ≡ Some c
        → StaysBroken c (In (codes "send_header") (seen (SocketBroken c))) count (display_channel display.old).endpoint (map (λ a. seen_io_result a) answers.items) (display_channel display.new).endpoint
        × ((display_channel display.new).failed ≡ None)) }
{
    let mut answers = Vec::new(alloc);
    'calls: for _ in 0..count {
        let answer = display.get_protocol_features();
        answers.push(answer)?;
    }
    Ok(answers)
}
