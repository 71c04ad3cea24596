//! The sessions of both sides as they begin. Each is some kilobytes large, so it is made in a frame of its own.

ghost use Rattle.std.specs.Prelude.{◌≡◌, IfOk, IfErr};
ghost use Rattle.vhost_backend_req_handler.specs.Core.{endpoint_of as serving, session_in};
ghost use Rattle.vhost_connection.specs.State.{fresh};
ghost use Rattle.vhost_frontend_core.specs.Frontend.{endpoint_of as asking, session_of, awaits};
ghost use Rattle.vhost_message.specs.declared.error.Error.TheVariants.{OutOfMemory};
ghost use Rattle.vhost_protocol.specs.FrontendCall.{new_frontend};
ghost use Rattle.vhost_protocol.specs.Session.{fresh as new_session};
ghost use Rattle.vhost_protocol.specs.declared.asked.Awaited.TheVariants.{Nobody};

use std::alloc::Global;
use vhost_backend_req_handler::SessionCore;
use vhost_frontend_core::FrontendInternal;
use vhost_link::MemLink;
use vhost_message::Result;

/// The frontend's session over its end of a link.
///
/// OutOfMemory: an allocation failed.
#[inline(never)]
pub fn new_asking(
    alloc: Global,
    link: MemLink,
    max_queue_num: u64,
    budget: u32,
) -> Result<FrontendInternal<MemLink>>
    ensures endpoint { IfOk result (λ f. asking f ≡ fresh link budget) }
    ensures session { IfOk result (λ f. session_of f ≡ new_frontend max_queue_num) }
    ensures awaited { IfOk result (λ f. awaits f ≡ Nobody) }
    ensures memory { IfErr result (λ e. e ≡ OutOfMemory) }
{
    FrontendInternal::new(alloc, link, max_queue_num, budget)
}

/// The handler's session over its end of a link.
///
/// OutOfMemory: an allocation failed.
#[inline(never)]
pub fn new_serving(alloc: Global, link: MemLink, budget: u32) -> Result<SessionCore<MemLink>>
    ensures endpoint { IfOk result (λ c. serving c ≡ fresh link budget) }
    ensures session { IfOk result (λ c. session_in c ≡ new_session) }
    ensures memory { IfErr result (λ e. e ≡ OutOfMemory) }
{
    SessionCore::new(alloc, link, budget)
}
