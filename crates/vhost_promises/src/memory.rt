//! Where an ask wants no memory.

ghost use Rattle.std.specs.Prelude.{◌≡◌, ◌≢◌, IfErr, IsOk, IfSome, None, true, false};
ghost use Rattle.vhost_frontend_core.specs.Frontend.{MayAsk, endpoint_of, session_of};
ghost use Rattle.vhost_frontend_core.specs.Halves.{makes_room};
ghost use Rattle.vhost_frontend_core.specs.Values.{call_of};
ghost use Rattle.vhost_message.specs.declared.error.Error.TheVariants.{OutOfMemory};
ghost use Rattle.vhost_promises.specs.Memory.{IsBefore, MakesNoRoom};

use vhost_device::VhostUserBackendReqHandlerMut;
use vhost_frontend_core::{FrontendAnswer, FrontendCall, FrontendInternal, Sent, ask};
use vhost_joined::{Halt, Joined};
use vhost_link::MemLink;
use vhost_message::Result;

/// Asks by value. A call that makes no room for its answer wants no memory where the session has its descriptor buffer.
pub fn asks_without_memory(
    frontend: &mut FrontendInternal<MemLink>,
    call: &FrontendCall,
) -> Result<Option<Sent>>
    requires { MayAsk frontend.old }
    ensures { makes_room (session_of frontend.old) (call_of call.now) ≡ false → (endpoint_of frontend.old).list ≡ true → IfErr result (λ e. e ≢ OutOfMemory) }
{
    ask(frontend, call)
}

/// What two calls became. The second was not done where the run stopped with the first, or a descriptor went either way.
type Both = (
    std::result::Result<FrontendAnswer, Halt>,
    Option<std::result::Result<FrontendAnswer, Halt>>,
);

/// Does two calls of a run that goes on, with nothing on the way and both descriptor buffers there, where neither call makes room for its
/// answer. Each of the two is done: neither wants memory before its first byte.
pub fn steps_without_memory<D: VhostUserBackendReqHandlerMut<Link = MemLink>>(
    joined: &mut Joined<D>,
    first: &FrontendCall,
    second: &FrontendCall,
) -> Both
    ensures first { IsBefore joined.old → MakesNoRoom (call_of first.now) → IsOk result.0 }
    ensures second { IsBefore joined.old → MakesNoRoom (call_of second.now) → IfSome result.1 (λ done. IsOk done) }
{
    let done = joined.step(first);
    if done.is_err() || joined.stopped().is_some() {
        return (done, None);
    }
    if !joined.last_request().1.is_empty() || !joined.last_reply().1.is_empty() {
        return (done, None);
    }
    (done, Some(joined.step(second)))
}
