//! Calls of a side that sends requests, one after another.

ghost use Rattle.std.specs.Prelude.{◌≡◌, true, IfErr};
ghost use Rattle.vhost_backend_req.specs.Asking.{AsksCall};
ghost use Rattle.vhost_backend_req.specs.Channel.{channel};
ghost use Rattle.vhost_frontend.specs.Whole.{Whole};
ghost use Rattle.vhost_frontend_core.specs.Frontend.{endpoint_of};
ghost use Rattle.vhost_message.specs.declared.error.Error.TheVariants.{OutOfMemory};
ghost use Rattle.vhost_message.specs.declared.io_error.IoError.TheVariants.{Of};
ghost use Rattle.vhost_promises.specs.Again.{Repeats};
ghost use Rattle.vhost_protocol.specs.FrontendCall.{GetFeatures, Number};
ghost use Rattle.vhost_protocol.specs.Reverse.{SharedObjectAdd};

use vhost_backend_req::BackendInternal;
use vhost_frontend::{Call, Quiet};
use vhost_link::Link;
use vhost_message::{HandlerResult, Result, VhostUserSharedMsg};

/// Asks a backend for its features so many times, or until that fails. Where the endpoint had its descriptor buffer it has it again
/// after each answer, so no allocation of a call fails.
pub fn asks_again<L: Link>(frontend: &mut Quiet<L>, count: usize) -> Result<()>
    ensures made { Repeats (Whole L.event GetFeatures Number) frontend.old.inner count result frontend.new.inner }
    ensures listed { (endpoint_of frontend.old.inner).list ≡ true → IfErr result (λ e. e ≡ OutOfMemory → ⊥) }
{
    'calls: for _ in 0..count {
        match frontend.number(&Call::GetFeatures) {
            Ok(_) => {}
            Err(error) => return Err(error),
        }
    }
    Ok(())
}

/// The same of a device that announces an object to its frontend.
pub fn adds_again<L: Link>(
    frontend: &mut BackendInternal<L>,
    name: &VhostUserSharedMsg,
    count: usize,
) -> HandlerResult<()>
    ensures made { Repeats (AsksCall L.event (SharedObjectAdd name.now)) (channel frontend.old) count result (channel frontend.new) }
    ensures listed { (channel frontend.old).endpoint.list ≡ true → IfErr result (λ e. e ≡ Of OutOfMemory → ⊥) }
{
    'calls: for _ in 0..count {
        match frontend.shared_object_add(name) {
            Ok(_) => {}
            Err(error) => return Err(error),
        }
    }
    Ok(())
}
