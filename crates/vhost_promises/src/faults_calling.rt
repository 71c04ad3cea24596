//! A frontend's call of any kind, over a link in memory that fails.

ghost use Rattle.std.specs.Prelude.{◌≡◌, true, false, Err};
ghost use Rattle.vhost_frontend_core.specs.Frontend.{MayAsk, awaits, endpoint_of};
ghost use Rattle.vhost_frontend_core.specs.Values.{answer_of};
ghost use Rattle.vhost_link.specs.Mem.{event};
ghost use Rattle.vhost_promises.specs.Faults.{MeetsFaultAs};
ghost use Rattle.vhost_protocol.specs.Error.{seen};
ghost use Rattle.vhost_protocol.specs.declared.asked.Awaited.TheVariants.{Nobody};

use vhost_frontend_core::{FrontendAnswer, FrontendCall, FrontendInternal, ask, take};
use vhost_link::MemLink;

/// Makes a call whole. Where the endpoint's last call had met no I/O error, and the endpoint says that it met one now, the answer is the
/// error of the link's last event, and that poisoned the endpoint if a byte of request or reply had moved before, and only then. Nothing is
/// awaited after it if nothing was before.
pub fn meets_fault_calling(
    frontend: &mut FrontendInternal<MemLink>,
    call: &FrontendCall,
) -> FrontendAnswer
    requires { MayAsk frontend.old }
    ensures met { (endpoint_of frontend.old).faulted ≡ false → (endpoint_of frontend.new).faulted ≡ true → MeetsFaultAs event (endpoint_of frontend.old) (λ e. answer_of result ≡ Err (seen e)) (endpoint_of frontend.new) }
    ensures quiet { awaits frontend.old ≡ Nobody → awaits frontend.new ≡ Nobody }
{
    match ask(frontend, call) {
        Ok(Some(sent)) => take(frontend, call, sent),
        Ok(None) => FrontendAnswer::Done,
        Err(error) => FrontendAnswer::Failed(error),
    }
}
