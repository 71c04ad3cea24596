//! A frontend that many callers share.

ghost use Rattle.std.specs.Prelude.{IfOk, ◌⊎◌};
ghost use Rattle.vhost_frontend.specs.Whole.{Whole};
ghost use Rattle.vhost_protocol.specs.FrontendCall as call;
ghost use Rattle.vhost_promises.specs.Shared.{FindsSound, HasFailed, OwnAnswer};

use std::sync::Wait;
use vhost_backend::{Result, VhostBackend};
use vhost_frontend::Frontend;
use vhost_link::Link;

/// Asks for the virtio features of the device. Where that succeeds, they were read as the answer to this caller's own request,
/// whatever other callers ask.
pub fn own_features<L: Link>(frontend: &Frontend<L>, rt: &impl Wait) -> Result<u64>
    ensures { IfOk result (λ features. OwnAnswer L.event call.GetFeatures (call.Number features)) }
{
    frontend.get_features(rt)
}

/// Asks for the virtio features of the device. The session that this finds is not poisoned, unless a link has failed: no other caller
/// can have done that.
pub fn finds_sound<L: Link>(frontend: &Frontend<L>, rt: &impl Wait) -> Result<u64>
    ensures { ∥ FindsSound L.event (Whole L.event call.GetFeatures call.Number) result ⊎ HasFailed L.event ∥₁ }
{
    frontend.get_features(rt)
}
