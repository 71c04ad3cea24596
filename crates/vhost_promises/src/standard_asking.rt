//! A frontend's calls under the profile Standard, with exact answers.

ghost use Rattle.std.specs.Prelude.{◌≡◌, ◌++◌, ℕ, false};
ghost use Rattle.vhost_frontend_core.specs.Frontend.{endpoint_of, session_of};
ghost use Rattle.vhost_frontend.specs.Whole.{WholeWithRoom};
ghost use Rattle.vhost_protocol.specs.FrontendCall.{ConfigOf, GetConfig};
ghost use Rattle.vhost_promises.specs.Runs.{answer_of_link};
ghost use Rattle.vhost_promises.specs.Served.{features_reply};
ghost use Rattle.vhost_promises.specs.StandardAsking.{GoesOnAsking, no_config, with_config};
ghost use Rattle.vhost_connection.specs.Memory.{stream};
ghost use Rattle.vhost_protocol.specs.Stream.{plain};

use crate::read::asks_features;
use bitflags::Flags;
use vhost_connection::talks_law;
use vhost_frontend::{Call, Quiet};
use vhost_link::{Link, MemLink};
use vhost_message::{Result, VhostUserConfig, VhostUserConfigFlags};
use vhost_protocol::Profile;

/// A frontend that acknowledged CONFIG asks, under Standard, for eight bytes of configuration, and then for the features. Two
/// replies came: one without a body, as real backends refuse the first request, and the features. However the link splits them,
/// the first answer is BackendInternalError, the second is 0x40000003, exactly the two requests went out, and nothing is left;
/// unless an answer is an error that a link or a failed allocation may bring.
pub fn goes_on_without_config(
    frontend: &mut Quiet<MemLink>,
) -> (Result<(VhostUserConfig, Vec<u8>)>, Result<u64>)
    ensures { (queues : ℕ) → session_of frontend.old.inner ≡ with_config queues → stream (endpoint_of frontend.old.inner) ≡ plain (no_config ++ features_reply)
        → answer_of_link result.0 ≡ false → answer_of_link result.1 ≡ false
        → GoesOnAsking queues (endpoint_of frontend.old.inner) result.0 result.1 (endpoint_of frontend.new.inner) (session_of frontend.new.inner) }
{
    talks_law();
    frontend.set_profile(Profile::Standard);
    let config = asks_config(frontend, VhostUserConfigFlags::empty(), &[0; 8]);
    let features = asks_features(frontend);
    (config, features)
}

/// Asks for eight bytes of configuration, over any link.
fn asks_config<L: Link>(
    frontend: &mut Quiet<L>,
    flags: VhostUserConfigFlags,
    buffer: &[u8],
) -> Result<(VhostUserConfig, Vec<u8>)>
    ensures { WholeWithRoom L.event (GetConfig 0 8 flags.bits buffer.now) (λ part. ConfigOf part.0 part.1.items) frontend.old.inner result frontend.new.inner }
{
    frontend.config(&Call::GetConfig(0, 8, flags, buffer))
}
