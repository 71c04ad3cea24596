//! What goes from one side to the other.

ghost use Rattle.std.specs.Prelude.{◌≡◌, ◌≤◌, [], OnOk, OnErr, IsOk, length};
ghost use Rattle.vhost_connection.specs.State.{state};
ghost use Rattle.vhost_message.specs.declared.limits.TheConstants.{MAX_MSG_TEXT};
ghost use Rattle.vhost_joined.specs.OnWay.{outgoing, Carries};
ghost use Rattle.vhost_joined.specs.Text.{text_of};
ghost use Rattle.vhost_joined.specs.Wire.{text_in};

use crate::wire::Wire;
use vhost_connection::Endpoint;
use vhost_link::MemLink;
use vhost_message::{Error, Req, Result, VhostUserMsgHeader};

/// What one endpoint sent goes to another.
///
/// OutOfMemory: the other had more to receive, and its allocation failed; then nothing changed.
pub fn carry<R: Req>(
    from: &mut Endpoint<VhostUserMsgHeader<R>, MemLink>,
    to: &mut Endpoint<VhostUserMsgHeader<R>, MemLink>,
) -> Result<()>
    ensures carried { OnOk result (Carries (state from.old) (state to.old) (state from.new) (state to.new)) }
    ensures refused { OnErr result ((state from.new ≡ state from.old) × (state to.new ≡ state to.old)) }
    ensures succeeds { (state to.old).link.pending ≡ [] → IsOk result }
{
    match MemLink::carry(from.link(), to.link()) {
        Ok(()) => Ok(()),
        Err(_) => Err(Error::OutOfMemory),
    }
}

/// Copies what an endpoint sent.
pub fn copy<R: Req>(end: &mut Endpoint<VhostUserMsgHeader<R>, MemLink>, wire: &mut Wire)
    ensures text { length (outgoing (state end.old)) ≤ MAX_MSG_TEXT → text_in wire.new ≡ text_of (outgoing (state end.old)) }
    ensures same { state end.new ≡ state end.old }
{
    wire.copy(end.link().taken());
}
