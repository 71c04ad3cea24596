//! What goes between a frontend's link and its caller.

ghost use Rattle.std.specs.Prelude.{◌≡◌, ◌<◌, ◌≤◌, ◌++◌, [], length, OnOk, OnErr, IfErr, IsOk};
ghost use Rattle.vhost_message.specs.declared.error.Error.TheVariants.{OutOfMemory};
ghost use Rattle.vhost_message.specs.declared.limits.TheConstants.{MAX_ATTACHED_FD_ENTRIES};
ghost use Rattle.vhost_connection.specs.Memory.{stream};
ghost use Rattle.vhost_frontend_core.specs.Frontend.{endpoint_of, session_of, awaits, IsAwaited};
ghost use Rattle.vhost_frontend_core.specs.Values.{call_of};
ghost use Rattle.vhost_c_frontend.specs.Session.{TakesAt};
ghost use Rattle.vhost_c_common.specs.Carrying.{Collects, emptied};
ghost use Rattle.vhost_c_common.specs.Moving.{HandsOut, TakesIn};
ghost use Rattle.vhost_c_common.specs.View.{GivesNone, bare};

use std::alloc::Global;
use vhost_c_common::{Outgoing, carry_out, empty, forget_sent};
use vhost_frontend_core::{FrontendAnswer, FrontendCall, FrontendInternal, Sent, take};
use vhost_link::MemLink;
use vhost_message::Result;

/// What a frontend sent goes behind what is to be sent.
///
/// OutOfMemory: there was something to be sent before, an allocation failed, and nothing changed.
pub(crate) fn collect(
    frontend: &mut FrontendInternal<MemLink>,
    outgoing: &mut Outgoing,
) -> Result<()>
    ensures collected { OnOk result (Collects (endpoint_of frontend.old) (endpoint_of frontend.new) outgoing.old.link.pending outgoing.new.link.pending) }
    ensures refused { OnErr result ((endpoint_of frontend.new ≡ endpoint_of frontend.old) × (outgoing.new.link ≡ outgoing.old.link)) }
    ensures memory { IfErr result (λ e. e ≡ OutOfMemory) }
    ensures succeeds { outgoing.old.link.pending ≡ [] → IsOk result }
    ensures rest { (session_of frontend.new ≡ session_of frontend.old) × (awaits frontend.new ≡ awaits frontend.old) }
{
    carry_out(frontend.endpoint_mut(), outgoing)
}

/// Hands out a piece of what is to be sent, behind which is what a frontend sent: bytes, with the descriptors on the first of
/// them. The answer is how many of each; no byte is left where it is 0. It wants no memory.
pub(crate) fn hand_out(
    frontend: &mut FrontendInternal<MemLink>,
    outgoing: &mut Outgoing,
    bytes: &mut [u8],
    fds: &mut [i32],
) -> (usize, usize)
    requires bytes { 0 < length bytes.old }
    requires fds { MAX_ATTACHED_FD_ENTRIES ≤ length fds.old }
    ensures out { HandsOut (outgoing.old.link.pending ++ (endpoint_of frontend.old).link.sent) (outgoing.new.link.pending ++ (endpoint_of frontend.new).link.sent) bytes.new fds.new result }
    ensures came { stream (endpoint_of frontend.new) ≡ stream (endpoint_of frontend.old) }
    ensures end { bare (endpoint_of frontend.new) ≡ bare (endpoint_of frontend.old) }
    ensures rest { (session_of frontend.new ≡ session_of frontend.old) × (awaits frontend.new ≡ awaits frontend.old) }
{
    vhost_c_common::hand_out(frontend.endpoint_mut(), outgoing, bytes, fds)
}

/// Forgets what a frontend sent.
pub(crate) fn forget(alloc: Global, frontend: &mut FrontendInternal<MemLink>)
    ensures forgotten { endpoint_of frontend.new ≡ record (endpoint_of frontend.old) { link = record (endpoint_of frontend.old).link { sent = [] } } }
    ensures rest { (session_of frontend.new ≡ session_of frontend.old) × (awaits frontend.new ≡ awaits frontend.old) }
{
    forget_sent(alloc, frontend.endpoint_mut());
}

/// Forgets what came for a frontend and was not received by it.
pub(crate) fn forget_arrived(frontend: &mut FrontendInternal<MemLink>)
    ensures forgotten { endpoint_of frontend.new ≡ emptied (endpoint_of frontend.old) }
    ensures rest { (session_of frontend.new ≡ session_of frontend.old) × (awaits frontend.new ≡ awaits frontend.old) }
{
    empty(frontend.endpoint_mut());
}

/// Gives a frontend bytes that came for it, with the descriptors that came with the first of them.
///
/// InvalidParam: descriptors without a byte, more than a message may have, or a negative one. OutOfMemory: an allocation failed.
/// After both, nothing changed.
pub(crate) fn receive(
    alloc: Global,
    frontend: &mut FrontendInternal<MemLink>,
    bytes: &[u8],
    fds: &[i32],
) -> Result<()>
    ensures taken { OnOk result (TakesIn bytes.now fds.now (stream (endpoint_of frontend.old)) (stream (endpoint_of frontend.new))) }
    ensures refused { OnErr result (stream (endpoint_of frontend.new) ≡ stream (endpoint_of frontend.old)) }
    ensures reason { IfErr result (λ e. GivesNone bytes.now fds.now e) }
    ensures sent { (endpoint_of frontend.new).link.sent ≡ (endpoint_of frontend.old).link.sent }
    ensures end { bare (endpoint_of frontend.new) ≡ bare (endpoint_of frontend.old) }
    ensures rest { (session_of frontend.new ≡ session_of frontend.old) × (awaits frontend.new ≡ awaits frontend.old) }
{
    vhost_c_common::receive(alloc, frontend.endpoint_mut(), bytes, fds)
}

/// Receives the answer of a backend that sent nothing: what came is forgotten.
pub(crate) fn take_nothing(
    frontend: &mut FrontendInternal<MemLink>,
    call: &FrontendCall,
    sent: Sent,
) -> FrontendAnswer
    requires { IsAwaited sent frontend.old }
    ensures { TakesAt (call_of call.now) sent (emptied (endpoint_of frontend.old)) (session_of frontend.old) result frontend.new }
{
    forget_arrived(frontend);
    take(frontend, call, sent)
}
