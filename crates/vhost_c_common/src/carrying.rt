//! What goes between an endpoint's link in memory and its caller.

ghost use Rattle.std.specs.Prelude.{◌≡◌, ◌<◌, ◌≤◌, ◌++◌, [], true, false, length, OnOk, OnErr, IsOk, IfErr};
ghost use Rattle.vhost_message.specs.declared.error.Error.TheVariants.{OutOfMemory};
ghost use Rattle.vhost_message.specs.declared.limits.TheConstants.{MAX_ATTACHED_FD_ENTRIES};
ghost use Rattle.vhost_protocol.specs.Stream.{carrying};
ghost use Rattle.vhost_connection.specs.Memory.{stream};
ghost use Rattle.vhost_connection.specs.State.{state};
ghost use Rattle.vhost_c_common.specs.Carrying.{Collects, Gives, emptied};
ghost use Rattle.vhost_c_common.specs.Moving.{HandsOut, TakesIn};
ghost use Rattle.vhost_c_common.specs.View.{GivesNone, bare};

use crate::outgoing::Outgoing;
use crate::records::handles_of;
use std::alloc::Global;
use vhost_connection::Endpoint;
use vhost_link::{MemLink, PlainHandle};
use vhost_message::{Error, MAX_ATTACHED_FD_ENTRIES, MsgHeader, Result};

/// What an endpoint sent goes behind what is to be sent.
///
/// OutOfMemory: an allocation failed, and nothing changed.
pub fn carry_out<M: MsgHeader>(
    end: &mut Endpoint<M, MemLink>,
    outgoing: &mut Outgoing,
) -> Result<()>
    ensures collected { OnOk result (Collects (state end.old) (state end.new) outgoing.old.link.pending outgoing.new.link.pending) }
    ensures refused { OnErr result ((state end.new ≡ state end.old) × (outgoing.new.link ≡ outgoing.old.link)) }
    ensures memory { IfErr result (λ e. e ≡ OutOfMemory) }
    ensures succeeds { outgoing.old.link.pending ≡ [] → IsOk result }
{
    match MemLink::carry(end.link(), &mut outgoing.link) {
        Ok(()) => Ok(()),
        Err(_) => Err(Error::OutOfMemory),
    }
}

/// Hands out a piece of what is to be sent, behind which is what an endpoint sent: bytes, with the descriptors on the first of
/// them. The answer is how many of each; no byte is left where it is 0. It wants no memory.
pub fn hand_out<M: MsgHeader>(
    end: &mut Endpoint<M, MemLink>,
    outgoing: &mut Outgoing,
    bytes: &mut [u8],
    fds: &mut [i32],
) -> (usize, usize)
    requires bytes { 0 < length bytes.old }
    requires fds { MAX_ATTACHED_FD_ENTRIES ≤ length fds.old }
    ensures out { HandsOut (outgoing.old.link.pending ++ (state end.old).link.sent) (outgoing.new.link.pending ++ (state end.new).link.sent) bytes.new fds.new result }
    ensures came { stream (state end.new) ≡ stream (state end.old) }
    ensures end { bare (state end.new) ≡ bare (state end.old) }
{
    if outgoing.link.is_drained() {
        return outgoing.hand_sent(end, bytes, fds);
    }
    // Where this wants memory, there is something to be handed out before.
    let _ = carry_out(end, outgoing);
    outgoing.hand_out(bytes, fds)
}

/// Forgets what an endpoint sent.
pub fn forget_sent<M: MsgHeader>(alloc: Global, end: &mut Endpoint<M, MemLink>)
    ensures { state end.new ≡ record (state end.old) { link = record (state end.old).link { sent = [] } } }
{
    let mut nowhere = MemLink::new(alloc, Vec::new(alloc));
    let _ = MemLink::carry(end.link(), &mut nowhere);
}

/// Forgets what came for an endpoint and was not received by it.
pub fn empty<M: MsgHeader>(end: &mut Endpoint<M, MemLink>)
    ensures { state end.new ≡ emptied (state end.old) }
{
    end.link().forget();
    end.forget_ahead();
}

/// Gives an endpoint bytes that came for it, with the descriptors that came with the first of them.
///
/// InvalidParam: descriptors without a byte, more than a message may have, or a negative one. OutOfMemory: an allocation failed.
/// After both, nothing changed.
pub fn receive<M: MsgHeader>(
    alloc: Global,
    end: &mut Endpoint<M, MemLink>,
    bytes: &[u8],
    fds: &[i32],
) -> Result<()>
    ensures taken { OnOk result (TakesIn bytes.now fds.now (stream (state end.old)) (stream (state end.new))) }
    ensures refused { OnErr result (stream (state end.new) ≡ stream (state end.old)) }
    ensures reason { IfErr result (λ e. GivesNone bytes.now fds.now e) }
    ensures sent { (state end.new).link.sent ≡ (state end.old).link.sent }
    ensures end { bare (state end.new) ≡ bare (state end.old) }
{
    if bytes.is_empty() {
        return if fds.is_empty() {
            Ok(())
        } else {
            Err(Error::InvalidParam)
        };
    }
    if fds.len() > MAX_ATTACHED_FD_ENTRIES {
        return Err(Error::InvalidParam);
    }
    let handles = handles_of(alloc, fds)?;
    take_in(end, bytes, &handles)
}

/// Gives an endpoint what came for it; bytes without descriptors past its link, where nothing waits there.
///
/// OutOfMemory: an allocation failed, and nothing changed.
fn take_in<M: MsgHeader>(
    end: &mut Endpoint<M, MemLink>,
    bytes: &[u8],
    handles: &[PlainHandle],
) -> Result<()>
    requires { length handles.now ≤ MAX_ATTACHED_FD_ENTRIES }
    ensures given { OnOk result (Gives handles.now bytes.now (state end.old) (state end.new)) }
    ensures refused { OnErr result (state end.new ≡ state end.old) }
    ensures memory { IfErr result (λ e. e ≡ OutOfMemory) }
{
    if !handles.is_empty() {
        return push(end, bytes, handles);
    }
    if push_past(end, bytes) {
        return Ok(());
    }
    push(end, bytes, handles)
}

/// Gives an endpoint bytes that came without descriptors past its link, where nothing waits there, and where there is room:
/// whether it did.
fn push_past<M: MsgHeader>(end: &mut Endpoint<M, MemLink>, bytes: &[u8]) -> bool
    ensures given { result ≡ true → Gives [] bytes.now (state end.old) (state end.new) }
    ensures refused { result ≡ false → state end.new ≡ state end.old }
{
    if !end.link().is_drained() {
        return false;
    }
    end.push_ahead(bytes)
}

/// Gives an endpoint's link what came for it.
///
/// OutOfMemory: an allocation failed, and nothing changed.
fn push<M: MsgHeader>(
    end: &mut Endpoint<M, MemLink>,
    bytes: &[u8],
    handles: &[PlainHandle],
) -> Result<()>
    requires { length handles.now ≤ MAX_ATTACHED_FD_ENTRIES }
    ensures given { OnOk result (state end.new ≡ record (state end.old) { link = record (state end.old).link { pending = (state end.old).link.pending ++ carrying handles.now bytes.now } }) }
    ensures refused { OnErr result (state end.new ≡ state end.old) }
    ensures memory { IfErr result (λ e. e ≡ OutOfMemory) }
{
    match end.link().push(bytes, handles) {
        Ok(()) => Ok(()),
        Err(_) => Err(Error::OutOfMemory),
    }
}
