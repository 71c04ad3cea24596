//! A message goes from one session of the backend channel to the other, in pieces.

ghost use Rattle.std.specs.Prelude.{◌≡◌, ◌⊎◌, [], ◌<◌, ◌≤◌, List, false, length, take};
ghost use Rattle.vhost_message.specs.BackendReq.{backend_request_of};
ghost use Rattle.vhost_protocol.specs.Stream.{Cell};
ghost use Rattle.vhost_link.specs.declared.plain.PlainHandle.{PlainHandle};
ghost use Rattle.vhost_c_common.specs.Incoming.{missing_by};
ghost use Rattle.vhost_c_channel.specs.Asking as asking;
ghost use Rattle.vhost_c_channel.specs.Serving as serving;
ghost use Rattle.vhost_c_channel_joined.specs.Wire.{IsTold, IsOnWay, Carries, Steps};

use vhost_c_channel::{Channel, ChannelServer};
use vhost_c_common::Refusal;
use vhost_message::{MAX_ATTACHED_FD_ENTRIES, MAX_MSG_TEXT};

/// Why a call of joined sessions was not done.
#[derive(Drop)]
pub enum Halt {
    /// Memory was refused to a session.
    WantsMemory(Refusal),
    /// Bytes are missing of a reply, and none is to be sent.
    Silent,
}

/// A device's request goes to its frontend, in pieces of at most these lengths, one after another, and then of what is missing.
///
/// WantsMemory: an allocation failed. Silent: there is none, and bytes are missing.
pub(crate) fn carry_request(
    from: &mut Channel,
    to: &mut ChannelServer,
    cuts: &[usize],
) -> Result<(), Halt>
    ensures { (cells : List (Cell PlainHandle)) → (cells ≡ []) ⊎ IsTold cells (missing_by backend_request_of) → serving.has_call to.old ≡ false → IsOnWay cells (asking.view from.old) (serving.view to.old)
        → Carries (missing_by backend_request_of) cells (asking.view from.old) (serving.view to.old) result (asking.view from.new) (serving.view to.new) }
{
    let mut bytes = [0; MAX_MSG_TEXT];
    'pieces: for i in 0..MAX_MSG_TEXT {
        let missing = to.missing();
        if missing == 0 {
            return Ok(());
        }
        let most = piece_at(cuts, i, missing);
        match request_piece(from, to, &mut bytes[..most]) {
            Ok(()) => {}
            Err(halt) => return Err(halt),
        }
    }
    Ok(())
}

/// A piece of a request of at most so many bytes as there are places, with the descriptors that go with it.
fn request_piece(from: &mut Channel, to: &mut ChannelServer, bytes: &mut [u8]) -> Result<(), Halt>
    requires some { 0 < length bytes.old }
    requires few { length bytes.old ≤ serving.missing_of to.old }
    ensures { (cells : List (Cell PlainHandle)) → (cells ≡ []) ⊎ IsTold cells (missing_by backend_request_of) → serving.has_call to.old ≡ false → IsOnWay cells (asking.view from.old) (serving.view to.old)
        → Steps (missing_by backend_request_of) cells (asking.view from.old) (serving.view to.old) result (asking.view from.new) (serving.view to.new) }
{
    let mut fds = [0; MAX_ATTACHED_FD_ENTRIES];
    match from.hand_out(bytes, &mut fds) {
        Ok((count, fd_count)) => {
            if count == 0 {
                return Err(Halt::Silent);
            }
            let count = count.min(bytes.len());
            match to.receive(&bytes[..count], handed(&fds, fd_count)) {
                Ok(()) => Ok(()),
                Err(refusal) => Err(Halt::WantsMemory(refusal)),
            }
        }
        Err(refusal) => Err(Halt::WantsMemory(refusal)),
    }
}

/// The reply of a frontend goes to the device, in such pieces.
///
/// WantsMemory: an allocation failed. Silent: there is none, and bytes are missing.
pub(crate) fn carry_reply(
    from: &mut ChannelServer,
    to: &mut Channel,
    cuts: &[usize],
) -> Result<(), Halt>
    ensures { (cells : List (Cell PlainHandle)) → (cells ≡ []) ⊎ IsTold cells (asking.missing_for to.old.asked) → IsOnWay cells (serving.view from.old) (asking.view to.old)
        → Carries (asking.missing_for to.old.asked) cells (serving.view from.old) (asking.view to.old) result (serving.view from.new) (asking.view to.new) }
{
    let mut bytes = [0; MAX_MSG_TEXT];
    'pieces: for i in 0..MAX_MSG_TEXT {
        let missing = to.missing();
        if missing == 0 {
            return Ok(());
        }
        let most = piece_at(cuts, i, missing);
        match reply_piece(from, to, &mut bytes[..most]) {
            Ok(()) => {}
            Err(halt) => return Err(halt),
        }
    }
    Ok(())
}

/// A piece of a reply of at most so many bytes as there are places, with the descriptors that go with it.
fn reply_piece(from: &mut ChannelServer, to: &mut Channel, bytes: &mut [u8]) -> Result<(), Halt>
    requires some { 0 < length bytes.old }
    requires few { length bytes.old ≤ asking.missing_of to.old }
    ensures { (cells : List (Cell PlainHandle)) → (cells ≡ []) ⊎ IsTold cells (asking.missing_for to.old.asked) → IsOnWay cells (serving.view from.old) (asking.view to.old)
        → Steps (asking.missing_for to.old.asked) cells (serving.view from.old) (asking.view to.old) result (serving.view from.new) (asking.view to.new) }
{
    let mut fds = [0; MAX_ATTACHED_FD_ENTRIES];
    match from.hand_out(bytes, &mut fds) {
        Ok((count, fd_count)) => {
            if count == 0 {
                return Err(Halt::Silent);
            }
            let count = count.min(bytes.len());
            match to.receive(&bytes[..count], handed(&fds, fd_count)) {
                Ok(()) => Ok(()),
                Err(refusal) => Err(Halt::WantsMemory(refusal)),
            }
        }
        Err(refusal) => Err(Halt::WantsMemory(refusal)),
    }
}

/// The descriptors that were handed out: so many, at the front of these places.
fn handed(fds: &[i32], count: usize) -> &[i32]
    ensures { result.now ≡ take count fds.now }
{
    &fds[..count.min(fds.len())]
}

/// How long a piece is: as the cut at its place says, one byte at least, and no more than is missing.
fn piece_at(cuts: &[usize], i: usize, missing: usize) -> usize
    requires { 0 < missing }
    ensures some { 0 < result }
    ensures few { result ≤ missing }
{
    if i < cuts.len() {
        cuts[i].max(1).min(missing)
    } else {
        missing
    }
}
