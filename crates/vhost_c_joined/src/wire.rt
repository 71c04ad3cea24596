//! A message goes from one session to another, in pieces, with its descriptors on the first.

ghost use Rattle.std.specs.Prelude.{◌≡◌, ◌⊎◌, [], ◌<◌, ◌≤◌, ℕ, List, false, length};
ghost use Rattle.vhost_protocol.specs.Session.{heard_in};
ghost use Rattle.vhost_link.specs.declared.plain.PlainHandle.{PlainHandle};
ghost use Rattle.vhost_c_common.specs.Incoming.{missing_by};
ghost use Rattle.vhost_c_backend.specs.Served as served;
ghost use Rattle.vhost_c_frontend.specs.Session as session;
ghost use Rattle.vhost_c_joined.specs.Wire.{IsTold, IsOnWay, Carries, Steps};

use vhost_c_backend::Served;
use vhost_c_common::Refusal;
use vhost_c_frontend::Session;
use vhost_message::{MAX_ATTACHED_FD_ENTRIES, MAX_MSG_TEXT};

/// Why a call of joined sessions was not done.
#[derive(Drop)]
pub enum Halt {
    /// Memory was refused to a session.
    WantsMemory(Refusal),
    /// Bytes are missing of an answer, and none is to be sent.
    Silent,
    /// The backend's session has ended, since it could not answer whoever waits.
    Ended,
}

/// The request of a frontend goes to a backend, in pieces of at most these lengths, one after another, and then of what is
/// missing.
///
/// WantsMemory: an allocation failed. Silent: there is none, and bytes are missing.
pub(crate) fn carry_request(from: &mut Session, to: &mut Served, cuts: &[usize]) -> Result<(), Halt>
    ensures { (hs : List PlainHandle) (text : List ℕ) → (text ≡ []) ⊎ IsTold text (missing_by (heard_in (served.remembers to.old))) → served.has_call to.old ≡ false → IsOnWay hs text (session.view from.old) (served.view to.old)
        → Carries (missing_by (heard_in (served.remembers to.old))) hs text (session.view from.old) (served.view to.old) result (session.view from.new) (served.view to.new) }
{
    let mut bytes = [0; MAX_MSG_TEXT];
    'pieces: for i in 0..MAX_MSG_TEXT {
        let missing = to.missing();
        if missing == 0 {
            return Ok(());
        }
        let most = piece_at(cuts, i, missing);
        match request_piece(from, to, &mut bytes[..most]) {
            Ok(()) => {}
            Err(halt) => return Err(halt),
        }
    }
    Ok(())
}

/// A piece of a request of at most so many bytes as there are places.
fn request_piece(from: &mut Session, to: &mut Served, bytes: &mut [u8]) -> Result<(), Halt>
    requires some { 0 < length bytes.old }
    requires few { length bytes.old ≤ served.missing_of to.old }
    ensures { (hs : List PlainHandle) (text : List ℕ) → (text ≡ []) ⊎ IsTold text (missing_by (heard_in (served.remembers to.old))) → served.has_call to.old ≡ false → IsOnWay hs text (session.view from.old) (served.view to.old)
        → Steps (missing_by (heard_in (served.remembers to.old))) hs text (session.view from.old) (served.view to.old) result (session.view from.new) (served.view to.new) }
{
    let mut fds = [0; MAX_ATTACHED_FD_ENTRIES];
    match from.hand_out(bytes, &mut fds) {
        Ok((count, fd_count)) => {
            if count == 0 {
                return Err(Halt::Silent);
            }
            let count = count.min(bytes.len());
            let fd_count = fd_count.min(MAX_ATTACHED_FD_ENTRIES);
            match to.receive(&bytes[..count], &fds[..fd_count]) {
                Ok(()) => Ok(()),
                Err(refusal) => Err(Halt::WantsMemory(refusal)),
            }
        }
        Err(refusal) => Err(Halt::WantsMemory(refusal)),
    }
}

/// The reply of a backend goes to a frontend, in such pieces.
///
/// WantsMemory: an allocation failed. Silent: there is none, and bytes are missing.
pub(crate) fn carry_reply(from: &mut Served, to: &mut Session, cuts: &[usize]) -> Result<(), Halt>
    ensures { (hs : List PlainHandle) (text : List ℕ) → (text ≡ []) ⊎ IsTold text (session.missing_for (session.remembers to.old).profile to.old.asked) → IsOnWay hs text (served.view from.old) (session.view to.old)
        → Carries (session.missing_for (session.remembers to.old).profile to.old.asked) hs text (served.view from.old) (session.view to.old) result (served.view from.new) (session.view to.new) }
{
    let mut bytes = [0; MAX_MSG_TEXT];
    'pieces: for i in 0..MAX_MSG_TEXT {
        let missing = to.missing();
        if missing == 0 {
            return Ok(());
        }
        let most = piece_at(cuts, i, missing);
        match reply_piece(from, to, &mut bytes[..most]) {
            Ok(()) => {}
            Err(halt) => return Err(halt),
        }
    }
    Ok(())
}

/// A piece of a reply of at most so many bytes as there are places.
fn reply_piece(from: &mut Served, to: &mut Session, bytes: &mut [u8]) -> Result<(), Halt>
    requires some { 0 < length bytes.old }
    requires few { length bytes.old ≤ session.missing_of to.old }
    ensures { (hs : List PlainHandle) (text : List ℕ) → (text ≡ []) ⊎ IsTold text (session.missing_for (session.remembers to.old).profile to.old.asked) → IsOnWay hs text (served.view from.old) (session.view to.old)
        → Steps (session.missing_for (session.remembers to.old).profile to.old.asked) hs text (served.view from.old) (session.view to.old) result (served.view from.new) (session.view to.new) }
{
    let mut fds = [0; MAX_ATTACHED_FD_ENTRIES];
    match from.hand_out(bytes, &mut fds) {
        Ok((count, fd_number)) => {
            if count == 0 {
                return Err(Halt::Silent);
            }
            let count = count.min(bytes.len());
            let fd_number = fd_number.min(MAX_ATTACHED_FD_ENTRIES);
            match to.receive(&bytes[..count], &fds[..fd_number]) {
                Ok(()) => Ok(()),
                Err(refusal) => Err(Halt::WantsMemory(refusal)),
            }
        }
        Err(refusal) => Err(Halt::WantsMemory(refusal)),
    }
}

/// How long a piece is: as the cut at its place says, one byte at least, and no more than is missing.
fn piece_at(cuts: &[usize], i: usize, missing: usize) -> usize
    requires { 0 < missing }
    ensures some { 0 < result }
    ensures few { result ≤ missing }
{
    if i < cuts.len() {
        cuts[i].max(1).min(missing)
    } else {
        missing
    }
}
