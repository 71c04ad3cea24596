//! What a link is.

ghost use Rattle.std.specs.Prelude.{◌≡◌, ◌<◌, ◌≤◌, [], Result, length, vec_capacity, map};
ghost use Rattle.vhost_message.specs.declared.limits.TheConstants.{MAX_ATTACHED_FD_ENTRIES};
ghost use Rattle.vhost_link.specs.Law.{Event, Sends, TakesAll, Receives};

use crate::handle::Handle;
use vhost_message::IoCause;

/// One end of a connection. A stream goes each way: bytes, each of which may bring up to `MAX_ATTACHED_FD_ENTRIES` descriptors.
///
/// In the crate `vhost` it is a `UnixStream`, and its descriptors are file descriptors.
pub trait Link: Drop {
    ghost use Rattle.vhost_message.specs.declared.cause.IoCause.{IoCause};

    /// What a byte may bring along.
    type Handle: Handle;

    /// What one call may have done, from the link before it to the link after it.
    ghost event: { Self → Event Self.Handle → Self → Type 0 };

    /// Where this holds, a send accepts all the bytes, unless it fails. A link need not promise it.
    ghost takes_all: { Self → Type 0 } = { λ _. ⊥ };

    /// What duplicating the link may answer.
    ghost duplicates: { Self → Result Self IoCause → Type 0 };

    /// What opening a descriptor may answer.
    ghost opens: { Self → Self.Handle → Result Self IoCause → Type 0 };

    /// Sends a prefix of the bytes, at least one, and all the descriptors with the first of them; the answer is how many.
    ///
    /// The caller has at least one byte, and at most `MAX_ATTACHED_FD_ENTRIES` descriptors. After an error nothing was sent.
    fn send(&mut self, bytes: &[u8], handles: &[&Self::Handle]) -> Result<usize, IoCause>
        requires bytes { 0 < length bytes.now }
        requires handles { length handles.now ≤ MAX_ATTACHED_FD_ENTRIES }
        ensures law { Sends event self.old bytes.now (map (λ h. h.now) handles.now) result self.new }
        ensures whole { takes_all self.old → TakesAll takes_all (length bytes.now) result self.new };

    /// Receives what fits into the room, up to the next byte that brings descriptors; the answer is how many bytes, and 0 at the end of the stream.
    ///
    /// The descriptors are those of the first byte. The caller's list is empty, with room for `MAX_ATTACHED_FD_ENTRIES`. After an error nothing was received.
    fn recv(&mut self, room: &mut [u8], handles: &mut Vec<Self::Handle>) -> Result<usize, IoCause>
        requires room { 0 < length room.old }
        requires list { handles.old.items ≡ [] }
        requires places { MAX_ATTACHED_FD_ENTRIES ≤ vec_capacity handles.old }
        ensures law { Receives event self.old room.old result room.new handles.new.items self.new }
        ensures places { vec_capacity handles.old ≤ vec_capacity handles.new };

    /// One more link of the same connection, or why there is none.
    fn duplicate(&self) -> Result<Self, IoCause>
        ensures { duplicates self.now result };

    /// Opens a descriptor that was received as a link of its own, or says why it can't be.
    fn of_handle(&self, handle: Self::Handle) -> Result<Self, IoCause>
        ensures { opens self.now handle result };
}
