//! What one call of a link moves.

ghost use Rattle.std.specs.Prelude.{◌≡◌, ◌++◌, ◌<◌, ◌≤◌, IfOk, length, map, take};
ghost use Rattle.vhost_message.specs.declared.limits.TheConstants.{MAX_ATTACHED_FD_ENTRIES};
ghost use Rattle.vhost_protocol.specs.Stream.{carrying};
ghost use Rattle.vhost_promises.specs.Rings.{got_cells};

use std::alloc::{AllocError, Global};
use vhost_link::{PlainHandle, SharedLink};
use vhost_message::MAX_ATTACHED_FD_ENTRIES;

/// What one receive handed out: bytes, and the descriptors of the first.
#[derive(Drop)]
pub struct Part {
    /// The bytes.
    pub bytes: Vec<u8>,
    /// The descriptors.
    pub handles: Vec<PlainHandle>,
}

/// The length of the prefix of some bytes that one send accepts, with the descriptors; 0 where it accepts none.
pub(crate) fn send_part(link: &mut SharedLink<()>, bytes: &[u8], handles: &[&PlainHandle]) -> usize
    requires bytes { 0 < length bytes.now }
    requires handles { length handles.now ≤ MAX_ATTACHED_FD_ENTRIES }
    ensures within { result ≤ length bytes.now }
    ensures ring { link.new.output ≡ link.old.output }
    ensures sent { link.new.sent ≡ link.old.sent ++ carrying (map (λ h. h.now) handles.now) (take result bytes.now) }
{
    match link.send(bytes, handles) {
        Ok(count) => count,
        Err(_) => 0,
    }
}

/// What one receive hands out, if anything has come.
pub(crate) fn receive_part(
    link: &mut SharedLink<()>,
    alloc: Global,
) -> Result<Option<Part>, AllocError>
    ensures ring { IfOk result (λ _. link.new.input ≡ link.old.input) }
    ensures received { IfOk result (λ got. link.new.received ≡ link.old.received ++ got_cells got) }
{
    let mut room = [0; 64];
    let mut handles = Vec::with_capacity(alloc, MAX_ATTACHED_FD_ENTRIES)?;
    match link.try_recv(&mut room, &mut handles) {
        Some(count) if count > 0 => {
            let bytes = Vec::from_slice(alloc, &room[..count])?;
            Ok(Some(Part { bytes, handles }))
        }
        _ => Ok(None),
    }
}
