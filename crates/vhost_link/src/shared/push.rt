//! Puts pieces into a ring.

ghost use Rattle.std.specs.Prelude.{◌≡◌, ◌+◌, ◌≤◌, ◌++◌, length, map};
ghost use Rattle.rtrb.specs.Ring.{sent, known_free, SameProducer};
ghost use Rattle.vhost_message.specs.declared.limits.TheConstants.{MAX_ATTACHED_FD_ENTRIES};
ghost use Rattle.vhost_link.specs.Pieces.{waiting, byte_piece, handle_piece};

use crate::piece::{Piece, PieceOrder};
use crate::plain::PlainHandle;
use rtrb::Producer;
use std::alloc::Global;

/// Puts descriptors in, which wait for their byte.
pub(crate) fn push_handles(
    output: &mut Producer<Piece, Global, PieceOrder>,
    handles: &[&PlainHandle],
)
    requires few { length (waiting (sent output.old)) + length handles.now ≤ MAX_ATTACHED_FD_ENTRIES }
    requires room { length handles.now ≤ known_free output.old }
    ensures ring { SameProducer output.old output.new }
    ensures sent { sent output.new ≡ sent output.old ++ map (λ h. handle_piece h.now) handles.now }
    ensures room { known_free output.old ≡ known_free output.new + length handles.now }
{
    for handle in handles {
        output.push_reserved(Piece::Handle(handle.id, handle.kind));
    }
}

/// Puts bytes in. The first one gets the descriptors that wait.
pub(crate) fn push_bytes(output: &mut Producer<Piece, Global, PieceOrder>, bytes: &[u8])
    requires { length bytes.now ≤ known_free output.old }
    ensures ring { SameProducer output.old output.new }
    ensures sent { sent output.new ≡ sent output.old ++ map byte_piece bytes.now }
    ensures room { known_free output.old ≡ known_free output.new + length bytes.now }
{
    for byte in bytes {
        output.push_reserved(Piece::Byte(*byte));
    }
}
