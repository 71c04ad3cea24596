//! Takes pieces out of a ring.

ghost use Rattle.std.specs.Prelude.{◌≡◌, ◌<◌, ◌≤◌, [], ◌∷◌, ◌++◌, length, map, take, drop, IfSome, IfNone, vec_capacity};
ghost use Rattle.rtrb.specs.Ring.{received, known_items, SameConsumer};
ghost use Rattle.vhost_message.specs.declared.limits.TheConstants.{MAX_ATTACHED_FD_ENTRIES};
ghost use Rattle.vhost_link.specs.Pieces.{cells_of, waiting, byte_piece, handle_piece, MayFollow, HasByteFirst, HasHandleFirst};

use crate::piece::{Piece, PieceOrder};
use crate::plain::PlainHandle;
use rtrb::Consumer;
use std::alloc::Global;

/// The next piece that has come, if it is a descriptor.
fn next_handle(input: &mut Consumer<Piece, Global, PieceOrder>) -> Option<PlainHandle>
    ensures ring { SameConsumer input.old input.new }
    ensures some { IfSome result (λ h. (received input.new ≡ received input.old ++ handle_piece h ∷ []) × (known_items input.old ≡ handle_piece h ∷ known_items input.new) × MayFollow (received input.old) (handle_piece h)) }
    ensures none { IfNone result ((received input.new ≡ received input.old) × (known_items input.new ≡ known_items input.old) × HasByteFirst (known_items input.new)) }
{
    if input.cached_slots() == 0 {
        return None;
    }
    let Piece::Handle(id, kind) = *input.peek_known() else {
        return None;
    };
    input.pop_known();
    Some(PlainHandle { id, kind })
}

/// The next piece that has come, if it is a byte.
fn next_byte(input: &mut Consumer<Piece, Global, PieceOrder>) -> Option<u8>
    ensures ring { SameConsumer input.old input.new }
    ensures some { IfSome result (λ b. (received input.new ≡ received input.old ++ byte_piece b ∷ []) × (known_items input.old ≡ byte_piece b ∷ known_items input.new)) }
    ensures none { IfNone result ((received input.new ≡ received input.old) × (known_items input.new ≡ known_items input.old) × HasHandleFirst (known_items input.new)) }
{
    if input.cached_slots() == 0 {
        return None;
    }
    let Piece::Byte(byte) = *input.peek_known() else {
        return None;
    };
    input.pop_known();
    Some(byte)
}

/// Takes the descriptors that come first. They are kept until their byte comes.
pub(crate) fn keep_handles(
    input: &mut Consumer<Piece, Global, PieceOrder>,
    kept: &mut Vec<PlainHandle>,
)
    requires kept { kept.old.items ≡ waiting (received input.old) }
    requires few { length kept.old.items ≤ MAX_ATTACHED_FD_ENTRIES }
    requires places { MAX_ATTACHED_FD_ENTRIES ≤ vec_capacity kept.old }
    ensures ring { SameConsumer input.old input.new }
    ensures all { received input.new ++ known_items input.new ≡ received input.old ++ known_items input.old }
    ensures cells { cells_of (received input.new) ≡ cells_of (received input.old) }
    ensures kept { kept.new.items ≡ waiting (received input.new) }
    ensures few { length kept.new.items ≤ MAX_ATTACHED_FD_ENTRIES }
    ensures places { vec_capacity kept.new ≡ vec_capacity kept.old }
    ensures front { HasByteFirst (known_items input.new) }
{
    for _i in 0..input.cached_slots() {
        let Some(handle) = next_handle(input) else {
            return;
        };
        kept.push_reserved(handle);
    }
}

/// Takes the bytes that come next, up to the next descriptor or the end of the room; how many that was.
pub(crate) fn take_bytes(input: &mut Consumer<Piece, Global, PieceOrder>, room: &mut [u8]) -> usize
    ensures ring { SameConsumer input.old input.new }
    ensures within { result ≤ length room.old }
    ensures rest { drop result room.new ≡ drop result room.old }
    ensures received { received input.new ≡ received input.old ++ map byte_piece (take result room.new) }
    ensures known { known_items input.old ≡ map byte_piece (take result room.new) ++ known_items input.new }
    ensures most { result < length room.old → HasHandleFirst (known_items input.new) }
    ensures some { 0 < length room.old → 0 < length (known_items input.old) → HasByteFirst (known_items input.old) → 0 < result }
{
    let mut count = 0;
    for i in 0..room.len() {
        let Some(byte) = next_byte(input) else {
            break;
        };
        room[i] = byte;
        count += 1;
    }
    count
}
