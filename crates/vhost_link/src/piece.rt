//! What a ring between two threads holds.

use crate::handle::Kind;
use rtrb::Protocol;

/// A piece of a stream.
#[derive(Clone, Copy, Debug, PartialEq, Eq)]
pub enum Piece {
    /// A byte, which brings the descriptors that stand before it.
    Byte(u8),
    /// A descriptor of the next byte: its number and its kind.
    Handle(u32, Kind),
}

/// The order of pieces: no byte brings more than `MAX_ATTACHED_FD_ENTRIES` descriptors.
#[derive(Clone, Copy, Debug)]
pub struct PieceOrder;

impl Protocol<Piece> for PieceOrder {
    ghost use Rattle.vhost_link.specs.Pieces.{MayFollow};

    ghost allows = { MayFollow };
}
