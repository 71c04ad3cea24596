//! Links: a stream of bytes each way, with descriptors.
#![tactic(auto)]

mod cut;
mod flow;
mod handle;
mod hub;
mod law;
mod mark;
mod mem;
mod piece;
mod plain;
mod shared;
mod unix;

pub use cut::Cut;
pub use flow::Flow;
pub use handle::{Handle, Kind};
pub use hub::Hub;
pub use law::Link;
pub use mem::{MemLink, stream_law};
pub use piece::{Piece, PieceOrder};
pub use plain::PlainHandle;
pub use shared::{Ends, SharedLink, Token, ring_law};
pub use unix::{NoHandle, UnixLink, cause_of};
