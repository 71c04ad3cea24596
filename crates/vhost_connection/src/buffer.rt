//! What is received from: a link, and a buffer before it.

ghost use Rattle.std.specs.Prelude.{◌≤◌, ◌<◌, length};

/// A buffer for what one receive of a link brings beyond the bytes that a message needs.
#[derive(Drop)]
pub struct ReadAhead {
    pub(crate) buffer: Vec<u8>,
    /// The bytes from `start` to `end` wait.
    pub(crate) start: usize,
    pub(crate) end: usize,
    ghost order: { start ≤ end },
    ghost within: { end ≤ length buffer.items },
    ghost room: { 0 < length buffer.items },
}

/// A link, and what was received of it ahead.
#[derive(Drop)]
pub struct Source<L> {
    pub(crate) link: L,
    pub(crate) ahead: ReadAhead,
}
