//! What a frontend awaits of a request that it sent.

/// What a reply holds.
#[derive(Clone, Copy, Debug, PartialEq, Eq)]
pub enum Shape {
    /// Nothing.
    Empty,
    /// One number.
    U64,
    /// A memory table.
    Memory,
    /// One region of memory.
    SingleMemoryRegion,
    /// The regions of shared memory.
    ShMemConfig,
    /// A ring's number.
    VringState,
    /// A part of the configuration space.
    Config,
    /// The inflight region.
    Inflight,
    /// The area of the dirty log.
    Log,
}

/// What is awaited.
#[derive(Clone, Copy, Debug, PartialEq, Eq)]
pub enum Awaited {
    /// Nothing.
    Nobody,
    /// An acknowledgement.
    Ack,
    /// A reply of this shape.
    Reply(Shape),
}
