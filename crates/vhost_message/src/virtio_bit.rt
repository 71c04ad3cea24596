//! The numbers of the bits of the virtio features that the protocol gives a meaning.

/// Writes to guest memory are logged.
pub const LOG_ALL: u32 = 26;

/// The features of the protocol are negotiated too.
pub const PROTOCOL_FEATURES: u32 = 30;
