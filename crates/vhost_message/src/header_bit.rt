//! The numbers of the bits of the flags in a header, above the two of the version.

/// The message is a reply.
pub const REPLY: u32 = 2;

/// The sender asks for an acknowledgement.
pub const NEED_REPLY: u32 = 3;
