//! Limits of the vhost-user-gpu channel.

/// The greatest size of a message's body, in bytes: any that a header can say.
pub const MAX_GPU_MSG_SIZE: usize = u32::MAX as usize;

/// How many screens a display has at most.
pub const VIRTIO_GPU_MAX_SCANOUTS: usize = 16;
