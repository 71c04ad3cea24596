//! Limits of the protocol.

/// The size of a message's header, in bytes.
pub const MSG_HEADER_SIZE: usize = 12;

/// The greatest size of a message's body, in bytes.
pub const MAX_MSG_SIZE: usize = 0x1000;

/// The greatest size of a whole message, in bytes: its header and its body.
pub const MAX_MSG_TEXT: usize = MSG_HEADER_SIZE + MAX_MSG_SIZE;

/// The greatest number of file descriptors that come with one message.
pub const MAX_ATTACHED_FD_ENTRIES: usize = 32;

/// The greatest number of regions in a memory table: each has a file descriptor.
pub const MAX_MEM_REGIONS: usize = MAX_ATTACHED_FD_ENTRIES;

/// The size of the head of a memory table, in bytes.
pub const MEMORY_HEAD_SIZE: usize = 8;

/// The size of each region in a memory table, in bytes.
pub const MEMORY_REGION_SIZE: usize = 32;

/// Where the configuration space of a device begins, in bytes.
pub const VHOST_USER_CONFIG_OFFSET: u32 = 0x100;

/// The size of the configuration space of a device, in bytes.
pub const VHOST_USER_CONFIG_SIZE: u32 = 0x1000;

/// The greatest number of rings.
pub const VHOST_USER_MAX_VRINGS: u64 = 0x8000;
