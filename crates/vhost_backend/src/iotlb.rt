//! Messages of an I/O memory management unit's cache, as plain data.

/// What a device may do with memory.
#[derive(Clone, Copy, Debug, Default, PartialEq, Eq, PartialOrd, Ord)]
pub enum VhostAccess {
    #[default]
    No = 0,
    ReadOnly = 1,
    WriteOnly = 2,
    ReadWrite = 3,
}

/// What a message of the cache is about.
#[derive(Clone, Copy, Debug, Default, PartialEq, Eq, PartialOrd, Ord)]
pub enum VhostIotlbType {
    #[default]
    Empty = 0,
    /// An address was not found.
    Miss = 1,
    /// A mapping is there, or has changed.
    Update = 2,
    /// A mapping is gone.
    Invalidate = 3,
    /// An access was refused.
    AccessFail = 4,
    BatchBegin = 5,
    BatchEnd = 6,
}

/// A message of the cache (vhost-user specification, "An IOTLB message").
#[derive(Clone, Copy, Default)]
pub struct VhostIotlbMsg {
    /// The address that the guest programmed.
    pub iova: u64,
    /// In bytes.
    pub size: u64,
    /// The address in the frontend's memory.
    pub userspace_addr: u64,
    /// What is allowed there.
    pub perm: VhostAccess,
    pub msg_type: VhostIotlbType,
}
