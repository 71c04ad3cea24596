//! The numbers of the system's errors that the protocol tells apart.

/// The call was interrupted.
pub const EINTR: i32 = 4;

/// The call would have to wait.
pub const EAGAIN: i32 = 11;

/// There is no memory left.
pub const ENOMEM: i32 = 12;

/// Permission is denied.
pub const EACCES: i32 = 13;

/// An argument is not allowed.
pub const EINVAL: i32 = 22;

/// The other side no longer reads.
pub const EPIPE: i32 = 32;

/// There is no such call.
pub const ENOSYS: i32 = 38;

/// The other side reset the connection.
pub const ECONNRESET: i32 = 104;

/// There is no room in the system's buffers.
pub const ENOBUFS: i32 = 105;
