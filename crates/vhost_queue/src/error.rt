//! Why memory or a queue can't be used.

ghost use Rattle.std.specs.Prelude.{◌≡◌};
ghost use Rattle.vhost_queue.specs.declared.error.Error.TheVariants.{OutOfMemory};

use std::alloc::AllocError;
use thiserror::Error as ErrorText;

/// Why memory or a queue can't be used. The first group is the frontend's fault, the second the guest's, the third the caller's.
#[derive(Clone, Copy, PartialEq, Eq, Debug, Drop, ErrorText)]
pub enum Error {
    #[error("a region is empty or ends beyond the addresses of 64 bits")]
    InvalidRegion,
    #[error("a region overlaps another")]
    RegionOverlap,
    #[error("too many regions")]
    TooManyRegions,
    #[error("there is no such region")]
    NoSuchRegion,
    #[error("a queue's size is zero, no power of two or too great")]
    InvalidSize,
    #[error("a ring is not aligned")]
    Unaligned,
    #[error("a ring's base is not in the ring")]
    InvalidBase,
    #[error("the inflight region is not that of the queue")]
    InvalidInflight,

    #[error("a range does not lie in one region of guest memory")]
    NotInGuest,
    #[error("a descriptor has no bytes")]
    EmptyDescriptor,
    #[error("a head or a next descriptor is not in its table")]
    NotInTable,
    #[error("a chain has more descriptors than it may")]
    ChainTooLong,
    #[error("a readable descriptor follows a writable one")]
    ReadableAfterWritable,
    #[error("an indirect table was not negotiated, or lies in another")]
    UnexpectedIndirect,
    #[error("a descriptor of an indirect table goes on")]
    IndirectGoesOn,
    #[error("an indirect table's length is zero or no multiple of 16")]
    InvalidIndirectLength,
    #[error("more chains are available than a queue has")]
    TooManyAvailable,
    #[error("a chain is made available again before it was used")]
    HeadInUse,

    #[error("the queue needs a reset")]
    NeedsReset,
    #[error("no chain is available")]
    NothingAvailable,
    #[error("the chain has no further descriptor")]
    ChainEnded,
    #[error("the chain is not the device's")]
    NotHandedOut,
    #[error("out of memory")]
    OutOfMemory,
}

pub type Result<T> = std::result::Result<T, Error>;

impl From<AllocError> for Error {
    ghost from_gives = { λ _ error. error ≡ OutOfMemory };

    fn from(_error: AllocError) -> Error {
        Error::OutOfMemory
    }
}
