//! The errors of vhost backends.

ghost use Rattle.std.specs.Prelude.{◌≡◌};
ghost use Rattle.vhost_backend.specs.declared.error.Error.TheVariants.{VhostUserProtocol};

use thiserror::Error as ErrorText;
use vhost_message::IoCause;

/// Why a call of a vhost backend failed.
#[derive(Debug, Drop, ErrorText)]
pub enum Error {
    /// The operation is not allowed in this state.
    #[error("invalid vhost operations")]
    InvalidOperation,
    /// The guest's memory can't be used.
    #[error("invalid guest memory object")]
    InvalidGuestMemory,
    /// A region of the guest's memory can't be used.
    #[error("invalid guest memory region")]
    InvalidGuestMemoryRegion,
    /// A message of the IOTLB is malformed.
    #[error("invalid IOTLB message")]
    InvalidIotlbMsg,
    /// A queue can't be used.
    #[error("invalid virtqueue")]
    InvalidQueue,
    /// A ring's descriptor table does not lie in the guest's memory.
    #[error("invalid virtqueue descriptor table address")]
    DescriptorTableAddress,
    /// A used ring does not lie in the guest's memory.
    #[error("invalid virtqueue used table address")]
    UsedAddress,
    /// An available ring does not lie in the guest's memory.
    #[error("invalid virtqueue available table address")]
    AvailAddress,
    /// Writes are to be logged, but no address says where.
    #[error("invalid virtqueue log address")]
    LogAddress,
    /// The system refused a call.
    #[error("IO error: {0}")]
    IOError(IoCause),
    /// The protocol vhost-user failed.
    #[error("vhost-user: {0}")]
    VhostUserProtocol(vhost_message::Error),
}

/// What a call of a vhost backend answers.
pub type Result<T> = std::result::Result<T, Error>;

impl From<vhost_message::Error> for Error {
    ghost from_gives = { λ e error. error ≡ VhostUserProtocol e };

    fn from(error: vhost_message::Error) -> Error {
        Error::VhostUserProtocol(error)
    }
}
