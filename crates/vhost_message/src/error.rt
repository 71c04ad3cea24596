//! The errors of the protocol.

ghost use Rattle.std.specs.Prelude.{◌≡◌};
ghost use Rattle.vhost_message.specs.Cause.{error_of, is_retry};
ghost use Rattle.vhost_message.specs.Reconnect.{should_reconnect};

use crate::cause::IoCause;
use crate::errno::{EACCES, EAGAIN, ECONNRESET, EINTR, ENOBUFS, ENOMEM, EPIPE};
use crate::flags::{VhostUserProtocolFeatures, VhostUserVirtioFeatures};
use bitflags::Flags;
use thiserror::Error as ErrorText;

/// Why a call of a frontend, a backend or a channel failed.
#[derive(Debug, Drop, ErrorText)]
pub enum Error {
    /// An argument is not allowed.
    #[error("invalid parameters")]
    InvalidParam,
    /// The operation is not allowed in this state; the reason.
    #[error("invalid operation: {0}")]
    InvalidOperation(&'static str),
    /// A virtio feature was not negotiated.
    #[error("inactive feature: {}", .0.bits())]
    InactiveFeature(VhostUserVirtioFeatures),
    /// A protocol feature was not negotiated.
    #[error("inactive protocol operation: {}", .0.bits())]
    InactiveOperation(VhostUserProtocolFeatures),
    /// A message is malformed.
    #[error("invalid message")]
    InvalidMessage,
    /// An attached descriptor is no socket that can be used.
    #[error("invalid AF_UNIX SOCK_STREAM socket fd: {0}")]
    InvalidSocketFd(IoCause),
    /// An attached socket is not of the family AF_UNIX.
    #[error("socket is not AF_UNIX")]
    NotUnixSocket,
    /// An attached socket is not of the type SOCK_STREAM.
    #[error("socket is not SOCK_STREAM")]
    NotStreamSocket,
    /// A message was cut short.
    #[error("partial message")]
    PartialMessage,
    /// The peer closed the connection between two messages.
    #[error("peer disconnected")]
    Disconnected,
    /// A message is longer than its header may say.
    #[error("oversized message")]
    OversizedMsg,
    /// The number of attached descriptors is wrong.
    #[error("wrong number of attached fds")]
    IncorrectFds,
    /// The socket failed.
    #[error("socket error: {0}")]
    SocketError(IoCause),
    /// The peer can't be reached.
    #[error("can't connect to peer: {0}")]
    SocketConnect(IoCause),
    /// The connection can't be used any more.
    #[error("socket is broken: {0}")]
    SocketBroken(IoCause),
    /// The call may be made again.
    #[error("temporary socket error: {0}")]
    SocketRetry(IoCause),
    /// The backend answered a request by an error.
    #[error("backend internal error")]
    BackendInternalError,
    /// The frontend answered a request by an error.
    #[error("Frontend internal error")]
    FrontendInternalError,
    /// Both sides' features don't agree.
    #[error("virtio/protocol features mismatch")]
    FeatureMismatch,
    /// The device, or the handler of the backend channel, failed.
    #[error("handler failed to handle request: {0}")]
    ReqHandlerError(IoCause),
    /// No memory file could be made.
    #[error("handler failed to allocate memfd during get_inflight_fd")]
    MemFdCreateError,
    /// The memory file could not be truncated.
    #[error("handler failed to truncate memfd during get_inflight_fd")]
    FileTruncateError,
    /// The memory file could not be sealed.
    #[error("handler failed to apply seals to memfd during get_inflight_fd")]
    MemFdSealError,
    /// An allocation failed.
    #[error("out of memory")]
    OutOfMemory,
}

/// What a call of the protocol answers.
pub type Result<T> = std::result::Result<T, Error>;

impl From<IoCause> for Error {
    ghost from_gives = { λ cause e. e ≡ error_of cause };

    fn from(cause: IoCause) -> Error {
        match cause {
            _ if cause.is_retry() => Error::SocketRetry(cause),
            IoCause::Raw(ECONNRESET | EPIPE) => Error::SocketBroken(cause),
            IoCause::Raw(EACCES) => Error::SocketConnect(cause),
            _ => Error::SocketError(cause),
        }
    }
}

impl Error {
    /// Whether the connection should be closed and made again.
    pub fn should_reconnect(&self) -> bool
        ensures { result ≡ should_reconnect self.now }
    {
        matches!(
            self,
            Error::PartialMessage
                | Error::SocketBroken(_)
                | Error::BackendInternalError
                | Error::FrontendInternalError
        )
    }
}

impl IoCause {
    /// Whether the call that failed so may simply be made again.
    pub fn is_retry(&self) -> bool
        ensures { result ≡ is_retry self.now }
    {
        matches!(self, IoCause::Raw(EAGAIN | EINTR | ENOBUFS | ENOMEM))
    }
}
