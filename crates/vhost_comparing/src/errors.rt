//! Whether two errors are the same.

ghost use Rattle.std.specs.Prelude.{◌≡◌, ◌↔◌, IsTrue};
ghost use Rattle.vhost_protocol.specs.Error.{seen, seen_cause};

use bitflags::Flags;
use vhost_message::{Error, IoCause};

/// Whether both are the same number of the system's error, or the same name.
fn is_same_cause(a: &IoCause, b: &IoCause) -> bool
    ensures { IsTrue result ↔ seen_cause a.now ≡ seen_cause b.now }
{
    match (a, b) {
        (IoCause::Raw(number), IoCause::Raw(other)) => number == other,
        (IoCause::Named(name), IoCause::Named(other)) => name.as_bytes() == other.as_bytes(),
        _ => false,
    }
}

/// Whether both are the same error, with the same cause.
pub fn is_same_error(a: &Error, b: &Error) -> bool
    ensures { IsTrue result ↔ seen a.now ≡ seen b.now }
{
    match a {
        Error::InvalidParam => matches!(b, Error::InvalidParam),
        Error::InvalidOperation(reason) =>
            matches!(b, Error::InvalidOperation(other) if reason.as_bytes() == other.as_bytes()),
        Error::InactiveFeature(feature) =>
            matches!(b, Error::InactiveFeature(other) if feature.bits() == other.bits()),
        Error::InactiveOperation(feature) =>
            matches!(b, Error::InactiveOperation(other) if feature.bits() == other.bits()),
        Error::InvalidMessage => matches!(b, Error::InvalidMessage),
        Error::InvalidSocketFd(cause) =>
            matches!(b, Error::InvalidSocketFd(other) if is_same_cause(cause, other)),
        Error::NotUnixSocket => matches!(b, Error::NotUnixSocket),
        Error::NotStreamSocket => matches!(b, Error::NotStreamSocket),
        Error::PartialMessage => matches!(b, Error::PartialMessage),
        Error::Disconnected => matches!(b, Error::Disconnected),
        Error::OversizedMsg => matches!(b, Error::OversizedMsg),
        Error::IncorrectFds => matches!(b, Error::IncorrectFds),
        Error::SocketError(cause) =>
            matches!(b, Error::SocketError(other) if is_same_cause(cause, other)),
        Error::SocketConnect(cause) =>
            matches!(b, Error::SocketConnect(other) if is_same_cause(cause, other)),
        Error::SocketBroken(cause) =>
            matches!(b, Error::SocketBroken(other) if is_same_cause(cause, other)),
        Error::SocketRetry(cause) =>
            matches!(b, Error::SocketRetry(other) if is_same_cause(cause, other)),
        Error::BackendInternalError => matches!(b, Error::BackendInternalError),
        Error::FrontendInternalError => matches!(b, Error::FrontendInternalError),
        Error::FeatureMismatch => matches!(b, Error::FeatureMismatch),
        Error::ReqHandlerError(cause) =>
            matches!(b, Error::ReqHandlerError(other) if is_same_cause(cause, other)),
        Error::MemFdCreateError => matches!(b, Error::MemFdCreateError),
        Error::FileTruncateError => matches!(b, Error::FileTruncateError),
        Error::MemFdSealError => matches!(b, Error::MemFdSealError),
        Error::OutOfMemory => matches!(b, Error::OutOfMemory),
    }
}
