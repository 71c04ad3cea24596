//! Copies of errors.

ghost use Rattle.std.specs.Prelude.{◌≡◌};
ghost use Rattle.vhost_protocol.specs.Error.{seen};

use vhost_message::Error;

/// The same error.
pub fn copy_error(error: &Error) -> Error
    ensures { seen result ≡ seen error.now }
{
    match error {
        Error::InvalidParam => Error::InvalidParam,
        Error::InvalidOperation(reason) => Error::InvalidOperation(*reason),
        Error::InactiveFeature(feature) => Error::InactiveFeature(*feature),
        Error::InactiveOperation(feature) => Error::InactiveOperation(*feature),
        Error::InvalidMessage => Error::InvalidMessage,
        Error::InvalidSocketFd(cause) => Error::InvalidSocketFd(*cause),
        Error::NotUnixSocket => Error::NotUnixSocket,
        Error::NotStreamSocket => Error::NotStreamSocket,
        Error::PartialMessage => Error::PartialMessage,
        Error::Disconnected => Error::Disconnected,
        Error::OversizedMsg => Error::OversizedMsg,
        Error::IncorrectFds => Error::IncorrectFds,
        Error::SocketError(cause) => Error::SocketError(*cause),
        Error::SocketConnect(cause) => Error::SocketConnect(*cause),
        Error::SocketBroken(cause) => Error::SocketBroken(*cause),
        Error::SocketRetry(cause) => Error::SocketRetry(*cause),
        Error::BackendInternalError => Error::BackendInternalError,
        Error::FrontendInternalError => Error::FrontendInternalError,
        Error::FeatureMismatch => Error::FeatureMismatch,
        Error::ReqHandlerError(cause) => Error::ReqHandlerError(*cause),
        Error::MemFdCreateError => Error::MemFdCreateError,
        Error::FileTruncateError => Error::FileTruncateError,
        Error::MemFdSealError => Error::MemFdSealError,
        Error::OutOfMemory => Error::OutOfMemory,
    }
}
