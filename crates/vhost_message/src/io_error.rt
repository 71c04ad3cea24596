//! What the handler of the backend channel, and a call of the vhost-user-gpu channel, fail with.

ghost use Rattle.std.specs.Prelude.{◌≡◌};
ghost use Rattle.vhost_message.specs.IoError.{raw_of, IsCauseOf};
ghost use Rattle.vhost_message.specs.declared.io_error.IoError.TheVariants as io;

use crate::cause::IoCause;
use crate::error::Error;
use thiserror::Error as ErrorText;

/// A cause of the system, or an error of the protocol.
#[derive(Debug, Drop, ErrorText)]
pub enum IoError {
    /// The number of the system's error.
    #[error("os error {0}")]
    Raw(i32),
    /// A cause without a number, by its name.
    #[error("{0}")]
    Named(&'static str),
    /// An error of the protocol.
    #[error("{0}")]
    Of(Error),
    /// An error of the protocol, with the step that met it.
    #[error("{0}: {1}")]
    In(&'static str, Error),
}

/// What the handler of a request on the backend channel answers.
pub type HandlerResult<T> = std::result::Result<T, IoError>;

impl IoError {
    /// The number of the system's error; none where the error has no number.
    pub fn raw_os_error(&self) -> Option<i32>
        ensures { result ≡ raw_of self.now }
    {
        match self {
            IoError::Raw(number) => Some(*number),
            _ => None,
        }
    }

    /// The error as a cause: an error of the protocol is named "vhost-user error", or by its step.
    pub fn cause(&self) -> IoCause
        ensures { IsCauseOf self.now result }
    {
        match self {
            IoError::Raw(number) => IoCause::Raw(*number),
            IoError::Named(name) => IoCause::Named(name),
            IoError::Of(_) => IoCause::Named("vhost-user error"),
            IoError::In(place, _) => IoCause::Named(place),
        }
    }
}

impl From<Error> for IoError {
    ghost from_gives = { λ e io_error. io_error ≡ io.Of e };

    fn from(error: Error) -> IoError {
        IoError::Of(error)
    }
}
