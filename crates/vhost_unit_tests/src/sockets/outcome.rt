//! How calls of sockets went, as plain values.

use vhost_message::{Error, IoCause, Result};

/// How a call went, without what it gave.
#[derive(Clone, Copy, Debug, PartialEq, Eq)]
pub(crate) enum Outcome {
    /// It gave something.
    Given,
    /// It gave nothing, and no error.
    Nothing,
    /// `SocketConnect` with this number of the system.
    Connect(i32),
    /// `SocketConnect` of an error without a number.
    ConnectUnnumbered,
    /// `SocketError` with this number of the system.
    Socket(i32),
    /// `SocketError` of an error without a number.
    SocketUnnumbered,
    /// The device was handed out already.
    HandedOut,
    /// Another error.
    Other,
}

/// The outcome that an error is.
pub(crate) fn outcome_of_error(error: Error) -> Outcome {
    match error {
        Error::SocketConnect(IoCause::Raw(number)) => Outcome::Connect(number),
        Error::SocketConnect(IoCause::Named("io error")) => Outcome::ConnectUnnumbered,
        Error::SocketError(IoCause::Raw(number)) => Outcome::Socket(number),
        Error::SocketError(IoCause::Named("io error")) => Outcome::SocketUnnumbered,
        Error::InvalidOperation("backend already handed out") => Outcome::HandedOut,
        _ => Outcome::Other,
    }
}

/// How a call went that gives a thing or an error.
pub(crate) fn outcome_of<T: Drop>(answer: Result<T>) -> Outcome {
    match answer {
        Ok(_) => Outcome::Given,
        Err(error) => outcome_of_error(error),
    }
}

/// How a call went that may also give nothing.
pub(crate) fn outcome_if_any<T: Drop>(answer: Result<Option<T>>) -> Outcome {
    match answer {
        Ok(Some(_)) => Outcome::Given,
        Ok(None) => Outcome::Nothing,
        Err(error) => outcome_of_error(error),
    }
}
