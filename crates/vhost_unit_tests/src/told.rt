//! What calls of a backend answered, as a VMM sees it, in plain values.

use vhost_backend::{Error, Result};
use vhost_message::Error as ProtocolError;

/// What a call answered.
#[derive(Clone, Copy, Debug, PartialEq, Eq)]
pub(crate) enum Told {
    Done,
    Number(u64),
    /// BackendInternalError: the device refused.
    Refused,
    /// InvalidOperation: the device is in use.
    InUse,
    /// Any other error.
    Failed,
}

/// What an error says.
fn told_error(error: Error) -> Told {
    match error {
        Error::VhostUserProtocol(ProtocolError::BackendInternalError) => Told::Refused,
        Error::InvalidOperation => Told::InUse,
        _ => Told::Failed,
    }
}

/// What a call answered that gives nothing.
pub(crate) fn done(answer: Result<()>) -> Told {
    match answer {
        Ok(()) => Told::Done,
        Err(error) => told_error(error),
    }
}

/// What a call answered that gives a number.
pub(crate) fn number<N: Into<u64>>(answer: Result<N>) -> Told {
    match answer {
        Ok(number) => Told::Number(number.into()),
        Err(error) => told_error(error),
    }
}

/// What a call may answer of where regions are mapped; the number is how many are.
pub(crate) fn mapped(answer: Result<Option<Vec<u64>>>) -> Told {
    match answer {
        Ok(Some(places)) => Told::Number(places.len() as u64),
        Ok(None) => Told::Done,
        Err(error) => told_error(error),
    }
}
