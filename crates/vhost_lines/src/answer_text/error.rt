//! Errors.

ghost use Rattle.std.specs.Prelude.{◌≡◌, ◌++◌, codes};
ghost use Rattle.std.specs.Fmt.{WritesOnOk};
ghost use Rattle.vhost_lines.specs.Errors.{error_text, name_of};
ghost use Rattle.vhost_lines.specs.Numbers.{hex_text};

use bitflags::Flags;
use std::fmt;
use std::fmt::Formatter;
use vhost_message::Error;

/// Shows an error by its name, with the bits that are missing where a feature is.
pub(crate) fn show_error<W: fmt::Write>(error: &Error, f: &mut Formatter<W>) -> fmt::Result
    ensures { WritesOnOk W.write_str_gives f.old result (error_text error.now) f.new }
{
    let name = name_of(error);
    write!(f, "err {name}")?;
    match error {
        Error::InactiveFeature(missing) => show_missing(missing.bits(), f),
        Error::InactiveOperation(missing) => show_missing(missing.bits(), f),
        _ => Ok(()),
    }
}

/// Shows the bits that are missing.
fn show_missing<W: fmt::Write>(bits: u64, f: &mut Formatter<W>) -> fmt::Result
    ensures { WritesOnOk W.write_str_gives f.old result (codes " " ++ hex_text bits) f.new }
{
    write!(f, " 0x{bits:x}")
}

/// The name of an error.
pub fn name_of(error: &Error) -> &'static str
    ensures { result.now ≡ name_of error.now }
{
    match error {
        Error::InvalidParam => "InvalidParam",
        Error::InvalidOperation(_) => "InvalidOperation",
        Error::InactiveFeature(_) => "InactiveFeature",
        Error::InactiveOperation(_) => "InactiveOperation",
        Error::InvalidMessage => "InvalidMessage",
        Error::InvalidSocketFd(_) => "InvalidSocketFd",
        Error::NotUnixSocket => "NotUnixSocket",
        Error::NotStreamSocket => "NotStreamSocket",
        Error::PartialMessage => "PartialMessage",
        Error::Disconnected => "Disconnected",
        Error::OversizedMsg => "OversizedMsg",
        Error::IncorrectFds => "IncorrectFds",
        Error::SocketError(_) => "SocketError",
        Error::SocketConnect(_) => "SocketConnect",
        Error::SocketBroken(_) => "SocketBroken",
        Error::SocketRetry(_) => "SocketRetry",
        Error::BackendInternalError => "BackendInternalError",
        Error::FrontendInternalError => "FrontendInternalError",
        Error::FeatureMismatch => "FeatureMismatch",
        Error::ReqHandlerError(_) => "ReqHandlerError",
        Error::MemFdCreateError => "MemFdCreateError",
        Error::FileTruncateError => "FileTruncateError",
        Error::MemFdSealError => "MemFdSealError",
        Error::OutOfMemory => "OutOfMemory",
    }
}
