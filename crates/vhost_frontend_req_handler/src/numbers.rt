//! Answers as numbers, and as what a handler hands on.

ghost use Rattle.std.specs.Prelude.{◌≡◌, ◌<◌, ◌^◌, Option, Some, None};
ghost use Rattle.vhost_protocol.specs.Error.{seen_result};
ghost use Rattle.vhost_protocol.specs.Error.{Raw};
ghost use Rattle.vhost_protocol.specs.IoError.{Because, seen_io, seen_io_result};
ghost use Rattle.vhost_protocol.specs.Reverse.{error_number, result_number, handed_on};

use vhost_message::{Error, HandlerResult, IoError, Result};

/// The number that stands for an answer: its own, or that of its error.
pub fn number_of(answer: &HandlerResult<u64>) -> u64
    ensures number { result ≡ result_number (seen_io_result answer.now) }
    ensures fits { result_number (seen_io_result answer.now) < 2 ^ 64 }
{
    match answer {
        Ok(number) => *number,
        Err(error) => number_of_error(error),
    }
}

/// The number that stands for an error: minus the number of the system's error, or -22 where it has none, or none that
/// could be negated.
fn number_of_error(error: &IoError) -> u64
    ensures { result ≡ error_number (seen_io error.now) }
{
    match error {
        IoError::Raw(number) => negated(*number),
        _ => EINVAL,
    }
}

/// -22, in 64 bits.
pub const EINVAL: u64 = 0xffff_ffff_ffff_ffea;

/// The negative of a number, in 64 bits; of the least number, -22.
fn negated(number: i32) -> u64
    ensures { result ≡ error_number (Because (Raw number)) }
{
    if number == i32::MIN {
        return EINVAL;
    }
    let size = u64::from(number.unsigned_abs());
    if number < 0 {
        return size;
    }
    0u64.wrapping_sub(size)
}

/// The answer of the frontend's side, as the handler hands it on.
pub fn hand_on(answer: HandlerResult<u64>) -> Result<u64>
    ensures { seen_result result ≡ handed_on (seen_io_result answer) }
{
    match answer {
        Ok(number) => Ok(number),
        Err(error) => Err(Error::ReqHandlerError(error.cause())),
    }
}
