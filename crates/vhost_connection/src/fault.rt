//! An I/O error between a request and the end of its answer.

ghost use Rattle.std.specs.Prelude.{◌≡◌};
ghost use Rattle.vhost_connection.specs.State.{state};
ghost use Rattle.vhost_connection.specs.Hearing.{broken_on};

use crate::endpoint::Endpoint;
use vhost_link::Link;
use vhost_message::{Error, MsgHeader};

/// Poisons the endpoint where a call between a request and the end of its answer met an I/O error of the link, whether or not a
/// byte had moved. Its cause is that of the error, unless the endpoint was poisoned before.
#[cold]
pub fn break_on_fault<M: MsgHeader, L: Link>(end: &mut Endpoint<M, L>, error: &Error)
    ensures { state end.new ≡ broken_on error.now (state end.old) }
{
    match error {
        Error::SocketRetry(cause) => end.break_with(*cause),
        Error::SocketBroken(cause) => end.break_with(*cause),
        Error::SocketConnect(cause) => end.break_with(*cause),
        Error::SocketError(cause) => end.break_with(*cause),
        _ => {}
    }
}
