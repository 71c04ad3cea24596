//! What became of a request.

use vhost_message::HandlerResult;

/// The frontend's side was called, or why not.
#[derive(Drop)]
pub enum Asked {
    /// The answer of the frontend's side.
    Answered(HandlerResult<u64>),
    /// The body is not what the request brings.
    BadBody,
    /// The request is known, but not served.
    Unserved,
}
