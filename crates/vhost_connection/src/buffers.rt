//! The buffers of an endpoint, made before its link is there.

ghost use Rattle.std.specs.Prelude.{◌≡◌, [], IfErr};
ghost use Rattle.vhost_message.specs.declared.error.Error.TheVariants.{OutOfMemory};
ghost use Rattle.vhost_connection.specs.Ahead.{waiting};

use crate::buffer::ReadAhead;
use crate::list::HandleList;
use std::alloc::Global;
use vhost_message::{Error, MAX_MSG_SIZE, MAX_MSG_TEXT, Result};

/// The bytes of one message: a header and the greatest body.
pub(crate) type Text = [u8; MAX_MSG_TEXT];

/// Room for the body of a request.
pub type Body = Box<[u8; MAX_MSG_SIZE]>;

/// What an endpoint allocates: a buffer for what is received ahead and one for a message, and descriptor buffers.
#[derive(Drop)]
pub struct Buffers<H> {
    pub(crate) ahead: ReadAhead,
    pub(crate) text: Box<Text>,
    pub(crate) list: HandleList<H>,
    pub(crate) spare: HandleList<H>,
    pub(crate) alloc: Global,
    ghost empty: { waiting ahead ≡ [] },
}

impl<H: Drop> Buffers<H> {
    /// OutOfMemory: an allocation failed.
    pub fn new(alloc: Global) -> Result<Self>
        ensures { IfErr result (λ e. e ≡ OutOfMemory) }
    {
        let (Ok(ahead), Ok(text), Ok(list), Ok(spare)) = (
            ReadAhead::new(alloc),
            Box::new(alloc, [0; MAX_MSG_TEXT]),
            HandleList::new(alloc),
            HandleList::new(alloc),
        ) else {
            return Err(Error::OutOfMemory);
        };
        Ok(Buffers {
            ahead,
            text,
            list,
            spare,
            alloc,
        })
    }
}

/// Room for the body of a request.
///
/// OutOfMemory: its allocation failed.
pub fn new_body(alloc: Global) -> Result<Body>
    ensures { IfErr result (λ e. e ≡ OutOfMemory) }
{
    match Box::new(alloc, [0; MAX_MSG_SIZE]) {
        Ok(body) => Ok(body),
        Err(_) => Err(Error::OutOfMemory),
    }
}
