//! File descriptors that the example device has to give out.

ghost use Rattle.std.specs.Prelude.{◌≡◌, List, is_ok};
ghost use Rattle.vhost_dummy_backend.specs.Spares.{IsLast, IsLastCopied, left};
ghost use Rattle.vhost_protocol.specs.Error.{seen_result};

use std::marker::Model;
use vhost_link::Handle;
use vhost_message::{Error, Result};

/// File descriptors that are given out, the last one first.
#[derive(Drop)]
pub struct Spares<H: Handle> {
    handles: Vec<H>,
}

impl<H: Handle> Model for Spares<H> {
    ghost Value = { List H };

    ghost view = { λ spares. spares.handles.items };
}

impl<H: Handle> Spares<H> {
    /// These file descriptors.
    pub fn new(handles: Vec<H>) -> Self
        ensures { result ≡ handles.items }
    {
        Spares { handles }
    }

    /// Moves the last file descriptor out.
    ///
    /// InvalidParam: there is none.
    pub fn take(&mut self) -> Result<H>
        ensures last { IsLast self.old (seen_result result) }
        ensures left { self.new ≡ left (is_ok result) self.old }
    {
        self.handles.pop().ok_or(Error::InvalidParam)
    }

    /// Moves the last file descriptor out, and a copy of it.
    ///
    /// InvalidParam: there is none. ReqHandlerError: it can't be copied, and stays.
    pub fn take_copied(&mut self) -> Result<(H, H)>
        ensures last { IsLastCopied H.duplicates self.old (seen_result result) }
        ensures left { self.new ≡ left (is_ok result) self.old }
    {
        let Some(file) = self.handles.last() else {
            return Err(Error::InvalidParam);
        };
        match file.duplicate() {
            Ok(copy) => match self.handles.pop() {
                Some(file) => Ok((file, copy)),
                None => Err(Error::InvalidParam),
            },
            Err(cause) => Err(Error::ReqHandlerError(cause)),
        }
    }
}
