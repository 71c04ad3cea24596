//! Where connections come from.

use std::fs::Files;
use vhost_connection::Listener;
use vhost_link::UnixLink;
use vhost_message::Result;

/// A listening socket.
pub(crate) trait Listening: Drop {
    /// Takes the next connection. None: the other side gave up, or it would have to wait for one.
    fn accept(&self) -> Result<Option<UnixLink>>;
}

/// One that its owner keeps.
#[derive(Drop)]
pub(crate) struct Lent<'a, F: Files + Drop>(pub(crate) &'a Listener<F>);

impl<'a, F: Files + Drop> Listening for Lent<'a, F> {
    fn accept(&self) -> Result<Option<UnixLink>> {
        self.0.accept()
    }
}
