//! The log of a recorder that was closed.

ghost use Rattle.std.specs.Prelude.{◌≡◌, ◌↔◌, IsTrue, Contains};
ghost use Rattle.vhost_device.specs.Reached.{by_trait};

use crate::entry::Entry;
use crate::recorded::{Receipt, Recorded};
use std::marker::Model;
use vhost_device::VhostUserBackendReqHandlerMut;
use vhost_joined::Stop;
use vhost_link::MemLink;

/// The log of a recorder that was closed, with the sessions and the device as they were then.
#[derive(Drop)]
pub struct Log<D: VhostUserBackendReqHandlerMut<Link = MemLink>> {
    recorded: Recorded<D>,
}

impl<D: VhostUserBackendReqHandlerMut<Link = MemLink>> Model for Log<D> {
    ghost use Rattle.vhost_recorder.specs.Recording.{Recording};

    ghost Value = { Recording D };

    ghost view = { λ log. log.recorded };
}

impl<D: VhostUserBackendReqHandlerMut<Link = MemLink>> Log<D> {
    ghost use Rattle.vhost_recorder.specs.Recording.{HasLegalLog};

    pub(crate) fn new(recorded: Recorded<D>) -> Self
        ensures { result ≡ recorded }
    {
        Log { recorded }
    }

    /// The entries, in the order in which the calls were done. The log is legal.
    pub fn entries(&self) -> &[Entry]
        ensures entries { result.now ≡ self.now.entries }
        ensures legal { HasLegalLog (by_trait D.gives) self.now }
    {
        self.recorded.entries()
    }

    /// Why the run has stopped, if it has.
    pub fn stopped(&self) -> Option<Stop>
        ensures { result ≡ self.now.joined.stopped }
    {
        self.recorded.stopped()
    }

    /// Whether the log has the receipt's entry, the call and the answer with all their lists.
    pub fn confirms(&self, receipt: &Receipt) -> bool
        ensures { IsTrue result ↔ Contains self.now.entries receipt.now }
    {
        self.recorded.has(receipt)
    }
}
