//! The lines of sessions that ended, which one thread at a time writes.

ghost use Rattle.std.specs.Prelude.{◌≡◌, ◌+◌, ◌-◌, ◌<◌, ◌≤◌, ◌^◌, ◌∷◌, Some, None, set, length, IfSome, true, false};

use crate::ends::Ends;
use crate::session::Ended;
use std::alloc::{AllocError, Global};

/// How sessions ended, and whether a thread writes the lines that are due.
///
/// A thread whose session ends takes that on where no other has it, and then writes each line that becomes due meanwhile. So a thread that
/// has to wait for the output is the only one that does.
#[derive(Drop)]
pub(crate) struct Lines {
    ends: Ends,
    has_writer: bool,
}

impl Lines {
    /// Before the first session.
    pub(crate) fn new(alloc: Global) -> Lines
        ensures { result.has_writer ≡ false }
    {
        Lines {
            ends: Ends::new(alloc),
            has_writer: false,
        }
    }

    /// One more session begins.
    pub(crate) fn begin(&mut self) -> Result<(), AllocError>
        ensures { self.new.has_writer ≡ self.old.has_writer }
    {
        self.ends.begin()
    }

    /// A session has ended. Whether the caller is to write the lines that are due, until none is.
    pub(crate) fn end(&mut self, session: u64, ended: Ended) -> bool
        ensures one { self.old.has_writer ≡ true → result ≡ false }
        ensures some { self.old.has_writer ≡ false → result ≡ true }
        ensures taken { self.new.has_writer ≡ true }
    {
        self.ends.end(session, ended);
        let is_free = !self.has_writer;
        self.has_writer = true;
        is_free
    }

    /// The number of the next session and how it ended, if it has. None: no line is due, and the caller no longer writes.
    pub(crate) fn due(&mut self) -> Option<(u64, Ended)>
        ensures due { IfSome result (λ d. (d.0 ≡ self.old.ends.next) × (self.old.ends.ends.items ≡ Some d.1 ∷ self.new.ends.ends.items)) }
        ensures writes { IfSome result (λ _. self.new.has_writer ≡ self.old.has_writer) }
        ensures none { result ≡ None → self.new.has_writer ≡ false }
        ensures same { result ≡ None → self.new.ends ≡ self.old.ends }
    {
        let due = self.ends.due();
        if due.is_none() {
            self.has_writer = false;
        }
        due
    }
}
