//! Shares of a recorder, which count their calls.

ghost use Rattle.std.specs.Prelude.{◌≡◌, ◌+◌, ◌<◌};
ghost use Rattle.vhost_recorder.specs.Share.{parts_of, count_of, caller_of};

use std::sync::ledger::{Ledger, Share as Part};

/// What a caller of a recorder holds: its number, and a part of the ledger, which counts the caller's calls. It takes no
/// part of the session itself.
#[derive(Drop)]
pub struct Share<L: Ledger> {
    pub(crate) part: Part<L>,
    pub(crate) caller: u32,
}

impl<L: Ledger> Share<L> {
    /// One part for another caller. This share has two parts or more.
    pub fn split(&mut self, caller: u32) -> Share<L>
        requires { 1 < parts_of self.old }
        ensures parts { (parts_of result ≡ 1) × (parts_of self.new + 1 ≡ parts_of self.old) }
        ensures count { (count_of result ≡ 0) × (count_of self.new ≡ count_of self.old) }
        ensures caller { (caller_of result ≡ caller) × (caller_of self.new ≡ caller_of self.old) }
    {
        Share {
            part: self.part.split_off(1, 0),
            caller,
        }
    }

    /// Takes back the parts of another share, and the count of its calls.
    pub fn join(&mut self, other: Share<L>)
        ensures parts { parts_of self.new ≡ parts_of self.old + parts_of other }
        ensures count { count_of self.new ≡ count_of self.old + count_of other }
        ensures caller { caller_of self.new ≡ caller_of self.old }
    {
        let Share { part, caller: _ } = other;
        self.part.merge(part);
    }

    /// Whose share it is.
    pub fn caller(&self) -> u32
        ensures { result ≡ caller_of self.now }
    {
        self.caller
    }
}
