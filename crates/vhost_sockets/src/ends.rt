//! How sessions ended, in the order in which they were accepted.

ghost use Rattle.std.specs.Prelude.{◌≡◌, ◌+◌, ◌-◌, ◌<◌, ◌≤◌, ◌^◌, ◌++◌, ◌∷◌, [], Some, None, List, set, length, IfOk, IfErr, IfSome};

use crate::session::Ended;
use std::alloc::{AllocError, Global};
use std::collections::VecDeque;

/// How sessions ended, from the first one that a line is still due for.
#[derive(Drop)]
pub(crate) struct Ends {
    /// The number of the first of them.
    next: u64,
    /// None: it still runs.
    ends: VecDeque<Option<Ended>>,
}

impl Ends {
    ghost use Rattle.std.specs.Prelude.{Option};
    ghost use Rattle.vhost_sockets.specs.declared.session.Ended.{Ended as EndedValue};

    /// Before the first session.
    pub(crate) fn new(alloc: Global) -> Ends
        ensures next { result.next ≡ 1 }
        ensures none { result.ends.items ≡ [] }
    {
        Ends {
            next: 1,
            ends: VecDeque::new(alloc),
        }
    }

    /// One more session begins.
    pub(crate) fn begin(&mut self) -> Result<(), AllocError>
        ensures next { self.new.next ≡ self.old.next }
        ensures begun { IfOk result (λ _. self.new.ends.items ≡ self.old.ends.items ++ None ∷ []) }
        ensures same { IfErr result (λ _. self.new.ends.items ≡ self.old.ends.items) }
    {
        match self.ends.push_back(None) {
            Ok(()) => Ok(()),
            Err(_) => Err(AllocError),
        }
    }

    /// A session has ended.
    pub(crate) fn end(&mut self, session: u64, ended: Ended)
        ensures next { self.new.next ≡ self.old.next }
        ensures noted { self.old.next ≤ session → session - self.old.next < length self.old.ends.items
            → self.new.ends.items ≡ set self.old.ends.items (session - self.old.next) (Some ended) }
    {
        let Some(place) = session.checked_sub(self.next) else {
            return;
        };
        let Ok(place) = usize::try_from(place) else {
            return;
        };
        if place < self.ends.len() {
            self.ends[place] = Some(ended);
        }
    }

    /// The number of the next session and how it ended, if it has: it is due for its line.
    pub(crate) fn due(&mut self) -> Option<(u64, Ended)>
        ensures due { IfSome result (λ d. (d.0 ≡ self.old.next) × (self.old.ends.items ≡ Some d.1 ∷ self.new.ends.items)) }
        ensures next { IfSome result (λ _. self.old.next + 1 < 2 ^ 64 → self.new.next ≡ self.old.next + 1) }
        ensures none { result ≡ None → (ended : EndedValue) (rest : List (Option EndedValue)) → self.old.ends.items ≡ Some ended ∷ rest → ⊥ }
        ensures same { result ≡ None → self.new ≡ self.old }
    {
        let Some(Some(ended)) = self.ends.front() else {
            return None;
        };
        let due = (self.next, *ended);
        self.ends.pop_front();
        self.next = self.next.saturating_add(1);
        Some(due)
    }
}
