//! What the lock of a shared session holds.

ghost use Rattle.std.specs.Prelude.{◌≡◌, IfErr};
ghost use Rattle.vhost_message.specs.declared.error.Error.TheVariants.{OutOfMemory};
ghost use Rattle.vhost_frontend.specs.Turn.{Reached};

use crate::quiet::Quiet;
use std::alloc::Global;
use vhost_link::Link;
use vhost_message::Result;

/// A session to which only settings and whole calls have led since it was new.
#[derive(Drop)]
pub(crate) struct Held<L: Link> {
    pub(crate) quiet: Quiet<L>,
    pub ghost reached: { ∥ Reached L.event quiet.inner ∥₁ },
}

impl<L: Link> Held<L> {
    /// A new session over a link, with a backend of at most so many queues and a retry limit for each message.
    ///
    /// OutOfMemory: an allocation failed.
    pub(crate) fn new(alloc: Global, link: L, max_queue_num: u64, budget: u32) -> Result<Self>
        ensures { IfErr result (λ e. e ≡ OutOfMemory) }
    {
        let quiet = Quiet::new(alloc, link, max_queue_num, budget)?;
        Ok(Held { quiet })
    }
}
