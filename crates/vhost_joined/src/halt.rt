//! Why a joined run does not go on.

/// Why a joined step was not done. It changed nothing but that descriptor buffers may be there again.
#[derive(Clone, Copy, Debug, PartialEq, Eq)]
pub enum Halt {
    /// The run has stopped before.
    Stopped,
    /// An allocation for the step failed.
    OutOfMemory,
}

/// Why a joined run stopped.
#[derive(Clone, Copy, Debug, PartialEq, Eq)]
pub enum Stop {
    /// The session has ended. Under `Vhost` also: the handler refused a request without a reply, or the device refused the end
    /// of postcopy.
    Table,
    /// A link failed, a retry limit was spent, or an allocation failed in the middle of a step.
    Premise,
}
