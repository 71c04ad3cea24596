//! Why a call from C was refused, as a number.

ghost use Rattle.std.specs.Prelude.{◌≡◌};
ghost use Rattle.vhost_c_queue.specs.Number.{error_number, outcome_number};

use vhost_queue::Error;

/// Why a call from C was refused.
#[derive(Clone, Copy, PartialEq, Eq, Debug, Drop)]
pub enum Refusal {
    /// By the queue, or by its memory.
    Queue(Error),
    /// There is no queue.
    NoQueue,
    /// There is a queue already.
    QueueOpen,
    /// The queue has no rings.
    NotStarted,
    /// The queue has rings of the other layout.
    OtherLayout,
    /// The caller's buffer is too small.
    NoRoom,
}

impl From<Error> for Refusal {
    ghost use Rattle.std.specs.Prelude.{◌≡◌};
    ghost use Rattle.vhost_c_queue.specs.declared.refusal.Refusal.TheVariants.{Queue};

    ghost from_gives = { λ error refusal. refusal ≡ Queue error };

    fn from(error: Error) -> Refusal {
        Refusal::Queue(error)
    }
}

fn error_number(error: Error) -> u32
    ensures { result ≡ error_number error }
{
    match error {
        Error::InvalidRegion => 1,
        Error::RegionOverlap => 2,
        Error::TooManyRegions => 3,
        Error::NoSuchRegion => 4,
        Error::InvalidSize => 5,
        Error::Unaligned => 6,
        Error::InvalidBase => 7,
        Error::InvalidInflight => 8,
        Error::NotInGuest => 9,
        Error::EmptyDescriptor => 10,
        Error::NotInTable => 11,
        Error::ChainTooLong => 13,
        Error::ReadableAfterWritable => 14,
        Error::UnexpectedIndirect => 15,
        Error::IndirectGoesOn => 16,
        Error::InvalidIndirectLength => 17,
        Error::TooManyAvailable => 18,
        Error::HeadInUse => 19,
        Error::NeedsReset => 20,
        Error::NothingAvailable => 21,
        Error::ChainEnded => 22,
        Error::NotHandedOut => 23,
        Error::OutOfMemory => 24,
    }
}

/// What a call answers to C: 0, or the number of its refusal.
pub fn number_of(outcome: Result<(), Refusal>) -> u32
    ensures { result ≡ outcome_number outcome }
{
    match outcome {
        Ok(()) => 0,
        Err(Refusal::Queue(error)) => error_number(error),
        Err(Refusal::NoQueue) => 101,
        Err(Refusal::QueueOpen) => 102,
        Err(Refusal::NotStarted) => 103,
        Err(Refusal::OtherLayout) => 104,
        Err(Refusal::NoRoom) => 105,
    }
}
