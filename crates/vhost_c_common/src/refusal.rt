//! Why a call from C was refused, as a number.

ghost use Rattle.std.specs.Prelude.{◌≡◌};
ghost use Rattle.vhost_c_common.specs.Number.{error_number as number_in, number, outcome_number, feature_in, inactive_in};

use bitflags::Flags;
use vhost_message::Error;

/// Why a call from C was refused.
#[derive(Drop)]
pub enum Refusal {
    /// By the protocol, or because an allocation failed.
    Protocol(Error),
    /// There is no session.
    NoSession,
    /// There is a session already.
    SessionOpen,
    /// An answer is still to be decoded.
    NotTaken,
    /// Nothing was asked.
    NothingAsked,
    /// The answer has not come whole.
    NotYet,
    /// More bytes than are missing.
    TooManyBytes,
    /// The caller's buffer is too small.
    NoRoom,
    /// The answer has another form.
    OtherAnswer,
    /// The call before is still to be replied to.
    NotReplied,
    /// No call is to be replied to, or it has another form.
    OtherCall,
}

impl From<Error> for Refusal {
    ghost use Rattle.std.specs.Prelude.{◌≡◌};
    ghost use Rattle.vhost_c_common.specs.declared.refusal.Refusal.TheVariants.{Protocol};

    ghost from_gives = { λ error refusal. refusal ≡ Protocol error };

    fn from(error: Error) -> Refusal {
        Refusal::Protocol(error)
    }
}

impl Refusal {
    /// The number of `enum covretin_error`.
    fn number(&self) -> u32
        ensures { result ≡ number self.now }
    {
        match self {
            Refusal::Protocol(error) => error_number(error),
            Refusal::NoSession => 101,
            Refusal::SessionOpen => 102,
            Refusal::NotTaken => 103,
            Refusal::NothingAsked => 104,
            Refusal::NotYet => 105,
            Refusal::TooManyBytes => 106,
            Refusal::NoRoom => 107,
            Refusal::OtherAnswer => 108,
            Refusal::NotReplied => 109,
            Refusal::OtherCall => 110,
        }
    }
}

fn error_number(error: &Error) -> u32
    ensures { result ≡ number_in error.now }
{
    match error {
        Error::InvalidParam => 1,
        Error::InvalidOperation(_) => 2,
        Error::InactiveFeature(_) => 3,
        Error::InactiveOperation(_) => 4,
        Error::InvalidMessage => 5,
        Error::InvalidSocketFd(_) => 6,
        Error::NotUnixSocket => 7,
        Error::NotStreamSocket => 8,
        Error::PartialMessage => 9,
        Error::Disconnected => 10,
        Error::OversizedMsg => 11,
        Error::IncorrectFds => 12,
        Error::SocketError(_) => 13,
        Error::SocketConnect(_) => 14,
        Error::SocketBroken(_) => 15,
        Error::SocketRetry(_) => 16,
        Error::BackendInternalError => 17,
        Error::FrontendInternalError => 18,
        Error::FeatureMismatch => 19,
        Error::ReqHandlerError(_) => 20,
        Error::MemFdCreateError => 21,
        Error::FileTruncateError => 22,
        Error::MemFdSealError => 23,
        Error::OutOfMemory => 24,
    }
}

/// What a call answers to C: 0, or the number of its refusal.
pub fn number_of(outcome: Result<(), Refusal>) -> u32
    ensures { result ≡ outcome_number outcome }
{
    match outcome {
        Ok(()) => 0,
        Err(refusal) => refusal.number(),
    }
}

/// The feature that was not active, where an error says so; else 0.
pub fn feature_of(error: &Error) -> u64
    ensures { result ≡ feature_in error.now }
{
    match error {
        Error::InactiveFeature(feature) => feature.bits(),
        Error::InactiveOperation(feature) => feature.bits(),
        _ => 0,
    }
}

/// The feature that was not active, where that is why a call was refused; else 0.
pub fn inactive_of(outcome: &Result<(), Refusal>) -> u64
    ensures { result ≡ inactive_in outcome.now }
{
    match outcome {
        Err(Refusal::Protocol(error)) => feature_of(error),
        _ => 0,
    }
}
