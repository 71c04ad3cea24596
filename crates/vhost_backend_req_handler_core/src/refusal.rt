//! Why a request is refused.

ghost use Rattle.std.specs.Prelude.{◌≡◌};
ghost use Rattle.vhost_protocol.specs.Error.{seen};
ghost use Rattle.vhost_backend_req_handler_core.specs.Refusing.{refusal_in};

use bitflags::Flags;
use vhost_message::{Error, VhostUserProtocolFeatures, VhostUserVirtioFeatures};

pub(crate) type Result<T> = std::result::Result<T, Refusal>;

/// Why a request is refused before the device is called.
#[derive(Clone, Copy)]
pub enum Refusal {
    InvalidParam,
    /// InvalidOperation: postcopy was advised already.
    AlreadyAdvised,
    /// InvalidOperation: postcopy was not advised.
    NotAdvised,
    /// InvalidOperation: postcopy does not listen.
    NotListening,
    /// The bits of a virtio feature that is not accepted.
    InactiveFeature(u64),
    /// The bits of a protocol feature that is not accepted.
    InactiveOperation(u64),
    InvalidMessage,
    IncorrectFds,
    FrontendInternalError,
}

impl Refusal {
    /// The error that says so.
    pub fn error(self) -> Error
        ensures { seen result ≡ refusal_in self }
    {
        match self {
            Refusal::InvalidParam => Error::InvalidParam,
            Refusal::AlreadyAdvised => Error::InvalidOperation("postcopy already advised"),
            Refusal::NotAdvised => Error::InvalidOperation("postcopy not advised"),
            Refusal::NotListening => Error::InvalidOperation("postcopy not listening"),
            Refusal::InactiveFeature(bits) => {
                Error::InactiveFeature(VhostUserVirtioFeatures::from_bits_retain(bits))
            }
            Refusal::InactiveOperation(bits) => {
                Error::InactiveOperation(VhostUserProtocolFeatures::from_bits_retain(bits))
            }
            Refusal::InvalidMessage => Error::InvalidMessage,
            Refusal::IncorrectFds => Error::IncorrectFds,
            Refusal::FrontendInternalError => Error::FrontendInternalError,
        }
    }
}
