//! Descriptors: what a byte of a stream may bring along.

ghost use Rattle.std.specs.Prelude.{Result};

use vhost_message::IoCause;

/// What a descriptor stands for. The crate `vhost` asks a file descriptor for it.
#[derive(Clone, Copy, Debug, PartialEq, Eq)]
pub enum Kind {
    /// No socket.
    NoSocket,
    /// A socket that is no Unix socket.
    NotUnix,
    /// A Unix socket that is no stream.
    NotStream,
    /// A Unix stream socket.
    UnixStream,
}

/// A descriptor that travels with a byte: in the crate `vhost` a file descriptor.
pub trait Handle: Drop {
    ghost use Rattle.vhost_message.specs.declared.cause.IoCause.{IoCause};
    ghost use Rattle.vhost_link.specs.declared.handle.Kind.{Kind};

    /// What asking for the kind may answer.
    ghost kinds: { Self → Result Kind IoCause → Type 0 };

    /// What duplicating may answer.
    ghost duplicates: { Self → Result Self IoCause → Type 0 };

    /// What the descriptor stands for, or why that could not be found out.
    fn kind(&self) -> Result<Kind, IoCause>
        ensures { kinds self.now result };

    /// One more descriptor of the same thing, or why there is none.
    fn duplicate(&self) -> Result<Self, IoCause>
        ensures { duplicates self.now result };
}
