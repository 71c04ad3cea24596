//! Why lines can't go on.

use std::alloc::AllocError;
use std::fmt::Formatter;
use std::io::ErrorKind;
use std::{fmt, io};
use vhost_joined::Halt;

/// Why the lines can't go on. It is displayed as one line: what failed, and the cause where one is known.
#[derive(Clone, Copy)]
pub enum Fault {
    /// The input could not be read.
    Input(io::Error),
    /// The output could not be written. Nothing is written from then on.
    Output(io::Error),
    /// A link failed, a retry limit was spent, or an allocation failed, in the middle of a call.
    Link,
    /// An allocation failed.
    OutOfMemory,
}

impl From<AllocError> for Fault {
    fn from(_error: AllocError) -> Fault {
        Fault::OutOfMemory
    }
}

impl From<Halt> for Fault {
    fn from(_halt: Halt) -> Fault {
        Fault::OutOfMemory
    }
}

impl fmt::Display for Fault {
    fn fmt<W: fmt::Write>(&self, f: &mut Formatter<W>) -> fmt::Result {
        match self {
            Fault::Input(cause) => write!(f, "input: {cause}"),
            Fault::Output(cause) => write!(f, "output: {cause}"),
            Fault::Link => f.write_str("link: a call could not be carried to its end"),
            Fault::OutOfMemory => f.write_str("memory: an allocation failed"),
        }
    }
}

/// The error of a reader, or of an allocation for what it read.
pub(crate) fn input_fault(error: io::Error) -> Fault {
    match error.kind() {
        ErrorKind::OutOfMemory => Fault::OutOfMemory,
        _ => Fault::Input(error),
    }
}
