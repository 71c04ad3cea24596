//! Why a call of the system failed.

use std::error::Error;
use std::fmt;

/// The number of the system's error, or the name of a cause that has no number.
#[derive(Clone, Copy, Debug)]
pub enum IoCause {
    /// The number of the system's error.
    Raw(i32),
    /// A cause without a number, by its name.
    Named(&'static str),
}

impl fmt::Display for IoCause {
    fn fmt<W: fmt::Write>(&self, f: &mut fmt::Formatter<W>) -> fmt::Result {
        match self {
            IoCause::Raw(number) => write!(f, "os error {number}"),
            IoCause::Named(name) => f.write_str(name),
        }
    }
}

impl Error for IoCause {}
