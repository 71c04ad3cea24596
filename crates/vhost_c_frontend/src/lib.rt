//! The frontend for programs in C: a session whose link is its caller's.
#![tactic(auto)]

mod carrying;
mod clients;
mod incoming;
mod session;

pub use session::Session;
