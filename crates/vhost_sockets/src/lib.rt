//! Serving devices at a socket: each connection is a session in a thread of its own.
#![tactic(auto)]

mod ends;
mod failure;
mod fresh;
mod identity;
mod lines;
mod listening;
mod probe;
mod refusals;
mod seen;
mod session;
mod sessions;
mod shared;
mod socket_path;
mod standing;

pub use failure::Failure;
pub use session::{BUDGET, Ended, Unwatched, Watch, serve_session, serve_watched};
pub use sessions::{Options, serve, serve_path};
pub use socket_path::{ClaimError, MAX_PATH, SocketPath};
