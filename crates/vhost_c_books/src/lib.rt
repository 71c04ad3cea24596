//! What becomes of the descriptors that come to a session for programs in C, other than a backend's: worked consequences of the
//! sessions' contracts alone.
#![tactic(auto)]

mod any_session;
mod books;
mod calls;
#[cfg(test)]
mod runs;

pub use any_session::{AnySession, Kind};
pub use books::{Act, Books, keeps_books, opens_books, settles_books};
pub use calls::Call;
