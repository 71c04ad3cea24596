//! The backend for programs in C: a session whose link is its caller's, and whose device is its caller's.
#![tactic(auto)]

mod arguments;
mod calls;
mod clients;
mod held_clients;
mod regions;
mod replies;
mod served;

pub use replies::Reply;
pub use served::Served;
