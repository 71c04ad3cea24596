//! The definitions of the vhost-user protocol. They stand in `specs/`, in the order of reading that `specs/Lib.antt`
//! gives; here are their laws, each the contract of a function without a body, what a reply may hold, and the profiles.
#![tactic(auto)]

mod asked;
mod features;
pub mod laws;
mod profile;

pub use asked::{Awaited, Shape};
pub use features::{ASKED_PROTOCOL_FEATURES, SERVED_PROTOCOL_FEATURES};
pub use profile::Profile;
