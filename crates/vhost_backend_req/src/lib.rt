//! The backend's channel to its frontend.
#![tactic(auto)]

mod asking;
mod backend;
mod call;
mod halves;
mod internal;

pub use backend::Backend;
pub use call::{Asked, ReverseCall};
pub use internal::BackendInternal;
