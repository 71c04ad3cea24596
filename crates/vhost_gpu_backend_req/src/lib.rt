//! A backend's vhost-user-gpu channel.
#![tactic(auto)]

mod asking;
mod backend;
mod call;
mod exchange;
mod halves;
mod internal;

pub use backend::GpuBackend;
pub use call::{Awaited, GpuCall, GpuReply};
pub use exchange::io_err_convert;
pub use internal::BackendInternal;
