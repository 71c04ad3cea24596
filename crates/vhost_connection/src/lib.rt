//! Endpoints: whole messages over a link.
#![tactic(auto)]

mod ahead;
mod buffer;
mod buffers;
mod endpoint;
mod fault;
mod list;
mod listener;
mod memory;
mod pass;
mod pieces;
mod request;

pub use buffers::{Body, Buffers, new_body};
pub use endpoint::Endpoint;
pub use fault::break_on_fault;
pub use listener::Listener;
pub use memory::talks_law;
pub use pieces::get_sub_iovs_offset;
pub use request::{Request, RequestCode};
