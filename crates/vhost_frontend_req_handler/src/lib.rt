//! Serving the backend channel: each request of a backend is read whole, checked, and answered by its handling rule.
#![tactic(auto)]

mod asked;
mod call;
mod device;
mod handler;
mod lock;
mod numbers;
mod req_core;
mod shared;
mod shared_frontend;

pub use call::{FrontendSideCall, call_device};
pub use device::VhostUserFrontendReqHandlerMut;
pub use handler::FrontendReqHandler;
pub use req_core::{FrontendReqCore, halves_law};
pub use shared::VhostUserFrontendReqHandler;
