//! Serving a frontend: each request is read whole, checked, and answered by its handling rule.
#![tactic(auto)]

mod bases;
mod calling;
mod gate;
mod halves;
mod handler;
mod listener;
mod opening;
mod service;
mod session_core;
mod sizes;
mod telling;

pub use gate::{Gate, Open};
pub use halves::halves_law;
pub use handler::BackendReqHandler;
pub use listener::BackendListener;
pub use session_core::SessionCore;
pub use vhost_device::{VhostUserBackendReqHandler, VhostUserBackendReqHandlerMut};
