//! Devices: what a session asks of them.
#![tactic(auto)]

mod device;
mod lock;
mod served;
mod shared;

pub use device::VhostUserBackendReqHandlerMut;
pub use served::SharedDevice;
pub use shared::VhostUserBackendReqHandler;
