//! A frontend and a handler joined over links in memory, in lockstep.
#![tactic(auto)]

mod begin;
mod halt;
mod joined;
mod sides;
mod ways;
mod wire;

pub use halt::{Halt, Stop};
pub use joined::Joined;
pub use vhost_frontend_core::{FrontendAnswer, FrontendCall, LogRegion, RegionInfo};
pub use ways::{carry, copy};
pub use wire::Wire;
