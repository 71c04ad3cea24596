//! Both sides of the backend channel joined over links in memory, in lockstep.
#![tactic(auto)]

mod joined;
mod sides;

pub use joined::{JoinedReverse, ReverseCall};
pub use vhost_joined::{Halt, Stop};
