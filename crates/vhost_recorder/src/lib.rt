//! A frontend and a handler joined, behind a lock that callers in many threads share, with a log of
//! their calls.
#![tactic(auto)]

mod copying;
mod entry;
mod log;
mod recorded;
mod recorder;
mod share;

pub use entry::Entry;
pub use log::Log;
pub use recorded::{Receipt, Recorded};
pub use recorder::Recorder;
pub use share::Share;
pub use vhost_joined::{FrontendAnswer, FrontendCall, Halt, LogRegion, RegionInfo, Stop};
