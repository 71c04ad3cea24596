//! A frontend and a backend joined in memory: each call of the one runs through the other. For tests of VMMs, and for tools that
//! watch a migration. The backend channel has its own pair, and the recorder shares one among threads.
#![tactic(auto)]

pub use vhost_frontend_core::{FrontendAnswer, FrontendCall, LogRegion, RegionInfo};
pub use vhost_joined::{Halt, Joined, Stop};
pub use vhost_joined_reverse::{JoinedReverse, ReverseCall};
pub use vhost_recorder::{Entry, Log, Receipt, Recorded, Recorder, Share};
