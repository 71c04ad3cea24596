//! A queue and the memory that it sees, as a program in C has them.
#![tactic(auto)]

mod bytes;
mod device_queue;
mod records;
mod refusal;
mod walking;

pub use bytes::as_packed;
pub use device_queue::{DeviceQueue, Ring};
pub use records::{EventWrite, PackedRing, SplitRing, Table, Used, Walked};
pub use refusal::{Refusal, number_of};
