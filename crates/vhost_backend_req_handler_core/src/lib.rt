//! Serving a frontend as values: a request becomes a call of the device, and the device's answer becomes what is written.
#![tactic(auto)]

mod answer;
mod call;
mod checks;
mod conclude;
mod fits;
mod incoming;
mod laws;
mod refusal;
mod rows;
mod session;
mod settle;
mod telling;

pub use answer::{Conclusion, ConfigReply, DeviceAnswer, Reply, Then, Told, Verdict};
pub use call::{Area, Begun, DeviceCall, RegionTable};
pub use checks::take_single_file;
pub use conclude::Conclusions;
pub use incoming::Incoming;
pub use laws::{Laws, laws_of_halves};
pub use refusal::Refusal;
pub use rows::Rows;
pub use session::Session;
pub use settle::{Acks, EPROTO, Form, Unanswered};
