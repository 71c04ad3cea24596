//! What both sides have in common for programs in C: records, numbers of errors, and what goes between a link in memory and its
//! caller.
#![tactic(auto)]

mod carrying;
mod held;
mod incoming;
mod outgoing;
mod profile;
mod records;
mod refusal;

pub use carrying::{carry_out, empty, forget_sent, hand_out, receive};
pub use held::Held;
pub use incoming::Incoming;
pub use outgoing::Outgoing;
pub use profile::profile_of;
pub use records::{Config, Inflight, Region, Vring, fd_of, handle_of, handles_of, put_fds};
pub use refusal::{Refusal, feature_of, inactive_of, number_of};
