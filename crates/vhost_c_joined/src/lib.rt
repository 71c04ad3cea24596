//! The sessions of a frontend and of a backend for programs in C, joined, and a backend's that judges what went between two others:
//! worked consequences of their contracts alone.
#![tactic(auto)]

mod joined;
mod judged;
mod wire;

pub use joined::{joined_call, joined_calls, joined_run};
pub use judged::{Exchange, judged_all, judged_run};
pub use wire::Halt;
