//! The sessions of the backend channel for programs in C, joined, and a device's that is joined to a display: worked consequences of
//! their contracts alone.
#![tactic(auto)]

mod clients;
mod display_clients;
mod joined;
mod joined_display;
mod serving_clients;
mod wire;

pub use clients::reports_changes;
pub use display_clients::sizes_a_screen;
pub use joined::{DoneCall, joined_channel_call, joined_channel_calls, joined_channel_run};
pub use joined_display::{DisplayAnswer, Turn, display_call, display_calls, display_run};
pub use serving_clients::hears_changes;
pub use wire::Halt;
