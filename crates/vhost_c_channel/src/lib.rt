//! The backend channel for programs in C: a session of each side, whose link is its caller's. A device's session with a display is
//! of the same form.
#![tactic(auto)]

mod arguments;
mod asking;
mod display;
mod display_records;
mod records;
mod serving;

pub use asking::{Channel, Feature};
pub use display::Display;
pub use display_records::{
    CursorPos, CursorUpdate, DmabufScanout, DmabufScanout2, Scanout, Update,
};
pub use records::{Mmap, name_in};
pub use serving::ChannelServer;
