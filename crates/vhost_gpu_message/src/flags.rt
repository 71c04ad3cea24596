//! Sets of flags.

mod features;
mod header;

pub use features::VhostUserGpuProtocolFeatures;
pub use header::VhostUserGpuHeaderFlag;
