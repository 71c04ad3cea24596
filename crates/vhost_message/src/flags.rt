//! Sets of flags.

mod config;
mod features;
mod header;
mod mapping;
mod ring;

pub use config::VhostUserConfigFlags;
pub use features::{VhostUserProtocolFeatures, VhostUserVirtioFeatures};
pub use header::VhostUserHeaderFlag;
pub use mapping::VhostUserMMapFlags;
pub use ring::VhostUserVringAddrFlags;
