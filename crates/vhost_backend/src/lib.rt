//! What a VMM asks of a vhost backend, and the data that such calls take.
#![tactic(auto)]

mod backend;
mod dirty_log;
mod error;
mod iotlb;
mod region;
mod ring;
mod wrappers;

pub use backend::{VhostBackend, VhostBackendMut};
pub use dirty_log::VhostUserDirtyLogRegion;
pub use error::{Error, Result};
pub use iotlb::{VhostAccess, VhostIotlbMsg, VhostIotlbType};
pub use region::{VHOST_MAX_MEMORY_REGIONS, VhostUserMemoryRegionInfo};
pub use ring::vring_is_valid;
pub use vhost_message::{VhostUserMemoryRegionBase, VringConfigData};
