//! The bodies of messages.

mod config;
mod inflight;
mod log;
mod memory;
mod plain;
mod shared;
mod shmem;
mod table;
mod transfer;
mod vring;

pub use config::{VhostUserConfig, VhostUserConfigPayload};
pub use inflight::VhostUserInflight;
pub use log::VhostUserLog;
pub use memory::{
    VhostUserMemory, VhostUserMemoryPayload, VhostUserMemoryRegion, VhostUserMemoryRegionBase,
    VhostUserSingleMemoryRegion,
};
pub use plain::{VhostUserEmpty, VhostUserU64};
pub use shared::VhostUserSharedMsg;
pub use shmem::{VhostUserMMap, VhostUserShMemConfig};
pub use table::{put_regions, read_front, read_region, read_regions};
pub use transfer::VhostUserTransferDeviceState;
pub use vring::{VhostUserVringAddr, VhostUserVringState};
