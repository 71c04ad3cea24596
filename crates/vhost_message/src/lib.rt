//! Messages of the vhost-user protocol: codes, headers, records as bytes, flags, and errors.
#![tactic(auto)]

mod backend_req;
mod bits;
mod bytes;
mod cause;
mod descriptors;
pub mod errno;
mod error;
mod flags;
mod frontend_req;
mod header;
pub mod header_bit;
mod heard_req;
mod io_error;
mod limits;
mod postcopy;
pub mod protocol_bit;
mod records;
mod req;
mod transfer_state;
pub mod virtio_bit;
mod vring_config;

pub use backend_req::BackendReq;
pub use bits::has_bit;
pub use bytes::{ByteValued, VhostUserMsgValidator};
pub use cause::IoCause;
pub use descriptors::{DescStatePacked, DescStateSplit, QueueRegionPacked, QueueRegionSplit};
pub use error::{Error, Result};
pub use flags::{
    VhostUserConfigFlags, VhostUserHeaderFlag, VhostUserMMapFlags, VhostUserProtocolFeatures,
    VhostUserVirtioFeatures, VhostUserVringAddrFlags,
};
pub use frontend_req::FrontendReq;
pub use header::VhostUserMsgHeader;
pub use heard_req::HeardReq;
pub use io_error::{HandlerResult, IoError};
pub use limits::{
    MAX_ATTACHED_FD_ENTRIES, MAX_MEM_REGIONS, MAX_MSG_SIZE, MAX_MSG_TEXT, MEMORY_HEAD_SIZE,
    MEMORY_REGION_SIZE, MSG_HEADER_SIZE, VHOST_USER_CONFIG_OFFSET, VHOST_USER_CONFIG_SIZE,
    VHOST_USER_MAX_VRINGS,
};
pub use postcopy::PostcopyState;
pub use records::{
    VhostUserConfig, VhostUserConfigPayload, VhostUserEmpty, VhostUserInflight, VhostUserLog,
    VhostUserMMap, VhostUserMemory, VhostUserMemoryPayload, VhostUserMemoryRegion,
    VhostUserMemoryRegionBase, VhostUserShMemConfig, VhostUserSharedMsg,
    VhostUserSingleMemoryRegion, VhostUserTransferDeviceState, VhostUserU64, VhostUserVringAddr,
    VhostUserVringState, put_regions, read_front, read_region, read_regions,
};
pub use req::{MsgHeader, Req};
pub use transfer_state::{VhostTransferStateDirection, VhostTransferStatePhase};
pub use vring_config::VringConfigData;
