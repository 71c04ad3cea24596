//! Messages of the vhost-user-gpu channel: codes, the header, records as bytes, and flags.
#![tactic(auto)]

mod flags;
mod gpu_backend_req;
mod header;
mod limits;
mod records;
mod words;

pub use flags::{VhostUserGpuHeaderFlag, VhostUserGpuProtocolFeatures};
pub use gpu_backend_req::GpuBackendReq;
pub use header::VhostUserGpuMsgHeader;
pub use limits::{MAX_GPU_MSG_SIZE, VIRTIO_GPU_MAX_SCANOUTS};
pub use records::{
    VhostUserGpuCursorPos, VhostUserGpuCursorUpdate, VhostUserGpuDMABUFScanout,
    VhostUserGpuDMABUFScanout2, VhostUserGpuEdidRequest, VhostUserGpuScanout, VhostUserGpuUpdate,
    VirtioGpuCtrlHdr, VirtioGpuDisplayOne, VirtioGpuRect, VirtioGpuRespDisplayInfo,
    VirtioGpuRespGetEdid,
};
