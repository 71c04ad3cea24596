//! The bodies of messages.

mod ctrl_hdr;
mod cursor;
mod display;
mod edid;
mod rect;
mod replies;
mod scanout;

pub use ctrl_hdr::VirtioGpuCtrlHdr;
pub use cursor::{VhostUserGpuCursorPos, VhostUserGpuCursorUpdate};
pub use display::VirtioGpuDisplayOne;
pub use edid::VhostUserGpuEdidRequest;
pub use rect::VirtioGpuRect;
pub use replies::{VirtioGpuRespDisplayInfo, VirtioGpuRespGetEdid};
pub use scanout::{
    VhostUserGpuDMABUFScanout, VhostUserGpuDMABUFScanout2, VhostUserGpuScanout, VhostUserGpuUpdate,
};
