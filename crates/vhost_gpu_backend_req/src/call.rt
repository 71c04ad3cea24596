//! A call of the vhost-user-gpu channel, as a value.

use vhost_gpu_message::{
    GpuBackendReq, VhostUserGpuCursorPos, VhostUserGpuCursorUpdate, VhostUserGpuDMABUFScanout,
    VhostUserGpuDMABUFScanout2, VhostUserGpuEdidRequest, VhostUserGpuMsgHeader,
    VhostUserGpuScanout, VhostUserGpuUpdate,
};
use vhost_message::VhostUserU64;

/// A call of a channel. Pixels are no part of it: its caller sends them behind the message.
#[derive(Drop)]
pub enum GpuCall<H> {
    /// `get_protocol_features`.
    GetProtocolFeatures,
    /// `set_protocol_features`.
    SetProtocolFeatures(VhostUserU64),
    /// `get_display_info`.
    GetDisplayInfo,
    /// `get_edid`.
    GetEdid(VhostUserGpuEdidRequest),
    /// `set_scanout`.
    SetScanout(VhostUserGpuScanout),
    /// `update_scanout`, with how many bytes of pixels there are.
    UpdateScanout(VhostUserGpuUpdate, usize),
    /// `set_dmabuf_scanout`.
    SetDmabufScanout(VhostUserGpuDMABUFScanout, Option<H>),
    /// `set_dmabuf_scanout2`.
    SetDmabufScanout2(VhostUserGpuDMABUFScanout2, Option<H>),
    /// `update_dmabuf_scanout`.
    UpdateDmabufScanout(VhostUserGpuUpdate),
    /// `cursor_pos`.
    CursorPos(VhostUserGpuCursorPos),
    /// `cursor_pos_hide`.
    CursorPosHide(VhostUserGpuCursorPos),
    /// `cursor_update`, with 16384 bytes of pixels.
    CursorUpdate(VhostUserGpuCursorUpdate),
}

/// The record of a reply.
#[derive(Drop, Clone, Copy)]
pub enum GpuReply {
    /// A `VhostUserU64`.
    Features,
    /// A `VirtioGpuRespDisplayInfo`.
    DisplayInfo,
    /// A `VirtioGpuRespGetEdid`.
    Edid,
    /// A `VhostUserEmpty`.
    Empty,
}

impl GpuReply {
    ghost use Rattle.std.specs.Prelude.{◌≡◌};
    ghost use Rattle.vhost_protocol.specs.Gpu.{gpu_record_size};
    ghost use Rattle.vhost_gpu_backend_req.specs.Halves.{reply_in};

    /// How many bytes it has.
    pub fn size(&self) -> usize
        ensures { result ≡ gpu_record_size (reply_in self.now) }
    {
        match self {
            GpuReply::Features => 8,
            GpuReply::DisplayInfo => 408,
            GpuReply::Edid => 1056,
            GpuReply::Empty => 0,
        }
    }
}

/// A reply that is awaited.
#[derive(Drop, Clone, Copy)]
pub struct Awaited {
    /// The header of the request.
    pub request: VhostUserGpuMsgHeader<GpuBackendReq>,
    /// The record of the reply.
    pub reply: GpuReply,
}
