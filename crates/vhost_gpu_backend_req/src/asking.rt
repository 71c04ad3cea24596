//! The calls of the vhost-user-gpu channel.

ghost use Rattle.std.specs.Option.{option_map};
ghost use Rattle.vhost_gpu_message.specs.Replies.{display_info_of, edid_of};
ghost use Rattle.vhost_message.specs.Records.{u64_at};
ghost use Rattle.vhost_protocol.specs.Gpu.{GetProtocolFeatures, SetProtocolFeatures, GetDisplayInfo, GetEdid, SetScanout, UpdateScanout, SetDmabufScanout, SetDmabufScanout2, UpdateDmabufScanout, MoveCursor, HideCursor, UpdateCursor};

use crate::internal::BackendInternal;
use vhost_gpu_message::{
    GpuBackendReq, VhostUserGpuCursorPos, VhostUserGpuCursorUpdate, VhostUserGpuDMABUFScanout,
    VhostUserGpuDMABUFScanout2, VhostUserGpuEdidRequest, VhostUserGpuScanout, VhostUserGpuUpdate,
    VirtioGpuRespDisplayInfo, VirtioGpuRespGetEdid,
};
use vhost_link::Link;
use vhost_message::{HandlerResult, VhostUserEmpty, VhostUserU64};

impl<L: Link> BackendInternal<L> {
    ghost use Rattle.vhost_gpu_backend_req.specs.Channel.{channel};
    ghost use Rattle.vhost_gpu_backend_req.specs.Asking.{AsksCall};

    /// Asks for the frontend's features of the vhost-user-gpu protocol: GET_PROTOCOL_FEATURES without a record. The reply is their bits.
    ///
    /// Each error names the step of the call that met it. In("check_state", SocketBroken): the channel was marked as failed;
    /// In("check_state", OutOfMemory): a descriptor buffer could not be allocated; both times nothing was sent.
    /// In("send_header", error): the link failed while the message was sent, or had poisoned the endpoint before.
    /// In("recv_body", error): it failed before the reply was there, which poisons the endpoint; with PartialMessage the
    /// stream ended before, and with InvalidMessage the reply's header is not valid. In("Unexpected reply",
    /// InvalidMessage): what came is no reply to such a request, or brings file descriptors.
    pub fn get_protocol_features(&mut self) -> HandlerResult<VhostUserU64>
        ensures { AsksCall L.event (λ bs. record { value = u64_at 0 bs }) GetProtocolFeatures (channel self.old) result (channel self.new) }
    {
        let code = GpuBackendReq::GET_PROTOCOL_FEATURES;
        self.ask("send_header", code, &VhostUserEmpty)
    }

    /// Sends the accepted protocol features: SET_PROTOCOL_FEATURES with their bits. Nothing is awaited.
    ///
    /// In("check_state", error): as in `get_protocol_features`. In("send_message", error): the link failed while the
    /// message was sent, or had poisoned the endpoint before.
    pub fn set_protocol_features(&mut self, features: &VhostUserU64) -> HandlerResult<()>
        ensures { AsksCall L.event (λ _. tt) (SetProtocolFeatures features.now.value) (channel self.old) result (channel self.new) }
    {
        let code = GpuBackendReq::SET_PROTOCOL_FEATURES;
        self.tell("send_message", code, features, &[], &[])
    }

    /// Asks which screens there are: GET_DISPLAY_INFO without a record. Errors are those of `get_protocol_features`.
    pub fn get_display_info(&mut self) -> HandlerResult<VirtioGpuRespDisplayInfo>
        ensures { AsksCall L.event display_info_of GetDisplayInfo (channel self.old) result (channel self.new) }
    {
        let code = GpuBackendReq::GET_DISPLAY_INFO;
        self.ask("send_header", code, &VhostUserEmpty)
    }

    /// Asks for a screen's description of itself: GET_EDID with the screen's number. Errors are those of
    /// `get_protocol_features`, with In("send_message", error) in the place of In("send_header", error).
    pub fn get_edid(
        &mut self,
        request: &VhostUserGpuEdidRequest,
    ) -> HandlerResult<VirtioGpuRespGetEdid>
        ensures { AsksCall L.event edid_of (GetEdid request.now) (channel self.old) result (channel self.new) }
    {
        self.ask("send_message", GpuBackendReq::GET_EDID, request)
    }

    /// Sets a screen's size, or turns it off where that is 0: SCANOUT. Nothing is awaited, and errors are those of
    /// `set_protocol_features`.
    pub fn set_scanout(&mut self, scanout: &VhostUserGpuScanout) -> HandlerResult<()>
        ensures { AsksCall L.event (λ _. tt) (SetScanout scanout.now) (channel self.old) result (channel self.new) }
    {
        self.tell("send_message", GpuBackendReq::SCANOUT, scanout, &[], &[])
    }

    /// Sends the pixels of a rectangle of a screen: UPDATE with the rectangle, and as many bytes as are given behind it.
    /// Nothing is awaited.
    ///
    /// In("check_state", error): as in `get_protocol_features`. In("send_message_with_payload", OversizedMsg): rectangle and
    /// pixels have more than `MAX_GPU_MSG_SIZE` bytes together, and nothing was sent. In("send_message_with_payload",
    /// error): the link failed while the message was sent, or had poisoned the endpoint before.
    pub fn update_scanout(
        &mut self,
        update: &VhostUserGpuUpdate,
        pixels: &[u8],
    ) -> HandlerResult<()>
        ensures { AsksCall L.event (λ _. tt) (UpdateScanout update.now pixels.now) (channel self.old) result (channel self.new) }
    {
        let code = GpuBackendReq::UPDATE;
        self.tell("send_message_with_payload", code, update, pixels, &[])
    }

    /// Shows a rectangle of a buffer of the graphics card: DMABUF_SCANOUT with the buffer's form, and its file descriptor, if any.
    /// Nothing is awaited, and errors are those of `set_protocol_features`.
    pub fn set_dmabuf_scanout(
        &mut self,
        scanout: &VhostUserGpuDMABUFScanout,
        handle: Option<&L::Handle>,
    ) -> HandlerResult<()>
        ensures { AsksCall L.event (λ _. tt) (SetDmabufScanout scanout.now (option_map (λ h. h.now) handle.entry)) (channel self.old) result (channel self.new) }
    {
        self.tell_with(GpuBackendReq::DMABUF_SCANOUT, scanout, handle)
    }

    /// The same with how the buffer's pixels are laid out: DMABUF_SCANOUT2. Nothing is awaited, and errors are those of
    /// `set_protocol_features`.
    pub fn set_dmabuf_scanout2(
        &mut self,
        scanout: &VhostUserGpuDMABUFScanout2,
        handle: Option<&L::Handle>,
    ) -> HandlerResult<()>
        ensures { AsksCall L.event (λ _. tt) (SetDmabufScanout2 scanout.now (option_map (λ h. h.now) handle.entry)) (channel self.old) result (channel self.new) }
    {
        self.tell_with(GpuBackendReq::DMABUF_SCANOUT2, scanout, handle)
    }

    /// Reports that a rectangle of the buffer has changed: DMABUF_UPDATE. The frontend's reply, which has no record, is
    /// awaited; errors are those of `get_edid`.
    pub fn update_dmabuf_scanout(&mut self, update: &VhostUserGpuUpdate) -> HandlerResult<()>
        ensures { AsksCall L.event (λ _. tt) (UpdateDmabufScanout update.now) (channel self.old) result (channel self.new) }
    {
        let code = GpuBackendReq::DMABUF_UPDATE;
        match self.ask::<VhostUserGpuUpdate, VhostUserEmpty>("send_message", code, update) {
            Ok(_) => Ok(()),
            Err(error) => Err(error),
        }
    }

    /// Moves the cursor: CURSOR_POS. Nothing is awaited, and errors are those of `set_protocol_features`.
    pub fn cursor_pos(&mut self, cursor: &VhostUserGpuCursorPos) -> HandlerResult<()>
        ensures { AsksCall L.event (λ _. tt) (MoveCursor cursor.now) (channel self.old) result (channel self.new) }
    {
        self.tell("send_message", GpuBackendReq::CURSOR_POS, cursor, &[], &[])
    }

    /// Hides the cursor: CURSOR_POS_HIDE. Nothing is awaited, and errors are those of `set_protocol_features`.
    pub fn cursor_pos_hide(&mut self, cursor: &VhostUserGpuCursorPos) -> HandlerResult<()>
        ensures { AsksCall L.event (λ _. tt) (HideCursor cursor.now) (channel self.old) result (channel self.new) }
    {
        let code = GpuBackendReq::CURSOR_POS_HIDE;
        self.tell("send_message", code, cursor, &[], &[])
    }

    /// Gives the cursor an image: CURSOR_UPDATE with its place, and the image's 64 by 64 pixels of 4 bytes behind it.
    /// Nothing is awaited.
    ///
    /// In("check_state", error): as in `get_protocol_features`. In("send_message_with_payload", error): the link failed
    /// while the message was sent, or had poisoned the endpoint before.
    pub fn cursor_update(
        &mut self,
        update: &VhostUserGpuCursorUpdate,
        image: &[u8; 16384],
    ) -> HandlerResult<()>
        ensures { AsksCall L.event (λ _. tt) (UpdateCursor update.now image.now) (channel self.old) result (channel self.new) }
    {
        let code = GpuBackendReq::CURSOR_UPDATE;
        self.tell("send_message_with_payload", code, update, image, &[])
    }
}
