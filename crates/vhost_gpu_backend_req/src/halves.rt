//! The halves of a call, where the call is a value.

ghost use Rattle.std.specs.Prelude.{◌≡◌, ◌≤◌, ℕ, List, length, true, Some};
ghost use Rattle.vhost_gpu_message.specs.GpuHeader.{gpu_fields_of};
ghost use Rattle.vhost_message.specs.declared.limits.TheConstants.{MAX_MSG_SIZE};
ghost use Rattle.vhost_protocol.specs.Gpu.{gpu_record_size, gpu_row, gpu_take, sent_by};
ghost use Rattle.vhost_protocol.specs.Gpu as gpu;
ghost use Rattle.vhost_protocol.specs.IoError.{seen_io_result};
ghost use Rattle.vhost_gpu_backend_req.specs.Halves.{call_in, code_in, pixels_of, replies_to};

use crate::call::{Awaited, GpuCall, GpuReply};
use crate::internal::{BackendInternal, Header};
use vhost_gpu_message::GpuBackendReq;
use vhost_link::Link;
use vhost_message::{HandlerResult, VhostUserEmpty, VhostUserMsgValidator};

/// The pixels of a cursor's image, in bytes.
const CURSOR_SIZE: usize = 16384;

impl<L: Link> BackendInternal<L> {
    ghost use Rattle.vhost_gpu_backend_req.specs.Asking.{RecvsRecord};
    ghost use Rattle.vhost_gpu_backend_req.specs.Channel.{channel};
    ghost use Rattle.vhost_gpu_backend_req.specs.Halves.{AsksHalf, SendsFront};

    /// Sends the message of a call, but for its pixels, which its caller sends behind it: the reply that is awaited, if any. Errors
    /// are those of the whole call before a reply is awaited.
    pub fn ask_half(&mut self, call: &GpuCall<L::Handle>) -> HandlerResult<Option<Awaited>>
        ensures { (pixels : List ℕ) → length pixels ≡ pixels_of call.now → AsksHalf L.event (call_in call.now pixels) (channel self.old) result (channel self.new) }
    {
        let request = self.send_call(call)?;
        match reply_of(call) {
            Some(reply) => Ok(Some(Awaited { request, reply })),
            None => Ok(None),
        }
    }

    /// Sends the message of a call, but for its pixels.
    fn send_call(&mut self, call: &GpuCall<L::Handle>) -> HandlerResult<Header>
        ensures { (pixels : List ℕ) → length pixels ≡ pixels_of call.now
            → SendsFront L.event (sent_by (call_in call.now pixels)) (gpu_row (call_in call.now pixels)) (channel self.old) result (channel self.new) }
    {
        let code = code_of(call);
        match call {
            GpuCall::GetProtocolFeatures | GpuCall::GetDisplayInfo => {
                self.send_front("send_header", code, &VhostUserEmpty, 0, &[])
            }
            GpuCall::SetProtocolFeatures(n) => self.send_front("send_message", code, n, 0, &[]),
            GpuCall::GetEdid(request) => self.send_front("send_message", code, request, 0, &[]),
            GpuCall::SetScanout(scanout) => self.send_front("send_message", code, scanout, 0, &[]),
            GpuCall::UpdateScanout(update, pixels) => {
                self.send_front("send_message_with_payload", code, update, *pixels, &[])
            }
            GpuCall::SetDmabufScanout(scanout, handle) => self.send_with(code, scanout, handle),
            GpuCall::SetDmabufScanout2(scanout, handle) => self.send_with(code, scanout, handle),
            GpuCall::UpdateDmabufScanout(update) => {
                self.send_front("send_message", code, update, 0, &[])
            }
            GpuCall::CursorPos(cursor) | GpuCall::CursorPosHide(cursor) => {
                self.send_front("send_message", code, cursor, 0, &[])
            }
            GpuCall::CursorUpdate(update) => {
                self.send_front("send_message_with_payload", code, update, CURSOR_SIZE, &[])
            }
        }
    }

    /// Receives the reply to a request that was sent, as a record. Errors are those of the whole call once its request was sent.
    pub fn take_half<T: VhostUserMsgValidator + Drop>(
        &mut self,
        request: &Header,
    ) -> HandlerResult<T>
        requires { T.SIZE ≤ MAX_MSG_SIZE }
        ensures same { channel self.new ≡ record (channel self.old) { endpoint = (channel self.new).endpoint } }
        ensures taken { (reply : gpu.GpuReply) → gpu_record_size reply ≡ T.SIZE → ((bs : List ℕ) → T.valid (T.read bs) ≡ true)
            → RecvsRecord L.event T.read (gpu_take (Some reply) (gpu_fields_of request.now)) (channel self.old).endpoint (seen_io_result result) (channel self.new).endpoint }
    {
        self.recv_record(request)
    }
}

/// The code of a call's request.
fn code_of<H>(call: &GpuCall<H>) -> GpuBackendReq
    ensures { result ≡ code_in call.now }
{
    match call {
        GpuCall::GetProtocolFeatures => GpuBackendReq::GET_PROTOCOL_FEATURES,
        GpuCall::SetProtocolFeatures(_) => GpuBackendReq::SET_PROTOCOL_FEATURES,
        GpuCall::GetDisplayInfo => GpuBackendReq::GET_DISPLAY_INFO,
        GpuCall::GetEdid(_) => GpuBackendReq::GET_EDID,
        GpuCall::SetScanout(_) => GpuBackendReq::SCANOUT,
        GpuCall::UpdateScanout(_, _) => GpuBackendReq::UPDATE,
        GpuCall::SetDmabufScanout(_, _) => GpuBackendReq::DMABUF_SCANOUT,
        GpuCall::SetDmabufScanout2(_, _) => GpuBackendReq::DMABUF_SCANOUT2,
        GpuCall::UpdateDmabufScanout(_) => GpuBackendReq::DMABUF_UPDATE,
        GpuCall::CursorPos(_) => GpuBackendReq::CURSOR_POS,
        GpuCall::CursorPosHide(_) => GpuBackendReq::CURSOR_POS_HIDE,
        GpuCall::CursorUpdate(_) => GpuBackendReq::CURSOR_UPDATE,
    }
}

/// The record of the reply that a call awaits, if any.
fn reply_of<H>(call: &GpuCall<H>) -> Option<GpuReply>
    ensures { replies_to call.now result }
{
    match call {
        GpuCall::GetProtocolFeatures => Some(GpuReply::Features),
        GpuCall::GetDisplayInfo => Some(GpuReply::DisplayInfo),
        GpuCall::GetEdid(_) => Some(GpuReply::Edid),
        GpuCall::UpdateDmabufScanout(_) => Some(GpuReply::Empty),
        _ => None,
    }
}
