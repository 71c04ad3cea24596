//! The vhost-user-gpu channel, which clones share.

ghost use Rattle.std.specs.Prelude.{◌≡◌, IfOk, IfErr};
ghost use Rattle.std.specs.Option.{option_map};
ghost use Rattle.vhost_gpu_message.specs.Replies.{display_info_of, edid_of};
ghost use Rattle.vhost_message.specs.Records.{u64_at};
ghost use Rattle.vhost_message.specs.declared.error.Error.TheVariants.{OutOfMemory};
ghost use Rattle.vhost_protocol.specs.Gpu.{GetProtocolFeatures, SetProtocolFeatures, GetDisplayInfo, GetEdid, SetScanout, UpdateScanout, SetDmabufScanout, SetDmabufScanout2, UpdateDmabufScanout, MoveCursor, HideCursor, UpdateCursor};

use crate::internal::BackendInternal;
use std::alloc::{AllocError, Global};
use std::snapshot::Snapshot;
use std::sync::{Arc, Mutex, Wait};
use vhost_gpu_message::{
    VhostUserGpuCursorPos, VhostUserGpuCursorUpdate, VhostUserGpuDMABUFScanout,
    VhostUserGpuDMABUFScanout2, VhostUserGpuEdidRequest, VhostUserGpuScanout, VhostUserGpuUpdate,
    VirtioGpuRespDisplayInfo, VirtioGpuRespGetEdid,
};
use vhost_link::Link;
use vhost_message::{Error, HandlerResult, Result, VhostUserU64};

/// What clones of a channel share: the channel itself behind a lock, and what it was opened with, for contracts alone.
#[derive(Drop)]
struct Shared<L: Link> {
    channel: Mutex<BackendInternal<L>>,
    link: Snapshot<L>,
    budget: Snapshot<u32>,
}

/// A channel that is not shared yet, and what it was opened with.
#[derive(Drop)]
struct Unshared<L: Link> {
    channel: BackendInternal<L>,
    link: Snapshot<L>,
    budget: Snapshot<u32>,
}

impl<L: Link> Unshared<L> {
    ghost use Rattle.vhost_gpu_backend_req.specs.Channel.{channel, opened};

    /// Opens a channel over a link, with a retry limit.
    ///
    /// OutOfMemory: an allocation failed.
    fn new(alloc: Global, link: L, budget: u32) -> Result<Self>
        ensures own { IfOk result (λ new. channel new.channel ≡ opened new.link.value new.budget.value) }
        ensures over { IfOk result (λ new. (new.link.value ≡ link) × (new.budget.value ≡ budget)) }
        ensures memory { IfErr result (λ e. e ≡ OutOfMemory) }
    {
        Ok(Unshared {
            link: Snapshot::of(&link),
            budget: Snapshot::of(&budget),
            channel: BackendInternal::from_stream(alloc, link, budget)?,
        })
    }

    /// Puts the channel behind its lock.
    fn share(self) -> Shared<L>
        ensures { (result.link.value ≡ self.link.value) × (result.budget.value ≡ self.budget.value) }
    {
        let Unshared {
            channel,
            link,
            budget,
        } = self;
        Shared {
            channel: Mutex::new(channel),
            link,
            budget,
        }
    }
}

/// The vhost-user-gpu channel, which a device is given by VHOST_USER_GPU_SET_SOCKET. It can be shared: clones are the same
/// channel. Each call is that of `BackendInternal`, whole in one turn with the lock: also a failure is that of the channel
/// which it found there.
///
/// Mirrors `vhost::vhost_user::GpuBackend`.
#[derive(Drop)]
pub struct GpuBackend<L: Link> {
    inner: Arc<Shared<L>, Global>,
}

impl<L: Link> GpuBackend<L> {
    ghost use Rattle.vhost_gpu_backend_req.specs.Asking.{AsksCall};
    ghost use Rattle.vhost_gpu_backend_req.specs.Opened.{IsOver};
    ghost use Rattle.vhost_gpu_backend_req.specs.Turn.{Turn};

    /// A channel over a link. Each message may use at most so many retries.
    ///
    /// OutOfMemory: an allocation failed.
    pub fn from_stream(alloc: Global, link: L, budget: u32) -> Result<Self>
        ensures opened { IfOk result (λ channel. IsOver channel link budget) }
        ensures memory { IfErr result (λ e. e ≡ OutOfMemory) }
    {
        let shared = Unshared::new(alloc, link, budget)?.share();
        match Arc::new(alloc, shared) {
            Ok(inner) => Ok(GpuBackend { inner }),
            Err(_) => Err(Error::OutOfMemory),
        }
    }

    /// `BackendInternal::get_protocol_features` under the lock.
    pub fn get_protocol_features(&self, rt: &impl Wait) -> HandlerResult<VhostUserU64>
        ensures { Turn (AsksCall L.event (λ bs. record { value = u64_at 0 bs }) GetProtocolFeatures) result }
    {
        self.inner.channel.lock(rt).get_protocol_features()
    }

    /// `BackendInternal::set_protocol_features` under the lock.
    pub fn set_protocol_features(
        &self,
        rt: &impl Wait,
        features: &VhostUserU64,
    ) -> HandlerResult<()>
        ensures { Turn (AsksCall L.event (λ _. tt) (SetProtocolFeatures features.now.value)) result }
    {
        self.inner.channel.lock(rt).set_protocol_features(features)
    }

    /// `BackendInternal::get_display_info` under the lock.
    pub fn get_display_info(&self, rt: &impl Wait) -> HandlerResult<VirtioGpuRespDisplayInfo>
        ensures { Turn (AsksCall L.event display_info_of GetDisplayInfo) result }
    {
        self.inner.channel.lock(rt).get_display_info()
    }

    /// `BackendInternal::get_edid` under the lock.
    pub fn get_edid(
        &self,
        rt: &impl Wait,
        request: &VhostUserGpuEdidRequest,
    ) -> HandlerResult<VirtioGpuRespGetEdid>
        ensures { Turn (AsksCall L.event edid_of (GetEdid request.now)) result }
    {
        self.inner.channel.lock(rt).get_edid(request)
    }

    /// `BackendInternal::set_scanout` under the lock.
    pub fn set_scanout(&self, rt: &impl Wait, scanout: &VhostUserGpuScanout) -> HandlerResult<()>
        ensures { Turn (AsksCall L.event (λ _. tt) (SetScanout scanout.now)) result }
    {
        self.inner.channel.lock(rt).set_scanout(scanout)
    }

    /// `BackendInternal::update_scanout` under the lock.
    pub fn update_scanout(
        &self,
        rt: &impl Wait,
        update: &VhostUserGpuUpdate,
        pixels: &[u8],
    ) -> HandlerResult<()>
        ensures { Turn (AsksCall L.event (λ _. tt) (UpdateScanout update.now pixels.now)) result }
    {
        self.inner.channel.lock(rt).update_scanout(update, pixels)
    }

    /// `BackendInternal::set_dmabuf_scanout` under the lock.
    pub fn set_dmabuf_scanout(
        &self,
        rt: &impl Wait,
        scanout: &VhostUserGpuDMABUFScanout,
        handle: Option<&L::Handle>,
    ) -> HandlerResult<()>
        ensures { Turn (AsksCall L.event (λ _. tt) (SetDmabufScanout scanout.now (option_map (λ h. h.now) handle.entry))) result }
    {
        self.inner
            .channel
            .lock(rt)
            .set_dmabuf_scanout(scanout, handle)
    }

    /// `BackendInternal::set_dmabuf_scanout2` under the lock.
    pub fn set_dmabuf_scanout2(
        &self,
        rt: &impl Wait,
        scanout: &VhostUserGpuDMABUFScanout2,
        handle: Option<&L::Handle>,
    ) -> HandlerResult<()>
        ensures { Turn (AsksCall L.event (λ _. tt) (SetDmabufScanout2 scanout.now (option_map (λ h. h.now) handle.entry))) result }
    {
        self.inner
            .channel
            .lock(rt)
            .set_dmabuf_scanout2(scanout, handle)
    }

    /// `BackendInternal::update_dmabuf_scanout` under the lock.
    pub fn update_dmabuf_scanout(
        &self,
        rt: &impl Wait,
        update: &VhostUserGpuUpdate,
    ) -> HandlerResult<()>
        ensures { Turn (AsksCall L.event (λ _. tt) (UpdateDmabufScanout update.now)) result }
    {
        self.inner.channel.lock(rt).update_dmabuf_scanout(update)
    }

    /// `BackendInternal::cursor_pos` under the lock.
    pub fn cursor_pos(&self, rt: &impl Wait, cursor: &VhostUserGpuCursorPos) -> HandlerResult<()>
        ensures { Turn (AsksCall L.event (λ _. tt) (MoveCursor cursor.now)) result }
    {
        self.inner.channel.lock(rt).cursor_pos(cursor)
    }

    /// `BackendInternal::cursor_pos_hide` under the lock.
    pub fn cursor_pos_hide(
        &self,
        rt: &impl Wait,
        cursor: &VhostUserGpuCursorPos,
    ) -> HandlerResult<()>
        ensures { Turn (AsksCall L.event (λ _. tt) (HideCursor cursor.now)) result }
    {
        self.inner.channel.lock(rt).cursor_pos_hide(cursor)
    }

    /// `BackendInternal::cursor_update` under the lock.
    pub fn cursor_update(
        &self,
        rt: &impl Wait,
        update: &VhostUserGpuCursorUpdate,
        image: &[u8; 16384],
    ) -> HandlerResult<()>
        ensures { Turn (AsksCall L.event (λ _. tt) (UpdateCursor update.now image.now)) result }
    {
        self.inner.channel.lock(rt).cursor_update(update, image)
    }

    /// Marks the channel as failed with the number of a system's error, also with 0: from now on each call answers it.
    pub fn set_failed(&self, rt: &impl Wait, error: i32) {
        self.inner.channel.lock(rt).set_failed(error);
    }
}

impl<L: Link> Clone for GpuBackend<L> {
    ghost use Rattle.std.specs.Arc.{arc_value};

    ghost is_clone = { λ backend other. arc_value other.inner ≡ arc_value backend.inner };

    /// The same channel once more.
    fn clone(&self) -> std::result::Result<Self, AllocError> {
        Ok(GpuBackend {
            inner: Arc::try_clone(&self.inner)?,
        })
    }
}
