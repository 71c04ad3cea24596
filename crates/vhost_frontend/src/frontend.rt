//! A session that many threads may use.

ghost use Rattle.std.specs.Prelude.{◌≡◌, IfErr, Some};
ghost use Rattle.vhost_message.specs.FlagBits.{config_bits};
ghost use Rattle.vhost_message.specs.HeardReq.{heard};
ghost use Rattle.vhost_message.specs.Transfer.{direction_number, phase_number};
ghost use Rattle.vhost_message.specs.declared.error.Error.TheVariants.{OutOfMemory};
ghost use Rattle.vhost_protocol.specs.FrontendCall as call;
ghost use Rattle.vhost_frontend_core.specs.Regions.{bases_seen, info_in, infos_in, log_region_in};
ghost use Rattle.vhost_frontend.specs.Turn.{Turn};
ghost use Rattle.vhost_frontend.specs.Whole.{Whole, WholeWithRoom};

use crate::held::Held;
use crate::traits::VhostUserFrontend;
use std::alloc::{AllocError, Global};
use std::sync::{Arc, Mutex, Wait};
use vhost_backend::{Result, VhostBackend, VhostUserDirtyLogRegion, VhostUserMemoryRegionInfo};
use vhost_frontend_core::{Call, Profile, Regions};
use vhost_link::Link;
use vhost_message::{
    Error, FrontendReq, VhostTransferStateDirection, VhostTransferStatePhase, VhostUserConfig,
    VhostUserConfigFlags, VhostUserHeaderFlag, VhostUserInflight, VhostUserMemoryRegionBase,
    VhostUserProtocolFeatures, VhostUserShMemConfig, VhostUserSharedMsg, VringConfigData,
};

/// A frontend's session, shared: a clone is the same session. Each call waits until it has the session for itself: it finds
/// a session that awaits nothing, is whole there, and leaves a session that awaits nothing. Its errors are those of the `Call` of its
/// name, within `VhostUserProtocol`.
///
/// Mirrors `vhost::vhost_user::Frontend`.
#[derive(Drop)]
pub struct Frontend<L: Link> {
    pub(crate) inner: Arc<Mutex<Held<L>>, Global>,
}

impl<L: Link> Clone for Frontend<L> {
    ghost use Rattle.std.specs.Arc.{arc_value};

    ghost is_clone = { λ frontend other. arc_value other.inner ≡ arc_value frontend.inner };

    /// The same session once more.
    fn clone(&self) -> std::result::Result<Self, AllocError> {
        Ok(Frontend {
            inner: Arc::try_clone(&self.inner)?,
        })
    }
}

impl<L: Link> Frontend<L> {
    /// A new session over a link, with a backend of at most so many queues and a retry limit for each message.
    ///
    /// OutOfMemory: an allocation failed.
    pub fn from_stream(
        alloc: Global,
        link: L,
        max_queue_num: u64,
        budget: u32,
    ) -> vhost_message::Result<Self>
        ensures memory { IfErr result (λ e. e ≡ OutOfMemory) }
    {
        let session = Held::new(alloc, link, max_queue_num, budget)?;
        match Arc::new(alloc, Mutex::new(session)) {
            Ok(inner) => Ok(Frontend { inner }),
            Err(_) => Err(Error::OutOfMemory),
        }
    }

    /// The flags of each request from now on: of these, REPLY and NEED_REPLY are sent.
    pub fn set_hdr_flags(&self, rt: &impl Wait, flags: VhostUserHeaderFlag) {
        self.inner.lock(rt).quiet.set_hdr_flags(flags);
    }

    /// Whose behaviour it has from now on: that of the crate `vhost`, as a new session, or that of the specification and of
    /// real backends.
    pub fn set_profile(&self, rt: &impl Wait, profile: Profile) {
        self.inner.lock(rt).quiet.set_profile(profile);
    }

    /// Sets where a packed ring goes on: both its indices with their wrap counters, in 32 bits as the specification has them.
    /// The errors are those of `set_vring_base`.
    pub fn set_packed_vring_base(&self, rt: &impl Wait, queue_index: usize, base: u32) -> Result<()>
        ensures { Turn L.event (Whole L.event (call.SetVringBase queue_index base) (λ _. call.Nothing)) result }
    {
        self.done(rt, &Call::SetVringBase(queue_index, base))
    }
}

impl<L: Link> VhostBackend for Frontend<L> {
    type Handle = L::Handle;

    fn get_features(&self, rt: &impl Wait) -> Result<u64>
        ensures { Turn L.event (Whole L.event call.GetFeatures call.Number) result }
    {
        self.number(rt, &Call::GetFeatures)
    }

    fn set_features(&self, rt: &impl Wait, features: u64) -> Result<()>
        ensures { Turn L.event (Whole L.event (call.SetFeatures features) (λ _. call.Nothing)) result }
    {
        self.done(rt, &Call::SetFeatures(features))
    }

    fn set_owner(&self, rt: &impl Wait) -> Result<()>
        ensures { Turn L.event (Whole L.event call.SetOwner (λ _. call.Nothing)) result }
    {
        self.done(rt, &Call::SetOwner)
    }

    fn reset_owner(&self, rt: &impl Wait) -> Result<()>
        ensures { Turn L.event (Whole L.event call.ResetOwner (λ _. call.Nothing)) result }
    {
        self.done(rt, &Call::ResetOwner)
    }

    fn set_mem_table(
        &self,
        rt: &impl Wait,
        regions: &[VhostUserMemoryRegionInfo<'_, L::Handle>],
    ) -> Result<Option<Vec<VhostUserMemoryRegionBase>>>
        ensures { Turn L.event (WholeWithRoom L.event (call.SetMemTable (infos_in regions.now)) (λ bases. call.Bases (bases_seen bases))) result }
    {
        let call = Call::SetMemTable(Regions::Lent(regions));
        self.bases(rt, &call)
    }

    fn set_log_base(
        &self,
        rt: &impl Wait,
        base: u64,
        region: Option<VhostUserDirtyLogRegion<'_, L::Handle>>,
    ) -> Result<()>
        ensures { Turn L.event (Whole L.event (call.SetLogBase base (log_region_in region.entry)) (λ _. call.Nothing)) result }
    {
        self.done(rt, &Call::SetLogBase(base, region))
    }

    fn set_log_fd(&self, rt: &impl Wait, fd: &L::Handle) -> Result<()>
        ensures { Turn L.event (Whole L.event (call.SetLogFd fd.now) (λ _. call.Nothing)) result }
    {
        self.done(rt, &Call::SetLogFd(fd))
    }

    fn set_vring_num(&self, rt: &impl Wait, queue_index: usize, num: u16) -> Result<()>
        ensures { Turn L.event (Whole L.event (call.SetVringNum queue_index num) (λ _. call.Nothing)) result }
    {
        self.done(rt, &Call::SetVringNum(queue_index, num))
    }

    fn set_vring_addr(
        &self,
        rt: &impl Wait,
        queue_index: usize,
        config_data: &VringConfigData,
    ) -> Result<()>
        ensures { Turn L.event (Whole L.event (call.SetVringAddr queue_index config_data.now) (λ _. call.Nothing)) result }
    {
        self.done(rt, &Call::SetVringAddr(queue_index, *config_data))
    }

    fn set_vring_base(&self, rt: &impl Wait, queue_index: usize, base: u16) -> Result<()>
        ensures { Turn L.event (Whole L.event (call.SetVringBase queue_index base) (λ _. call.Nothing)) result }
    {
        self.done(rt, &Call::SetVringBase(queue_index, base as u32))
    }

    fn get_vring_base(&self, rt: &impl Wait, queue_index: usize) -> Result<u32>
        ensures { Turn L.event (Whole L.event (call.GetVringBase queue_index) call.Number) result }
    {
        self.ring_index(rt, &Call::GetVringBase(queue_index))
    }

    fn set_vring_call(&self, rt: &impl Wait, queue_index: usize, fd: &L::Handle) -> Result<()>
        ensures { Turn L.event (Whole L.event (call.SetVringCall queue_index (Some fd.now)) (λ _. call.Nothing)) result }
    {
        self.done(rt, &Call::SetVringCall(queue_index, Some(fd)))
    }

    fn set_vring_kick(&self, rt: &impl Wait, queue_index: usize, fd: &L::Handle) -> Result<()>
        ensures { Turn L.event (Whole L.event (call.SetVringKick queue_index (Some fd.now)) (λ _. call.Nothing)) result }
    {
        self.done(rt, &Call::SetVringKick(queue_index, Some(fd)))
    }

    fn set_vring_err(&self, rt: &impl Wait, queue_index: usize, fd: &L::Handle) -> Result<()>
        ensures { Turn L.event (Whole L.event (call.SetVringErr queue_index (Some fd.now)) (λ _. call.Nothing)) result }
    {
        self.done(rt, &Call::SetVringErr(queue_index, Some(fd)))
    }
}

impl<L: Link> VhostUserFrontend for Frontend<L> {
    fn get_protocol_features(&mut self, rt: &impl Wait) -> Result<VhostUserProtocolFeatures>
        ensures { Turn L.event (Whole L.event call.GetProtocolFeatures (λ features. call.Number features.bits)) result }
    {
        self.features(rt, &Call::GetProtocolFeatures)
    }

    fn set_protocol_features(
        &mut self,
        rt: &impl Wait,
        features: VhostUserProtocolFeatures,
    ) -> Result<()>
        ensures { Turn L.event (Whole L.event (call.SetProtocolFeatures features.bits) (λ _. call.Nothing)) result }
    {
        self.done(rt, &Call::SetProtocolFeatures(features))
    }

    fn get_queue_num(&mut self, rt: &impl Wait) -> Result<u64>
        ensures { Turn L.event (Whole L.event call.GetQueueNum call.Number) result }
    {
        self.number(rt, &Call::GetQueueNum)
    }

    fn reset_device(&mut self, rt: &impl Wait) -> Result<()>
        ensures { Turn L.event (Whole L.event call.ResetDevice (λ _. call.Nothing)) result }
    {
        self.done(rt, &Call::ResetDevice)
    }

    fn set_vring_enable(&mut self, rt: &impl Wait, queue_index: usize, enable: bool) -> Result<()>
        ensures { Turn L.event (Whole L.event (call.SetVringEnable queue_index enable) (λ _. call.Nothing)) result }
    {
        self.done(rt, &Call::SetVringEnable(queue_index, enable))
    }

    fn get_config(
        &mut self,
        rt: &impl Wait,
        offset: u32,
        size: u32,
        flags: VhostUserConfigFlags,
        buf: &[u8],
    ) -> Result<(VhostUserConfig, Vec<u8>)>
        ensures { Turn L.event (WholeWithRoom L.event (call.GetConfig offset size (config_bits flags) buf.now) (λ part. call.ConfigOf part.0 part.1.items)) result }
    {
        self.config(rt, &Call::GetConfig(offset, size, flags, buf))
    }

    fn set_config(
        &mut self,
        rt: &impl Wait,
        offset: u32,
        flags: VhostUserConfigFlags,
        buf: &[u8],
    ) -> Result<()>
        ensures { Turn L.event (Whole L.event (call.SetConfig offset (config_bits flags) buf.now) (λ _. call.Nothing)) result }
    {
        self.done(rt, &Call::SetConfig(offset, flags, buf))
    }

    fn set_backend_request_fd(&mut self, rt: &impl Wait, fd: &L::Handle) -> Result<()>
        ensures { Turn L.event (Whole L.event (call.SetBackendRequestFd fd.now) (λ _. call.Nothing)) result }
    {
        self.done(rt, &Call::SetBackendRequestFd(fd))
    }

    fn get_shared_object(
        &mut self,
        rt: &impl Wait,
        shared_msg: &VhostUserSharedMsg,
    ) -> Result<L::Handle>
        ensures { Turn L.event (Whole L.event (call.GetSharedObject shared_msg.now) call.HandleOf) result }
    {
        self.handle(rt, &Call::GetSharedObject(*shared_msg))
    }

    fn get_inflight_fd(
        &mut self,
        rt: &impl Wait,
        inflight: &VhostUserInflight,
    ) -> Result<(VhostUserInflight, L::Handle)>
        ensures { Turn L.event (Whole L.event (call.GetInflightFd inflight.now) (λ buffer. call.InflightOf buffer.0 buffer.1)) result }
    {
        self.inflight(rt, &Call::GetInflightFd(*inflight))
    }

    fn set_inflight_fd(
        &mut self,
        rt: &impl Wait,
        inflight: &VhostUserInflight,
        fd: &L::Handle,
    ) -> Result<()>
        ensures { Turn L.event (Whole L.event (call.SetInflightFd inflight.now fd.now) (λ _. call.Nothing)) result }
    {
        self.done(rt, &Call::SetInflightFd(*inflight, fd))
    }

    fn get_max_mem_slots(&mut self, rt: &impl Wait) -> Result<u64>
        ensures { Turn L.event (Whole L.event call.GetMaxMemSlots call.Number) result }
    {
        self.number(rt, &Call::GetMaxMemSlots)
    }

    fn add_mem_region(
        &mut self,
        rt: &impl Wait,
        region: &VhostUserMemoryRegionInfo<'_, L::Handle>,
    ) -> Result<Option<u64>>
        ensures { Turn L.event (Whole L.event (call.AddMemRegion (info_in region.now)) call.Base) result }
    {
        self.base(rt, &Call::AddMemRegion(*region))
    }

    fn remove_mem_region(
        &mut self,
        rt: &impl Wait,
        region: &VhostUserMemoryRegionInfo<'_, L::Handle>,
    ) -> Result<()>
        ensures { Turn L.event (Whole L.event (call.RemoveMemRegion (info_in region.now)) (λ _. call.Nothing)) result }
    {
        self.done(rt, &Call::RemoveMemRegion(*region))
    }

    fn get_shmem_config(&mut self, rt: &impl Wait) -> Result<VhostUserShMemConfig>
        ensures { Turn L.event (Whole L.event call.GetShmemConfig call.ShmemOf) result }
    {
        self.shmem_config(rt)
    }

    fn set_device_state_fd(
        &self,
        rt: &impl Wait,
        direction: VhostTransferStateDirection,
        phase: VhostTransferStatePhase,
        fd: L::Handle,
    ) -> Result<Option<L::Handle>>
        ensures { Turn L.event (Whole L.event (call.SetDeviceStateFd (record { direction = direction_number direction; phase = phase_number phase }) fd) call.StateHandle) result }
    {
        self.state_handle(rt, &Call::SetDeviceStateFd(direction, phase, &fd))
    }

    fn check_device_state(&self, rt: &impl Wait) -> Result<()>
        ensures { Turn L.event (Whole L.event call.CheckDeviceState (λ _. call.Nothing)) result }
    {
        self.done(rt, &Call::CheckDeviceState)
    }

    fn postcopy_advise(&mut self, rt: &impl Wait) -> Result<L::Handle>
        ensures { Turn L.event (Whole L.event call.PostcopyAdvise call.HandleOf) result }
    {
        self.handle(rt, &Call::PostcopyAdvise)
    }

    fn postcopy_listen(&mut self, rt: &impl Wait) -> Result<()>
        ensures { Turn L.event (Whole L.event call.PostcopyListen (λ _. call.Nothing)) result }
    {
        self.done(rt, &Call::PostcopyListen)
    }

    fn postcopy_end(&mut self, rt: &impl Wait) -> Result<()>
        ensures { Turn L.event (Whole L.event call.PostcopyEnd (λ _. call.Nothing)) result }
    {
        self.done(rt, &Call::PostcopyEnd)
    }

    fn postcopy_ack_mem_regions(&mut self, rt: &impl Wait, code: FrontendReq) -> Result<()>
        ensures { Turn L.event (Whole L.event (call.PostcopyAckMemRegions (heard code)) (λ _. call.Nothing)) result }
    {
        self.done(rt, &Call::PostcopyAckMemRegions(code.into()))
    }

    fn set_mtu(&mut self, rt: &impl Wait, mtu: u16) -> Result<()>
        ensures { Turn L.event (Whole L.event (call.SetMtu mtu) (λ _. call.Nothing)) result }
    {
        self.done(rt, &Call::SetMtu(mtu))
    }
}
