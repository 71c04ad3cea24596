//! Each call of a frontend whole: it sends its request, and receives its answer.

ghost use Rattle.std.specs.Prelude.{◌≡◌, Some};
ghost use Rattle.vhost_message.specs.FlagBits.{config_bits};
ghost use Rattle.vhost_message.specs.HeardReq.{heard};
ghost use Rattle.vhost_message.specs.Transfer.{direction_number, phase_number};
ghost use Rattle.vhost_protocol.specs.FrontendCall as call;
ghost use Rattle.vhost_frontend_core.specs.Regions.{bases_seen, info_in, infos_in, log_region_in};

use crate::quiet::Quiet;
use vhost_backend::{VhostUserDirtyLogRegion, VhostUserMemoryRegionInfo};
use vhost_frontend_core::{Call, Regions};
use vhost_link::Link;
use vhost_message::{
    FrontendReq, Result, VhostTransferStateDirection, VhostTransferStatePhase, VhostUserConfig,
    VhostUserConfigFlags, VhostUserInflight, VhostUserProtocolFeatures, VhostUserSharedMsg,
    VringConfigData,
};

/// The errors of each are those of the `Call` of its name; those of any call stand at [`Quiet`].
impl<L: Link> Quiet<L> {
    ghost use Rattle.vhost_frontend.specs.Whole.{Whole, WholeWithRoom};

    /// The call `get_features`, whole.
    pub fn get_features(&mut self) -> Result<u64>
        ensures { Whole L.event call.GetFeatures call.Number self.old.inner result self.new.inner }
    {
        self.number(&Call::GetFeatures)
    }

    /// The call `set_features`, whole.
    pub fn set_features(&mut self, features: u64) -> Result<()>
        ensures { Whole L.event (call.SetFeatures features) (λ _. call.Nothing) self.old.inner result self.new.inner }
    {
        self.done(&Call::SetFeatures(features))
    }

    /// The call `set_owner`, whole.
    pub fn set_owner(&mut self) -> Result<()>
        ensures { Whole L.event call.SetOwner (λ _. call.Nothing) self.old.inner result self.new.inner }
    {
        self.done(&Call::SetOwner)
    }

    /// The call `reset_owner`, whole.
    pub fn reset_owner(&mut self) -> Result<()>
        ensures { Whole L.event call.ResetOwner (λ _. call.Nothing) self.old.inner result self.new.inner }
    {
        self.done(&Call::ResetOwner)
    }

    /// The call `set_mem_table`, whole.
    pub fn set_mem_table(
        &mut self,
        regions: &[VhostUserMemoryRegionInfo<'_, L::Handle>],
    ) -> Result<Option<Vec<u64>>>
        ensures { WholeWithRoom L.event (call.SetMemTable (infos_in regions.now)) (λ bases. call.Bases (bases_seen bases)) self.old.inner result self.new.inner }
    {
        self.bases(&Call::SetMemTable(Regions::Lent(regions)))
    }

    /// The call `set_log_base`, whole.
    pub fn set_log_base(
        &mut self,
        base: u64,
        region: Option<VhostUserDirtyLogRegion<'_, L::Handle>>,
    ) -> Result<()>
        ensures { Whole L.event (call.SetLogBase base (log_region_in region.entry)) (λ _. call.Nothing) self.old.inner result self.new.inner }
    {
        self.done(&Call::SetLogBase(base, region))
    }

    /// The call `set_log_fd`, whole.
    pub fn set_log_fd(&mut self, fd: &L::Handle) -> Result<()>
        ensures { Whole L.event (call.SetLogFd fd.now) (λ _. call.Nothing) self.old.inner result self.new.inner }
    {
        self.done(&Call::SetLogFd(fd))
    }

    /// The call `set_vring_num`, whole.
    pub fn set_vring_num(&mut self, queue_index: usize, num: u16) -> Result<()>
        ensures { Whole L.event (call.SetVringNum queue_index num) (λ _. call.Nothing) self.old.inner result self.new.inner }
    {
        self.done(&Call::SetVringNum(queue_index, num))
    }

    /// The call `set_vring_addr`, whole.
    pub fn set_vring_addr(
        &mut self,
        queue_index: usize,
        config_data: &VringConfigData,
    ) -> Result<()>
        ensures { Whole L.event (call.SetVringAddr queue_index config_data.now) (λ _. call.Nothing) self.old.inner result self.new.inner }
    {
        self.done(&Call::SetVringAddr(queue_index, *config_data))
    }

    /// The call `set_vring_base`, whole.
    pub fn set_vring_base(&mut self, queue_index: usize, base: u16) -> Result<()>
        ensures { Whole L.event (call.SetVringBase queue_index base) (λ _. call.Nothing) self.old.inner result self.new.inner }
    {
        self.done(&Call::SetVringBase(queue_index, base as u32))
    }

    /// The call `get_vring_base`, whole.
    pub fn get_vring_base(&mut self, queue_index: usize) -> Result<u32>
        ensures { Whole L.event (call.GetVringBase queue_index) call.Number self.old.inner result self.new.inner }
    {
        self.ring_index(&Call::GetVringBase(queue_index))
    }

    /// The call `set_vring_call`, whole.
    pub fn set_vring_call(&mut self, queue_index: usize, fd: &L::Handle) -> Result<()>
        ensures { Whole L.event (call.SetVringCall queue_index (Some fd.now)) (λ _. call.Nothing) self.old.inner result self.new.inner }
    {
        self.done(&Call::SetVringCall(queue_index, Some(fd)))
    }

    /// The call `set_vring_kick`, whole.
    pub fn set_vring_kick(&mut self, queue_index: usize, fd: &L::Handle) -> Result<()>
        ensures { Whole L.event (call.SetVringKick queue_index (Some fd.now)) (λ _. call.Nothing) self.old.inner result self.new.inner }
    {
        self.done(&Call::SetVringKick(queue_index, Some(fd)))
    }

    /// The call `set_vring_err`, whole.
    pub fn set_vring_err(&mut self, queue_index: usize, fd: &L::Handle) -> Result<()>
        ensures { Whole L.event (call.SetVringErr queue_index (Some fd.now)) (λ _. call.Nothing) self.old.inner result self.new.inner }
    {
        self.done(&Call::SetVringErr(queue_index, Some(fd)))
    }

    /// The call `get_protocol_features`, whole.
    pub fn get_protocol_features(&mut self) -> Result<VhostUserProtocolFeatures>
        ensures { Whole L.event call.GetProtocolFeatures (λ features. call.Number features.bits) self.old.inner result self.new.inner }
    {
        self.features(&Call::GetProtocolFeatures)
    }

    /// The call `set_protocol_features`, whole.
    pub fn set_protocol_features(&mut self, features: VhostUserProtocolFeatures) -> Result<()>
        ensures { Whole L.event (call.SetProtocolFeatures features.bits) (λ _. call.Nothing) self.old.inner result self.new.inner }
    {
        self.done(&Call::SetProtocolFeatures(features))
    }

    /// The call `get_queue_num`, whole.
    pub fn get_queue_num(&mut self) -> Result<u64>
        ensures { Whole L.event call.GetQueueNum call.Number self.old.inner result self.new.inner }
    {
        self.number(&Call::GetQueueNum)
    }

    /// The call `reset_device`, whole.
    pub fn reset_device(&mut self) -> Result<()>
        ensures { Whole L.event call.ResetDevice (λ _. call.Nothing) self.old.inner result self.new.inner }
    {
        self.done(&Call::ResetDevice)
    }

    /// The call `set_vring_enable`, whole.
    pub fn set_vring_enable(&mut self, queue_index: usize, enable: bool) -> Result<()>
        ensures { Whole L.event (call.SetVringEnable queue_index enable) (λ _. call.Nothing) self.old.inner result self.new.inner }
    {
        self.done(&Call::SetVringEnable(queue_index, enable))
    }

    /// The call `get_config`, whole.
    pub fn get_config(
        &mut self,
        offset: u32,
        size: u32,
        flags: VhostUserConfigFlags,
        buf: &[u8],
    ) -> Result<(VhostUserConfig, Vec<u8>)>
        ensures { WholeWithRoom L.event (call.GetConfig offset size (config_bits flags) buf.now) (λ part. call.ConfigOf part.0 part.1.items) self.old.inner result self.new.inner }
    {
        self.config(&Call::GetConfig(offset, size, flags, buf))
    }

    /// The call `set_config`, whole.
    pub fn set_config(&mut self, offset: u32, flags: VhostUserConfigFlags, buf: &[u8]) -> Result<()>
        ensures { Whole L.event (call.SetConfig offset (config_bits flags) buf.now) (λ _. call.Nothing) self.old.inner result self.new.inner }
    {
        self.done(&Call::SetConfig(offset, flags, buf))
    }

    /// The call `set_backend_request_fd`, whole.
    pub fn set_backend_request_fd(&mut self, fd: &L::Handle) -> Result<()>
        ensures { Whole L.event (call.SetBackendRequestFd fd.now) (λ _. call.Nothing) self.old.inner result self.new.inner }
    {
        self.done(&Call::SetBackendRequestFd(fd))
    }

    /// The call `get_shared_object`, whole.
    pub fn get_shared_object(&mut self, shared_msg: &VhostUserSharedMsg) -> Result<L::Handle>
        ensures { Whole L.event (call.GetSharedObject shared_msg.now) call.HandleOf self.old.inner result self.new.inner }
    {
        self.handle(&Call::GetSharedObject(*shared_msg))
    }

    /// The call `get_inflight_fd`, whole.
    pub fn get_inflight_fd(
        &mut self,
        inflight: &VhostUserInflight,
    ) -> Result<(VhostUserInflight, L::Handle)>
        ensures { Whole L.event (call.GetInflightFd inflight.now) (λ buffer. call.InflightOf buffer.0 buffer.1) self.old.inner result self.new.inner }
    {
        self.inflight(&Call::GetInflightFd(*inflight))
    }

    /// The call `set_inflight_fd`, whole.
    pub fn set_inflight_fd(&mut self, inflight: &VhostUserInflight, fd: &L::Handle) -> Result<()>
        ensures { Whole L.event (call.SetInflightFd inflight.now fd.now) (λ _. call.Nothing) self.old.inner result self.new.inner }
    {
        self.done(&Call::SetInflightFd(*inflight, fd))
    }

    /// The call `get_max_mem_slots`, whole.
    pub fn get_max_mem_slots(&mut self) -> Result<u64>
        ensures { Whole L.event call.GetMaxMemSlots call.Number self.old.inner result self.new.inner }
    {
        self.number(&Call::GetMaxMemSlots)
    }

    /// The call `add_mem_region`, whole.
    pub fn add_mem_region(
        &mut self,
        region: &VhostUserMemoryRegionInfo<'_, L::Handle>,
    ) -> Result<Option<u64>>
        ensures { Whole L.event (call.AddMemRegion (info_in region.now)) call.Base self.old.inner result self.new.inner }
    {
        self.base(&Call::AddMemRegion(*region))
    }

    /// The call `remove_mem_region`, whole.
    pub fn remove_mem_region(
        &mut self,
        region: &VhostUserMemoryRegionInfo<'_, L::Handle>,
    ) -> Result<()>
        ensures { Whole L.event (call.RemoveMemRegion (info_in region.now)) (λ _. call.Nothing) self.old.inner result self.new.inner }
    {
        self.done(&Call::RemoveMemRegion(*region))
    }

    /// The call `set_device_state_fd`, whole.
    pub fn set_device_state_fd(
        &mut self,
        direction: VhostTransferStateDirection,
        phase: VhostTransferStatePhase,
        fd: L::Handle,
    ) -> Result<Option<L::Handle>>
        ensures { Whole L.event (call.SetDeviceStateFd (record { direction = direction_number direction; phase = phase_number phase }) fd) call.StateHandle self.old.inner result self.new.inner }
    {
        self.state_handle(&Call::SetDeviceStateFd(direction, phase, &fd))
    }

    /// The call `check_device_state`, whole.
    pub fn check_device_state(&mut self) -> Result<()>
        ensures { Whole L.event call.CheckDeviceState (λ _. call.Nothing) self.old.inner result self.new.inner }
    {
        self.done(&Call::CheckDeviceState)
    }

    /// The call `postcopy_advise`, whole.
    pub fn postcopy_advise(&mut self) -> Result<L::Handle>
        ensures { Whole L.event call.PostcopyAdvise call.HandleOf self.old.inner result self.new.inner }
    {
        self.handle(&Call::PostcopyAdvise)
    }

    /// The call `postcopy_listen`, whole.
    pub fn postcopy_listen(&mut self) -> Result<()>
        ensures { Whole L.event call.PostcopyListen (λ _. call.Nothing) self.old.inner result self.new.inner }
    {
        self.done(&Call::PostcopyListen)
    }

    /// The call `postcopy_end`, whole.
    pub fn postcopy_end(&mut self) -> Result<()>
        ensures { Whole L.event call.PostcopyEnd (λ _. call.Nothing) self.old.inner result self.new.inner }
    {
        self.done(&Call::PostcopyEnd)
    }

    /// The call `postcopy_ack_mem_regions`, whole.
    pub fn postcopy_ack_mem_regions(&mut self, code: FrontendReq) -> Result<()>
        ensures { Whole L.event (call.PostcopyAckMemRegions (heard code)) (λ _. call.Nothing) self.old.inner result self.new.inner }
    {
        self.done(&Call::PostcopyAckMemRegions(code.into()))
    }

    /// The call `set_mtu`, whole.
    pub fn set_mtu(&mut self, mtu: u16) -> Result<()>
        ensures { Whole L.event (call.SetMtu mtu) (λ _. call.Nothing) self.old.inner result self.new.inner }
    {
        self.done(&Call::SetMtu(mtu))
    }
}
