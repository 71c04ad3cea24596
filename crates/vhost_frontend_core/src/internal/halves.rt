//! Both halves of each call: the one sends its request, and the other receives its answer.

ghost use Rattle.std.specs.Prelude.{◌≡◌, ℕ, Bool, List, Option, Some};
ghost use Rattle.vhost_message.specs.FlagBits.{config_bits};
ghost use Rattle.vhost_message.specs.HeardReq.{heard};
ghost use Rattle.vhost_message.specs.Transfer.{direction_number, phase_number};
ghost use Rattle.vhost_message.specs.declared.heard_req.HeardReq.{HeardReq};
ghost use Rattle.vhost_message.specs.declared.records.inflight.VhostUserInflight.{VhostUserInflight};
ghost use Rattle.vhost_message.specs.declared.vring_config.VringConfigData.{VringConfigData};
ghost use Rattle.vhost_protocol.specs.FrontendCall as call;
ghost use Rattle.vhost_protocol.specs.declared.asked.Awaited.TheVariants.{Nobody};
ghost use Rattle.vhost_frontend_core.specs.Regions.{info_in, infos_in, log_region_in};

use crate::asked::Sent;
use crate::call::Call;
use crate::internal::FrontendInternal;
use crate::regions::Regions;
use vhost_backend::{VhostUserDirtyLogRegion, VhostUserMemoryRegionInfo};
use vhost_link::Link;
use vhost_message::{
    FrontendReq, Result, VhostTransferStateDirection, VhostTransferStatePhase,
    VhostUserConfigFlags, VhostUserInflight, VhostUserProtocolFeatures, VhostUserSharedMsg,
    VringConfigData,
};

/// Before the half of a call that sends, nothing is awaited, or the endpoint is poisoned. It answers the errors of its `Call`, and those
/// of the link.
impl<L: Link> FrontendInternal<L> {
    ghost use Rattle.vhost_frontend_core.specs.Frontend.{MayAsk};
    ghost use Rattle.vhost_frontend_core.specs.ValueHalves.{AsksWell};

    /// The half that sends, of `get_features`.
    pub fn ask_get_features(&mut self) -> Result<Sent>
        requires { MayAsk self.old }
        ensures { AsksWell L.event call.GetFeatures self.old result self.new }
    {
        self.ask(&Call::GetFeatures)
    }

    /// The half that sends, of `set_features`.
    pub fn ask_set_features(&mut self, features: u64) -> Result<Sent>
        requires { MayAsk self.old }
        ensures { AsksWell L.event (call.SetFeatures features) self.old result self.new }
    {
        self.ask(&Call::SetFeatures(features))
    }

    /// The half that sends, of `set_owner`.
    pub fn ask_set_owner(&mut self) -> Result<Sent>
        requires { MayAsk self.old }
        ensures { AsksWell L.event call.SetOwner self.old result self.new }
    {
        self.ask(&Call::SetOwner)
    }

    /// The half that sends, of `reset_owner`.
    pub fn ask_reset_owner(&mut self) -> Result<Sent>
        requires { MayAsk self.old }
        ensures { AsksWell L.event call.ResetOwner self.old result self.new }
    {
        self.ask(&Call::ResetOwner)
    }

    /// The half that sends, of `set_mem_table`.
    pub fn ask_set_mem_table(
        &mut self,
        regions: &[VhostUserMemoryRegionInfo<'_, L::Handle>],
    ) -> Result<Sent>
        requires { MayAsk self.old }
        ensures { AsksWell L.event (call.SetMemTable (infos_in regions.now)) self.old result self.new }
    {
        self.ask(&Call::SetMemTable(Regions::Lent(regions)))
    }

    /// The half that sends, of `set_log_base`.
    pub fn ask_set_log_base(
        &mut self,
        base: u64,
        region: Option<VhostUserDirtyLogRegion<'_, L::Handle>>,
    ) -> Result<Sent>
        requires { MayAsk self.old }
        ensures { AsksWell L.event (call.SetLogBase base (log_region_in region.entry)) self.old result self.new }
    {
        self.ask(&Call::SetLogBase(base, region))
    }

    /// The half that sends, of `set_log_fd`.
    pub fn ask_set_log_fd(&mut self, fd: &L::Handle) -> Result<Sent>
        requires { MayAsk self.old }
        ensures { AsksWell L.event (call.SetLogFd fd.now) self.old result self.new }
    {
        self.ask(&Call::SetLogFd(fd))
    }

    /// The half that sends, of `set_vring_num`.
    pub fn ask_set_vring_num(&mut self, queue_index: usize, num: u16) -> Result<Sent>
        requires { MayAsk self.old }
        ensures { AsksWell L.event (call.SetVringNum queue_index num) self.old result self.new }
    {
        self.ask(&Call::SetVringNum(queue_index, num))
    }

    /// The half that sends, of `set_vring_addr`.
    pub fn ask_set_vring_addr(
        &mut self,
        queue_index: usize,
        config_data: &VringConfigData,
    ) -> Result<Sent>
        requires { MayAsk self.old }
        ensures { AsksWell L.event (call.SetVringAddr queue_index config_data.now) self.old result self.new }
    {
        self.ask(&Call::SetVringAddr(queue_index, *config_data))
    }

    /// The half that sends, of `set_vring_base`.
    pub fn ask_set_vring_base(&mut self, queue_index: usize, base: u16) -> Result<Sent>
        requires { MayAsk self.old }
        ensures { AsksWell L.event (call.SetVringBase queue_index base) self.old result self.new }
    {
        self.ask(&Call::SetVringBase(queue_index, base as u32))
    }

    /// The half that sends, of `get_vring_base`.
    pub fn ask_get_vring_base(&mut self, queue_index: usize) -> Result<Sent>
        requires { MayAsk self.old }
        ensures { AsksWell L.event (call.GetVringBase queue_index) self.old result self.new }
    {
        self.ask(&Call::GetVringBase(queue_index))
    }

    /// The half that sends, of `set_vring_call`.
    pub fn ask_set_vring_call(&mut self, queue_index: usize, fd: &L::Handle) -> Result<Sent>
        requires { MayAsk self.old }
        ensures { AsksWell L.event (call.SetVringCall queue_index (Some fd.now)) self.old result self.new }
    {
        self.ask(&Call::SetVringCall(queue_index, Some(fd)))
    }

    /// The half that sends, of `set_vring_kick`.
    pub fn ask_set_vring_kick(&mut self, queue_index: usize, fd: &L::Handle) -> Result<Sent>
        requires { MayAsk self.old }
        ensures { AsksWell L.event (call.SetVringKick queue_index (Some fd.now)) self.old result self.new }
    {
        self.ask(&Call::SetVringKick(queue_index, Some(fd)))
    }

    /// The half that sends, of `set_vring_err`.
    pub fn ask_set_vring_err(&mut self, queue_index: usize, fd: &L::Handle) -> Result<Sent>
        requires { MayAsk self.old }
        ensures { AsksWell L.event (call.SetVringErr queue_index (Some fd.now)) self.old result self.new }
    {
        self.ask(&Call::SetVringErr(queue_index, Some(fd)))
    }

    /// The half that sends, of `get_protocol_features`.
    pub fn ask_get_protocol_features(&mut self) -> Result<Sent>
        requires { MayAsk self.old }
        ensures { AsksWell L.event call.GetProtocolFeatures self.old result self.new }
    {
        self.ask(&Call::GetProtocolFeatures)
    }

    /// The half that sends, of `set_protocol_features`.
    pub fn ask_set_protocol_features(&mut self, features: VhostUserProtocolFeatures) -> Result<Sent>
        requires { MayAsk self.old }
        ensures { AsksWell L.event (call.SetProtocolFeatures features.bits) self.old result self.new }
    {
        self.ask(&Call::SetProtocolFeatures(features))
    }

    /// The half that sends, of `get_queue_num`.
    pub fn ask_get_queue_num(&mut self) -> Result<Sent>
        requires { MayAsk self.old }
        ensures { AsksWell L.event call.GetQueueNum self.old result self.new }
    {
        self.ask(&Call::GetQueueNum)
    }

    /// The half that sends, of `reset_device`.
    pub fn ask_reset_device(&mut self) -> Result<Sent>
        requires { MayAsk self.old }
        ensures { AsksWell L.event call.ResetDevice self.old result self.new }
    {
        self.ask(&Call::ResetDevice)
    }

    /// The half that sends, of `set_vring_enable`.
    pub fn ask_set_vring_enable(&mut self, queue_index: usize, enable: bool) -> Result<Sent>
        requires { MayAsk self.old }
        ensures { AsksWell L.event (call.SetVringEnable queue_index enable) self.old result self.new }
    {
        self.ask(&Call::SetVringEnable(queue_index, enable))
    }

    /// The half that sends, of `set_backend_request_fd`.
    pub fn ask_set_backend_request_fd(&mut self, fd: &L::Handle) -> Result<Sent>
        requires { MayAsk self.old }
        ensures { AsksWell L.event (call.SetBackendRequestFd fd.now) self.old result self.new }
    {
        self.ask(&Call::SetBackendRequestFd(fd))
    }

    /// The half that sends, of `get_shared_object`.
    pub fn ask_get_shared_object(&mut self, shared_msg: &VhostUserSharedMsg) -> Result<Sent>
        requires { MayAsk self.old }
        ensures { AsksWell L.event (call.GetSharedObject shared_msg.now) self.old result self.new }
    {
        self.ask(&Call::GetSharedObject(*shared_msg))
    }

    /// The half that sends, of `get_inflight_fd`.
    pub fn ask_get_inflight_fd(&mut self, inflight: &VhostUserInflight) -> Result<Sent>
        requires { MayAsk self.old }
        ensures { AsksWell L.event (call.GetInflightFd inflight.now) self.old result self.new }
    {
        self.ask(&Call::GetInflightFd(*inflight))
    }

    /// The half that sends, of `set_inflight_fd`.
    pub fn ask_set_inflight_fd(
        &mut self,
        inflight: &VhostUserInflight,
        fd: &L::Handle,
    ) -> Result<Sent>
        requires { MayAsk self.old }
        ensures { AsksWell L.event (call.SetInflightFd inflight.now fd.now) self.old result self.new }
    {
        self.ask(&Call::SetInflightFd(*inflight, fd))
    }

    /// The half that sends, of `get_max_mem_slots`.
    pub fn ask_get_max_mem_slots(&mut self) -> Result<Sent>
        requires { MayAsk self.old }
        ensures { AsksWell L.event call.GetMaxMemSlots self.old result self.new }
    {
        self.ask(&Call::GetMaxMemSlots)
    }

    /// The half that sends, of `add_mem_region`.
    pub fn ask_add_mem_region(
        &mut self,
        region: &VhostUserMemoryRegionInfo<'_, L::Handle>,
    ) -> Result<Sent>
        requires { MayAsk self.old }
        ensures { AsksWell L.event (call.AddMemRegion (info_in region.now)) self.old result self.new }
    {
        self.ask(&Call::AddMemRegion(*region))
    }

    /// The half that sends, of `remove_mem_region`.
    pub fn ask_remove_mem_region(
        &mut self,
        region: &VhostUserMemoryRegionInfo<'_, L::Handle>,
    ) -> Result<Sent>
        requires { MayAsk self.old }
        ensures { AsksWell L.event (call.RemoveMemRegion (info_in region.now)) self.old result self.new }
    {
        self.ask(&Call::RemoveMemRegion(*region))
    }

    /// The half that sends, of `set_device_state_fd`.
    pub fn ask_set_device_state_fd(
        &mut self,
        direction: VhostTransferStateDirection,
        phase: VhostTransferStatePhase,
        fd: L::Handle,
    ) -> Result<Sent>
        requires { MayAsk self.old }
        ensures { AsksWell L.event (call.SetDeviceStateFd (record { direction = direction_number direction; phase = phase_number phase }) fd) self.old result self.new }
    {
        self.ask(&Call::SetDeviceStateFd(direction, phase, &fd))
    }

    /// The half that sends, of `check_device_state`.
    pub fn ask_check_device_state(&mut self) -> Result<Sent>
        requires { MayAsk self.old }
        ensures { AsksWell L.event call.CheckDeviceState self.old result self.new }
    {
        self.ask(&Call::CheckDeviceState)
    }

    /// The half that sends, of `postcopy_advise`.
    pub fn ask_postcopy_advise(&mut self) -> Result<Sent>
        requires { MayAsk self.old }
        ensures { AsksWell L.event call.PostcopyAdvise self.old result self.new }
    {
        self.ask(&Call::PostcopyAdvise)
    }

    /// The half that sends, of `postcopy_listen`.
    pub fn ask_postcopy_listen(&mut self) -> Result<Sent>
        requires { MayAsk self.old }
        ensures { AsksWell L.event call.PostcopyListen self.old result self.new }
    {
        self.ask(&Call::PostcopyListen)
    }

    /// The half that sends, of `postcopy_end`.
    pub fn ask_postcopy_end(&mut self) -> Result<Sent>
        requires { MayAsk self.old }
        ensures { AsksWell L.event call.PostcopyEnd self.old result self.new }
    {
        self.ask(&Call::PostcopyEnd)
    }

    /// The half that sends, of `postcopy_ack_mem_regions`.
    pub fn ask_postcopy_ack_mem_regions(&mut self, code: FrontendReq) -> Result<Sent>
        requires { MayAsk self.old }
        ensures { AsksWell L.event (call.PostcopyAckMemRegions (heard code)) self.old result self.new }
    {
        self.ask(&Call::PostcopyAckMemRegions(code.into()))
    }

    /// The half that sends, of `set_mtu`.
    pub fn ask_set_mtu(&mut self, mtu: u16) -> Result<Sent>
        requires { MayAsk self.old }
        ensures { AsksWell L.event (call.SetMtu mtu) self.old result self.new }
    {
        self.ask(&Call::SetMtu(mtu))
    }
}

/// The half that receives is given what that call's other half answered last. These calls are only acknowledged; those that have a reply
/// stand in the module `taking`.
impl<L: Link> FrontendInternal<L> {
    ghost use Rattle.vhost_frontend_core.specs.Frontend.{awaits};
    ghost use Rattle.vhost_frontend_core.specs.Halves.{TakesAck};

    /// The half that receives, of `set_features`.
    pub fn take_set_features(&mut self, sent: Sent) -> Result<()>
        ensures taken { (features : ℕ) → TakesAck L.event (call.SetFeatures features) sent self.old result self.new }
        ensures quiet { awaits self.new ≡ Nobody }
    {
        self.take_done(sent)
    }

    /// The half that receives, of `set_owner`.
    pub fn take_set_owner(&mut self, sent: Sent) -> Result<()>
        ensures taken { TakesAck L.event call.SetOwner sent self.old result self.new }
        ensures quiet { awaits self.new ≡ Nobody }
    {
        self.take_done(sent)
    }

    /// The half that receives, of `reset_owner`.
    pub fn take_reset_owner(&mut self, sent: Sent) -> Result<()>
        ensures taken { TakesAck L.event call.ResetOwner sent self.old result self.new }
        ensures quiet { awaits self.new ≡ Nobody }
    {
        self.take_done(sent)
    }

    /// The half that receives, of `set_log_fd`.
    pub fn take_set_log_fd(&mut self, sent: Sent) -> Result<()>
        ensures taken { (fd : L.Handle) → TakesAck L.event (call.SetLogFd fd) sent self.old result self.new }
        ensures quiet { awaits self.new ≡ Nobody }
    {
        self.take_done(sent)
    }

    /// The half that receives, of `set_vring_num`.
    pub fn take_set_vring_num(&mut self, sent: Sent) -> Result<()>
        ensures taken { (index num : ℕ) → TakesAck L.event (call.SetVringNum index num) sent self.old result self.new }
        ensures quiet { awaits self.new ≡ Nobody }
    {
        self.take_done(sent)
    }

    /// The half that receives, of `set_vring_addr`.
    pub fn take_set_vring_addr(&mut self, sent: Sent) -> Result<()>
        ensures taken { (index : ℕ) (ring : VringConfigData) → TakesAck L.event (call.SetVringAddr index ring) sent self.old result self.new }
        ensures quiet { awaits self.new ≡ Nobody }
    {
        self.take_done(sent)
    }

    /// The half that receives, of `set_vring_base`.
    pub fn take_set_vring_base(&mut self, sent: Sent) -> Result<()>
        ensures taken { (index base : ℕ) → TakesAck L.event (call.SetVringBase index base) sent self.old result self.new }
        ensures quiet { awaits self.new ≡ Nobody }
    {
        self.take_done(sent)
    }

    /// The half that receives, of `set_vring_call`.
    pub fn take_set_vring_call(&mut self, sent: Sent) -> Result<()>
        ensures taken { (index : ℕ) (fd : Option L.Handle) → TakesAck L.event (call.SetVringCall index fd) sent self.old result self.new }
        ensures quiet { awaits self.new ≡ Nobody }
    {
        self.take_done(sent)
    }

    /// The half that receives, of `set_vring_kick`.
    pub fn take_set_vring_kick(&mut self, sent: Sent) -> Result<()>
        ensures taken { (index : ℕ) (fd : Option L.Handle) → TakesAck L.event (call.SetVringKick index fd) sent self.old result self.new }
        ensures quiet { awaits self.new ≡ Nobody }
    {
        self.take_done(sent)
    }

    /// The half that receives, of `set_vring_err`.
    pub fn take_set_vring_err(&mut self, sent: Sent) -> Result<()>
        ensures taken { (index : ℕ) (fd : Option L.Handle) → TakesAck L.event (call.SetVringErr index fd) sent self.old result self.new }
        ensures quiet { awaits self.new ≡ Nobody }
    {
        self.take_done(sent)
    }

    /// The half that receives, of `set_protocol_features`.
    pub fn take_set_protocol_features(&mut self, sent: Sent) -> Result<()>
        ensures taken { (features : ℕ) → TakesAck L.event (call.SetProtocolFeatures features) sent self.old result self.new }
        ensures quiet { awaits self.new ≡ Nobody }
    {
        self.take_done(sent)
    }

    /// The half that receives, of `reset_device`.
    pub fn take_reset_device(&mut self, sent: Sent) -> Result<()>
        ensures taken { TakesAck L.event call.ResetDevice sent self.old result self.new }
        ensures quiet { awaits self.new ≡ Nobody }
    {
        self.take_done(sent)
    }

    /// The half that receives, of `set_vring_enable`.
    pub fn take_set_vring_enable(&mut self, sent: Sent) -> Result<()>
        ensures taken { (index : ℕ) (enable : Bool) → TakesAck L.event (call.SetVringEnable index enable) sent self.old result self.new }
        ensures quiet { awaits self.new ≡ Nobody }
    {
        self.take_done(sent)
    }

    /// The half that receives, of `set_config`.
    pub fn take_set_config(&mut self, sent: Sent) -> Result<()>
        ensures taken { (offset flags : ℕ) (bytes : List ℕ) → TakesAck L.event (call.SetConfig offset flags bytes) sent self.old result self.new }
        ensures quiet { awaits self.new ≡ Nobody }
    {
        self.take_done(sent)
    }

    /// The half that receives, of `set_backend_request_fd`.
    pub fn take_set_backend_request_fd(&mut self, sent: Sent) -> Result<()>
        ensures taken { (fd : L.Handle) → TakesAck L.event (call.SetBackendRequestFd fd) sent self.old result self.new }
        ensures quiet { awaits self.new ≡ Nobody }
    {
        self.take_done(sent)
    }

    /// The half that receives, of `set_inflight_fd`.
    pub fn take_set_inflight_fd(&mut self, sent: Sent) -> Result<()>
        ensures taken { (area : VhostUserInflight) (fd : L.Handle) → TakesAck L.event (call.SetInflightFd area fd) sent self.old result self.new }
        ensures quiet { awaits self.new ≡ Nobody }
    {
        self.take_done(sent)
    }

    /// The half that receives, of `remove_mem_region`.
    pub fn take_remove_mem_region(&mut self, sent: Sent) -> Result<()>
        ensures taken { (region : call.Info L.Handle) → TakesAck L.event (call.RemoveMemRegion region) sent self.old result self.new }
        ensures quiet { awaits self.new ≡ Nobody }
    {
        self.take_done(sent)
    }

    /// The half that receives, of `postcopy_ack_mem_regions`.
    pub fn take_postcopy_ack_mem_regions(&mut self, sent: Sent) -> Result<()>
        ensures taken { (code : HeardReq) → TakesAck L.event (call.PostcopyAckMemRegions code) sent self.old result self.new }
        ensures quiet { awaits self.new ≡ Nobody }
    {
        self.take_done(sent)
    }

    /// The half that receives, of `set_mtu`.
    pub fn take_set_mtu(&mut self, sent: Sent) -> Result<()>
        ensures taken { (mtu : ℕ) → TakesAck L.event (call.SetMtu mtu) sent self.old result self.new }
        ensures quiet { awaits self.new ≡ Nobody }
    {
        self.take_done(sent)
    }
}
