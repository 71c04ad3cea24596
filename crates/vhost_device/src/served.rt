//! A shared device as one session calls it.

use crate::device::VhostUserBackendReqHandlerMut;
use crate::shared::VhostUserBackendReqHandler;
use std::alloc::Global;
use std::sync::{Arc, Wait};
use vhost_backend_req::Backend;
use vhost_gpu_backend_req::GpuBackend;
use vhost_link::Link;
use vhost_message::{
    Result, VhostTransferStateDirection, VhostTransferStatePhase, VhostUserConfigFlags,
    VhostUserInflight, VhostUserLog, VhostUserMemoryRegion, VhostUserMemoryRegionBase,
    VhostUserProtocolFeatures, VhostUserShMemConfig, VhostUserSharedMsg,
    VhostUserSingleMemoryRegion, VhostUserVringAddrFlags, VhostUserVringState,
};

/// A shared device as one session calls it, by the trait for exclusive references. Each call is the same call of the
/// device, and may wait. Its relation holds of any call and answer, since others may change the device between two.
#[derive(Drop)]
pub struct SharedDevice<'a, S, R> {
    /// The device.
    pub device: &'a Arc<S, Global>,
    /// What the device's calls wait by.
    pub rt: &'a R,
}

impl<'a, S: VhostUserBackendReqHandler, R: Wait> VhostUserBackendReqHandlerMut
    for SharedDevice<'a, S, R> {
    ghost use Rattle.std.specs.Prelude.{⊤};

    type Link = S::Link;

    ghost gives = { λ _ _ _ _. ⊤ };

    fn set_owner(&mut self) -> Result<()> {
        self.device.set_owner(self.rt)
    }

    fn reset_owner(&mut self) -> Result<()> {
        self.device.reset_owner(self.rt)
    }

    fn reset_device(&mut self) -> Result<()> {
        self.device.reset_device(self.rt)
    }

    fn get_features(&mut self) -> Result<u64> {
        self.device.get_features(self.rt)
    }

    fn set_features(&mut self, features: u64) -> Result<()> {
        self.device.set_features(self.rt, features)
    }

    fn set_mem_table(
        &mut self,
        ctx: &[VhostUserMemoryRegion],
        files: Vec<<S::Link as Link>::Handle>,
        postcopy_listening: Option<bool>,
    ) -> Result<Option<Vec<VhostUserMemoryRegionBase>>>
        ensures { ⊤ }
    {
        self.device
            .set_mem_table(self.rt, ctx, files, postcopy_listening)
    }

    fn set_vring_num(&mut self, index: u32, num: u32) -> Result<()> {
        self.device.set_vring_num(self.rt, index, num)
    }

    fn set_vring_addr(
        &mut self,
        index: u32,
        flags: VhostUserVringAddrFlags,
        descriptor: u64,
        used: u64,
        available: u64,
        log: u64,
    ) -> Result<()> {
        self.device
            .set_vring_addr(self.rt, index, flags, descriptor, used, available, log)
    }

    fn set_vring_base(&mut self, index: u32, base: u32) -> Result<()> {
        self.device.set_vring_base(self.rt, index, base)
    }

    fn get_vring_base(&mut self, index: u32) -> Result<VhostUserVringState> {
        self.device.get_vring_base(self.rt, index)
    }

    fn set_vring_kick(&mut self, index: u8, fd: Option<<S::Link as Link>::Handle>) -> Result<()>
        ensures { ⊤ }
    {
        self.device.set_vring_kick(self.rt, index, fd)
    }

    fn set_vring_call(&mut self, index: u8, fd: Option<<S::Link as Link>::Handle>) -> Result<()>
        ensures { ⊤ }
    {
        self.device.set_vring_call(self.rt, index, fd)
    }

    fn set_vring_err(&mut self, index: u8, fd: Option<<S::Link as Link>::Handle>) -> Result<()>
        ensures { ⊤ }
    {
        self.device.set_vring_err(self.rt, index, fd)
    }

    fn get_protocol_features(&mut self) -> Result<VhostUserProtocolFeatures> {
        self.device.get_protocol_features(self.rt)
    }

    fn set_protocol_features(&mut self, features: u64) -> Result<()> {
        self.device.set_protocol_features(self.rt, features)
    }

    fn get_queue_num(&mut self) -> Result<u64> {
        self.device.get_queue_num(self.rt)
    }

    fn set_vring_enable(&mut self, index: u32, enable: bool) -> Result<()> {
        self.device.set_vring_enable(self.rt, index, enable)
    }

    fn set_mtu(&mut self, mtu: u16) -> Result<()> {
        self.device.set_mtu(self.rt, mtu)
    }

    fn get_config(
        &mut self,
        offset: u32,
        size: u32,
        flags: VhostUserConfigFlags,
    ) -> Result<Vec<u8>> {
        self.device.get_config(self.rt, offset, size, flags)
    }

    fn set_config(&mut self, offset: u32, buf: &[u8], flags: VhostUserConfigFlags) -> Result<()> {
        self.device.set_config(self.rt, offset, buf, flags)
    }

    fn set_backend_req_fd(&mut self, backend: Backend<S::Link>)
        ensures { ⊤ }
    {
        self.device.set_backend_req_fd(self.rt, backend);
    }

    fn set_gpu_socket(&mut self, gpu_backend: GpuBackend<S::Link>) -> Result<()>
        ensures { ⊤ }
    {
        self.device.set_gpu_socket(self.rt, gpu_backend)
    }

    fn get_shared_object(&mut self, uuid: VhostUserSharedMsg) -> Result<<S::Link as Link>::Handle> {
        self.device.get_shared_object(self.rt, uuid)
    }

    fn get_inflight_fd(
        &mut self,
        inflight: &VhostUserInflight,
    ) -> Result<(VhostUserInflight, <S::Link as Link>::Handle)> {
        self.device.get_inflight_fd(self.rt, inflight)
    }

    fn set_inflight_fd(
        &mut self,
        inflight: &VhostUserInflight,
        file: <S::Link as Link>::Handle,
    ) -> Result<()> {
        self.device.set_inflight_fd(self.rt, inflight, file)
    }

    fn get_max_mem_slots(&mut self) -> Result<u64> {
        self.device.get_max_mem_slots(self.rt)
    }

    fn add_mem_region(
        &mut self,
        region: &VhostUserSingleMemoryRegion,
        fd: <S::Link as Link>::Handle,
        postcopy_listening: Option<bool>,
    ) -> Result<Option<VhostUserMemoryRegionBase>> {
        self.device
            .add_mem_region(self.rt, region, fd, postcopy_listening)
    }

    fn remove_mem_region(&mut self, region: &VhostUserSingleMemoryRegion) -> Result<()> {
        self.device.remove_mem_region(self.rt, region)
    }

    fn set_device_state_fd(
        &mut self,
        direction: VhostTransferStateDirection,
        phase: VhostTransferStatePhase,
        fd: <S::Link as Link>::Handle,
    ) -> Result<Option<<S::Link as Link>::Handle>> {
        self.device
            .set_device_state_fd(self.rt, direction, phase, fd)
    }

    fn check_device_state(&mut self) -> Result<()> {
        self.device.check_device_state(self.rt)
    }

    fn get_shmem_config(&mut self) -> Result<VhostUserShMemConfig> {
        self.device.get_shmem_config(self.rt)
    }

    fn postcopy_advice(&mut self) -> Result<<S::Link as Link>::Handle> {
        self.device.postcopy_advice(self.rt)
    }

    fn postcopy_listen(&mut self) -> Result<()> {
        self.device.postcopy_listen(self.rt)
    }

    fn postcopy_end(&mut self) -> Result<()> {
        self.device.postcopy_end(self.rt)
    }

    fn postcopy_ack_mem_regions(&mut self) -> Result<()> {
        self.device.postcopy_ack_mem_regions(self.rt)
    }

    fn set_log_base(&mut self, log: &VhostUserLog, file: <S::Link as Link>::Handle) -> Result<()> {
        self.device.set_log_base(self.rt, log, file)
    }
}
