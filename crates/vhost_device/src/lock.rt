//! A device behind a lock.

use crate::device::VhostUserBackendReqHandlerMut;
use crate::shared::VhostUserBackendReqHandler;
use std::sync::{Mutex, Wait};
use vhost_backend_req::Backend;
use vhost_gpu_backend_req::GpuBackend;
use vhost_link::Link;
use vhost_message::{
    Result, VhostTransferStateDirection, VhostTransferStatePhase, VhostUserConfigFlags,
    VhostUserInflight, VhostUserLog, VhostUserMemoryRegion, VhostUserMemoryRegionBase,
    VhostUserProtocolFeatures, VhostUserShMemConfig, VhostUserSharedMsg,
    VhostUserSingleMemoryRegion, VhostUserVringAddrFlags, VhostUserVringState,
};

// Each call waits until it has the device for itself.
impl<T: VhostUserBackendReqHandlerMut> VhostUserBackendReqHandler for Mutex<T> {
    type Link = T::Link;

    fn set_owner(&self, rt: &impl Wait) -> Result<()> {
        self.lock(rt).set_owner()
    }

    fn reset_owner(&self, rt: &impl Wait) -> Result<()> {
        self.lock(rt).reset_owner()
    }

    fn reset_device(&self, rt: &impl Wait) -> Result<()> {
        self.lock(rt).reset_device()
    }

    fn get_features(&self, rt: &impl Wait) -> Result<u64> {
        self.lock(rt).get_features()
    }

    fn set_features(&self, rt: &impl Wait, features: u64) -> Result<()> {
        self.lock(rt).set_features(features)
    }

    fn set_mem_table(
        &self,
        rt: &impl Wait,
        ctx: &[VhostUserMemoryRegion],
        files: Vec<<T::Link as Link>::Handle>,
        postcopy_listening: Option<bool>,
    ) -> Result<Option<Vec<VhostUserMemoryRegionBase>>> {
        self.lock(rt).set_mem_table(ctx, files, postcopy_listening)
    }

    fn set_vring_num(&self, rt: &impl Wait, index: u32, num: u32) -> Result<()> {
        self.lock(rt).set_vring_num(index, num)
    }

    fn set_vring_addr(
        &self,
        rt: &impl Wait,
        index: u32,
        flags: VhostUserVringAddrFlags,
        descriptor: u64,
        used: u64,
        available: u64,
        log: u64,
    ) -> Result<()> {
        self.lock(rt)
            .set_vring_addr(index, flags, descriptor, used, available, log)
    }

    fn set_vring_base(&self, rt: &impl Wait, index: u32, base: u32) -> Result<()> {
        self.lock(rt).set_vring_base(index, base)
    }

    fn get_vring_base(&self, rt: &impl Wait, index: u32) -> Result<VhostUserVringState> {
        self.lock(rt).get_vring_base(index)
    }

    fn set_vring_kick(
        &self,
        rt: &impl Wait,
        index: u8,
        fd: Option<<T::Link as Link>::Handle>,
    ) -> Result<()> {
        self.lock(rt).set_vring_kick(index, fd)
    }

    fn set_vring_call(
        &self,
        rt: &impl Wait,
        index: u8,
        fd: Option<<T::Link as Link>::Handle>,
    ) -> Result<()> {
        self.lock(rt).set_vring_call(index, fd)
    }

    fn set_vring_err(
        &self,
        rt: &impl Wait,
        index: u8,
        fd: Option<<T::Link as Link>::Handle>,
    ) -> Result<()> {
        self.lock(rt).set_vring_err(index, fd)
    }

    fn get_protocol_features(&self, rt: &impl Wait) -> Result<VhostUserProtocolFeatures> {
        self.lock(rt).get_protocol_features()
    }

    fn set_protocol_features(&self, rt: &impl Wait, features: u64) -> Result<()> {
        self.lock(rt).set_protocol_features(features)
    }

    fn get_queue_num(&self, rt: &impl Wait) -> Result<u64> {
        self.lock(rt).get_queue_num()
    }

    fn set_vring_enable(&self, rt: &impl Wait, index: u32, enable: bool) -> Result<()> {
        self.lock(rt).set_vring_enable(index, enable)
    }

    fn set_mtu(&self, rt: &impl Wait, mtu: u16) -> Result<()> {
        self.lock(rt).set_mtu(mtu)
    }

    fn get_config(
        &self,
        rt: &impl Wait,
        offset: u32,
        size: u32,
        flags: VhostUserConfigFlags,
    ) -> Result<Vec<u8>> {
        self.lock(rt).get_config(offset, size, flags)
    }

    fn set_config(
        &self,
        rt: &impl Wait,
        offset: u32,
        buf: &[u8],
        flags: VhostUserConfigFlags,
    ) -> Result<()> {
        self.lock(rt).set_config(offset, buf, flags)
    }

    fn set_backend_req_fd(&self, rt: &impl Wait, backend: Backend<T::Link>) {
        self.lock(rt).set_backend_req_fd(backend);
    }

    fn set_gpu_socket(&self, rt: &impl Wait, gpu_backend: GpuBackend<T::Link>) -> Result<()> {
        self.lock(rt).set_gpu_socket(gpu_backend)
    }

    fn get_shared_object(
        &self,
        rt: &impl Wait,
        uuid: VhostUserSharedMsg,
    ) -> Result<<T::Link as Link>::Handle> {
        self.lock(rt).get_shared_object(uuid)
    }

    fn get_inflight_fd(
        &self,
        rt: &impl Wait,
        inflight: &VhostUserInflight,
    ) -> Result<(VhostUserInflight, <T::Link as Link>::Handle)> {
        self.lock(rt).get_inflight_fd(inflight)
    }

    fn set_inflight_fd(
        &self,
        rt: &impl Wait,
        inflight: &VhostUserInflight,
        file: <T::Link as Link>::Handle,
    ) -> Result<()> {
        self.lock(rt).set_inflight_fd(inflight, file)
    }

    fn get_max_mem_slots(&self, rt: &impl Wait) -> Result<u64> {
        self.lock(rt).get_max_mem_slots()
    }

    fn add_mem_region(
        &self,
        rt: &impl Wait,
        region: &VhostUserSingleMemoryRegion,
        fd: <T::Link as Link>::Handle,
        postcopy_listening: Option<bool>,
    ) -> Result<Option<VhostUserMemoryRegionBase>> {
        self.lock(rt).add_mem_region(region, fd, postcopy_listening)
    }

    fn remove_mem_region(
        &self,
        rt: &impl Wait,
        region: &VhostUserSingleMemoryRegion,
    ) -> Result<()> {
        self.lock(rt).remove_mem_region(region)
    }

    fn set_device_state_fd(
        &self,
        rt: &impl Wait,
        direction: VhostTransferStateDirection,
        phase: VhostTransferStatePhase,
        fd: <T::Link as Link>::Handle,
    ) -> Result<Option<<T::Link as Link>::Handle>> {
        self.lock(rt).set_device_state_fd(direction, phase, fd)
    }

    fn check_device_state(&self, rt: &impl Wait) -> Result<()> {
        self.lock(rt).check_device_state()
    }

    fn get_shmem_config(&self, rt: &impl Wait) -> Result<VhostUserShMemConfig> {
        self.lock(rt).get_shmem_config()
    }

    fn postcopy_advice(&self, rt: &impl Wait) -> Result<<T::Link as Link>::Handle> {
        self.lock(rt).postcopy_advice()
    }

    fn postcopy_listen(&self, rt: &impl Wait) -> Result<()> {
        self.lock(rt).postcopy_listen()
    }

    fn postcopy_end(&self, rt: &impl Wait) -> Result<()> {
        self.lock(rt).postcopy_end()
    }

    fn postcopy_ack_mem_regions(&self, rt: &impl Wait) -> Result<()> {
        self.lock(rt).postcopy_ack_mem_regions()
    }

    fn set_log_base(
        &self,
        rt: &impl Wait,
        log: &VhostUserLog,
        file: <T::Link as Link>::Handle,
    ) -> Result<()> {
        self.lock(rt).set_log_base(log, file)
    }
}
