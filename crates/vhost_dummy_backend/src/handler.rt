//! What the example device does at each call.

ghost use Rattle.std.specs.Prelude.{◌≡◌, ◌^◌, Ok, Err, IfOk, map, if◌then◌else◌};
ghost use Rattle.vhost_message.specs.Bits.{has_bit as is_set};
ghost use Rattle.vhost_protocol.specs.DeviceCall.{SetMemTable, SetVringKick, SetVringCall, SetVringErr, SetBackendReqFd, SetGpuSocket};
ghost use Rattle.vhost_protocol.specs.Error.{InactiveOperation, seen_result};
ghost use Rattle.vhost_protocol.specs.Features.{CONFIG};
ghost use Rattle.vhost_backend_req_handler_core.specs.Concluding.{seen_bases};
ghost use Rattle.vhost_backend_req.specs.declared.backend.Backend.{Backend};
ghost use Rattle.vhost_gpu_backend_req.specs.declared.backend.GpuBackend.{GpuBackend};

use crate::dummy::{
    DummyBackendReqHandler, MAX_MEM_SLOTS, MAX_QUEUE_NUM, MAX_VRING_NUM, VIRTIO_FEATURES,
};
use bitflags::Flags;
use std::alloc::{AllocError, Global};
use vhost_backend_req::Backend;
use vhost_device::VhostUserBackendReqHandlerMut;
use vhost_gpu_backend_req::GpuBackend;
use vhost_link::Link;
use vhost_message::{
    Error, IoCause, Result, VHOST_USER_CONFIG_OFFSET, VhostTransferStateDirection,
    VhostTransferStatePhase, VhostUserConfigFlags, VhostUserInflight, VhostUserLog,
    VhostUserMemoryRegion, VhostUserMemoryRegionBase, VhostUserProtocolFeatures,
    VhostUserShMemConfig, VhostUserSharedMsg, VhostUserSingleMemoryRegion, VhostUserVirtioFeatures,
    VhostUserVringAddrFlags, VhostUserVringState, has_bit, protocol_bit, virtio_bit,
};

/// All that can be read of the configuration, or written.
const CONFIG_BYTES: [u8; 4] = [0xa5; 4];

const NO_TRANSFER: Error = Error::ReqHandlerError(IoCause::Named(
    "dummy back end does not support state transfer",
));

const NO_SHMEM: Error = Error::ReqHandlerError(IoCause::Named(
    "dummy back end does not support shared memory regions",
));

/// Where the regions begin in the frontend's memory.
fn user_addresses(
    alloc: Global,
    regions: &[VhostUserMemoryRegion],
) -> std::result::Result<Vec<u64>, AllocError>
    ensures { IfOk result (λ v. v.items ≡ map (λ r. r.user_addr) regions.now) }
{
    regions.iter().map(|region| region.user_addr).collect(alloc)
}

/// InactiveOperation where the configuration was not negotiated.
fn check_config(protocol_features: u64) -> Result<()>
    ensures { seen_result result ≡ (if is_set protocol_features CONFIG then Ok tt else Err (InactiveOperation (2 ^ CONFIG))) }
{
    if !has_bit(protocol_features, protocol_bit::CONFIG) {
        return Err(Error::InactiveOperation(VhostUserProtocolFeatures::CONFIG));
    }
    Ok(())
}

impl<L: Link> VhostUserBackendReqHandlerMut for DummyBackendReqHandler<L> {
    ghost use Rattle.vhost_dummy_backend.specs.Dummy.{DummyGives};

    type Link = L;

    ghost gives = { DummyGives L.Handle.duplicates };

    fn set_owner(&mut self) -> Result<()> {
        if self.owned {
            return Err(Error::InvalidOperation("already claimed"));
        }
        self.owned = true;
        Ok(())
    }

    fn reset_owner(&mut self) -> Result<()> {
        self.owned = false;
        self.features_acked = false;
        self.acked_features = 0;
        self.acked_protocol_features = 0;
        Ok(())
    }

    fn reset_device(&mut self) -> Result<()> {
        self.features_acked = false;
        self.acked_features = 0;
        Ok(())
    }

    fn get_features(&mut self) -> Result<u64> {
        Ok(VIRTIO_FEATURES)
    }

    fn set_features(&mut self, features: u64) -> Result<()> {
        if !self.owned {
            return Err(Error::InvalidOperation("not owned"));
        }
        if self.features_acked {
            return Err(Error::InvalidOperation("features already set"));
        }
        if features & VIRTIO_FEATURES != features {
            return Err(Error::InvalidParam);
        }
        self.acked_features = features;
        self.features_acked = true;
        // Without the protocol features there is no request that would enable a ring.
        self.vring_enabled = [!has_bit(features, virtio_bit::PROTOCOL_FEATURES); MAX_QUEUE_NUM];
        Ok(())
    }

    fn set_mem_table(
        &mut self,
        ctx: &[VhostUserMemoryRegion],
        _files: Vec<L::Handle>,
        postcopy_listening: Option<bool>,
    ) -> Result<Option<Vec<VhostUserMemoryRegionBase>>>
        ensures { DummyGives {B = Backend L L.Handle} {G = GpuBackend L L.Handle} L.Handle.duplicates self.old (SetMemTable ctx.now _files.items postcopy_listening) (seen_bases result) self.new }
    {
        if postcopy_listening != Some(true) {
            return Ok(None);
        }
        match user_addresses(self.alloc, ctx) {
            Ok(bases) => Ok(Some(bases)),
            Err(_) => Err(Error::OutOfMemory),
        }
    }

    fn set_vring_num(&mut self, index: u32, num: u32) -> Result<()> {
        let ring = self.ring(index)?;
        if num == 0 || num as usize > MAX_VRING_NUM {
            return Err(Error::InvalidParam);
        }
        self.vring_num[ring] = num;
        Ok(())
    }

    fn set_vring_addr(
        &mut self,
        index: u32,
        _flags: VhostUserVringAddrFlags,
        _descriptor: u64,
        _used: u64,
        _available: u64,
        _log: u64,
    ) -> Result<()> {
        self.ring(index)?;
        Ok(())
    }

    fn set_vring_base(&mut self, index: u32, base: u32) -> Result<()> {
        let ring = self.ring(index)?;
        if base as usize >= MAX_VRING_NUM {
            return Err(Error::InvalidParam);
        }
        self.vring_base[ring] = base;
        Ok(())
    }

    fn get_vring_base(&mut self, index: u32) -> Result<VhostUserVringState> {
        let ring = self.ring(index)?;
        self.vring_started[ring] = false;
        Ok(VhostUserVringState::new(index, self.vring_base[ring]))
    }

    fn set_vring_kick(&mut self, index: u8, fd: Option<L::Handle>) -> Result<()>
        ensures { DummyGives {B = Backend L L.Handle} {G = GpuBackend L L.Handle} L.Handle.duplicates self.old (SetVringKick index fd) (seen_result result) self.new }
    {
        let ring = self.ring(index.into())?;
        self.kick_fd[ring] = fd;
        self.vring_started[ring] = true;
        Ok(())
    }

    fn set_vring_call(&mut self, index: u8, fd: Option<L::Handle>) -> Result<()>
        ensures { DummyGives {B = Backend L L.Handle} {G = GpuBackend L L.Handle} L.Handle.duplicates self.old (SetVringCall index fd) (seen_result result) self.new }
    {
        let ring = self.ring(index.into())?;
        self.call_fd[ring] = fd;
        Ok(())
    }

    fn set_vring_err(&mut self, index: u8, fd: Option<L::Handle>) -> Result<()>
        ensures { DummyGives {B = Backend L L.Handle} {G = GpuBackend L L.Handle} L.Handle.duplicates self.old (SetVringErr index fd) (seen_result result) self.new }
    {
        let ring = self.ring(index.into())?;
        self.err_fd[ring] = fd;
        Ok(())
    }

    #[tactic(auto, unfolding(bitflags::specs::Sets::known_from))]
    fn get_protocol_features(&mut self) -> Result<VhostUserProtocolFeatures> {
        Ok(VhostUserProtocolFeatures::all())
    }

    fn set_protocol_features(&mut self, features: u64) -> Result<()> {
        self.acked_protocol_features = features;
        Ok(())
    }

    fn get_queue_num(&mut self) -> Result<u64> {
        Ok(MAX_QUEUE_NUM as u64)
    }

    fn set_vring_enable(&mut self, index: u32, enable: bool) -> Result<()> {
        if !has_bit(self.acked_features, virtio_bit::PROTOCOL_FEATURES) {
            return Err(Error::InactiveFeature(VhostUserVirtioFeatures::PROTOCOL_FEATURES));
        }
        let ring = self.ring(index)?;
        self.vring_enabled[ring] = enable;
        Ok(())
    }

    fn set_mtu(&mut self, mtu: u16) -> Result<()> {
        if mtu == 0 {
            return Err(Error::InvalidParam);
        }
        self.mtu = mtu;
        Ok(())
    }

    fn get_config(
        &mut self,
        offset: u32,
        size: u32,
        _flags: VhostUserConfigFlags,
    ) -> Result<Vec<u8>> {
        check_config(self.acked_protocol_features)?;
        if offset != VHOST_USER_CONFIG_OFFSET || size != 4 {
            return Err(Error::InvalidParam);
        }
        match Vec::from_slice(self.alloc, &CONFIG_BYTES) {
            Ok(bytes) => Ok(bytes),
            Err(_) => Err(Error::OutOfMemory),
        }
    }

    fn set_config(&mut self, offset: u32, buf: &[u8], _flags: VhostUserConfigFlags) -> Result<()> {
        check_config(self.acked_protocol_features)?;
        if offset != VHOST_USER_CONFIG_OFFSET || buf != CONFIG_BYTES.as_slice() {
            return Err(Error::InvalidParam);
        }
        Ok(())
    }

    fn set_backend_req_fd(&mut self, _backend: Backend<L>)
        ensures { DummyGives {B = Backend L L.Handle} {G = GpuBackend L L.Handle} L.Handle.duplicates self.old (SetBackendReqFd _backend) tt self.new }
    {}

    fn set_gpu_socket(&mut self, _gpu_backend: GpuBackend<L>) -> Result<()>
        ensures { DummyGives {B = Backend L L.Handle} {G = GpuBackend L L.Handle} L.Handle.duplicates self.old (SetGpuSocket _gpu_backend) (seen_result result) self.new }
    {
        Ok(())
    }

    fn get_shared_object(&mut self, _uuid: VhostUserSharedMsg) -> Result<L::Handle> {
        let (file, copy) = self.spare.take_copied()?;
        self.shared_file = Some(copy);
        Ok(file)
    }

    fn get_inflight_fd(
        &mut self,
        inflight: &VhostUserInflight,
    ) -> Result<(VhostUserInflight, L::Handle)> {
        let (file, copy) = self.spare.take_copied()?;
        self.inflight_file = Some(copy);
        let area = VhostUserInflight::new(0x1000, 0, inflight.num_queues, inflight.queue_size);
        Ok((area, file))
    }

    fn set_inflight_fd(&mut self, _inflight: &VhostUserInflight, _file: L::Handle) -> Result<()> {
        Ok(())
    }

    fn get_max_mem_slots(&mut self) -> Result<u64> {
        Ok(MAX_MEM_SLOTS as u64)
    }

    fn add_mem_region(
        &mut self,
        region: &VhostUserSingleMemoryRegion,
        _fd: L::Handle,
        postcopy_listening: Option<bool>,
    ) -> Result<Option<VhostUserMemoryRegionBase>> {
        if postcopy_listening != Some(true) {
            return Ok(None);
        }
        Ok(Some(region.region().user_addr))
    }

    fn remove_mem_region(&mut self, _region: &VhostUserSingleMemoryRegion) -> Result<()> {
        Ok(())
    }

    fn set_device_state_fd(
        &mut self,
        _direction: VhostTransferStateDirection,
        _phase: VhostTransferStatePhase,
        _fd: L::Handle,
    ) -> Result<Option<L::Handle>> {
        Err(NO_TRANSFER)
    }

    fn check_device_state(&mut self) -> Result<()> {
        Err(NO_TRANSFER)
    }

    fn get_shmem_config(&mut self) -> Result<VhostUserShMemConfig> {
        match self.shmem_config {
            Some(config) => Ok(config),
            None => Err(NO_SHMEM),
        }
    }

    fn postcopy_advice(&mut self) -> Result<L::Handle> {
        self.spare.take()
    }

    fn postcopy_listen(&mut self) -> Result<()> {
        Ok(())
    }

    fn postcopy_end(&mut self) -> Result<()> {
        Ok(())
    }

    fn postcopy_ack_mem_regions(&mut self) -> Result<()> {
        Ok(())
    }

    fn set_log_base(&mut self, _log: &VhostUserLog, _file: L::Handle) -> Result<()> {
        Ok(())
    }
}
