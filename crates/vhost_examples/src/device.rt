//! A device of one's own.

ghost use Rattle.std.specs.Prelude.{◌≡◌};

use bitflags::Flags;
use vhost_backend_req::Backend;
use vhost_device::VhostUserBackendReqHandlerMut;
use vhost_gpu_backend_req::GpuBackend;
use vhost_link::{Link, NoHandle, UnixLink};
use vhost_message::{
    Error, IoCause, Result, VhostTransferStateDirection, VhostTransferStatePhase,
    VhostUserConfigFlags, VhostUserInflight, VhostUserLog, VhostUserMemoryRegion,
    VhostUserProtocolFeatures, VhostUserShMemConfig, VhostUserSharedMsg,
    VhostUserSingleMemoryRegion, VhostUserVringAddrFlags, VhostUserVringState,
};

/// The virtio features that it offers: one of its own, bit 0, and bit 30, so that there are protocol features.
const OFFERED: u64 = 0x4000_0001;

/// How many queues it has.
const QUEUES: u64 = 2;

/// What it has no use for is refused so.
const UNUSED: Error = Error::ReqHandlerError(IoCause::Named("this device has no use for it"));

/// A device that is owned, negotiates features, and accepts all that belongs to a ring.
#[derive(Drop)]
pub struct Device {
    /// Whether a frontend owns it.
    pub owned: bool,
    /// The virtio features that were accepted, always among those that it offers.
    pub features: u64,
}

impl Device {
    /// A device that nobody owns yet.
    pub(crate) fn new() -> Device {
        Device {
            owned: false,
            features: 0,
        }
    }
}

impl VhostUserBackendReqHandlerMut for Device {
    ghost use Rattle.vhost_examples.specs.Device.{Gives};

    type Link = UnixLink;

    ghost gives = { Gives };

    fn set_owner(&mut self) -> Result<()> {
        self.owned = true;
        Ok(())
    }

    fn reset_owner(&mut self) -> Result<()> {
        self.owned = false;
        self.features = 0;
        Ok(())
    }

    fn get_features(&mut self) -> Result<u64> {
        Ok(OFFERED)
    }

    fn set_features(&mut self, features: u64) -> Result<()> {
        if features & OFFERED != features {
            return Err(Error::InvalidParam);
        }
        self.features = features;
        Ok(())
    }

    fn get_protocol_features(&mut self) -> Result<VhostUserProtocolFeatures> {
        Ok(VhostUserProtocolFeatures::MQ.union(VhostUserProtocolFeatures::REPLY_ACK))
    }

    fn set_protocol_features(&mut self, _features: u64) -> Result<()> {
        Ok(())
    }

    fn get_queue_num(&mut self) -> Result<u64> {
        Ok(QUEUES)
    }

    fn set_mem_table(
        &mut self,
        _ctx: &[VhostUserMemoryRegion],
        _files: Vec<NoHandle>,
        _postcopy_listening: Option<bool>,
    ) -> Result<Option<Vec<u64>>>
        ensures { self.new ≡ self.old }
    {
        Ok(None)
    }

    fn set_vring_num(&mut self, _index: u32, _num: u32) -> Result<()> {
        Ok(())
    }

    fn set_vring_addr(
        &mut self,
        _index: u32,
        _flags: VhostUserVringAddrFlags,
        _descriptor: u64,
        _used: u64,
        _available: u64,
        _log: u64,
    ) -> Result<()> {
        Ok(())
    }

    fn set_vring_base(&mut self, _index: u32, _base: u32) -> Result<()> {
        Ok(())
    }

    fn get_vring_base(&mut self, index: u32) -> Result<VhostUserVringState> {
        Ok(VhostUserVringState::new(index, 0))
    }

    fn set_vring_kick(&mut self, _index: u8, _fd: Option<NoHandle>) -> Result<()>
        ensures { self.new ≡ self.old }
    {
        Ok(())
    }

    fn set_vring_call(&mut self, _index: u8, _fd: Option<NoHandle>) -> Result<()>
        ensures { self.new ≡ self.old }
    {
        Ok(())
    }

    fn set_vring_err(&mut self, _index: u8, _fd: Option<NoHandle>) -> Result<()>
        ensures { self.new ≡ self.old }
    {
        Ok(())
    }

    fn set_vring_enable(&mut self, _index: u32, _enable: bool) -> Result<()> {
        Ok(())
    }

    fn set_mtu(&mut self, _mtu: u16) -> Result<()> {
        Err(UNUSED)
    }

    fn reset_device(&mut self) -> Result<()> {
        Err(UNUSED)
    }

    fn get_config(
        &mut self,
        _offset: u32,
        _size: u32,
        _flags: VhostUserConfigFlags,
    ) -> Result<Vec<u8>> {
        Err(UNUSED)
    }

    fn set_config(
        &mut self,
        _offset: u32,
        _buf: &[u8],
        _flags: VhostUserConfigFlags,
    ) -> Result<()> {
        Err(UNUSED)
    }

    fn set_backend_req_fd(&mut self, _backend: Backend<UnixLink>)
        ensures { self.new ≡ self.old }
    {}

    fn set_gpu_socket(&mut self, _gpu_backend: GpuBackend<UnixLink>) -> Result<()>
        ensures { self.new ≡ self.old }
    {
        Err(UNUSED)
    }

    fn get_shared_object(&mut self, _uuid: VhostUserSharedMsg) -> Result<NoHandle> {
        Err(UNUSED)
    }

    fn get_inflight_fd(
        &mut self,
        _inflight: &VhostUserInflight,
    ) -> Result<(VhostUserInflight, NoHandle)> {
        Err(UNUSED)
    }

    fn set_inflight_fd(&mut self, _inflight: &VhostUserInflight, _file: NoHandle) -> Result<()> {
        Err(UNUSED)
    }

    fn get_max_mem_slots(&mut self) -> Result<u64> {
        Err(UNUSED)
    }

    fn add_mem_region(
        &mut self,
        _region: &VhostUserSingleMemoryRegion,
        _fd: NoHandle,
        _postcopy_listening: Option<bool>,
    ) -> Result<Option<u64>> {
        Err(UNUSED)
    }

    fn remove_mem_region(&mut self, _region: &VhostUserSingleMemoryRegion) -> Result<()> {
        Err(UNUSED)
    }

    fn set_device_state_fd(
        &mut self,
        _direction: VhostTransferStateDirection,
        _phase: VhostTransferStatePhase,
        _fd: NoHandle,
    ) -> Result<Option<NoHandle>> {
        Err(UNUSED)
    }

    fn check_device_state(&mut self) -> Result<()> {
        Err(UNUSED)
    }

    fn get_shmem_config(&mut self) -> Result<VhostUserShMemConfig> {
        Err(UNUSED)
    }

    fn postcopy_advice(&mut self) -> Result<NoHandle> {
        Err(UNUSED)
    }

    fn postcopy_listen(&mut self) -> Result<()> {
        Err(UNUSED)
    }

    fn postcopy_end(&mut self) -> Result<()> {
        Err(UNUSED)
    }

    fn postcopy_ack_mem_regions(&mut self) -> Result<()> {
        Err(UNUSED)
    }

    fn set_log_base(&mut self, _log: &VhostUserLog, _file: NoHandle) -> Result<()> {
        Err(UNUSED)
    }
}
