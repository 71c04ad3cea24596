//! Devices, as a session calls them.

ghost use Rattle.vhost_backend_req.specs.declared.backend.Backend.{Backend};
ghost use Rattle.vhost_gpu_backend_req.specs.declared.backend.GpuBackend.{GpuBackend};
ghost use Rattle.vhost_backend_req_handler_core.specs.Concluding.{seen_bases, seen_bytes};
ghost use Rattle.vhost_device.specs.Answers.{seen_bits};
ghost use Rattle.vhost_message.specs.FlagBits.{config_bits, vring_addr_bits};
ghost use Rattle.vhost_message.specs.Transfer.{direction_number, phase_number};
ghost use Rattle.vhost_protocol.specs.DeviceCall.{Call, Answer, SetOwner, ResetOwner, ResetDevice, GetFeatures, SetFeatures, SetMemTable, SetVringNum, SetVringAddr, SetVringBase, GetVringBase, SetVringKick, SetVringCall, SetVringErr, GetProtocolFeatures, SetProtocolFeatures, GetQueueNum, SetVringEnable, GetConfig, SetConfig, SetBackendReqFd, SetGpuSocket, GetSharedObject, GetInflightFd, SetInflightFd, GetMaxMemSlots, AddMemRegion, RemoveMemRegion, SetDeviceStateFd, CheckDeviceState, GetShmemConfig, PostcopyAdvice, PostcopyListen, PostcopyEnd, PostcopyAckMemRegions, SetLogBase, SetMtu};
ghost use Rattle.vhost_protocol.specs.Error.{seen_result};

use vhost_backend_req::Backend;
use vhost_gpu_backend_req::GpuBackend;
use vhost_link::Link;
use vhost_message::{
    Result, VhostTransferStateDirection, VhostTransferStatePhase, VhostUserConfigFlags,
    VhostUserInflight, VhostUserLog, VhostUserMemoryRegion, VhostUserMemoryRegionBase,
    VhostUserProtocolFeatures, VhostUserShMemConfig, VhostUserSharedMsg,
    VhostUserSingleMemoryRegion, VhostUserVringAddrFlags, VhostUserVringState,
};

/// A device that a session calls through an exclusive reference. Its implementer chooses how each call may change it and
/// what it may answer; every call of a session is one of these, with the arguments of the request.
///
/// A ring is named by its index. Errors are the device's own. Regions and areas of memory are in bytes, by the addresses
/// that their records say. There are no default bodies, also for `set_backend_req_fd`: a device that has no use for the
/// channel lets it go.
///
/// A request without a call here, which a session hears under `Profile::Standard` alone, is refused, and the device is not
/// called. Whoever serves such requests, takes them as values: `DeviceCall::Other` of `BackendReqHandler::receive`.
///
/// Mirrors `vhost::vhost_user::VhostUserBackendReqHandlerMut`, call by call.
pub trait VhostUserBackendReqHandlerMut: Drop {
    /// The links over which the device may be reached. Their file descriptors stand for memory, events and channels that
    /// are lent to the device.
    type Link: Link;

    /// Old state, call, answer and new state.
    ghost gives: { Self → (c : Call Self.Link.Handle (Backend Self.Link Self.Link.Handle) (GpuBackend Self.Link Self.Link.Handle)) → Answer c → Self → Type 0 };

    /// Makes the frontend the owner of the session (VHOST_USER_SET_OWNER).
    fn set_owner(&mut self) -> Result<()>
        ensures { gives self.old SetOwner (seen_result result) self.new };

    /// Gives the session up (VHOST_USER_RESET_OWNER).
    fn reset_owner(&mut self) -> Result<()>
        ensures { gives self.old ResetOwner (seen_result result) self.new };

    /// Puts the device back to its first state (VHOST_USER_RESET_DEVICE).
    fn reset_device(&mut self) -> Result<()>
        ensures { gives self.old ResetDevice (seen_result result) self.new };

    /// The virtio features that the device offers, as bits (VHOST_USER_GET_FEATURES).
    fn get_features(&mut self) -> Result<u64>
        ensures { gives self.old GetFeatures (seen_result result) self.new };

    /// Sets the accepted virtio features, as bits (VHOST_USER_SET_FEATURES).
    fn set_features(&mut self, features: u64) -> Result<()>
        ensures { gives self.old (SetFeatures features) (seen_result result) self.new };

    /// Gives the device the guest's memory: its regions, and the file descriptor that maps each, in order
    /// (VHOST_USER_SET_MEM_TABLE). While postcopy listens, the answer is where the device has mapped each
    /// region.
    fn set_mem_table(
        &mut self,
        ctx: &[VhostUserMemoryRegion],
        files: Vec<<Self::Link as Link>::Handle>,
        postcopy_listening: Option<bool>,
    ) -> Result<Option<Vec<VhostUserMemoryRegionBase>>>
        ensures { gives self.old (SetMemTable ctx.now files.items postcopy_listening) (seen_bases result) self.new };

    /// Sets the size of a ring, in descriptors (VHOST_USER_SET_VRING_NUM).
    fn set_vring_num(&mut self, index: u32, num: u32) -> Result<()>
        ensures { gives self.old (SetVringNum index num) (seen_result result) self.new };

    /// Says where the parts of a ring lie in the frontend's memory, and where in the guest's its writes are
    /// logged (VHOST_USER_SET_VRING_ADDR).
    fn set_vring_addr(
        &mut self,
        index: u32,
        flags: VhostUserVringAddrFlags,
        descriptor: u64,
        used: u64,
        available: u64,
        log: u64,
    ) -> Result<()>
        ensures { gives self.old (SetVringAddr (record { index = index; flags = vring_addr_bits flags; descriptor = descriptor; used = used; available = available; log = log })) (seen_result result) self.new };

    /// Sets the first index of a ring to look for available descriptors (VHOST_USER_SET_VRING_BASE).
    fn set_vring_base(&mut self, index: u32, base: u32) -> Result<()>
        ensures { gives self.old (SetVringBase index base) (seen_result result) self.new };

    /// Stops a ring, and answers its next index to look for available descriptors (VHOST_USER_GET_VRING_BASE).
    fn get_vring_base(&mut self, index: u32) -> Result<VhostUserVringState>
        ensures { gives self.old (GetVringBase index) (seen_result result) self.new };

    /// Gives a ring its kick descriptor, by which the driver signals available buffers, or none if the device is to
    /// poll for them (VHOST_USER_SET_VRING_KICK).
    fn set_vring_kick(&mut self, index: u8, fd: Option<<Self::Link as Link>::Handle>) -> Result<()>
        ensures { gives self.old (SetVringKick index fd) (seen_result result) self.new };

    /// Gives a ring its call descriptor, by which the device signals used buffers, or none if nobody is to be
    /// signalled (VHOST_USER_SET_VRING_CALL).
    fn set_vring_call(&mut self, index: u8, fd: Option<<Self::Link as Link>::Handle>) -> Result<()>
        ensures { gives self.old (SetVringCall index fd) (seen_result result) self.new };

    /// Gives a ring its error descriptor, by which the device signals errors, or none (VHOST_USER_SET_VRING_ERR).
    fn set_vring_err(&mut self, index: u8, fd: Option<<Self::Link as Link>::Handle>) -> Result<()>
        ensures { gives self.old (SetVringErr index fd) (seen_result result) self.new };

    /// The protocol features that the device offers (VHOST_USER_GET_PROTOCOL_FEATURES).
    fn get_protocol_features(&mut self) -> Result<VhostUserProtocolFeatures>
        ensures { gives self.old GetProtocolFeatures (seen_bits result) self.new };

    /// Sets the accepted protocol features, as bits (VHOST_USER_SET_PROTOCOL_FEATURES).
    fn set_protocol_features(&mut self, features: u64) -> Result<()>
        ensures { gives self.old (SetProtocolFeatures features) (seen_result result) self.new };

    /// How many queues the device has at most (VHOST_USER_GET_QUEUE_NUM).
    fn get_queue_num(&mut self) -> Result<u64>
        ensures { gives self.old GetQueueNum (seen_result result) self.new };

    /// Enables or disables a ring (VHOST_USER_SET_VRING_ENABLE).
    fn set_vring_enable(&mut self, index: u32, enable: bool) -> Result<()>
        ensures { gives self.old (SetVringEnable index enable) (seen_result result) self.new };

    /// The greatest size of a packet, in bytes (VHOST_USER_NET_SET_MTU).
    fn set_mtu(&mut self, mtu: u16) -> Result<()>
        ensures { gives self.old (SetMtu mtu) (seen_result result) self.new };

    /// So many bytes of the device's configuration from an offset on, in bytes (VHOST_USER_GET_CONFIG).
    fn get_config(&mut self, offset: u32, size: u32, flags: VhostUserConfigFlags) -> Result<Vec<u8>>
        ensures { gives self.old (GetConfig offset size (config_bits flags)) (seen_bytes result) self.new };

    /// Writes bytes into the device's configuration from an offset on, in bytes (VHOST_USER_SET_CONFIG).
    fn set_config(&mut self, offset: u32, buf: &[u8], flags: VhostUserConfigFlags) -> Result<()>
        ensures { gives self.old (SetConfig offset buf.now (config_bits flags)) (seen_result result) self.new };

    /// Gives the device the channel to its frontend (VHOST_USER_SET_BACKEND_REQ_FD).
    fn set_backend_req_fd(&mut self, backend: Backend<Self::Link>)
        ensures { gives self.old (SetBackendReqFd backend) tt self.new };

    /// Gives the device the vhost-user-gpu channel (VHOST_USER_GPU_SET_SOCKET).
    fn set_gpu_socket(&mut self, gpu_backend: GpuBackend<Self::Link>) -> Result<()>
        ensures { gives self.old (SetGpuSocket gpu_backend) (seen_result result) self.new };

    /// The file descriptor of a shared object, by its name (VHOST_USER_GET_SHARED_OBJECT).
    fn get_shared_object(
        &mut self,
        uuid: VhostUserSharedMsg,
    ) -> Result<<Self::Link as Link>::Handle>
        ensures { gives self.old (GetSharedObject uuid) (seen_result result) self.new };

    /// Makes an inflight region for these queues; the answer is where it lies in what the file descriptor maps
    /// (VHOST_USER_GET_INFLIGHT_FD).
    fn get_inflight_fd(
        &mut self,
        inflight: &VhostUserInflight,
    ) -> Result<(VhostUserInflight, <Self::Link as Link>::Handle)>
        ensures { gives self.old (GetInflightFd inflight.now) (seen_result result) self.new };

    /// Gives the device an inflight region, and the file descriptor that maps it (VHOST_USER_SET_INFLIGHT_FD).
    fn set_inflight_fd(
        &mut self,
        inflight: &VhostUserInflight,
        file: <Self::Link as Link>::Handle,
    ) -> Result<()>
        ensures { gives self.old (SetInflightFd inflight.now file) (seen_result result) self.new };

    /// How many regions of memory the device supports at most (VHOST_USER_GET_MAX_MEM_SLOTS).
    fn get_max_mem_slots(&mut self) -> Result<u64>
        ensures { gives self.old GetMaxMemSlots (seen_result result) self.new };

    /// Adds one region of the guest's memory, and the file descriptor that maps it (VHOST_USER_ADD_MEM_REG).
    /// While postcopy listens, the answer is where the device has mapped it.
    fn add_mem_region(
        &mut self,
        region: &VhostUserSingleMemoryRegion,
        fd: <Self::Link as Link>::Handle,
        postcopy_listening: Option<bool>,
    ) -> Result<Option<VhostUserMemoryRegionBase>>
        ensures { gives self.old (AddMemRegion region.now fd postcopy_listening) (seen_result result) self.new };

    /// Removes one region of the guest's memory (VHOST_USER_REM_MEM_REG).
    fn remove_mem_region(&mut self, region: &VhostUserSingleMemoryRegion) -> Result<()>
        ensures { gives self.old (RemoveMemRegion region.now) (seen_result result) self.new };

    /// Begins to save or load the device's state over a file descriptor; the answer is another one where the device
    /// would rather use that (VHOST_USER_SET_DEVICE_STATE_FD).
    fn set_device_state_fd(
        &mut self,
        direction: VhostTransferStateDirection,
        phase: VhostTransferStatePhase,
        fd: <Self::Link as Link>::Handle,
    ) -> Result<Option<<Self::Link as Link>::Handle>>
        ensures { gives self.old (SetDeviceStateFd (record { direction = direction_number direction; phase = phase_number phase }) fd) (seen_result result) self.new };

    /// Whether the transfer of the device's state went well (VHOST_USER_CHECK_DEVICE_STATE).
    fn check_device_state(&mut self) -> Result<()>
        ensures { gives self.old CheckDeviceState (seen_result result) self.new };

    /// The device's regions of shared memory (VHOST_USER_GET_SHMEM_CONFIG).
    fn get_shmem_config(&mut self) -> Result<VhostUserShMemConfig>
        ensures { gives self.old GetShmemConfig (seen_result result) self.new };

    /// Prepares for postcopy; the answer is a file descriptor for page faults (VHOST_USER_POSTCOPY_ADVISE).
    fn postcopy_advice(&mut self) -> Result<<Self::Link as Link>::Handle>
        ensures { gives self.old PostcopyAdvice (seen_result result) self.new };

    /// Begins to listen for page faults, before the regions of memory come (VHOST_USER_POSTCOPY_LISTEN).
    fn postcopy_listen(&mut self) -> Result<()>
        ensures { gives self.old PostcopyListen (seen_result result) self.new };

    /// Postcopy is over (VHOST_USER_POSTCOPY_END).
    fn postcopy_end(&mut self) -> Result<()>
        ensures { gives self.old PostcopyEnd (seen_result result) self.new };

    /// The frontend has mapped the regions of memory (the second half of VHOST_USER_SET_MEM_TABLE while
    /// postcopy listens).
    fn postcopy_ack_mem_regions(&mut self) -> Result<()>
        ensures { gives self.old PostcopyAckMemRegions (seen_result result) self.new };

    /// Gives the device the log of dirty pages, in bytes, and the file descriptor that maps it
    /// (VHOST_USER_SET_LOG_BASE).
    fn set_log_base(&mut self, log: &VhostUserLog, file: <Self::Link as Link>::Handle) -> Result<()>
        ensures { gives self.old (SetLogBase log.now file) (seen_result result) self.new };
}
