//! Devices that several sessions may call.

use std::sync::Wait;
use vhost_backend_req::Backend;
use vhost_gpu_backend_req::GpuBackend;
use vhost_link::Link;
use vhost_message::{
    Error, Result, VhostTransferStateDirection, VhostTransferStatePhase, VhostUserConfigFlags,
    VhostUserInflight, VhostUserLog, VhostUserMemoryRegion, VhostUserMemoryRegionBase,
    VhostUserProtocolFeatures, VhostUserShMemConfig, VhostUserSharedMsg,
    VhostUserSingleMemoryRegion, VhostUserVringAddrFlags, VhostUserVringState,
};

/// A device that is called through a shared reference; a call may wait for its turn. What its calls do to it is known
/// only to its implementer, so no contract speaks of it beyond its type.
///
/// A ring is named by its index. Errors are the device's own. Regions and areas of memory are in bytes, by the addresses
/// that their records say.
///
/// Mirrors `vhost::vhost_user::VhostUserBackendReqHandler`, call by call.
pub trait VhostUserBackendReqHandler: Drop {
    /// The links over which the device may be reached. Their file descriptors stand for memory, events and channels that
    /// are lent to the device.
    type Link: Link;

    /// Makes the frontend the owner of the session (VHOST_USER_SET_OWNER).
    fn set_owner(&self, rt: &impl Wait) -> Result<()>;

    /// Gives the session up (VHOST_USER_RESET_OWNER).
    fn reset_owner(&self, rt: &impl Wait) -> Result<()>;

    /// Puts the device back to its first state (VHOST_USER_RESET_DEVICE).
    fn reset_device(&self, rt: &impl Wait) -> Result<()>;

    /// The virtio features that the device offers, as bits (VHOST_USER_GET_FEATURES).
    fn get_features(&self, rt: &impl Wait) -> Result<u64>;

    /// Sets the accepted virtio features, as bits (VHOST_USER_SET_FEATURES).
    fn set_features(&self, rt: &impl Wait, features: u64) -> Result<()>;

    /// Gives the device the guest's memory: its regions, and the file descriptor that maps each, in order
    /// (VHOST_USER_SET_MEM_TABLE). While postcopy listens, the answer is where the device has mapped each
    /// region.
    fn set_mem_table(
        &self,
        rt: &impl Wait,
        ctx: &[VhostUserMemoryRegion],
        files: Vec<<Self::Link as Link>::Handle>,
        postcopy_listening: Option<bool>,
    ) -> Result<Option<Vec<VhostUserMemoryRegionBase>>>;

    /// Sets the size of a ring, in descriptors (VHOST_USER_SET_VRING_NUM).
    fn set_vring_num(&self, rt: &impl Wait, index: u32, num: u32) -> Result<()>;

    /// Says where the parts of a ring lie in the frontend's memory, and where in the guest's its writes are
    /// logged (VHOST_USER_SET_VRING_ADDR).
    fn set_vring_addr(
        &self,
        rt: &impl Wait,
        index: u32,
        flags: VhostUserVringAddrFlags,
        descriptor: u64,
        used: u64,
        available: u64,
        log: u64,
    ) -> Result<()>;

    /// Sets the first index of a ring to look for available descriptors (VHOST_USER_SET_VRING_BASE).
    fn set_vring_base(&self, rt: &impl Wait, index: u32, base: u32) -> Result<()>;

    /// Stops a ring, and answers its next index to look for available descriptors (VHOST_USER_GET_VRING_BASE).
    fn get_vring_base(&self, rt: &impl Wait, index: u32) -> Result<VhostUserVringState>;

    /// Gives a ring its kick descriptor, by which the driver signals available buffers, or none if the device is to
    /// poll for them (VHOST_USER_SET_VRING_KICK).
    fn set_vring_kick(
        &self,
        rt: &impl Wait,
        index: u8,
        fd: Option<<Self::Link as Link>::Handle>,
    ) -> Result<()>;

    /// Gives a ring its call descriptor, by which the device signals used buffers, or none if nobody is to be
    /// signalled (VHOST_USER_SET_VRING_CALL).
    fn set_vring_call(
        &self,
        rt: &impl Wait,
        index: u8,
        fd: Option<<Self::Link as Link>::Handle>,
    ) -> Result<()>;

    /// Gives a ring its error descriptor, by which the device signals errors, or none (VHOST_USER_SET_VRING_ERR).
    fn set_vring_err(
        &self,
        rt: &impl Wait,
        index: u8,
        fd: Option<<Self::Link as Link>::Handle>,
    ) -> Result<()>;

    /// The protocol features that the device offers (VHOST_USER_GET_PROTOCOL_FEATURES).
    fn get_protocol_features(&self, rt: &impl Wait) -> Result<VhostUserProtocolFeatures>;

    /// Sets the accepted protocol features, as bits (VHOST_USER_SET_PROTOCOL_FEATURES).
    fn set_protocol_features(&self, rt: &impl Wait, features: u64) -> Result<()>;

    /// How many queues the device has at most (VHOST_USER_GET_QUEUE_NUM).
    fn get_queue_num(&self, rt: &impl Wait) -> Result<u64>;

    /// Enables or disables a ring (VHOST_USER_SET_VRING_ENABLE).
    fn set_vring_enable(&self, rt: &impl Wait, index: u32, enable: bool) -> Result<()>;

    /// The greatest size of a packet, in bytes (VHOST_USER_NET_SET_MTU).
    fn set_mtu(&self, rt: &impl Wait, mtu: u16) -> Result<()>;

    /// So many bytes of the device's configuration from an offset on, in bytes (VHOST_USER_GET_CONFIG).
    fn get_config(
        &self,
        rt: &impl Wait,
        offset: u32,
        size: u32,
        flags: VhostUserConfigFlags,
    ) -> Result<Vec<u8>>;

    /// Writes bytes into the device's configuration from an offset on, in bytes (VHOST_USER_SET_CONFIG).
    fn set_config(
        &self,
        rt: &impl Wait,
        offset: u32,
        buf: &[u8],
        flags: VhostUserConfigFlags,
    ) -> Result<()>;

    /// Gives the device the channel to its frontend (VHOST_USER_SET_BACKEND_REQ_FD). A device that has no use
    /// for it may leave this out: the channel is let go.
    fn set_backend_req_fd(&self, _rt: &impl Wait, _backend: Backend<Self::Link>) {}

    /// Gives the device the vhost-user-gpu channel (VHOST_USER_GPU_SET_SOCKET).
    fn set_gpu_socket(&self, rt: &impl Wait, gpu_backend: GpuBackend<Self::Link>) -> Result<()>;

    /// The file descriptor of a shared object, by its name (VHOST_USER_GET_SHARED_OBJECT).
    fn get_shared_object(
        &self,
        rt: &impl Wait,
        uuid: VhostUserSharedMsg,
    ) -> Result<<Self::Link as Link>::Handle>;

    /// Makes an inflight region for these queues; the answer is where it lies in what the file descriptor maps
    /// (VHOST_USER_GET_INFLIGHT_FD).
    fn get_inflight_fd(
        &self,
        rt: &impl Wait,
        inflight: &VhostUserInflight,
    ) -> Result<(VhostUserInflight, <Self::Link as Link>::Handle)>;

    /// Gives the device an inflight region, and the file descriptor that maps it (VHOST_USER_SET_INFLIGHT_FD).
    fn set_inflight_fd(
        &self,
        rt: &impl Wait,
        inflight: &VhostUserInflight,
        file: <Self::Link as Link>::Handle,
    ) -> Result<()>;

    /// How many regions of memory the device supports at most (VHOST_USER_GET_MAX_MEM_SLOTS).
    fn get_max_mem_slots(&self, rt: &impl Wait) -> Result<u64>;

    /// Adds one region of the guest's memory, and the file descriptor that maps it (VHOST_USER_ADD_MEM_REG).
    /// While postcopy listens, the answer is where the device has mapped it.
    fn add_mem_region(
        &self,
        rt: &impl Wait,
        region: &VhostUserSingleMemoryRegion,
        fd: <Self::Link as Link>::Handle,
        postcopy_listening: Option<bool>,
    ) -> Result<Option<VhostUserMemoryRegionBase>>;

    /// Removes one region of the guest's memory (VHOST_USER_REM_MEM_REG).
    fn remove_mem_region(&self, rt: &impl Wait, region: &VhostUserSingleMemoryRegion) -> Result<()>;

    /// Begins to save or load the device's state over a file descriptor; the answer is another one where the device
    /// would rather use that (VHOST_USER_SET_DEVICE_STATE_FD).
    fn set_device_state_fd(
        &self,
        rt: &impl Wait,
        direction: VhostTransferStateDirection,
        phase: VhostTransferStatePhase,
        fd: <Self::Link as Link>::Handle,
    ) -> Result<Option<<Self::Link as Link>::Handle>>;

    /// Whether the transfer of the device's state went well (VHOST_USER_CHECK_DEVICE_STATE).
    fn check_device_state(&self, rt: &impl Wait) -> Result<()>;

    /// The device's regions of shared memory (VHOST_USER_GET_SHMEM_CONFIG).
    fn get_shmem_config(&self, rt: &impl Wait) -> Result<VhostUserShMemConfig>;

    /// Prepares for postcopy; the answer is a file descriptor for page faults (VHOST_USER_POSTCOPY_ADVISE).
    fn postcopy_advice(&self, rt: &impl Wait) -> Result<<Self::Link as Link>::Handle>;

    /// Begins to listen for page faults, before the regions of memory come (VHOST_USER_POSTCOPY_LISTEN).
    fn postcopy_listen(&self, rt: &impl Wait) -> Result<()>;

    /// Postcopy is over (VHOST_USER_POSTCOPY_END).
    fn postcopy_end(&self, rt: &impl Wait) -> Result<()>;

    /// The frontend has mapped the regions of memory (the second half of VHOST_USER_SET_MEM_TABLE while
    /// postcopy listens).
    fn postcopy_ack_mem_regions(&self, rt: &impl Wait) -> Result<()>;

    /// Gives the device the log of dirty pages, in bytes, and the file descriptor that maps it
    /// (VHOST_USER_SET_LOG_BASE).
    fn set_log_base(
        &self,
        rt: &impl Wait,
        log: &VhostUserLog,
        file: <Self::Link as Link>::Handle,
    ) -> Result<()>;
}
