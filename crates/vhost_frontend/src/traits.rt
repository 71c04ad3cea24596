//! What a VMM asks of a vhost-user backend beside the calls of any vhost backend.

use std::sync::Wait;
use vhost_backend::{Result, VhostBackend, VhostUserMemoryRegionInfo};
use vhost_message::{
    FrontendReq, VhostTransferStateDirection, VhostTransferStatePhase, VhostUserConfig,
    VhostUserConfigFlags, VhostUserInflight, VhostUserProtocolFeatures, VhostUserShMemConfig,
    VhostUserSharedMsg,
};

/// What a VMM asks of a backend by the vhost-user protocol. A call may wait for its turn. A ring is named by its index.
///
/// Mirrors `vhost::vhost_user::VhostUserFrontend`.
pub trait VhostUserFrontend: VhostBackend {
    /// The protocol features that the backend offers.
    fn get_protocol_features(&mut self, rt: &impl Wait) -> Result<VhostUserProtocolFeatures>;

    /// Accepts protocol features.
    fn set_protocol_features(
        &mut self,
        rt: &impl Wait,
        features: VhostUserProtocolFeatures,
    ) -> Result<()>;

    /// How many queues the backend has at most.
    fn get_queue_num(&mut self, rt: &impl Wait) -> Result<u64>;

    /// Resets the device.
    fn reset_device(&mut self, rt: &impl Wait) -> Result<()>;

    /// Enables or disables a ring.
    fn set_vring_enable(&mut self, rt: &impl Wait, queue_index: usize, enable: bool) -> Result<()>;

    /// The bytes of the configuration space from this one on, as many as the buffer has, and the part that the backend says
    /// they are.
    fn get_config(
        &mut self,
        rt: &impl Wait,
        offset: u32,
        size: u32,
        flags: VhostUserConfigFlags,
        buf: &[u8],
    ) -> Result<(VhostUserConfig, Vec<u8>)>;

    /// Changes the configuration space from this byte on.
    fn set_config(
        &mut self,
        rt: &impl Wait,
        offset: u32,
        flags: VhostUserConfigFlags,
        buf: &[u8],
    ) -> Result<()>;

    /// Gives the backend channel, on which the backend may send requests.
    fn set_backend_request_fd(&mut self, rt: &impl Wait, fd: &Self::Handle) -> Result<()>;

    /// The descriptor of a shared object.
    fn get_shared_object(
        &mut self,
        rt: &impl Wait,
        shared_msg: &VhostUserSharedMsg,
    ) -> Result<Self::Handle>;

    /// The inflight region: where it lies, and its file descriptor.
    fn get_inflight_fd(
        &mut self,
        rt: &impl Wait,
        inflight: &VhostUserInflight,
    ) -> Result<(VhostUserInflight, Self::Handle)>;

    /// Gives the inflight region.
    fn set_inflight_fd(
        &mut self,
        rt: &impl Wait,
        inflight: &VhostUserInflight,
        fd: &Self::Handle,
    ) -> Result<()>;

    /// How many regions of memory the backend can be given.
    fn get_max_mem_slots(&mut self, rt: &impl Wait) -> Result<u64>;

    /// Gives the backend a region of memory; while postcopy listens, where the backend has mapped it.
    fn add_mem_region(
        &mut self,
        rt: &impl Wait,
        region: &VhostUserMemoryRegionInfo<'_, Self::Handle>,
    ) -> Result<Option<u64>>;

    /// Removes a region of memory from the backend.
    fn remove_mem_region(
        &mut self,
        rt: &impl Wait,
        region: &VhostUserMemoryRegionInfo<'_, Self::Handle>,
    ) -> Result<()>;

    /// The regions of shared memory.
    fn get_shmem_config(&mut self, rt: &impl Wait) -> Result<VhostUserShMemConfig>;

    /// Begins a transfer of the backend's state over this descriptor. The answer is the descriptor that the backend wants
    /// in its place, if any.
    fn set_device_state_fd(
        &self,
        rt: &impl Wait,
        direction: VhostTransferStateDirection,
        phase: VhostTransferStatePhase,
        fd: Self::Handle,
    ) -> Result<Option<Self::Handle>>;

    /// Checks whether the transfer succeeded.
    fn check_device_state(&self, rt: &impl Wait) -> Result<()>;

    /// Announces that postcopy is going to begin. The answer is the userfaultfd.
    fn postcopy_advise(&mut self, rt: &impl Wait) -> Result<Self::Handle>;

    /// Asks the backend to listen for page faults.
    fn postcopy_listen(&mut self, rt: &impl Wait) -> Result<()>;

    /// Announces that postcopy has ended.
    fn postcopy_end(&mut self, rt: &impl Wait) -> Result<()>;

    /// Acknowledges that the regions are mapped which this request brought: SET_MEM_TABLE or ADD_MEM_REG.
    fn postcopy_ack_mem_regions(&mut self, rt: &impl Wait, code: FrontendReq) -> Result<()>;

    /// Sets the MTU, in bytes.
    fn set_mtu(&mut self, rt: &impl Wait, mtu: u16) -> Result<()>;
}
