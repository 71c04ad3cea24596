//! What a VMM asks of a vhost backend.

use crate::dirty_log::VhostUserDirtyLogRegion;
use crate::error::Result;
use crate::region::VhostUserMemoryRegionInfo;
use std::sync::Wait;
use vhost_message::{VhostUserMemoryRegionBase, VringConfigData};

/// What a VMM asks of a vhost backend, through a shared reference; a call may wait for its turn. A ring is named by
/// its index. Errors are the backend's own.
pub trait VhostBackend: Drop {
    /// The file descriptors of memory and events that are lent to the backend.
    type Handle;

    /// The virtio features that the backend offers.
    fn get_features(&self, rt: &impl Wait) -> Result<u64>;

    /// Accepts virtio features.
    fn set_features(&self, rt: &impl Wait, features: u64) -> Result<()>;

    /// Makes the caller the owner of the session.
    fn set_owner(&self, rt: &impl Wait) -> Result<()>;

    /// Gives the session up.
    fn reset_owner(&self, rt: &impl Wait) -> Result<()>;

    /// Gives the backend the guest's memory; while postcopy listens, where the backend has mapped each region.
    fn set_mem_table(
        &self,
        rt: &impl Wait,
        regions: &[VhostUserMemoryRegionInfo<'_, Self::Handle>],
    ) -> Result<Option<Vec<VhostUserMemoryRegionBase>>>;

    /// Gives the backend the log of dirty pages: its address, or a region with a descriptor.
    fn set_log_base(
        &self,
        rt: &impl Wait,
        base: u64,
        region: Option<VhostUserDirtyLogRegion<'_, Self::Handle>>,
    ) -> Result<()>;

    /// Gives the descriptor by which the backend signals that it logged.
    fn set_log_fd(&self, rt: &impl Wait, fd: &Self::Handle) -> Result<()>;

    /// Sets a ring's size, in descriptors.
    fn set_vring_num(&self, rt: &impl Wait, queue_index: usize, num: u16) -> Result<()>;

    /// Says where a ring's parts lie.
    fn set_vring_addr(
        &self,
        rt: &impl Wait,
        queue_index: usize,
        config_data: &VringConfigData,
    ) -> Result<()>;

    /// Sets a ring's next descriptor index.
    fn set_vring_base(&self, rt: &impl Wait, queue_index: usize, base: u16) -> Result<()>;

    /// Stops a ring, and answers its next descriptor index.
    fn get_vring_base(&self, rt: &impl Wait, queue_index: usize) -> Result<u32>;

    /// Gives a ring the call descriptor, by which the backend signals used buffers.
    fn set_vring_call(&self, rt: &impl Wait, queue_index: usize, fd: &Self::Handle) -> Result<()>;

    /// Gives a ring the kick descriptor, by which the driver signals available buffers.
    fn set_vring_kick(&self, rt: &impl Wait, queue_index: usize, fd: &Self::Handle) -> Result<()>;

    /// Gives a ring the error descriptor, by which the backend signals errors.
    fn set_vring_err(&self, rt: &impl Wait, queue_index: usize, fd: &Self::Handle) -> Result<()>;
}

/// The same, through an exclusive reference.
pub trait VhostBackendMut: Drop {
    /// The file descriptors of memory and events that are lent to the backend.
    type Handle;

    /// The virtio features that the backend offers.
    fn get_features(&mut self) -> Result<u64>;

    /// Accepts virtio features.
    fn set_features(&mut self, features: u64) -> Result<()>;

    /// Makes the caller the owner of the session.
    fn set_owner(&mut self) -> Result<()>;

    /// Gives the session up.
    fn reset_owner(&mut self) -> Result<()>;

    /// Gives the backend the guest's memory; while postcopy listens, where the backend has mapped each region.
    fn set_mem_table(
        &mut self,
        regions: &[VhostUserMemoryRegionInfo<'_, Self::Handle>],
    ) -> Result<Option<Vec<VhostUserMemoryRegionBase>>>;

    /// Gives the backend the log of dirty pages: its address, or a region with a descriptor.
    fn set_log_base(
        &mut self,
        base: u64,
        region: Option<VhostUserDirtyLogRegion<'_, Self::Handle>>,
    ) -> Result<()>;

    /// Gives the descriptor by which the backend signals that it logged.
    fn set_log_fd(&mut self, fd: &Self::Handle) -> Result<()>;

    /// Sets a ring's size, in descriptors.
    fn set_vring_num(&mut self, queue_index: usize, num: u16) -> Result<()>;

    /// Says where a ring's parts lie.
    fn set_vring_addr(&mut self, queue_index: usize, config_data: &VringConfigData) -> Result<()>;

    /// Sets a ring's next descriptor index.
    fn set_vring_base(&mut self, queue_index: usize, base: u16) -> Result<()>;

    /// Stops a ring, and answers its next descriptor index.
    fn get_vring_base(&mut self, queue_index: usize) -> Result<u32>;

    /// Gives a ring the call descriptor, by which the backend signals used buffers.
    fn set_vring_call(&mut self, queue_index: usize, fd: &Self::Handle) -> Result<()>;

    /// Gives a ring the kick descriptor, by which the driver signals available buffers.
    fn set_vring_kick(&mut self, queue_index: usize, fd: &Self::Handle) -> Result<()>;

    /// Gives a ring the error descriptor, by which the backend signals errors.
    fn set_vring_err(&mut self, queue_index: usize, fd: &Self::Handle) -> Result<()>;
}
