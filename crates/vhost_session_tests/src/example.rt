//! The example device behind one bound, so that what is generic in a device is called with it once.

use std::alloc::Global;
use vhost_device::VhostUserBackendReqHandlerMut;
use vhost_link::MemLink;
use vhost_promises::Device;

/// A device of links in memory that a test makes anew.
pub(crate) trait Example: VhostUserBackendReqHandlerMut<Link = MemLink> {
    /// A new one, without descriptors to give out.
    fn fresh(alloc: Global) -> Self;
}

impl Example for Device {
    fn fresh(alloc: Global) -> Self {
        Device::new(alloc, Vec::new(alloc))
    }
}
