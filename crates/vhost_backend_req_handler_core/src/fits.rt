//! Whether the file descriptors of a message are those of its call.

ghost use Rattle.std.specs.Prelude.{◌≡◌};
ghost use Rattle.vhost_backend_req_handler_core.specs.Beginning.{handles_in};
ghost use Rattle.vhost_backend_req_handler_core.specs.Fits.{fits, wants_one};

use crate::call::DeviceCall;

impl DeviceCall<'_> {
    /// Whether it comes with exactly one file descriptor.
    pub fn wants_one(&self) -> bool
        ensures { result ≡ wants_one self.now }
    {
        match self {
            DeviceCall::SetVringKick(_, wants)
            | DeviceCall::SetVringCall(_, wants)
            | DeviceCall::SetVringErr(_, wants) => *wants,
            DeviceCall::SetLogBase(_)
            | DeviceCall::SetBackendReqFd
            | DeviceCall::SetGpuSocket
            | DeviceCall::SetInflightFd(_)
            | DeviceCall::AddMemRegion(_, _)
            | DeviceCall::SetDeviceStateFd(_, _) => true,
            _ => false,
        }
    }

    /// Whether these file descriptors are those of the call.
    pub fn fits<H: Drop>(&self, handles: &Option<Vec<H>>) -> bool
        ensures { result ≡ fits self.now (handles_in handles.now) }
    {
        if !self.wants_one() {
            return true;
        }
        match handles {
            Some(list) => list.len() == 1,
            None => false,
        }
    }
}
