//! What a backend asks of its frontend, as a value.

ghost use Rattle.vhost_protocol.specs.IoError.{seen_io_result};
ghost use Rattle.vhost_frontend_req_handler.specs.Calling.{call_in};

use crate::device::VhostUserFrontendReqHandlerMut;
use vhost_message::{HandlerResult, VhostUserMMap, VhostUserSharedMsg};

/// A call of the frontend's side with its arguments.
#[derive(Drop)]
pub enum FrontendSideCall<H> {
    ConfigChange,
    SharedObjectAdd(VhostUserSharedMsg),
    SharedObjectRemove(VhostUserSharedMsg),
    SharedObjectLookup(VhostUserSharedMsg, H),
    ShmemMap(VhostUserMMap, H),
    ShmemUnmap(VhostUserMMap),
}

/// What a request becomes.
#[derive(Drop)]
pub enum Begun<H> {
    /// The frontend's side is to be called.
    Calls(FrontendSideCall<H>),
    /// The body is not what the request brings.
    BadBody,
    /// The request is known, but not served.
    Unserved,
}

/// Makes a call.
pub fn call_device<D: VhostUserFrontendReqHandlerMut>(
    device: &mut D,
    call: FrontendSideCall<D::Handle>,
) -> HandlerResult<u64>
    ensures { D.gives device.old (call_in call) (seen_io_result result) device.new }
{
    match call {
        FrontendSideCall::ConfigChange => device.handle_config_change(),
        FrontendSideCall::SharedObjectAdd(uuid) => device.shared_object_add(&uuid),
        FrontendSideCall::SharedObjectRemove(uuid) => device.shared_object_remove(&uuid),
        FrontendSideCall::SharedObjectLookup(uuid, fd) => device.shared_object_lookup(&uuid, &fd),
        FrontendSideCall::ShmemMap(mapping, fd) => device.shmem_map(&mapping, &fd),
        FrontendSideCall::ShmemUnmap(mapping) => device.shmem_unmap(&mapping),
    }
}
