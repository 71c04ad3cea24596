//! A frontend's side behind a lock.

use crate::device::VhostUserFrontendReqHandlerMut;
use crate::shared::VhostUserFrontendReqHandler;
use std::sync::{Mutex, Wait};
use vhost_message::{HandlerResult, VhostUserMMap, VhostUserSharedMsg};

// Each call waits until it has the frontend's side for itself.
impl<T: VhostUserFrontendReqHandlerMut> VhostUserFrontendReqHandler for Mutex<T> {
    type Handle = T::Handle;

    fn handle_config_change(&self, rt: &impl Wait) -> HandlerResult<u64> {
        self.lock(rt).handle_config_change()
    }

    fn shared_object_add(&self, rt: &impl Wait, uuid: &VhostUserSharedMsg) -> HandlerResult<u64> {
        self.lock(rt).shared_object_add(uuid)
    }

    fn shared_object_remove(
        &self,
        rt: &impl Wait,
        uuid: &VhostUserSharedMsg,
    ) -> HandlerResult<u64> {
        self.lock(rt).shared_object_remove(uuid)
    }

    fn shared_object_lookup(
        &self,
        rt: &impl Wait,
        uuid: &VhostUserSharedMsg,
        fd: &T::Handle,
    ) -> HandlerResult<u64> {
        self.lock(rt).shared_object_lookup(uuid, fd)
    }

    fn shmem_map(&self, rt: &impl Wait, req: &VhostUserMMap, fd: &T::Handle) -> HandlerResult<u64> {
        self.lock(rt).shmem_map(req, fd)
    }

    fn shmem_unmap(&self, rt: &impl Wait, req: &VhostUserMMap) -> HandlerResult<u64> {
        self.lock(rt).shmem_unmap(req)
    }
}
