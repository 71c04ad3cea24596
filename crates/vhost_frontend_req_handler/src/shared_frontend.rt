//! A shared frontend's side as one handler calls it.

use crate::device::VhostUserFrontendReqHandlerMut;
use crate::shared::VhostUserFrontendReqHandler;
use std::alloc::Global;
use std::sync::{Arc, Wait};
use vhost_message::{HandlerResult, VhostUserMMap, VhostUserSharedMsg};

/// A shared frontend's side as one handler calls it, by the trait for exclusive references. Each call is the same call of
/// it, and may wait. Its relation holds of any call and answer, since others may change it between two.
#[derive(Drop)]
pub struct SharedFrontend<'a, S, R> {
    /// The frontend's side.
    pub device: &'a Arc<S, Global>,
    /// What its calls wait by.
    pub rt: &'a R,
}

impl<'a, S: VhostUserFrontendReqHandler, R: Wait> VhostUserFrontendReqHandlerMut
    for SharedFrontend<'a, S, R> {
    ghost use Rattle.std.specs.Prelude.{⊤};

    type Handle = S::Handle;

    ghost gives = { λ _ _ _ _. ⊤ };

    fn handle_config_change(&mut self) -> HandlerResult<u64> {
        self.device.handle_config_change(self.rt)
    }

    fn shared_object_add(&mut self, uuid: &VhostUserSharedMsg) -> HandlerResult<u64> {
        self.device.shared_object_add(self.rt, uuid)
    }

    fn shared_object_remove(&mut self, uuid: &VhostUserSharedMsg) -> HandlerResult<u64> {
        self.device.shared_object_remove(self.rt, uuid)
    }

    fn shared_object_lookup(
        &mut self,
        uuid: &VhostUserSharedMsg,
        fd: &S::Handle,
    ) -> HandlerResult<u64> {
        self.device.shared_object_lookup(self.rt, uuid, fd)
    }

    fn shmem_map(&mut self, req: &VhostUserMMap, fd: &S::Handle) -> HandlerResult<u64> {
        self.device.shmem_map(self.rt, req, fd)
    }

    fn shmem_unmap(&mut self, req: &VhostUserMMap) -> HandlerResult<u64> {
        self.device.shmem_unmap(self.rt, req)
    }
}
