//! A frontend's side of the backend channel, as its handler calls it.

ghost use Rattle.std.specs.Prelude.{ℕ, Result};
ghost use Rattle.vhost_protocol.specs.IoError.{IoError, seen_io_result};
ghost use Rattle.vhost_protocol.specs.Reverse.{ReverseCall, HandleConfigChange, SharedObjectAdd, SharedObjectRemove, SharedObjectLookup, ShmemMap, ShmemUnmap};

use vhost_message::{HandlerResult, VhostUserMMap, VhostUserSharedMsg};

/// What a backend asks of its frontend, called through an exclusive reference. Its implementer chooses how each call may
/// change it and what it may answer; every call of a handler is one of these, with the arguments of the request.
///
/// An answer is a number, 0 for success. There are no default bodies: the implementer's relation says what each answers.
///
/// Mirrors `vhost::vhost_user::VhostUserFrontendReqHandlerMut`, call by call.
pub trait VhostUserFrontendReqHandlerMut: Drop {
    /// The descriptors that a request may bring, file descriptors in the crate `vhost`. They are lent to the call.
    type Handle: Drop;

    /// Old state, call, answer and new state.
    ghost gives: { Self → ReverseCall Self.Handle → Result ℕ IoError → Self → Type 0 };

    /// The device's configuration changed (VHOST_USER_BACKEND_CONFIG_CHANGE_MSG).
    fn handle_config_change(&mut self) -> HandlerResult<u64>
        ensures { gives self.old HandleConfigChange (seen_io_result result) self.new };

    /// The backend shares an object of this name (VHOST_USER_BACKEND_SHARED_OBJECT_ADD).
    fn shared_object_add(&mut self, uuid: &VhostUserSharedMsg) -> HandlerResult<u64>
        ensures { gives self.old (SharedObjectAdd uuid.now) (seen_io_result result) self.new };

    /// It shares that object no more (VHOST_USER_BACKEND_SHARED_OBJECT_REMOVE).
    fn shared_object_remove(&mut self, uuid: &VhostUserSharedMsg) -> HandlerResult<u64>
        ensures { gives self.old (SharedObjectRemove uuid.now) (seen_io_result result) self.new };

    /// It looks up an object of this name, with a file descriptor (VHOST_USER_BACKEND_SHARED_OBJECT_LOOKUP).
    fn shared_object_lookup(
        &mut self,
        uuid: &VhostUserSharedMsg,
        fd: &Self::Handle,
    ) -> HandlerResult<u64>
        ensures { gives self.old (SharedObjectLookup uuid.now fd.now) (seen_io_result result) self.new };

    /// It wants a part of a file mapped into a region of shared memory (VHOST_USER_BACKEND_SHMEM_MAP).
    fn shmem_map(&mut self, req: &VhostUserMMap, fd: &Self::Handle) -> HandlerResult<u64>
        ensures { gives self.old (ShmemMap req.now fd.now) (seen_io_result result) self.new };

    /// It wants a part of such a region mapped no more (VHOST_USER_BACKEND_SHMEM_UNMAP).
    fn shmem_unmap(&mut self, req: &VhostUserMMap) -> HandlerResult<u64>
        ensures { gives self.old (ShmemUnmap req.now) (seen_io_result result) self.new };
}
