//! A frontend's side that several handlers may call.

ghost use Rattle.std.specs.Prelude.{◌≡◌, Err, pos};
ghost use Rattle.vhost_message.specs.declared.io_error.IoError.TheVariants as io;

use std::sync::Wait;
use vhost_message::{HandlerResult, IoError, VhostUserMMap, VhostUserSharedMsg};

/// The number of the system's error for a call that is not there.
const ENOSYS: i32 = 38;

/// What a backend asks of its frontend, called through a shared reference; a call may wait for its turn. What its calls
/// do is known only to its implementer, so no contract speaks of it beyond its type. A call that is left out answers the
/// system's error 38.
///
/// Mirrors `vhost::vhost_user::VhostUserFrontendReqHandler`, call by call.
pub trait VhostUserFrontendReqHandler: Drop {
    /// The descriptors that a request may bring, file descriptors in the crate `vhost`. They are lent to the call.
    type Handle: Drop;

    /// The device's configuration changed (VHOST_USER_BACKEND_CONFIG_CHANGE_MSG).
    fn handle_config_change(&self, _rt: &impl Wait) -> HandlerResult<u64> {
        not_there()
    }

    /// The backend shares an object of this name (VHOST_USER_BACKEND_SHARED_OBJECT_ADD).
    fn shared_object_add(&self, _rt: &impl Wait, _uuid: &VhostUserSharedMsg) -> HandlerResult<u64> {
        not_there()
    }

    /// It shares that object no more (VHOST_USER_BACKEND_SHARED_OBJECT_REMOVE).
    fn shared_object_remove(
        &self,
        _rt: &impl Wait,
        _uuid: &VhostUserSharedMsg,
    ) -> HandlerResult<u64> {
        not_there()
    }

    /// It looks up an object of this name, with a file descriptor (VHOST_USER_BACKEND_SHARED_OBJECT_LOOKUP).
    fn shared_object_lookup(
        &self,
        _rt: &impl Wait,
        _uuid: &VhostUserSharedMsg,
        _fd: &Self::Handle,
    ) -> HandlerResult<u64> {
        not_there()
    }

    /// It wants a part of a file mapped into a region of shared memory (VHOST_USER_BACKEND_SHMEM_MAP).
    fn shmem_map(
        &self,
        _rt: &impl Wait,
        _req: &VhostUserMMap,
        _fd: &Self::Handle,
    ) -> HandlerResult<u64> {
        not_there()
    }

    /// It wants a part of such a region mapped no more (VHOST_USER_BACKEND_SHMEM_UNMAP).
    fn shmem_unmap(&self, _rt: &impl Wait, _req: &VhostUserMMap) -> HandlerResult<u64> {
        not_there()
    }
}

/// The answer of a call that is left out.
fn not_there() -> HandlerResult<u64>
    ensures { result ≡ Err (io.Raw (pos 38)) }
{
    Err(IoError::Raw(ENOSYS))
}
