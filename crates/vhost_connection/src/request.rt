//! A request as it was read.

ghost use Rattle.std.specs.Prelude.{◌≡◌, ◌≤◌, ◌==◌, ◌&&◌, not};
ghost use Rattle.vhost_message.specs.declared.limits.TheConstants.{MAX_MSG_SIZE};
ghost use Rattle.vhost_protocol.specs.Codes.{carries_handles as may_carry, allows_handles};
ghost use Rattle.vhost_protocol.specs.Reverse.{backend_allows_handles};

use std::alloc::AllocError;
use vhost_message::{BackendReq, HeardReq, Req};

/// A request: its code and flags, and how many bytes its body has.
#[derive(Copy)]
pub struct Request<R> {
    pub code: R,
    pub reply: bool,
    pub need_reply: bool,
    pub len: usize,
    /// No body is longer.
    ghost short: { len ≤ MAX_MSG_SIZE },
}

impl<R: Copy> Clone for Request<R> {
    ghost use Rattle.std.specs.Prelude.{◌≡◌, ⊤};

    ghost is_clone = { λ request copy. copy ≡ request };

    ghost is_infallible = { λ _. ⊤ };

    fn clone(&self) -> Result<Request<R>, AllocError> {
        Ok(*self)
    }
}

impl<R> Request<R> {
    /// Whether the body has this size, and the message is no reply.
    pub fn is_bare(&self, size: usize) -> bool
        ensures { result ≡ (self.now.len == size && not self.now.reply) }
    {
        self.len == size && !self.reply
    }
}

/// Codes of requests, that come with descriptors or without.
pub trait RequestCode: Req {
    ghost use Rattle.std.specs.Prelude.{◌≡◌, ℕ, Bool};

    /// Whether a request of this code may come with so many descriptors.
    ghost allowed: { Self → ℕ → Bool };

    /// Whether a request of this code may come with so many descriptors.
    fn allows_handles(self, count: usize) -> bool
        ensures { result ≡ allowed self count };
}

/// A frontend's request comes with as many as there are, or with none ("Communication").
impl RequestCode for HeardReq {
    ghost allowed = { allows_handles };

    fn allows_handles(self, count: usize) -> bool {
        count == 0 || carries_handles(self)
    }
}

/// A backend's request comes with exactly one, or with none ("Back-end message types").
impl RequestCode for BackendReq {
    ghost allowed = { backend_allows_handles };

    fn allows_handles(self, count: usize) -> bool {
        match self {
            BackendReq::SHARED_OBJECT_LOOKUP | BackendReq::SHMEM_MAP => count == 1,
            _ => count == 0,
        }
    }
}

/// Whether a frontend's request of this code may come with descriptors.
fn carries_handles(code: HeardReq) -> bool
    ensures { result ≡ may_carry code }
{
    matches!(
        code,
        HeardReq::SET_MEM_TABLE
            | HeardReq::SET_VRING_CALL
            | HeardReq::SET_VRING_KICK
            | HeardReq::SET_VRING_ERR
            | HeardReq::SET_LOG_BASE
            | HeardReq::SET_LOG_FD
            | HeardReq::SET_BACKEND_REQ_FD
            | HeardReq::SET_INFLIGHT_FD
            | HeardReq::ADD_MEM_REG
            | HeardReq::REM_MEM_REG
            | HeardReq::SET_DEVICE_STATE_FD
            | HeardReq::GPU_SET_SOCKET
            | HeardReq::OTHER(_)
    )
}
