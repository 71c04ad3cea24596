//! What a backend asks its frontend.

ghost use Rattle.std.specs.Prelude.{◌≡◌, IfOk, IfErr};
ghost use Rattle.vhost_message.specs.declared.error.Error.TheVariants.{OutOfMemory};
ghost use Rattle.vhost_protocol.specs.Reverse.{HandleConfigChange, SharedObjectAdd, SharedObjectRemove, SharedObjectLookup, ShmemMap, ShmemUnmap};

use crate::internal::BackendInternal;
use std::alloc::{AllocError, Global};
use std::snapshot::Snapshot;
use std::sync::{Arc, Mutex, Wait};
use vhost_frontend_req_handler::VhostUserFrontendReqHandler;
use vhost_link::Link;
use vhost_message::{Error, HandlerResult, Result, VhostUserMMap, VhostUserSharedMsg};

/// What clones of a channel share: the channel itself behind a lock, and what it was opened with, for contracts alone.
#[derive(Drop)]
struct Shared<L: Link> {
    channel: Mutex<BackendInternal<L>>,
    link: Snapshot<L>,
    budget: Snapshot<u32>,
}

/// A channel that is not shared yet, and what it was opened with.
#[derive(Drop)]
struct Unshared<L: Link> {
    channel: BackendInternal<L>,
    link: Snapshot<L>,
    budget: Snapshot<u32>,
}

impl<L: Link> Unshared<L> {
    ghost use Rattle.vhost_backend_req.specs.Channel.{channel, opened};

    /// Opens a channel over a link, with a retry limit.
    ///
    /// OutOfMemory: an allocation failed.
    fn new(alloc: Global, link: L, budget: u32) -> Result<Self>
        ensures own { IfOk result (λ new. channel new.channel ≡ opened new.link.value new.budget.value) }
        ensures over { IfOk result (λ new. (new.link.value ≡ link) × (new.budget.value ≡ budget)) }
        ensures memory { IfErr result (λ e. e ≡ OutOfMemory) }
    {
        Ok(Unshared {
            link: Snapshot::of(&link),
            budget: Snapshot::of(&budget),
            channel: BackendInternal::from_stream(alloc, link, budget)?,
        })
    }

    /// Puts the channel behind its lock.
    fn share(self) -> Shared<L>
        ensures { (result.link.value ≡ self.link.value) × (result.budget.value ≡ self.budget.value) }
    {
        let Unshared {
            channel,
            link,
            budget,
        } = self;
        Shared {
            channel: Mutex::new(channel),
            link,
            budget,
        }
    }
}

/// The channel from a backend to its frontend, which the device is given by VHOST_USER_SET_BACKEND_REQ_FD. It can be
/// shared: clones are the same channel.
///
/// Its calls are those of `VhostUserFrontendReqHandler`, since it stands for its frontend.
///
/// Mirrors `vhost::vhost_user::Backend`.
#[derive(Drop)]
pub struct Backend<L: Link> {
    inner: Arc<Shared<L>, Global>,
}

impl<L: Link> Backend<L> {
    ghost use Rattle.vhost_backend_req.specs.Opened.{IsOver};

    /// A channel over a link. Each message may use at most so many retries.
    ///
    /// OutOfMemory: an allocation failed.
    pub fn from_stream(alloc: Global, link: L, budget: u32) -> Result<Self>
        ensures opened { IfOk result (λ channel. IsOver channel link budget) }
        ensures memory { IfErr result (λ e. e ≡ OutOfMemory) }
    {
        let shared = Unshared::new(alloc, link, budget)?.share();
        match Arc::new(alloc, shared) {
            Ok(inner) => Ok(Backend { inner }),
            Err(_) => Err(Error::OutOfMemory),
        }
    }

    /// Whether requests are acknowledged by a number.
    pub fn set_reply_ack_flag(&self, rt: &impl Wait, on: bool) {
        self.inner.channel.lock(rt).set_reply_ack_flag(on);
    }

    /// Whether calls about shared objects are sent.
    pub fn set_shared_object_flag(&self, rt: &impl Wait, on: bool) {
        self.inner.channel.lock(rt).set_shared_object_flag(on);
    }

    /// Whether calls about shared memory are sent.
    pub fn set_shmem_flag(&self, rt: &impl Wait, on: bool) {
        self.inner.channel.lock(rt).set_shmem_flag(on);
    }

    /// Whether a change of the configuration is reported.
    pub fn set_config_change_flag(&self, rt: &impl Wait, on: bool) {
        self.inner.channel.lock(rt).set_config_change_flag(on);
    }

    /// Marks the channel as failed with the number of a system's error, also with 0: from now on each call answers it.
    pub fn set_failed(&self, rt: &impl Wait, error: i32) {
        self.inner.channel.lock(rt).set_failed(error);
    }
}

/// Each call is that of `BackendInternal`, whole in one turn with the lock: also a failure is that of the channel which it found there.
impl<L: Link> VhostUserFrontendReqHandler for Backend<L> {
    ghost use Rattle.vhost_backend_req.specs.Asking.{AsksCall};
    ghost use Rattle.vhost_backend_req.specs.Turn.{Turn};

    type Handle = L::Handle;

    fn handle_config_change(&self, rt: &impl Wait) -> HandlerResult<u64>
        ensures { Turn (AsksCall L.event HandleConfigChange) result }
    {
        self.inner.channel.lock(rt).handle_config_change()
    }

    fn shared_object_add(&self, rt: &impl Wait, uuid: &VhostUserSharedMsg) -> HandlerResult<u64>
        ensures { Turn (AsksCall L.event (SharedObjectAdd uuid.now)) result }
    {
        self.inner.channel.lock(rt).shared_object_add(uuid)
    }

    fn shared_object_remove(&self, rt: &impl Wait, uuid: &VhostUserSharedMsg) -> HandlerResult<u64>
        ensures { Turn (AsksCall L.event (SharedObjectRemove uuid.now)) result }
    {
        self.inner.channel.lock(rt).shared_object_remove(uuid)
    }

    fn shared_object_lookup(
        &self,
        rt: &impl Wait,
        uuid: &VhostUserSharedMsg,
        fd: &L::Handle,
    ) -> HandlerResult<u64>
        ensures { Turn (AsksCall L.event (SharedObjectLookup uuid.now fd.now)) result }
    {
        self.inner.channel.lock(rt).shared_object_lookup(uuid, fd)
    }

    fn shmem_map(&self, rt: &impl Wait, req: &VhostUserMMap, fd: &L::Handle) -> HandlerResult<u64>
        ensures { Turn (AsksCall L.event (ShmemMap req.now fd.now)) result }
    {
        self.inner.channel.lock(rt).shmem_map(req, fd)
    }

    fn shmem_unmap(&self, rt: &impl Wait, req: &VhostUserMMap) -> HandlerResult<u64>
        ensures { Turn (AsksCall L.event (ShmemUnmap req.now)) result }
    {
        self.inner.channel.lock(rt).shmem_unmap(req)
    }
}

impl<L: Link> Clone for Backend<L> {
    ghost use Rattle.std.specs.Arc.{arc_value};

    ghost is_clone = { λ backend other. arc_value other.inner ≡ arc_value backend.inner };

    /// The same channel once more.
    fn clone(&self) -> std::result::Result<Self, AllocError> {
        Ok(Backend {
            inner: Arc::try_clone(&self.inner)?,
        })
    }
}
