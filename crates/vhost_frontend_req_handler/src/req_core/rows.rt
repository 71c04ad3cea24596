//! The requests: what each becomes.

ghost use Rattle.std.specs.Prelude.{◌≡◌, ◌≤◌, ◌&&◌, true, false, IfSome, IfNone, List};
ghost use Rattle.vhost_connection.specs.Calls.{HandsOver};
ghost use Rattle.vhost_message.specs.declared.backend_req.BackendReq.{BackendReq};
ghost use Rattle.vhost_message.specs.declared.backend_req.BackendReq.TheVariants.{CONFIG_CHANGE_MSG, SHARED_OBJECT_ADD, SHARED_OBJECT_REMOVE, SHARED_OBJECT_LOOKUP, SHMEM_MAP, SHMEM_UNMAP};
ghost use Rattle.vhost_message.specs.declared.limits.TheConstants.{MAX_MSG_SIZE};
ghost use Rattle.vhost_protocol.specs.Row.{is_bare};
ghost use Rattle.vhost_protocol.specs.Split.{Message};
ghost use Rattle.vhost_frontend_req_handler.specs.Core.{first_of};

use crate::call::{Begun, FrontendSideCall};
use crate::req_core::{FrontendReqCore, Request};
use vhost_link::Link;
use vhost_message::{BackendReq, VhostUserMMap, VhostUserMsgValidator, VhostUserSharedMsg};

#[tactic(auto, using(crate::proofs::Rows::bad, crate::proofs::Rows::asks, crate::proofs::Rows::no_handle, crate::proofs::Rows::not_served))]
impl<L: Link> FrontendReqCore<L> {
    ghost use Rattle.vhost_connection.specs.Requests.{Reads};
    ghost use Rattle.vhost_frontend_req_handler.specs.Core.{BeginsRow, BeginsRowWith};

    /// What a request that was read becomes: by its code.
    pub(crate) fn begun(
        &self,
        request: Request,
        handles: Option<Vec<L::Handle>>,
    ) -> Begun<L::Handle>
        ensures { BeginsRowWith request.code self.now request handles result }
    {
        match request.code {
            BackendReq::CONFIG_CHANGE_MSG => self.config_change(request),
            BackendReq::SHARED_OBJECT_ADD => self.object_add(request),
            BackendReq::SHARED_OBJECT_REMOVE => self.object_remove(request),
            BackendReq::SHARED_OBJECT_LOOKUP => self.object_lookup(request, handles),
            BackendReq::SHMEM_MAP => self.map(request, handles),
            BackendReq::SHMEM_UNMAP => self.unmap(request),
            BackendReq::IOTLB_MSG
            | BackendReq::VRING_HOST_NOTIFIER_MSG
            | BackendReq::VRING_CALL
            | BackendReq::VRING_ERR => Begun::Unserved,
        }
    }

    /// CONFIG_CHANGE_MSG: no body.
    fn config_change(&self, request: Request) -> Begun<L::Handle>
        ensures { BeginsRow CONFIG_CHANGE_MSG self.now request result }
    {
        if !request.is_bare(0) {
            return Begun::BadBody;
        }
        Begun::Calls(FrontendSideCall::ConfigChange)
    }

    /// SHARED_OBJECT_ADD: the name of an object.
    fn object_add(&self, request: Request) -> Begun<L::Handle>
        ensures { BeginsRow SHARED_OBJECT_ADD self.now request result }
    {
        let Some(uuid) = self.record::<VhostUserSharedMsg>(request) else {
            return Begun::BadBody;
        };
        Begun::Calls(FrontendSideCall::SharedObjectAdd(uuid))
    }

    /// SHARED_OBJECT_REMOVE: the name of an object.
    fn object_remove(&self, request: Request) -> Begun<L::Handle>
        ensures { BeginsRow SHARED_OBJECT_REMOVE self.now request result }
    {
        let Some(uuid) = self.record::<VhostUserSharedMsg>(request) else {
            return Begun::BadBody;
        };
        Begun::Calls(FrontendSideCall::SharedObjectRemove(uuid))
    }

    /// SHARED_OBJECT_LOOKUP: the name of an object, and a file descriptor.
    fn object_lookup(&self, request: Request, handles: Option<Vec<L::Handle>>) -> Begun<L::Handle>
        ensures { BeginsRowWith SHARED_OBJECT_LOOKUP self.now request handles result }
    {
        let Some(fd) = first(handles) else {
            return Begun::BadBody;
        };
        let Some(uuid) = self.record::<VhostUserSharedMsg>(request) else {
            return Begun::BadBody;
        };
        Begun::Calls(FrontendSideCall::SharedObjectLookup(uuid, fd))
    }

    /// SHMEM_MAP: a mapping, and the file descriptor.
    fn map(&self, request: Request, handles: Option<Vec<L::Handle>>) -> Begun<L::Handle>
        ensures { BeginsRowWith SHMEM_MAP self.now request handles result }
    {
        let Some(fd) = first(handles) else {
            return Begun::BadBody;
        };
        let Some(mapping) = self.record::<VhostUserMMap>(request) else {
            return Begun::BadBody;
        };
        Begun::Calls(FrontendSideCall::ShmemMap(mapping, fd))
    }

    /// SHMEM_UNMAP: a mapping.
    fn unmap(&self, request: Request) -> Begun<L::Handle>
        ensures { BeginsRow SHMEM_UNMAP self.now request result }
    {
        let Some(mapping) = self.record::<VhostUserMMap>(request) else {
            return Begun::BadBody;
        };
        Begun::Calls(FrontendSideCall::ShmemUnmap(mapping))
    }

    /// The one record that the body is; none where it is not that long, not valid, or the message is a reply.
    fn record<T: VhostUserMsgValidator + Drop>(&self, request: Request) -> Option<T>
        requires { T.SIZE ≤ MAX_MSG_SIZE }
        ensures none { IfNone result ((m : Message BackendReq L.Handle) → Reads self.now.body.value request m → (is_bare T.SIZE m && T.valid (T.read m.body)) ≡ false) }
        ensures some { IfSome result (λ x. (m : Message BackendReq L.Handle) → Reads self.now.body.value request m → ((is_bare T.SIZE m && T.valid (T.read m.body)) ≡ true) × (x ≡ T.read m.body)) }
    {
        if !request.is_bare(T::SIZE) {
            return None;
        }
        let record = T::decode(&self.body[..T::SIZE]);
        if !record.is_valid() {
            return None;
        }
        Some(record)
    }
}

/// The first descriptor of a message, if it has one.
fn first<H: Drop>(handles: Option<Vec<H>>) -> Option<H>
    ensures { (hs : List H) → HandsOver handles hs → result ≡ first_of hs }
{
    match handles {
        None => None,
        Some(list) => list.into_iter().next(),
    }
}
