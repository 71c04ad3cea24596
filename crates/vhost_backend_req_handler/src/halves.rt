//! Serving a request in two halves, without a device: it is read, and becomes a call; the call's answer is reported.

ghost use Rattle.std.specs.Prelude.{◌≡◌, ℕ, ℤ, List, [], IfOk, IfErr, IfSome, Some, None, Err, is_some, false, true};
ghost use Rattle.vhost_message.specs.declared.cause.IoCause.TheVariants.{Raw};
ghost use Rattle.vhost_message.specs.declared.error.Error.TheVariants.{SocketBroken};
ghost use Rattle.vhost_backend_req_handler_core.specs.Concluding.{concluded};
ghost use Rattle.vhost_backend_req_handler_core.specs.Settling.{settled_by};
ghost use Rattle.vhost_backend_req_handler.specs.Halves.{HalvesRefuse, HalvesServe};
ghost use Rattle.vhost_backend_req_handler.specs.Opening.{OpensAsBackend, OpensAsGpu};
ghost use Rattle.vhost_device.specs.Reached.{by_trait};

use crate::session_core::SessionCore;
use crate::sizes::sizes_law;
use vhost_backend_req::Backend;
use vhost_backend_req_handler_core::{
    Begun, Conclusions, DeviceAnswer, DeviceCall, Incoming, Rows, Then, Unanswered,
};
use vhost_connection::Request;
use vhost_device::VhostUserBackendReqHandlerMut;
use vhost_gpu_backend_req::GpuBackend;
use vhost_link::Link;
use vhost_message::{Error, HeardReq, IoCause, Result, VhostUserShMemConfig};

/// A request whose call is to be answered.
#[derive(Drop)]
pub(crate) struct Pending<H> {
    pub(crate) request: Request<HeardReq>,
    /// The file descriptors that came with it, unless they were taken.
    pub(crate) handles: Option<Vec<H>>,
    /// How the answer is reported.
    pub(crate) then: Then,
    /// What becomes of it where nothing is written that it waits for.
    pub(crate) unanswered: Unanswered,
}

impl<L: Link> SessionCore<L> {
    ghost use Rattle.vhost_message.specs.declared.heard_req.HeardReq.{HeardReq};
    ghost use Rattle.vhost_protocol.specs.Row.{row_of};
    ghost use Rattle.vhost_protocol.specs.Split.{Message};
    ghost use Rattle.vhost_connection.specs.Calls.{HandsOver};
    ghost use Rattle.vhost_connection.specs.Requests.{IsReady, Reads};
    ghost use Rattle.vhost_message.specs.declared.records.memory.VhostUserMemoryRegion.{VhostUserMemoryRegion};
    ghost use Rattle.vhost_backend_req_handler_core.specs.Beginning.{handles_in, step_of};
    ghost use Rattle.vhost_backend_req_handler_core.specs.Fits.{Makes};
    ghost use Rattle.vhost_backend_req_handler.specs.Calling.{Called, beside};
    ghost use Rattle.vhost_backend_req_handler.specs.Opening.{OpensAsBackend, OpensAsGpu};
    ghost use Rattle.vhost_backend_req.specs.declared.backend.Backend.{Backend};
    ghost use Rattle.vhost_gpu_backend_req.specs.declared.backend.GpuBackend.{GpuBackend};
    ghost use Rattle.vhost_backend_req_handler.specs.Core.{endpoint_of, session_in};
    ghost use Rattle.vhost_backend_req_handler.specs.Halves.{Begins, Refuses, beside_then};
    ghost use Rattle.vhost_backend_req_handler.specs.Serving.{Finishes};
    ghost use Rattle.vhost_backend_req_handler.specs.Sized.{AnswerSized};
    ghost use Rattle.vhost_backend_req_handler.specs.declared.halves.Pending.{Pending};

    /// Whether a call is to be answered.
    pub fn has_call(&self) -> bool
        ensures { result ≡ is_some self.now.pending }
    {
        self.pending.is_some()
    }

    /// The first half: reads one request. It became a call of the device, which `call` lends, and whose answer `conclude`
    /// reports.
    ///
    /// The errors are those of `handle_request` for a request that is refused before the device is called, and are
    /// acknowledged as there. No call is to be answered then.
    pub fn begin(&mut self) -> Result<()>
        requires { is_some self.old.pending ≡ false }
        ensures failed { (n : ℤ) → (session_in self.old).failed ≡ Some n
            → (result ≡ Err (SocketBroken (Raw n))) × (endpoint_of self.new ≡ endpoint_of self.old) × (session_in self.new ≡ session_in self.old) }
        ensures begun { (session_in self.old).failed ≡ None → IfOk result (λ _. Begins (Backend L L.Handle) (GpuBackend L L.Handle) L.event self.old self.new) }
        ensures refused { (session_in self.old).failed ≡ None → IfErr result (λ e. Refuses (Backend L L.Handle) (GpuBackend L L.Handle) L.event self.old e self.new) }
        ensures none { IfErr result (λ _. is_some self.new.pending ≡ false) }
    {
        if let Some(number) = self.service.session.failed {
            return Err(Error::SocketBroken(IoCause::Raw(number)));
        }
        let any_number = self.hears_any_number();
        let (request, handles) = self.endpoint.recv_request(any_number, &mut self.body[..])?;
        let message = Incoming::new(
            request.code,
            request.reply,
            request.need_reply,
            &self.body[..request.len],
        );
        let unanswered = Conclusions::<L::Handle>::unanswered(&self.service.session, &message);
        match self
            .service
            .begin(&mut self.endpoint, &message, &unanswered, &handles)
        {
            Ok(then) => {
                let pending = Pending {
                    request,
                    handles,
                    then,
                    unanswered,
                };
                self.pending = Some(pending);
                Ok(())
            }
            Err(error) => Err(error),
        }
    }

    /// The call that is to be answered. Its arguments are lent. None: no call is to be answered, or its file descriptors were
    /// taken.
    pub fn call(&self) -> Option<DeviceCall<'_>>
        ensures row { (p : Pending L.Handle) (m : Message HeardReq L.Handle) → self.now.pending ≡ Some p → Reads self.now.body.value p.request m → HandsOver p.handles m.handles
            → IfSome result (λ c. row_of {B = Backend L L.Handle} {G = GpuBackend L L.Handle} m.request (session_in self.now) m ≡ step_of (session_in self.now) m c) }
        ensures some { (p : Pending L.Handle) (m : Message HeardReq L.Handle) → self.now.pending ≡ Some p → Reads self.now.body.value p.request m → HandsOver p.handles m.handles
            → Makes (row_of {B = Backend L L.Handle} {G = GpuBackend L L.Handle} m.request (session_in self.now) m) → is_some result ≡ true }
    {
        match &self.pending {
            Some(pending) => self.call_of(pending),
            None => None,
        }
    }

    /// The call of a request.
    fn call_of(&self, pending: &Pending<L::Handle>) -> Option<DeviceCall<'_>>
        ensures row { (m : Message HeardReq L.Handle) → Reads self.now.body.value pending.now.request m → HandsOver pending.now.handles m.handles
            → IfSome result (λ c. row_of {B = Backend L L.Handle} {G = GpuBackend L L.Handle} m.request (session_in self.now) m ≡ step_of (session_in self.now) m c) }
        ensures some { (m : Message HeardReq L.Handle) → Reads self.now.body.value pending.now.request m → HandsOver pending.now.handles m.handles
            → Makes (row_of {B = Backend L L.Handle} {G = GpuBackend L L.Handle} m.request (session_in self.now) m) → is_some result ≡ true }
    {
        let request = pending.request;
        let message = Incoming::new(
            request.code,
            request.reply,
            request.need_reply,
            &self.body[..request.len],
        );
        match Rows::<L::Handle, Backend<L>, GpuBackend<L>>::begin(
            &self.service.session,
            &message,
            &pending.handles,
        ) {
            Ok(Begun::Calls(call)) => Some(call),
            Ok(Begun::Refuses(_)) => None,
            Err(_) => None,
        }
    }

    /// Makes the call that is to be answered, of a device. None: no call is to be answered, or its file descriptors were taken.
    pub fn call_device<D: VhostUserBackendReqHandlerMut<Link = L>>(
        &mut self,
        device: &mut D,
    ) -> Option<DeviceAnswer<L::Handle>>
        ensures called { (p : Pending L.Handle) (m : Message HeardReq L.Handle) (rs : List VhostUserMemoryRegion) → self.old.pending ≡ Some p → Reads self.old.body.value p.request m → HandsOver p.handles m.handles
            → IfSome result (λ a. Called (by_trait D.gives) (λ h o. OpensAsBackend L.opens L.Handle.kinds (endpoint_of self.old).budget h o) (λ h o. OpensAsGpu L.opens L.Handle.kinds (endpoint_of self.old).budget h o) device.old (beside rs self.new.service.shmem) (row_of m.request (session_in self.old) m) (Some a) device.new) }
        ensures some { (p : Pending L.Handle) (m : Message HeardReq L.Handle) → self.old.pending ≡ Some p → Reads self.old.body.value p.request m → HandsOver p.handles m.handles
            → Makes (row_of {B = Backend L L.Handle} {G = GpuBackend L L.Handle} m.request (session_in self.old) m) → is_some result ≡ true }
        ensures endpoint { endpoint_of self.new ≡ endpoint_of self.old }
        ensures session { session_in self.new ≡ session_in self.old }
        ensures regions { self.new.service.regions ≡ self.old.service.regions }
        ensures pending { (p : Pending L.Handle) → self.old.pending ≡ Some p → (q : Pending L.Handle) × (self.new.pending ≡ Some q) × (q.request ≡ p.request) × (q.then ≡ p.then) × (q.unanswered ≡ p.unanswered) }
    {
        match self.pending.take() {
            Some(mut pending) => {
                let answer = self.make(device, &mut pending);
                self.pending = Some(pending);
                answer
            }
            None => None,
        }
    }

    /// Makes the call of a request, of a device.
    fn make<D: VhostUserBackendReqHandlerMut<Link = L>>(
        &mut self,
        device: &mut D,
        pending: &mut Pending<L::Handle>,
    ) -> Option<DeviceAnswer<L::Handle>>
        ensures called { (m : Message HeardReq L.Handle) (rs : List VhostUserMemoryRegion) → Reads self.old.body.value pending.old.request m → HandsOver pending.old.handles m.handles
            → IfSome result (λ a. Called (by_trait D.gives) (λ h o. OpensAsBackend L.opens L.Handle.kinds (endpoint_of self.old).budget h o) (λ h o. OpensAsGpu L.opens L.Handle.kinds (endpoint_of self.old).budget h o) device.old (beside rs self.new.service.shmem) (row_of m.request (session_in self.old) m) (Some a) device.new) }
        ensures some { (m : Message HeardReq L.Handle) → Reads self.old.body.value pending.old.request m → HandsOver pending.old.handles m.handles
            → Makes (row_of {B = Backend L L.Handle} {G = GpuBackend L L.Handle} m.request (session_in self.old) m) → is_some result ≡ true }
        ensures endpoint { endpoint_of self.new ≡ endpoint_of self.old }
        ensures session { session_in self.new ≡ session_in self.old }
        ensures regions { self.new.service.regions ≡ self.old.service.regions }
        ensures request { pending.new.request ≡ pending.old.request }
        ensures then { pending.new.then ≡ pending.old.then }
        ensures unanswered { pending.new.unanswered ≡ pending.old.unanswered }
    {
        let request = pending.request;
        let message = Incoming::new(
            request.code,
            request.reply,
            request.need_reply,
            &self.body[..request.len],
        );
        match Rows::<L::Handle, Backend<L>, GpuBackend<L>>::begin(
            &self.service.session,
            &message,
            &pending.handles,
        ) {
            Ok(Begun::Calls(call)) => {
                self.service
                    .call_device(&mut self.endpoint, device, &call, &mut pending.handles)
            }
            Ok(Begun::Refuses(_)) => None,
            Err(_) => None,
        }
    }

    /// The file descriptors of the call that is to be answered: none where there is no call, or they were taken.
    pub fn handles(&self) -> &[L::Handle]
        ensures call { (p : Pending L.Handle) → self.now.pending ≡ Some p → result.now ≡ handles_in p.handles }
        ensures none { self.now.pending ≡ None → result.now ≡ [] }
    {
        match &self.pending {
            Some(pending) => match &pending.handles {
                Some(list) => list,
                None => &[],
            },
            None => &[],
        }
    }

    /// Puts the regions of shared memory into their place, where the answer `Shmem` finds them.
    pub fn set_shmem(&mut self, config: VhostUserShMemConfig)
        ensures { self.new ≡ record (self.old) { service = record (self.old.service) { shmem = config } } }
    {
        self.service.shmem = config;
    }

    /// Takes the file descriptors of the call that is to be answered, if there are any.
    pub fn take_handles(&mut self) -> Option<Vec<L::Handle>>
        ensures taken { (p : Pending L.Handle) → self.old.pending ≡ Some p → (result ≡ p.handles) × (self.new ≡ record (self.old) { pending = Some (record p { handles = None }) }) }
        ensures none { self.old.pending ≡ None → (result ≡ None) × (self.new ≡ self.old) }
    {
        match &mut self.pending {
            Some(pending) => pending.handles.take(),
            None => None,
        }
    }

    /// The second half: reports the answer of the call that is to be answered, and says what the session answers.
    ///
    /// InvalidOperation: no call is to be answered, and nothing changed. The other errors are those that the device
    /// answered, and those of the link.
    pub fn conclude(&mut self, answer: DeviceAnswer<L::Handle>) -> Result<()>
        ensures concluded { (p : Pending L.Handle) → self.old.pending ≡ Some p → IsReady (endpoint_of self.old)
            → Finishes L.event p.request.code (settled_by p.unanswered (concluded (session_in self.old) p.request.need_reply (beside_then p.then self.old.service) p.then answer)) (endpoint_of self.old) (session_in self.old) result (endpoint_of self.new) (session_in self.new) }
        ensures idle { self.old.pending ≡ None → (self.new ≡ self.old) × IfOk result (λ _. ⊥) }
        ensures sized { AnswerSized self.old.service.shmem answer }
        ensures none { is_some self.new.pending ≡ false }
    {
        sizes_law(&answer, &self.service.shmem);
        match self.pending.take() {
            Some(pending) => {
                let Pending {
                    request,
                    handles: _handles,
                    then,
                    unanswered,
                } = pending;
                self.service.finish(
                    &mut self.endpoint,
                    request.code,
                    request.need_reply,
                    then,
                    &unanswered,
                    answer,
                )
            }
            None => Err(Error::InvalidOperation("no call is to be answered")),
        }
    }
}

/// The two halves, with a device's answer between them, are what `handle_request` does with that device; and so is a request
/// that the first one refuses.
pub fn halves_law<L: Link, D: VhostUserBackendReqHandlerMut<Link = L>>()
    ensures served { (budget : ℕ) → HalvesServe L.event (by_trait D.gives) (λ h o. OpensAsBackend L.opens L.Handle.kinds budget h o) (λ h o. OpensAsGpu L.opens L.Handle.kinds budget h o) }
    ensures refused { (budget : ℕ) → HalvesRefuse L.event (by_trait D.gives) (λ h o. OpensAsBackend L.opens L.Handle.kinds budget h o) (λ h o. OpensAsGpu L.opens L.Handle.kinds budget h o) }
{}
