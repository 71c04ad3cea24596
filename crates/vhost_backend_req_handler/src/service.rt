//! One request is served: it becomes a call, the device is called, and what its answer becomes goes out.

ghost use Rattle.std.specs.Prelude.{◌≡◌, Err, IfOk, IfErr, length, take};
ghost use Rattle.vhost_message.specs.declared.limits.TheConstants.{MAX_MEM_REGIONS};
ghost use Rattle.vhost_protocol.specs.Error.{seen};
ghost use Rattle.vhost_protocol.specs.Row.{row_of};
ghost use Rattle.vhost_protocol.specs.Step.{failed_with};
ghost use Rattle.vhost_connection.specs.Requests.{IsReady};
ghost use Rattle.vhost_connection.specs.State.{state};
ghost use Rattle.vhost_backend_req_handler_core.specs.Beginning.{handles_in, message_in, regions_in, step_of};
ghost use Rattle.vhost_backend_req.specs.declared.backend.Backend.{Backend};
ghost use Rattle.vhost_gpu_backend_req.specs.declared.backend.GpuBackend.{GpuBackend};
ghost use Rattle.vhost_backend_req_handler_core.specs.Concluding.{regions_beside, regions_for, then_of, wanting};
ghost use Rattle.vhost_backend_req_handler_core.specs.Refusing.{refusal_in};
ghost use Rattle.vhost_backend_req_handler_core.specs.Session.{session_of};
ghost use Rattle.vhost_backend_req_handler_core.specs.Settling.{Settles, settled_by};
ghost use Rattle.vhost_backend_req_handler.specs.Halves.{Denies, Prepares};
ghost use Rattle.vhost_backend_req_handler.specs.Opening.{OpensAsBackend, OpensAsGpu};
ghost use Rattle.vhost_backend_req_handler.specs.Serving.{Answers, Finishes, refused_silently};
ghost use Rattle.vhost_device.specs.Reached.{by_trait};

use crate::sizes::sizes_law;
use std::alloc::Global;
use vhost_backend_req::Backend;
use vhost_backend_req_handler_core::{
    Begun, Conclusions, DeviceAnswer, DeviceCall, Incoming, Refusal, RegionTable, Rows, Session,
    Then, Unanswered,
};
use vhost_connection::Endpoint;
use vhost_device::VhostUserBackendReqHandlerMut;
use vhost_gpu_backend_req::GpuBackend;
use vhost_link::Link;
use vhost_message::{
    Error, HeardReq, MAX_MEM_REGIONS, Result, VhostUserMemoryRegion, VhostUserMsgHeader,
    VhostUserShMemConfig,
};

pub(crate) type Header = VhostUserMsgHeader<HeardReq>;

/// What a session remembers beside its endpoint and the body of the request that is served.
#[derive(Drop)]
pub(crate) struct Service {
    pub(crate) session: Session,
    /// The place for the regions of shared memory that a device answers.
    pub(crate) shmem: VhostUserShMemConfig,
    /// The place for the regions of a table, where their bases are to be the reply.
    pub(crate) regions: [VhostUserMemoryRegion; MAX_MEM_REGIONS],
    pub(crate) alloc: Global,
}

impl Service {
    /// Serves a request, by its handling rule. It may move the descriptors out.
    pub(crate) fn serve<'m, L: Link, D: VhostUserBackendReqHandlerMut<Link = L>>(
        &mut self,
        endpoint: &mut Endpoint<Header, L>,
        device: &mut D,
        message: &Incoming<'m>,
        handles: &mut Option<Vec<L::Handle>>,
    ) -> Result<()>
        ensures { IsReady (state endpoint.old)
            → Answers L.event (by_trait D.gives) (λ h o. OpensAsBackend L.opens L.Handle.kinds (state endpoint.old).budget h o) (λ h o. OpensAsGpu L.opens L.Handle.kinds (state endpoint.old).budget h o) (message_in message.now (handles_in handles.old)) (row_of message.now.code (session_of self.old.session) (message_in message.now (handles_in handles.old))) (state endpoint.old) (session_of self.old.session) device.old result (state endpoint.new) (session_of self.new.session) device.new }
    {
        let unanswered = Conclusions::<L::Handle>::unanswered(&self.session, message);
        match Rows::<L::Handle, Backend<L>, GpuBackend<L>>::begin(&self.session, message, handles) {
            Ok(Begun::Calls(call)) => {
                self.make(endpoint, device, message, &unanswered, &call, handles)
            }
            Ok(Begun::Refuses(refusal)) => {
                self.refuse(endpoint, message, &unanswered, refusal.error())
            }
            Err(refusal) => self.refuse_silently(endpoint, message, &unanswered, refusal.error()),
        }
    }

    /// Calls the device, and replies. InvalidMessage: the descriptors are not those of this call.
    fn make<'m, L: Link, D: VhostUserBackendReqHandlerMut<Link = L>>(
        &mut self,
        endpoint: &mut Endpoint<Header, L>,
        device: &mut D,
        message: &Incoming<'m>,
        unanswered: &Unanswered,
        call: &DeviceCall<'m>,
        handles: &mut Option<Vec<L::Handle>>,
    ) -> Result<()>
        ensures { IsReady (state endpoint.old) → Settles (session_of self.old.session) (message_in message.now (handles_in handles.old)) unanswered.now
            → Answers L.event (by_trait D.gives) (λ h o. OpensAsBackend L.opens L.Handle.kinds (state endpoint.old).budget h o) (λ h o. OpensAsGpu L.opens L.Handle.kinds (state endpoint.old).budget h o) (message_in message.now (handles_in handles.old)) (step_of (session_of self.old.session) (message_in message.now (handles_in handles.old)) call.now) (state endpoint.old) (session_of self.old.session) device.old result (state endpoint.new) (session_of self.new.session) device.new }
    {
        self.keep_table(call);
        match self.call_device(endpoint, device, call, handles) {
            Some(answer) => {
                sizes_law(&answer, &self.shmem);
                self.finish(
                    endpoint,
                    message.code,
                    message.need_reply,
                    call.then(),
                    unanswered,
                    answer,
                )
            }
            None => self.refuse_silently(endpoint, message, unanswered, Error::InvalidMessage),
        }
    }

    /// The first half: what a request becomes. Where it is a call of the device, this is how its answer is reported.
    ///
    /// An error refuses the request, which was acknowledged where it wanted an acknowledgement.
    pub(crate) fn begin<'m, L: Link>(
        &mut self,
        endpoint: &mut Endpoint<Header, L>,
        message: &Incoming<'m>,
        unanswered: &Unanswered,
        handles: &Option<Vec<L::Handle>>,
    ) -> Result<Then>
        ensures begun { IfOk result (λ next. IsReady (state endpoint.old) → Prepares (Backend L L.Handle) (GpuBackend L L.Handle) (session_of self.old.session) (message_in message.now (handles_in handles.now)) next self.new.regions × (state endpoint.new ≡ state endpoint.old) × (self.new.session ≡ self.old.session)) }
        ensures refused { IfErr result (λ e. IsReady (state endpoint.old) → Settles (session_of self.old.session) (message_in message.now (handles_in handles.now)) unanswered.now
            → Denies (Backend L L.Handle) (GpuBackend L L.Handle) L.event (message_in message.now (handles_in handles.now)) (row_of message.now.code (session_of self.old.session) (message_in message.now (handles_in handles.now))) (state endpoint.old) (session_of self.old.session) e (state endpoint.new) (session_of self.new.session)) }
    {
        match Rows::<L::Handle, Backend<L>, GpuBackend<L>>::begin(&self.session, message, handles) {
            Ok(Begun::Calls(call)) => {
                if !call.fits(handles) {
                    let refusal = Refusal::InvalidMessage;
                    return Err(self.deny_silently(endpoint, message, unanswered, refusal));
                }
                self.keep_table(&call);
                Ok(call.then())
            }
            Ok(Begun::Refuses(refusal)) => Err(self.deny(endpoint, message, unanswered, refusal)),
            Err(refusal) => Err(self.deny_silently(endpoint, message, unanswered, refusal)),
        }
    }

    /// Refuses a request, and says by which error.
    fn deny<L: Link>(
        &mut self,
        endpoint: &mut Endpoint<Header, L>,
        message: &Incoming,
        unanswered: &Unanswered,
        refusal: Refusal,
    ) -> Error
        ensures { IsReady (state endpoint.old) → Finishes L.event message.now.code (settled_by unanswered.now (failed_with (session_of self.old.session) (wanting {H = L.Handle} message.now.need_reply) (refusal_in refusal))) (state endpoint.old) (session_of self.old.session) (Err result) (state endpoint.new) (session_of self.new.session) }
    {
        match self.refuse(endpoint, message, unanswered, refusal.error()) {
            Ok(()) => refusal.error(),
            Err(error) => error,
        }
    }

    /// The same in silence.
    fn deny_silently<L: Link>(
        &mut self,
        endpoint: &mut Endpoint<Header, L>,
        message: &Incoming,
        unanswered: &Unanswered,
        refusal: Refusal,
    ) -> Error
        ensures { IsReady (state endpoint.old) → Finishes L.event message.now.code (settled_by unanswered.now (refused_silently {H = L.Handle} (session_of self.old.session) (refusal_in refusal))) (state endpoint.old) (session_of self.old.session) (Err result) (state endpoint.new) (session_of self.new.session) }
    {
        match self.refuse_silently(endpoint, message, unanswered, refusal.error()) {
            Ok(()) => refusal.error(),
            Err(error) => error,
        }
    }

    /// Keeps the regions of a call whose bases are to be the reply.
    fn keep_table(&mut self, call: &DeviceCall)
        ensures kept { regions_for (then_of call.now) self.new.regions ≡ regions_beside call.now }
        ensures session { self.new.session ≡ self.old.session }
        ensures place { self.new.shmem ≡ self.old.shmem }
    {
        if let DeviceCall::SetMemTable(table, listens) = call {
            if *listens {
                read_to(table, &mut self.regions[..]);
            }
        }
    }

    /// Refuses a request, and acknowledges that where it wants an acknowledgement.
    #[cold]
    fn refuse<L: Link>(
        &mut self,
        endpoint: &mut Endpoint<Header, L>,
        message: &Incoming,
        unanswered: &Unanswered,
        error: Error,
    ) -> Result<()>
        ensures { IsReady (state endpoint.old) → Finishes L.event message.now.code (settled_by unanswered.now (failed_with (session_of self.old.session) (wanting {H = L.Handle} message.now.need_reply) (seen error))) (state endpoint.old) (session_of self.old.session) result (state endpoint.new) (session_of self.new.session) }
    {
        let answer = DeviceAnswer::<L::Handle>::Done(Err(error));
        self.finish(
            endpoint,
            message.code,
            message.need_reply,
            Then::Ack,
            unanswered,
            answer,
        )
    }

    /// Refuses a request in silence, which is answered where somebody waits.
    #[cold]
    fn refuse_silently<L: Link>(
        &mut self,
        endpoint: &mut Endpoint<Header, L>,
        message: &Incoming,
        unanswered: &Unanswered,
        error: Error,
    ) -> Result<()>
        ensures { IsReady (state endpoint.old) → Finishes L.event message.now.code (settled_by unanswered.now (refused_silently {H = L.Handle} (session_of self.old.session) (seen error))) (state endpoint.old) (session_of self.old.session) result (state endpoint.new) (session_of self.new.session) }
    {
        let answer = DeviceAnswer::<L::Handle>::Done(Err(error));
        self.finish(
            endpoint,
            message.code,
            message.need_reply,
            Then::Unwritten,
            unanswered,
            answer,
        )
    }
}

/// Reads the regions of a table to the first of these places.
fn read_to(table: &RegionTable, places: &mut [VhostUserMemoryRegion])
    requires { length places.old ≡ MAX_MEM_REGIONS }
    ensures regions { take table.now.count places.new ≡ regions_in table.now }
    ensures places { length places.new ≡ length places.old }
{
    table.read(&mut places[..table.len()]);
}
