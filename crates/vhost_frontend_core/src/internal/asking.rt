//! The half that sends: a request goes out whole.

ghost use Rattle.std.specs.Prelude.{◌≡◌, ◌+◌, ◌++◌, ◌≤◌, IfOk, Ok, length, map};
ghost use Rattle.vhost_message.specs.declared.limits.TheConstants.{MAX_ATTACHED_FD_ENTRIES, MAX_MSG_SIZE};
ghost use Rattle.vhost_protocol.specs.Written.{Payload, payload_text};
ghost use Rattle.vhost_protocol.specs.Ask.{given_handle};
ghost use Rattle.vhost_protocol.specs.FrontendCall as calls;
ghost use Rattle.vhost_protocol.specs.declared.asked.Awaited.TheVariants.{Reply};
ghost use Rattle.vhost_protocol.specs.declared.asked.Shape.TheVariants.{ShMemConfig};
ghost use Rattle.vhost_backend.specs.Region.{region_in};
ghost use Rattle.vhost_frontend_core.specs.Kept.{KeepsPlace};
ghost use Rattle.vhost_frontend_core.specs.Plan.{IsRecord, planned as planned_as, record_in};
ghost use Rattle.vhost_frontend_core.specs.Regions.{info_in, lent};
ghost use Rattle.vhost_frontend_core.specs.Values.{call_in};
ghost use Rattle.vhost_frontend_core.specs.declared.asked.Kept.TheVariants.{Region};

use crate::asked::{Kept, Sent};
use crate::call::Call;
use crate::internal::FrontendInternal;
use crate::internal::plan::{Plan, Record, planned};
use vhost_backend::VhostUserMemoryRegionInfo;
use vhost_link::Link;
use vhost_message::{
    ByteValued, Error, HeardReq, Result, VhostUserEmpty, VhostUserShMemConfig, VhostUserU64,
};
use vhost_protocol::Awaited;

impl<L: Link> FrontendInternal<L> {
    ghost use Rattle.vhost_connection.specs.Asking.{request_with};
    ghost use Rattle.vhost_frontend_core.specs.Asking.{Asks, AsksWithRoom, Tries};
    ghost use Rattle.vhost_frontend_core.specs.Frontend.{endpoint_of, session_of, awaits, MayAsk};
    ghost use Rattle.vhost_frontend_core.specs.Halves.{AsksHalf, AsksHalfWithRoom};
    ghost use Rattle.vhost_frontend_core.specs.ValueHalves.{AsksWell};

    /// Sends the request of a call. The answer is to be received by `take`, of the same call.
    ///
    /// Errors are those of the call and of the link. OutOfMemory: an allocation failed, and nothing changed; only where a call
    /// makes room for its answer, or where the descriptor buffer was moved out.
    pub fn ask(&mut self, call: &Call<'_, L::Handle>) -> Result<Sent>
        requires { MayAsk self.old }
        ensures { AsksWell L.event (call_in call.now) self.old result self.new }
    {
        match call {
            Call::SetMemTable(regions) => self.ask_table(regions),
            Call::GetConfig(offset, size, flags, buffer) => {
                self.ask_get_config(*offset, *size, *flags, *buffer)
            }
            Call::SetConfig(offset, flags, buffer) => self.ask_set_config(*offset, *flags, *buffer),
            Call::AddMemRegion(region) => self.ask_region(*region),
            Call::GetShmemConfig => self.ask_shmem_to_place(),
            _ => self.ask_planned(call),
        }
    }

    /// Sends the request of a call, by the table of calls.
    fn ask_planned(&mut self, call: &Call<'_, L::Handle>) -> Result<Sent>
        requires { IsRecord (call_in call.now) }
        ensures { AsksHalf L.event (call_in call.now) self.old result self.new }
    {
        match planned(self.session, call) {
            Ok(plan) => self.carry_out(&plan),
            Err(error) => Err(error),
        }
    }

    /// Gives the backend a region, which is kept.
    fn ask_region(&mut self, region: VhostUserMemoryRegionInfo<'_, L::Handle>) -> Result<Sent>
        ensures asked { AsksHalf L.event (calls.AddMemRegion (info_in region.entry)) self.old result self.new }
        ensures kept { IfOk result (λ sent. sent.kept ≡ Region (region_in region.entry)) }
    {
        match self.ask_planned(&Call::AddMemRegion(region)) {
            Ok(mut sent) => {
                sent.kept = Kept::Region(region.to_region());
                Ok(sent)
            }
            Err(error) => Err(error),
        }
    }

    /// Asks for the regions of shared memory, without a place for them.
    ///
    /// InactiveOperation: SHMEM is not accepted.
    pub fn ask_get_shmem_config(&mut self) -> Result<Sent>
        requires { MayAsk self.old }
        ensures { AsksHalf L.event calls.GetShmemConfig self.old result self.new }
    {
        self.ask_planned(&Call::GetShmemConfig)
    }

    /// Asks for the regions of shared memory, with a place made in which they can be received.
    #[inline(never)]
    fn ask_shmem_to_place(&mut self) -> Result<Sent>
        ensures asked { AsksHalfWithRoom L.event calls.GetShmemConfig self.old result self.new }
        ensures kept { IfOk result (λ sent. KeepsPlace sent.kept) }
    {
        match planned(self.session, &Call::GetShmemConfig) {
            Ok(plan) => self.ask_with_place(&plan),
            Err(error) => Err(error),
        }
    }

    /// Carries a plan out, with a place made for the reply.
    fn ask_with_place(&mut self, plan: &Plan<'_, L::Handle>) -> Result<Sent>
        requires { plan.now.awaited ≡ Reply ShMemConfig }
        ensures asked { AsksWithRoom L.event (planned_as (Ok plan.now)) (endpoint_of self.old) (session_of self.old) (awaits self.old) result (endpoint_of self.new) (session_of self.new) (awaits self.new) }
        ensures kept { IfOk result (λ sent. KeepsPlace sent.kept) }
    {
        let Ok(place) = Box::new(self.alloc, VhostUserShMemConfig::default()) else {
            return Err(Error::OutOfMemory);
        };
        match self.carry_out(plan) {
            Ok(mut sent) => {
                sent.kept = Kept::Place(place);
                Ok(sent)
            }
            Err(error) => Err(error),
        }
    }

    /// Sends what was planned; the session is the next one once it went out.
    fn carry_out(&mut self, plan: &Plan<'_, L::Handle>) -> Result<Sent>
        ensures { Asks L.event (planned_as (Ok plan.now)) (endpoint_of self.old) (session_of self.old) (awaits self.old) result (endpoint_of self.new) (session_of self.new) (awaits self.new) }
    {
        let request = (plan.request, plan.flags(), plan.awaited);
        match self.send_planned(request, &plan.body, plan.handle) {
            Ok(sent) => {
                self.session = plan.next;
                Ok(sent)
            }
            Err(error) => Err(error),
        }
    }

    /// Sends a request with these flags: a body, if any, and a descriptor, if any.
    fn send_planned(
        &mut self,
        request: (HeardReq, u32, Awaited),
        body: &Record,
        handle: Option<&L::Handle>,
    ) -> Result<Sent>
        ensures session { session_of self.new ≡ session_of self.old }
        ensures sent { Tries L.event (request_with request.1 request.0 (record_in body.now) (given_handle (lent handle.entry))) request.2 (endpoint_of self.old) (awaits self.old) result (endpoint_of self.new) (awaits self.new) }
    {
        match handle {
            Some(handle) => self.send_record(request, body, &[handle]),
            None => self.send_record(request, body, &[]),
        }
    }

    /// Sends a request with these flags: a body, and bytes behind it.
    pub(crate) fn send<T: ByteValued>(
        &mut self,
        request: (HeardReq, u32, Awaited),
        body: &T,
        payload: &[u8],
        handles: &[&L::Handle],
    ) -> Result<Sent>
        requires size { T.SIZE + length payload.now ≤ MAX_MSG_SIZE }
        requires handles { length handles.now ≤ MAX_ATTACHED_FD_ENTRIES }
        ensures session { session_of self.new ≡ session_of self.old }
        ensures sent { (p : Payload) → payload_text p ≡ T.text body.now ++ payload.now
            → Tries L.event (request_with request.1 request.0 p (map (λ h. h.now) handles.now)) request.2 (endpoint_of self.old) (awaits self.old) result (endpoint_of self.new) (awaits self.new) }
    {
        let (code, flags, awaited) = request;
        match self
            .endpoint
            .send_request(code, flags, body, payload, handles)
        {
            Ok(header) => {
                self.awaited = awaited;
                Ok(Sent::new(header, awaited))
            }
            Err(error) => Err(error),
        }
    }

    /// Sends a request with these flags: a body, if any.
    fn send_record(
        &mut self,
        request: (HeardReq, u32, Awaited),
        body: &Record,
        handles: &[&L::Handle],
    ) -> Result<Sent>
        requires handles { length handles.now ≤ MAX_ATTACHED_FD_ENTRIES }
        ensures session { session_of self.new ≡ session_of self.old }
        ensures sent { Tries L.event (request_with request.1 request.0 (record_in body.now) (map (λ h. h.now) handles.now)) request.2 (endpoint_of self.old) (awaits self.old) result (endpoint_of self.new) (awaits self.new) }
    {
        match body {
            Record::Empty => self.send(request, &VhostUserEmpty, &[], handles),
            Record::U64(number) => self.send(request, &VhostUserU64::new(*number), &[], handles),
            Record::OneRegion(region) => self.send(request, region, &[], handles),
            Record::RingState(ring) => self.send(request, ring, &[], handles),
            Record::RingAddr(ring) => self.send(request, ring, &[], handles),
            Record::InflightArea(area) => self.send(request, area, &[], handles),
            Record::LogArea(area) => self.send(request, area, &[], handles),
            Record::ObjectName(name) => self.send(request, name, &[], handles),
            Record::DeviceState(transfer) => self.send(request, transfer, &[], handles),
        }
    }
}
