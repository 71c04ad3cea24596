//! What a call became is sent.

ghost use Rattle.std.specs.Prelude.{◌≡◌, ◌≤◌, ◌+◌, ◌++◌, length, map, Ok, if◌then◌else◌};
ghost use Rattle.vhost_message.specs.declared.limits.TheConstants.{MAX_ATTACHED_FD_ENTRIES, MAX_MEM_REGIONS, MAX_MSG_SIZE};
ghost use Rattle.vhost_protocol.specs.Answered.{rebased};
ghost use Rattle.vhost_protocol.specs.Served.{Acknowledged, Replied};
ghost use Rattle.vhost_protocol.specs.Written.{Payload, Regions, payload_text};
ghost use Rattle.vhost_connection.specs.Requests.{IsReady, Tells};
ghost use Rattle.vhost_connection.specs.State.{state};
ghost use Rattle.vhost_backend_req_handler_core.specs.Concluding.{concluded, payload_in, served_in};
ghost use Rattle.vhost_backend_req_handler_core.specs.Session.{session_of};
ghost use Rattle.vhost_backend_req_handler_core.specs.Settling.{settled_by};
ghost use Rattle.vhost_backend_req_handler.specs.Serving.{Finishes, kept_unsent, reply_cells};

use crate::bases::rebase;
use crate::service::{Header, Service};
use vhost_backend_req_handler_core::{
    Conclusion, Conclusions, DeviceAnswer, Reply, Session, Then, Told, Unanswered,
};
use vhost_connection::Endpoint;
use vhost_link::Link;
use vhost_message::{
    ByteValued, HeardReq, MAX_MEM_REGIONS, MEMORY_REGION_SIZE, Result, VhostUserEmpty,
    VhostUserMemory, VhostUserMemoryRegion, VhostUserU64, put_regions,
};

/// Replies with a record and the bytes behind it, and with the descriptors on the first byte.
fn reply<L: Link, T: ByteValued>(
    endpoint: &mut Endpoint<Header, L>,
    code: HeardReq,
    body: &T,
    payload: &[u8],
    handles: &[&L::Handle],
) -> Result<()>
    requires size { T.SIZE + length payload.now ≤ MAX_MSG_SIZE }
    requires handles { length handles.now ≤ MAX_ATTACHED_FD_ENTRIES }
    ensures { (whole : Payload) → T.text body.now ++ payload.now ≡ payload_text whole → IsReady (state endpoint.old)
        → Tells L.event (state endpoint.old) (reply_cells code (Replied whole (map (λ h. h.now) handles.now))) (Ok tt) result (state endpoint.new) }
{
    endpoint.reply(code, body, payload, handles)
}

/// Replies with a table of regions.
fn send_table<L: Link>(
    endpoint: &mut Endpoint<Header, L>,
    code: HeardReq,
    regions: &[VhostUserMemoryRegion],
    handles: &[&L::Handle],
) -> Result<()>
    requires handles { length handles.now ≤ MAX_ATTACHED_FD_ENTRIES }
    requires regions { length regions.now ≤ MAX_MEM_REGIONS }
    ensures { IsReady (state endpoint.old) → Tells L.event (state endpoint.old) (reply_cells code (Replied (Regions regions.now) (map (λ h. h.now) handles.now))) (Ok tt) result (state endpoint.new) }
{
    let mut text = [0; MEMORY_REGION_SIZE * MAX_MEM_REGIONS];
    let payload = &mut text[..];
    let payload = &mut payload[..MEMORY_REGION_SIZE * regions.len()];
    put_regions(regions, payload);
    let head = VhostUserMemory::new(regions.len() as u32);
    reply(endpoint, code, &head, payload, handles)
}

/// Replies with the regions of a table, each with the base at the same place.
fn send_based<L: Link>(
    endpoint: &mut Endpoint<Header, L>,
    code: HeardReq,
    table: &[VhostUserMemoryRegion],
    bases: &[u64],
    handles: &[&L::Handle],
) -> Result<()>
    requires handles { length handles.now ≤ MAX_ATTACHED_FD_ENTRIES }
    requires regions { length table.now ≤ MAX_MEM_REGIONS }
    ensures { IsReady (state endpoint.old) → Tells L.event (state endpoint.old) (reply_cells code (Replied (Regions (rebased table.now bases.now)) (map (λ h. h.now) handles.now))) (Ok tt) result (state endpoint.new) }
{
    let mut places = [VhostUserMemoryRegion::default(); MAX_MEM_REGIONS];
    let regions = &mut places[..];
    let regions = &mut regions[..table.len()];
    regions.copy_from_slice(table);
    let count = rebase(regions, bases);
    send_table(endpoint, code, &regions[..count], handles)
}

/// 0 for success, else 1.
fn ack_body(agreed: bool) -> VhostUserU64
    ensures { result ≡ record { value = if agreed then 0 else 1 } }
{
    if agreed {
        VhostUserU64::new(0)
    } else {
        VhostUserU64::new(1)
    }
}

/// Acknowledges a request.
fn send_ack_message<L: Link>(
    endpoint: &mut Endpoint<Header, L>,
    code: HeardReq,
    agreed: bool,
) -> Result<()>
    ensures { IsReady (state endpoint.old) → Tells L.event (state endpoint.old) (reply_cells code (Acknowledged agreed)) (Ok tt) result (state endpoint.new) }
{
    reply(endpoint, code, &ack_body(agreed), &[], &[])
}

impl Service {
    ghost use Rattle.vhost_backend_req_handler_core.specs.Concluding.{regions_for};
    ghost use Rattle.vhost_backend_req_handler.specs.Calling.{beside};
    ghost use Rattle.vhost_backend_req_handler.specs.Halves.{beside_then};

    /// Sends a reply.
    fn send<L: Link>(
        &self,
        endpoint: &mut Endpoint<Header, L>,
        code: HeardReq,
        table: &[VhostUserMemoryRegion],
        body: &Reply,
        handles: &[&L::Handle],
    ) -> Result<()>
        requires handles { length handles.now ≤ MAX_ATTACHED_FD_ENTRIES }
        requires regions { length table.now ≤ MAX_MEM_REGIONS }
        ensures { IsReady (state endpoint.old) → Tells L.event (state endpoint.old) (reply_cells code (Replied (payload_in (beside table.now self.now.shmem) body.now) (map (λ h. h.now) handles.now))) (Ok tt) result (state endpoint.new) }
    {
        match body {
            Reply::Empty => reply(endpoint, code, &VhostUserEmpty, &[], handles),
            Reply::U64(number) => reply(endpoint, code, &VhostUserU64::new(*number), &[], handles),
            Reply::OneRegion(region) => reply(endpoint, code, region, &[], handles),
            Reply::RingState(ring) => reply(endpoint, code, ring, &[], handles),
            Reply::Config(config) => reply(endpoint, code, config, &[], handles),
            Reply::ConfigBytes(part) => {
                reply(endpoint, code, &part.config(), part.bytes(), handles)
            }
            Reply::InflightArea(area) => reply(endpoint, code, area, &[], handles),
            Reply::LogArea(log) => reply(endpoint, code, log, &[], handles),
            Reply::Shmem => reply(endpoint, code, &self.shmem, &[], handles),
            Reply::Regions(bases) => send_based(endpoint, code, table, bases, handles),
        }
    }

    /// The regions whose bases are the reply; other replies have none.
    fn table(&self, next: &Then) -> &[VhostUserMemoryRegion]
        ensures table { result.now ≡ regions_for next.now self.now.regions }
        ensures few { length result.now ≤ MAX_MEM_REGIONS }
    {
        match next {
            Then::Bases(count) if *count < MAX_MEM_REGIONS => &self.regions[..*count],
            Then::Bases(_) => &self.regions[..],
            _ => &self.regions[..0],
        }
    }

    /// Replies, acknowledges, or does neither.
    fn tell<L: Link>(
        &self,
        endpoint: &mut Endpoint<Header, L>,
        code: HeardReq,
        next: &Then,
        told: &Told<L::Handle>,
    ) -> Result<()>
        ensures { IsReady (state endpoint.old) → Tells L.event (state endpoint.old) (reply_cells code (served_in (beside_then next.now self.now) told.now)) (Ok tt) result (state endpoint.new) }
    {
        let table = self.table(next);
        match told {
            Told::Silent => Ok(()),
            Told::Acknowledged(agreed) => send_ack_message(endpoint, code, *agreed),
            Told::Replied(body) => self.send(endpoint, code, table, body, &[]),
            Told::RepliedWith(body, handle) => self.send(endpoint, code, table, body, &[*handle]),
        }
    }

    /// Replies by what the answer of a call became, or answers whoever waits else, and keeps the session. The offered features
    /// are remembered once they are sent.
    pub(crate) fn finish<L: Link>(
        &mut self,
        endpoint: &mut Endpoint<Header, L>,
        code: HeardReq,
        need_reply: bool,
        next: Then,
        unanswered: &Unanswered,
        answer: DeviceAnswer<L::Handle>,
    ) -> Result<()>
        ensures { IsReady (state endpoint.old) → Finishes L.event code (settled_by unanswered.now (concluded (session_of self.old.session) need_reply (beside_then next self.old) next answer)) (state endpoint.old) (session_of self.old.session) result (state endpoint.new) (session_of self.new.session) }
    {
        let before = self.session;
        let mut conclusion = Conclusions::conclude(&mut self.session, need_reply, &next, &answer);
        Conclusions::settle(&mut self.session, unanswered, &answer, &mut conclusion);
        let Conclusion { verdict, told } = conclusion;
        match self.tell(endpoint, code, &next, &told) {
            Ok(()) => answer.by(verdict),
            Err(error) => {
                self.session = unsent(code, before, self.session);
                Err(error)
            }
        }
    }
}

/// What is kept of a session where an I/O error stopped the reply.
fn unsent(code: HeardReq, before: Session, after: Session) -> Session
    ensures { session_of result ≡ kept_unsent code (session_of before) (session_of after) }
{
    match code {
        HeardReq::GET_FEATURES => before,
        _ => after,
    }
}
