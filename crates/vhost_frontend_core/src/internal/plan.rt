//! What each call becomes whose message is a header and at most one record: the table of a frontend's requests.

ghost use Rattle.std.specs.Prelude.{◌≡◌, ◌==◌, ◌&&◌, ◌<◌, ◌∷◌, [], false, Ok, if◌then◌else◌, not, nat_le};
ghost use Rattle.vhost_message.specs.declared.heard_req.HeardReq.TheVariants as code;
ghost use Rattle.vhost_protocol.specs.Ask as ask;
ghost use Rattle.vhost_protocol.specs.Ask.{Asked, ◌>>◌ as ◌and_then◌, given_handle, ring_number};
ghost use Rattle.vhost_protocol.specs.Features.{PAGEFAULT};
ghost use Rattle.vhost_protocol.specs.FrontendCall as calls;
ghost use Rattle.vhost_protocol.specs.Session.{is_listen};
ghost use Rattle.vhost_protocol.specs.Written as payload;
ghost use Rattle.vhost_protocol.specs.declared.asked.Awaited.TheVariants.{Nobody, Reply};
ghost use Rattle.vhost_protocol.specs.declared.asked.Shape.TheVariants as shape;
ghost use Rattle.vhost_message.specs.VringConfig.{ring_addr};
ghost use Rattle.vhost_connection.specs.Asking.{request_with};
ghost use Rattle.vhost_frontend_core.specs.Asking.{tested};
ghost use Rattle.vhost_frontend_core.specs.Plan.{IsRecord, planned as planned_as, record_in, written};
ghost use Rattle.vhost_frontend_core.specs.Regions.{info_in, lent, log_region_in};
ghost use Rattle.vhost_frontend_core.specs.Session.{frontend_of};
ghost use Rattle.vhost_frontend_core.specs.Values.{call_in};
ghost use Rattle.vhost_frontend_core.specs.declared.internal.plan.Asking.TheVariants.{AsFlagged};

use crate::call::Call;
use crate::session::{FrontendSession, param, protocol_in};
use bitflags::Flags;
use vhost_backend::{VhostUserDirtyLogRegion, VhostUserMemoryRegionInfo};
use vhost_message::{
    Error, HeardReq, Result, VhostUserInflight, VhostUserLog, VhostUserMsgValidator,
    VhostUserSharedMsg, VhostUserSingleMemoryRegion, VhostUserTransferDeviceState,
    VhostUserVringAddr, VhostUserVringState, VringConfigData, has_bit, protocol_bit,
};
use vhost_protocol::{Awaited, Shape};

/// The record of a message, if any.
#[derive(Clone, Copy)]
pub enum Record {
    Empty,
    U64(u64),
    OneRegion(VhostUserSingleMemoryRegion),
    RingState(VhostUserVringState),
    RingAddr(VhostUserVringAddr),
    InflightArea(VhostUserInflight),
    LogArea(VhostUserLog),
    ObjectName(VhostUserSharedMsg),
    DeviceState(VhostUserTransferDeviceState),
}

/// How a message asks for its acknowledgement.
#[derive(Clone, Copy)]
pub enum Asking {
    /// As the session's flags say.
    AsFlagged,
    /// Not at all, whatever they say.
    Unacknowledged,
    /// As one does that turns the state of both sides.
    Turning,
}

/// What goes out, what is awaited of it, and the session from then on.
#[derive(Drop)]
pub struct Plan<'a, H> {
    pub request: HeardReq,
    /// How the message asks for its acknowledgement.
    pub asking: Asking,
    pub body: Record,
    /// The descriptor that goes with it, if any.
    pub handle: Option<&'a H>,
    pub awaited: Awaited,
    pub next: FrontendSession,
}

impl<'a, H> Plan<'a, H> {
    /// The flags of the message's header.
    pub fn flags(&self) -> u32
        ensures { request_with result self.now.request (record_in self.now.body) (given_handle (lent self.now.handle)) ≡ written self.now }
    {
        match self.asking {
            Asking::AsFlagged => self.next.flags(),
            Asking::Unacknowledged => self.next.unacknowledged_flags(),
            Asking::Turning => self.next.turn_flags(),
        }
    }

    /// Sent, and perhaps acknowledged; then the session is the next one.
    pub fn sends(
        next: FrontendSession,
        request: HeardReq,
        body: Record,
        handle: Option<&'a H>,
    ) -> Self
        ensures { result ≡ record { request = request; asking = AsFlagged; body = body; handle = handle.entry; awaited = ask.awaited_ack (frontend_of next); next = next } }
    {
        let awaited = next.acknowledgement();
        Plan {
            request,
            asking: Asking::AsFlagged,
            body,
            handle,
            awaited,
            next,
        }
    }

    /// Sent, and replied to.
    pub fn asks(
        session: FrontendSession,
        request: HeardReq,
        body: Record,
        handle: Option<&'a H>,
        shape: Shape,
    ) -> Self
        ensures { result ≡ record { request = request; asking = AsFlagged; body = body; handle = handle.entry; awaited = Reply shape; next = session } }
    {
        Plan {
            request,
            asking: Asking::AsFlagged,
            body,
            handle,
            awaited: Awaited::Reply(shape),
            next: session,
        }
    }
}

/// What a call becomes.
pub fn planned<'a, H>(session: FrontendSession, call: &Call<'a, H>) -> Result<Plan<'a, H>>
    requires { IsRecord (call_in call.now) }
    ensures { planned_as result ≡ ask.ask (frontend_of session) (call_in call.now) }
{
    use Call::*;
    use HeardReq::*;
    match call {
        GetFeatures => Ok(Plan::asks(session, GET_FEATURES, Record::Empty, None, Shape::U64)),
        SetFeatures(features) => {
            let mut next = session;
            next.acked = *features & next.offered;
            Ok(Plan::sends(next, SET_FEATURES, Record::U64(*features), None))
        }
        SetOwner => Ok(Plan::sends(session, SET_OWNER, Record::Empty, None)),
        ResetOwner => Ok(Plan::sends(session, RESET_OWNER, Record::Empty, None)),
        GetProtocolFeatures => asks_once(
            protocol_in(session.offered),
            session,
            GET_PROTOCOL_FEATURES,
            Record::Empty,
            None,
            Shape::U64,
        ),
        SetProtocolFeatures(features) => {
            let mut next = session;
            next.acked_protocol_features = features.bits();
            let body = Record::U64(features.bits());
            sends_once(
                protocol_in(session.offered),
                next,
                SET_PROTOCOL_FEATURES,
                body,
                None,
            )
        }
        GetQueueNum => asks_once(
            session.needs(protocol_bit::MQ),
            session,
            GET_QUEUE_NUM,
            Record::Empty,
            None,
            Shape::U64,
        ),
        ResetDevice => sends_once(
            session.needs(protocol_bit::RESET_DEVICE),
            session,
            RESET_DEVICE,
            Record::Empty,
            None,
        ),
        SetLogBase(base, region) => sends_log(session, *base, *region),
        SetLogFd(handle) => Ok(Plan::sends(session, SET_LOG_FD, Record::Empty, Some(*handle))),
        SetVringNum(index, num) => sends_ring(session, SET_VRING_NUM, *index, (*num).into(), None),
        SetVringBase(index, base) => sends_ring(session, SET_VRING_BASE, *index, *base, None),
        SetVringAddr(index, config) => sends_ring_addr(session, *index, *config, None),
        GetVringBase(index) => asks_ring_base(session, *index, None),
        SetVringCall(index, Some(handle)) => {
            sends_ring_handle(session, SET_VRING_CALL, *index, Some(*handle))
        }
        SetVringCall(index, None) => sends_ring_handle(session, SET_VRING_CALL, *index, None),
        SetVringKick(index, Some(handle)) => {
            sends_ring_handle(session, SET_VRING_KICK, *index, Some(*handle))
        }
        SetVringKick(index, None) => sends_ring_handle(session, SET_VRING_KICK, *index, None),
        SetVringErr(index, Some(handle)) => {
            sends_ring_handle(session, SET_VRING_ERR, *index, Some(*handle))
        }
        SetVringErr(index, None) => sends_ring_handle(session, SET_VRING_ERR, *index, None),
        SetVringEnable(index, enable) => sends_ring_enable(session, *index, *enable, None),
        SetBackendRequestFd(handle) => sends_once(
            session.needs(protocol_bit::BACKEND_REQ),
            session,
            SET_BACKEND_REQ_FD,
            Record::Empty,
            Some(*handle),
        ),
        GetSharedObject(name) => asks_once(
            allows::<H>(session, protocol_bit::SHARED_OBJECT, name.is_valid()),
            session,
            GET_SHARED_OBJECT,
            Record::ObjectName(*name),
            None,
            Shape::Empty,
        ),
        GetInflightFd(area) => asks_once(
            allows::<H>(
                session,
                protocol_bit::INFLIGHT_SHMFD,
                session.has_queues(area),
            ),
            session,
            GET_INFLIGHT_FD,
            Record::InflightArea(*area),
            None,
            Shape::Inflight,
        ),
        SetInflightFd(area, handle) => sends_once(
            allows::<H>(session, protocol_bit::INFLIGHT_SHMFD, is_area(area)),
            session,
            SET_INFLIGHT_FD,
            Record::InflightArea(*area),
            Some(*handle),
        ),
        GetMaxMemSlots => asks_once(
            session.needs(protocol_bit::CONFIGURE_MEM_SLOTS),
            session,
            GET_MAX_MEM_SLOTS,
            Record::Empty,
            None,
            Shape::U64,
        ),
        AddMemRegion(region) => adds_region(session, *region),
        RemoveMemRegion(region) => sends_once(
            allows::<H>(
                session,
                protocol_bit::CONFIGURE_MEM_SLOTS,
                region.memory_size != 0,
            ),
            session,
            REM_MEM_REG,
            Record::OneRegion(region.to_single_region()),
            None,
        ),
        GetShmemConfig => asks_once(
            session.needs(protocol_bit::SHMEM),
            session,
            GET_SHMEM_CONFIG,
            Record::Empty,
            None,
            Shape::ShMemConfig,
        ),
        SetDeviceStateFd(direction, phase, handle) => asks_once(
            session.needs(protocol_bit::DEVICE_STATE),
            session,
            SET_DEVICE_STATE_FD,
            Record::DeviceState(VhostUserTransferDeviceState::new(*direction, *phase)),
            Some(*handle),
            Shape::U64,
        ),
        CheckDeviceState => asks_once(
            session.needs(protocol_bit::DEVICE_STATE),
            session,
            CHECK_DEVICE_STATE,
            Record::Empty,
            None,
            Shape::U64,
        ),
        PostcopyAdvise => asks_once(
            session.needs(protocol_bit::PAGEFAULT),
            session,
            POSTCOPY_ADVISE,
            Record::Empty,
            None,
            Shape::Empty,
        ),
        PostcopyListen => turns(
            session,
            POSTCOPY_LISTEN,
            session.turn_acknowledgement(),
            None,
        ),
        PostcopyEnd => turns(session, POSTCOPY_END, session.end_acknowledgement(), None),
        PostcopyAckMemRegions(code) => acks_regions(session, *code, None),
        SetMtu(mtu) => sends_once(
            session.needs(protocol_bit::MTU),
            session,
            NET_SET_MTU,
            Record::U64((*mtu).into()),
            None,
        ),
        SetMemTable(_) | GetConfig(..) | SetConfig(..) => Err(Error::InvalidParam),
    }
}

/// Sent once a test has passed, and perhaps acknowledged.
fn sends_once<'a, H>(
    test: Result<()>,
    next: FrontendSession,
    request: HeardReq,
    body: Record,
    handle: Option<&'a H>,
) -> Result<Plan<'a, H>>
    ensures { planned_as result ≡ tested test and_then ask.sends (frontend_of next) request (record_in body) (given_handle (lent handle.entry)) }
{
    match test {
        Ok(()) => Ok(Plan::sends(next, request, body, handle)),
        Err(error) => Err(error),
    }
}

/// Sent once a test has passed, and replied to.
fn asks_once<'a, H>(
    test: Result<()>,
    session: FrontendSession,
    request: HeardReq,
    body: Record,
    handle: Option<&'a H>,
    shape: Shape,
) -> Result<Plan<'a, H>>
    ensures { planned_as result ≡ tested test and_then ask.asks (frontend_of session) request (record_in body) (given_handle (lent handle.entry)) shape }
{
    match test {
        Ok(()) => Ok(Plan::asks(session, request, body, handle, shape)),
        Err(error) => Err(error),
    }
}

/// Turns the state of both sides, if postcopy is agreed on.
fn turns<'a, H>(
    session: FrontendSession,
    request: HeardReq,
    awaited: Awaited,
    handle: Option<&'a H>,
) -> Result<Plan<'a, H>>
    ensures { planned_as result ≡ ask.frontend_feature (frontend_of session) PAGEFAULT and_then ask.Sends (record (ask.turning (frontend_of session) request) { handles = given_handle (lent handle.entry) }) awaited (frontend_of session) }
{
    session.needs(protocol_bit::PAGEFAULT)?;
    Ok(Plan {
        request,
        asking: Asking::Turning,
        body: Record::Empty,
        handle,
        awaited,
        next: session,
    })
}

/// That the regions are mapped which this request brought.
fn acks_regions<'a, H>(
    session: FrontendSession,
    code: HeardReq,
    handle: Option<&'a H>,
) -> Result<Plan<'a, H>>
    ensures { planned_as result ≡ ask.param (ask.is_mapping code) and_then ask.Sends (ask.unacknowledged (frontend_of session) code (payload.U64 0) (given_handle (lent handle.entry))) Nobody (frontend_of session) }
{
    param(is_mapping(code))?;
    Ok(Plan {
        request: code,
        asking: Asking::Unacknowledged,
        body: Record::U64(0),
        handle,
        awaited: Awaited::Nobody,
        next: session,
    })
}

/// Where the log lies: its base alone, or a region where shared memory is agreed on.
fn sends_log<'a, H>(
    session: FrontendSession,
    base: u64,
    region: Option<VhostUserDirtyLogRegion<'a, H>>,
) -> Result<Plan<'a, H>>
    ensures { planned_as result ≡ ask.ask (frontend_of session) (calls.SetLogBase base (log_region_in region.entry)) }
{
    let Some(area) = region else {
        return Ok(sends_base(session, base));
    };
    let acked_protocol_features = session.acked_protocol_features;
    if !has_bit(acked_protocol_features, protocol_bit::LOG_SHMFD) {
        return Ok(sends_base(session, base));
    }
    let Some(handle) = area.mmap_handle else {
        return Err(Error::InvalidParam);
    };
    let log = VhostUserLog::new(area.mmap_size, area.mmap_offset);
    Ok(Plan::asks(
        session,
        HeardReq::SET_LOG_BASE,
        Record::LogArea(log),
        Some(handle),
        Shape::Log,
    ))
}

/// The base of the log alone.
fn sends_base<'a, H>(session: FrontendSession, base: u64) -> Plan<'a, H>
    ensures { planned_as (Ok result) ≡ ask.sends_base (frontend_of session) base }
{
    Plan {
        request: HeardReq::SET_LOG_BASE,
        asking: Asking::AsFlagged,
        body: Record::U64(base),
        handle: None,
        awaited: session.base_acknowledgement(),
        next: session,
    }
}

/// A number for a ring.
fn sends_ring<'a, H>(
    session: FrontendSession,
    request: HeardReq,
    index: usize,
    num: u32,
    handle: Option<&'a H>,
) -> Result<Plan<'a, H>>
    ensures { planned_as result ≡ ask.index (frontend_of session) index and_then ask.sends (frontend_of session) request (payload.RingState (ask.ring_state index num)) (given_handle (lent handle.entry)) }
{
    let index = session.index(index)?;
    let ring = VhostUserVringState::new(index, num);
    Ok(Plan::sends(session, request, Record::RingState(ring), handle))
}

/// Where the parts of a ring lie.
fn sends_ring_addr<'a, H>(
    session: FrontendSession,
    index: usize,
    config: VringConfigData,
    handle: Option<&'a H>,
) -> Result<Plan<'a, H>>
    ensures { planned_as result ≡ ask.index (frontend_of session) index and_then (ask.param (nat_le config.flags 1) and_then ask.sends (frontend_of session) code.SET_VRING_ADDR (payload.RingAddr (ring_addr index config)) (given_handle (lent handle.entry))) }
{
    let index = session.index(index)?;
    param(config.flags <= 1)?;
    let ring = VhostUserVringAddr::from_config_data(index, &config);
    let request = HeardReq::SET_VRING_ADDR;
    Ok(Plan::sends(session, request, Record::RingAddr(ring), handle))
}

/// Where a ring stopped.
fn asks_ring_base<'a, H>(
    session: FrontendSession,
    index: usize,
    handle: Option<&'a H>,
) -> Result<Plan<'a, H>>
    ensures { planned_as result ≡ ask.index (frontend_of session) index and_then ask.asks (frontend_of session) code.GET_VRING_BASE (payload.RingState (ask.ring_state index 0)) (given_handle (lent handle.entry)) shape.VringState }
{
    let index = session.index(index)?;
    let ring = Record::RingState(VhostUserVringState::new(index, 0));
    let request = HeardReq::GET_VRING_BASE;
    Ok(Plan::asks(session, request, ring, handle, Shape::VringState))
}

/// Whether a ring is enabled.
fn sends_ring_enable<'a, H>(
    session: FrontendSession,
    index: usize,
    enable: bool,
    handle: Option<&'a H>,
) -> Result<Plan<'a, H>>
    ensures { planned_as result ≡ ask.protocol_in (frontend_of session).acked and_then (ask.index (frontend_of session) index and_then ask.sends (frontend_of session) code.SET_VRING_ENABLE (payload.RingState (ask.ring_state index (if enable then 1 else 0))) (given_handle (lent handle.entry))) }
{
    protocol_in(session.acked)?;
    sends_ring(
        session,
        HeardReq::SET_VRING_ENABLE,
        index,
        enable.into(),
        handle,
    )
}

/// A descriptor for a ring; where there is none, bit 8 of the ring's number says so.
fn sends_ring_handle<'a, H>(
    session: FrontendSession,
    request: HeardReq,
    index: usize,
    handle: Option<&'a H>,
) -> Result<Plan<'a, H>>
    ensures { planned_as result ≡ ask.small_index (frontend_of session) index and_then ask.sends (frontend_of session) request (payload.U64 (ring_number index (lent handle.entry))) (given_handle (lent handle.entry)) }
{
    let index = session.small_index(index)?;
    let Some(handle) = handle else {
        return Ok(Plan::sends(session, request, Record::U64(index + 256), None));
    };
    Ok(Plan::sends(session, request, Record::U64(index), Some(handle)))
}

/// A region to add.
fn adds_region<'a, H>(
    session: FrontendSession,
    region: VhostUserMemoryRegionInfo<'a, H>,
) -> Result<Plan<'a, H>>
    ensures { planned_as result ≡ ask.ask (frontend_of session) (calls.AddMemRegion (info_in region.entry)) }
{
    session.needs(protocol_bit::CONFIGURE_MEM_SLOTS)?;
    param(region.memory_size != 0)?;
    let Some(handle) = region.mmap_handle else {
        return Err(Error::InvalidParam);
    };
    Ok(added(session, region.to_single_region(), handle))
}

/// A region to add, once it was tested.
fn added<'a, H>(
    session: FrontendSession,
    region: VhostUserSingleMemoryRegion,
    handle: &'a H,
) -> Plan<'a, H>
    ensures { planned_as (Ok result) ≡ (if is_listen (frontend_of session).postcopy
        then ask.asks_unacknowledged (frontend_of session) code.ADD_MEM_REG (payload.OneRegion region) (handle.entry.now ∷ []) shape.SingleMemoryRegion
        else ask.sends (frontend_of session) code.ADD_MEM_REG (payload.OneRegion region) (handle.entry.now ∷ [])) }
{
    let body = Record::OneRegion(region);
    if session.is_listening() {
        return Plan {
            request: HeardReq::ADD_MEM_REG,
            asking: Asking::Unacknowledged,
            body,
            handle: Some(handle),
            awaited: Awaited::Reply(Shape::SingleMemoryRegion),
            next: session,
        };
    }
    Plan::sends(session, HeardReq::ADD_MEM_REG, body, Some(handle))
}

/// The protocol feature of this bit is accepted, and the test of an argument holds.
fn allows<H>(session: FrontendSession, bit: u32, holds: bool) -> Result<()>
    requires { bit < 64 }
    ensures { (rest : Asked H) → tested result and_then rest ≡ ask.frontend_feature (frontend_of session) bit and_then (ask.param holds and_then rest) }
{
    session.needs(bit)?;
    param(holds)
}

/// Whether the regions that this request brings are mapped while postcopy listens.
fn is_mapping(code: HeardReq) -> bool
    ensures { result ≡ ask.is_mapping code }
{
    matches!(code, HeardReq::SET_MEM_TABLE | HeardReq::ADD_MEM_REG)
}

/// Whether an inflight region is not empty.
fn is_area(area: &VhostUserInflight) -> bool
    ensures { result ≡ (not (area.now.mmap_size == 0) && not (area.now.num_queues == 0) && not (area.now.queue_size == 0)) }
{
    area.mmap_size != 0 && area.num_queues != 0 && area.queue_size != 0
}
