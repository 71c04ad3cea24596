//! Worked consequences, each run once with ample memory.

use crate::example::Example;
use crate::lines::{SHOWN, runs_two_lines};
use std::alloc::Global;
use vhost_backend_req_handler::SessionCore;
use vhost_connection::Endpoint;
use vhost_frontend_req_handler::VhostUserFrontendReqHandlerMut;
use vhost_joined::Joined;
use vhost_joined_reverse::JoinedReverse;
use vhost_link::{Kind, MemLink, PlainHandle};
use vhost_message::{
    Error, HandlerResult, HeardReq, IoCause, IoError, Result as Answer, VhostUserConfig,
    VhostUserConfigFlags, VhostUserMsgHeader, VhostUserU64,
};
use vhost_promises::{
    answers_whoever_waits, back_and_there, finds_own, goes_on_unserved_new, names_request,
    opens_its_own, records_two, same_number, sends_in_one, serves_by_halves, serves_three_new,
    shares_twice, steps_without_memory,
};
use vhost_protocol::Profile;
use vhost_recorder::{FrontendAnswer, FrontendCall, Halt, Recorded};

/// The reply to GET_FEATURES: 0x40000003.
static FEATURES: [u8; 20] = [
    1, 0, 0, 0, 5, 0, 0, 0, 8, 0, 0, 0, 3, 0, 0, 0x40, 0, 0, 0, 0,
];

/// A session on which these bytes came.
fn brought(alloc: Global, bytes: &[u8]) -> Option<SessionCore<MemLink>> {
    let mut link = MemLink::new(alloc, Vec::new(alloc));
    link.push(bytes, &[]).ok()?;
    SessionCore::new(alloc, link, 40).ok()
}

/// Whether a handler wrote these bytes.
fn wrote(core: &mut SessionCore<MemLink>, bytes: &[u8]) -> bool {
    core.endpoint_mut().link().taken().bytes() == bytes
}

/// Whether three requests are answered as the example device does, and its features go out.
fn three_served(alloc: Global) -> Option<[bool; 2]> {
    let none = Vec::new(alloc);
    let (mut core, _device, answers) = serves_three_new(alloc, Vec::new(alloc), none, 40).ok()?;
    let is_right = matches!(
        answers.as_slice(),
        [Ok(()), Ok(()), Err(Error::InvalidOperation(_))]
    );
    Some([is_right, wrote(&mut core, &FEATURES)])
}

/// Whether a request that nobody serves is refused under Standard, the next one served, and nothing goes out.
fn went_on(alloc: Global) -> Option<[bool; 2]> {
    let none = Vec::new(alloc);
    let (mut core, _device, answers) = goes_on_unserved_new(alloc, Vec::new(alloc), none, 40).ok()?;
    let is_right = matches!(
        answers.as_slice(),
        [Err(Error::InvalidOperation(_)), Ok(())]
    );
    Some([is_right, wrote(&mut core, &[])])
}

/// Whether GET_FEATURES, served in two halves, is answered, and the features go out.
fn in_halves<D: Example>(alloc: Global) -> Option<[bool; 2]> {
    let mut link = MemLink::new(alloc, Vec::new(alloc));
    link.push(&[1, 0, 0, 0, 1, 0, 0, 0, 0, 0, 0, 0], &[]).ok()?;
    let mut core = SessionCore::new(alloc, link, 40).ok()?;
    let mut device = D::fresh(alloc);
    let answer = serves_by_halves(&mut core, &mut device);
    Some([answer.is_ok(), wrote(&mut core, &FEATURES)])
}

/// GET_QUEUE_NUM.
static QUEUES: [u8; 12] = [17, 0, 0, 0, 1, 0, 0, 0, 0, 0, 0, 0];

/// Whether the first request was refused, and the session has ended since.
fn are_ended(answers: &[Answer<()>]) -> bool {
    matches!(
        answers,
        [
            Err(Error::InactiveOperation(_)),
            Err(Error::SocketBroken(IoCause::Raw(71)))
        ]
    )
}

/// Whether a session under Standard that cannot say how many queues there are ends, says so from then on, and writes nothing.
fn ended<D: Example>(alloc: Global) -> Option<[bool; 3]> {
    let mut core = brought(alloc, &QUEUES)?;
    core.set_profile(Profile::Standard);
    let mut device = D::fresh(alloc);
    let is_right = match answers_whoever_waits(alloc, &mut core, &mut device, 2) {
        Ok(answers) => are_ended(&answers),
        Err(_) => false,
    };
    Some([is_right, core.failed() == Some(71), wrote(&mut core, &[])])
}

/// Whether two lines are printed so.
fn two_printed(alloc: Global) -> Option<bool> {
    let output = runs_two_lines(alloc).ok()?;
    Some(output.as_slice() == SHOWN.as_bytes())
}

/// The reply to SHARED_OBJECT_ADD that refuses: -38.
static REFUSED: [u8; 20] = [
    6, 0, 0, 0, 5, 0, 0, 0, 8, 0, 0, 0, 0xda, 255, 255, 255, 255, 255, 255, 255,
];

/// Whether the last call was refused, by its reply and by its answer.
fn ends_refused<F: VhostUserFrontendReqHandlerMut<Handle = PlainHandle>>(
    joined: &JoinedReverse<F>,
    answers: &[HandlerResult<u64>],
) -> [bool; 2] {
    [
        joined.last_reply().0 == REFUSED.as_slice(),
        matches!(
            answers.last(),
            Some(Err(IoError::Of(Error::FrontendInternalError)))
        ),
    ]
}

/// Whether an object that is shared twice is refused the second time.
fn shared_twice(alloc: Global) -> Option<[bool; 2]> {
    let mut answers = Vec::new(alloc);
    match shares_twice(alloc, &mut answers) {
        Ok(joined) => Some(ends_refused(&joined, &answers)),
        Err(_) => None,
    }
}

/// SET_PROTOCOL_FEATURES with BACKEND_REQ alone, and SET_BACKEND_REQ_FD.
static AGREE: [u8; 20] = [
    16, 0, 0, 0, 1, 0, 0, 0, 8, 0, 0, 0, 0x20, 0, 0, 0, 0, 0, 0, 0,
];

static OPEN: [u8; 12] = [21, 0, 0, 0, 1, 0, 0, 0, 0, 0, 0, 0];

/// A session on which both came, the second with a descriptor of this kind.
fn to_open(alloc: Global, kind: Kind) -> Option<SessionCore<MemLink>> {
    let mut core = brought(alloc, &AGREE)?;
    let link = core.endpoint_mut().link();
    link.push(&OPEN, &[PlainHandle { id: 7, kind }]).ok()?;
    Some(core)
}

/// What the request for the backend channel is answered, which brings a descriptor of this kind.
fn opened<D: Example>(alloc: Global, kind: Kind) -> Option<Answer<()>> {
    let mut core = to_open(alloc, kind)?;
    let mut device = D::fresh(alloc);
    match opens_its_own(&mut core, &mut device) {
        Ok(()) => Some(opens_its_own(&mut core, &mut device)),
        Err(_) => None,
    }
}

/// The number that an answer is.
fn number_in(answer: &FrontendAnswer) -> Option<u64> {
    match answer {
        FrontendAnswer::Number(number) => Some(*number),
        _ => None,
    }
}

/// Whether the first call of a joined run is answered the features, and the second is done.
fn step_twice<D: Example>(joined: &mut Joined<D>) -> [bool; 2] {
    let (first, then) = steps_without_memory(
        joined,
        &FrontendCall::GetFeatures,
        &FrontendCall::SetOwner,
    );
    [
        matches!(first, Ok(FrontendAnswer::Number(0x4000_0003))),
        matches!(then, Some(Ok(FrontendAnswer::Done))),
    ]
}

/// The same over a new device.
fn stepped_twice<D: Example>(alloc: Global) -> Option<[bool; 2]> {
    let scripts = (Vec::new(alloc), Vec::new(alloc));
    match Joined::new(alloc, D::fresh(alloc), 2, 3, scripts) {
        Ok(mut joined) => Some(step_twice(&mut joined)),
        Err(_) => None,
    }
}

/// Two bytes of the configuration space, behind their header and record.
static CONFIG: [u8; 26] = [
    25, 0, 0, 0, 1, 0, 0, 0, 14, 0, 0, 0, 4, 0, 0, 0, 2, 0, 0, 0, 1, 0, 0, 0, 7, 8,
];

/// Whether that message is sent, and goes out.
fn config_sent(alloc: Global) -> Option<[bool; 2]> {
    let link = MemLink::new(alloc, Vec::new(alloc));
    let mut end = Endpoint::from_stream(alloc, link, 2).ok()?;
    let header = VhostUserMsgHeader::new(HeardReq::SET_CONFIG, 0, 14);
    let part = VhostUserConfig::new(4, 2, VhostUserConfigFlags::WRITABLE);
    let sent = sends_in_one(&mut end, &header, &part, &[7, 8]).is_ok();
    Some([sent, end.link().taken().bytes() == CONFIG.as_slice()])
}

/// What caller 7 saw: the serials of two calls, what the second answered, and whether the receipt of a third is found.
#[derive(Clone, Copy, Debug, PartialEq, Eq)]
struct Three {
    serials: [u64; 2],
    base: Option<u64>,
    found: bool,
}

/// Caller 7 sets a ring's base, and reads it: both serials, and the base.
fn two_recorded<D: Example>(recorded: &mut Recorded<D>) -> Result<([u64; 2], Option<u64>), Halt> {
    let set = FrontendCall::SetVringBase(0, 9);
    let get = FrontendCall::GetVringBase(0);
    match records_two(recorded, 7, &set, &get) {
        Ok((one, two)) => Ok(([one.serial(), two.serial()], number_in(two.answer()))),
        Err(halt) => Err(halt),
    }
}

/// Caller 7 sets a ring's base, reads it, and makes a third call.
fn record_three<D: Example>(recorded: &mut Recorded<D>) -> Result<Three, Halt> {
    let (serials, base) = two_recorded(recorded)?;
    let found = finds_own(recorded, 7, &FrontendCall::GetFeatures)?;
    Ok(Three {
        serials,
        base,
        found,
    })
}

/// The same over a new device.
fn three_recorded<D: Example>(alloc: Global) -> Result<Three, Halt> {
    let scripts = (Vec::new(alloc), Vec::new(alloc));
    match Recorded::new(alloc, D::fresh(alloc), 2, 3, scripts) {
        Ok(mut recorded) => record_three(&mut recorded),
        Err(_) => Err(Halt::OutOfMemory),
    }
}

/// A number that was written and read, one that was read and written, and what a header names that was.
fn there_and_back() -> Option<(u64, u64, (HeardReq, u32, bool, bool))> {
    let mut room = [7, 1, 0, 0, 0, 0, 0, 0];
    let number = back_and_there::<VhostUserU64>(&mut room).value;
    let named = names_request(HeardReq::SET_OWNER, 8, 4).ok()?;
    Some((same_number(5), number, named))
}

/// Whether those hold that are of a device.
pub(crate) fn hold_over<D: Example>(alloc: Global) -> [bool; 6] {
    let three = Three {
        serials: [0, 1],
        base: Some(9),
        found: true,
    };
    [
        in_halves::<D>(alloc) == Some([true; 2]),
        ended::<D>(alloc) == Some([true; 3]),
        matches!(opened::<D>(alloc, Kind::UnixStream), Some(Ok(()))),
        matches!(
            opened::<D>(alloc, Kind::NotUnix),
            Some(Err(Error::NotUnixSocket))
        ),
        stepped_twice::<D>(alloc) == Some([true; 2]),
        three_recorded::<D>(alloc) == Ok(three),
    ]
}

/// Whether the others hold.
pub(crate) fn hold(alloc: Global) -> [bool; 6] {
    let named = (HeardReq::SET_OWNER, 4, false, true);
    [
        three_served(alloc) == Some([true; 2]),
        went_on(alloc) == Some([true; 2]),
        two_printed(alloc) == Some(true),
        shared_twice(alloc) == Some([true; 2]),
        config_sent(alloc) == Some([true; 2]),
        there_and_back() == Some((5, 0x107, named)),
    ]
}
