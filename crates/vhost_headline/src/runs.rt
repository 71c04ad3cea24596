//! A run of each statement.

ghost use Rattle.std.specs.Prelude.{◌≡◌, IfOk, length};

use crate::headline;
use std::alloc::Global;
use std::marker::Brand;
use std::sync::Wait;
use std::sync::ledger::{Blank, Ledger};
use std::thread::Threads;
use vhost_backend_req_handler::SessionCore;
use vhost_dummy_backend::DummyBackendReqHandler;
use vhost_frontend::Frontend;
use vhost_frontend_core::{FrontendAnswer, FrontendCall};
use vhost_link::{Cut, Kind, MemLink, PlainHandle};
use vhost_message::Error;
use vhost_protocol::Profile;
use vhost_recorder::{Halt, Log, Recorder};

/// GET_FEATURES, and SET_OWNER twice.
static THREE: [u8; 36] = [
    1, 0, 0, 0, 1, 0, 0, 0, 0, 0, 0, 0, 3, 0, 0, 0, 1, 0, 0, 0, 0, 0, 0, 0, 3, 0, 0, 0, 1, 0, 0, 0,
    0, 0, 0, 0,
];

/// The reply to GET_FEATURES: 0x40000003.
static FEATURES: [u8; 20] = [
    1, 0, 0, 0, 5, 0, 0, 0, 8, 0, 0, 0, 3, 0, 0, 0x40, 0, 0, 0, 0,
];

/// A session whose link hands out these bytes, five at most at first, and then its end.
fn session(alloc: Global, bytes: &[u8]) -> Option<SessionCore<MemLink>> {
    let mut script = Vec::new(alloc);
    script.push(Cut::Give(5)).ok()?;
    session_over(alloc, script, bytes)
}

/// A session whose link hands out these bytes, as its script says.
fn session_over(alloc: Global, script: Vec<Cut>, bytes: &[u8]) -> Option<SessionCore<MemLink>> {
    let mut link = MemLink::new(alloc, script);
    link.push(bytes, &[]).ok()?;
    SessionCore::new(alloc, link, 3).ok()
}

/// Whether a session wrote these bytes.
fn wrote(core: &mut SessionCore<MemLink>, bytes: &[u8]) -> bool {
    core.endpoint_mut().link().taken().bytes() == bytes
}

/// Whether a header that is cut short is refused, and nothing is written.
pub(crate) fn cut_short(alloc: Global) -> Option<bool> {
    let mut core = session(alloc, &THREE[..7])?;
    let mut device = DummyBackendReqHandler::new(alloc, Vec::new(alloc));
    let answer = headline::safe_and_total(&mut core, &mut device);
    Some(matches!(answer, Err(Error::PartialMessage)) && wrote(&mut core, &[]))
}

/// Whether a request is answered.
pub(crate) fn features(alloc: Global) -> Option<bool> {
    let mut core = session(alloc, &THREE)?;
    let mut device = DummyBackendReqHandler::new(alloc, Vec::new(alloc));
    let answer = headline::each_call(&mut core, &mut device);
    Some(answer.is_ok() && wrote(&mut core, &FEATURES))
}

/// Whether the first two of three requests are served, and the device refuses the third, which nobody hears.
pub(crate) fn three(alloc: Global) -> Option<bool> {
    let mut core = session(alloc, &THREE)?;
    let mut device = DummyBackendReqHandler::new(alloc, Vec::new(alloc));
    let answers = headline::whole_runs(alloc, &mut core, &mut device, 3).ok()?;
    let is_right = matches!(
        answers.as_slice(),
        [Ok(()), Ok(()), Err(Error::InvalidOperation(_))]
    );
    Some(is_right && wrote(&mut core, &FEATURES))
}

/// Whether a run ends at the request amid which its link is reset, and the device is not called for that one.
pub(crate) fn reset(alloc: Global) -> Option<bool> {
    let mut script = Vec::new(alloc);
    for cut in [Cut::Give(12), Cut::Give(20), Cut::Give(5), Cut::Fault(104)] {
        script.push(cut).ok()?;
    }
    let mut core = session_over(alloc, script, &THREE)?;
    let mut device = DummyBackendReqHandler::new(alloc, Vec::new(alloc));
    let answers = headline::whole_runs(alloc, &mut core, &mut device, 3).ok()?;
    let is_right = matches!(
        answers.as_slice(),
        [
            Ok(()),
            Err(Error::SocketBroken(_)),
            Err(Error::SocketBroken(_))
        ]
    );
    Some(is_right && wrote(&mut core, &FEATURES) && !device.owned)
}

/// Whether a frontend reads the features of the device and claims it, and the run goes on.
pub(crate) fn joined(alloc: Global) -> Option<bool> {
    let device = DummyBackendReqHandler::<MemLink>::new(alloc, Vec::new(alloc));
    let scripts = (Vec::new(alloc), Vec::new(alloc));
    let calls = [FrontendCall::GetFeatures, FrontendCall::SetOwner];
    let done = headline::lockstep(alloc, device, Profile::Standard, 2, 3, scripts, &calls);
    let (joined, answers) = done.ok()?;
    let is_right = matches!(
        answers.as_slice(),
        [FrontendAnswer::Number(0x4000_0003), FrontendAnswer::Done]
    );
    Some(is_right && joined.stopped().is_none())
}

/// The log of two callers of a new device: caller 1 asks for its features, and caller 2 claims it.
fn calls_of_two<L: Ledger, R: Wait>(
    rt: &R,
    alloc: Global,
    blank: Blank,
) -> Result<Log<DummyBackendReqHandler<MemLink>>, Halt>
    requires { (blank.name ≡ L.name) × (blank.parts ≡ L.parts) × (L.parts ≡ 3) }
    ensures { IfOk result (λ log. length log.entries ≡ 2) }
{
    let device = DummyBackendReqHandler::<MemLink>::new(alloc, Vec::new(alloc));
    let scripts = (Vec::new(alloc), Vec::new(alloc));
    let opened = Recorder::<DummyBackendReqHandler<MemLink>, L>::open(
        blank, alloc, device, 2, 3, scripts,
    );
    let (recorder, mut all) = opened?;
    let mut one = all.split(1);
    let mut two = all.split(2);
    recorder.call(rt, &mut one, &FrontendCall::GetFeatures)?;
    recorder.call(rt, &mut two, &FrontendCall::SetOwner)?;
    all.join(one);
    all.join(two);
    Ok(headline::threads(recorder, all))
}

/// Whether the log of two callers has a call of each.
pub(crate) fn two_callers<R: Wait>(rt: &R, alloc: Global) -> Option<bool> {
    let log = calls_of_two::<Brand, R>(rt, alloc, Blank::new(3)).ok()?;
    Some(matches!(log.entries(), [one, two] if one.caller() == 1 && two.caller() == 2))
}

/// Whether a shared frontend reads the features that its link hands out.
pub(crate) fn shared<R: Wait>(rt: &R, alloc: Global) -> Option<bool> {
    let mut link = MemLink::new(alloc, Vec::new(alloc));
    link.push(&FEATURES, &[]).ok()?;
    let frontend = Frontend::from_stream(alloc, link, 2, 3).ok()?;
    let features = headline::own_answer(&frontend, rt).ok()?;
    Some(features == 0x4000_0003)
}

/// Whether twenty bytes, for which a ring has room, arrived with their descriptor or are left.
pub(crate) fn twenty<R: Threads + Sync>(rt: &R, alloc: Global) -> Option<bool> {
    let handle = PlainHandle {
        id: 7,
        kind: Kind::NoSocket,
    };
    let carried = headline::ring(rt, alloc, &[5; 20], &[&handle], 100).ok()?;
    Some(carried.counts.as_slice() == [20].as_slice() && carried.left.is_some())
}
