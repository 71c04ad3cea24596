//! Streams that come in pieces, links that want to be asked again, and links that fail.

use super::{End, Stream, end_of, serves, session_of};
use crate::example::Example;
use std::alloc::Global;
use vhost_link::{Cut, Kind};
use vhost_promises::Device;

/// SET_OWNER, GET_FEATURES, and SET_FEATURES of 0x40000003.
static OWN: [u8; 12] = [3, 0, 0, 0, 1, 0, 0, 0, 0, 0, 0, 0];

static GET: [u8; 12] = [1, 0, 0, 0, 1, 0, 0, 0, 0, 0, 0, 0];

static SET: [u8; 20] = [
    2, 0, 0, 0, 1, 0, 0, 0, 8, 0, 0, 0, 3, 0, 0, 0x40, 0, 0, 0, 0,
];

/// SET_VRING_KICK of ring 1, and behind it RESET_OWNER.
static KICK_AND_RESET: [u8; 32] = [
    12, 0, 0, 0, 1, 0, 0, 0, 8, 0, 0, 0, 1, 0, 0, 0, 0, 0, 0, 0, 4, 0, 0, 0, 1, 0, 0, 0, 0, 0, 0, 0,
];

/// Twenty receives of one byte each.
static BYTES: [Cut; 20] = [Cut::Give(1); 20];

/// What comes over a link with this script, without a descriptor.
fn plain<'a>(script: &'a [Cut], bytes: &'a [u8]) -> Stream<'a> {
    Stream {
        script,
        first: &[],
        then: bytes,
        count: 0,
        kind: Kind::NoSocket,
    }
}

/// Whether features are refused to whoever does not own the device, in one piece and byte by byte, and nothing goes out.
fn features<D: Example>(alloc: Global) -> [bool; 2] {
    [
        serves::<D>(alloc, &plain(&[], &SET), &[End::Operation], &[]),
        serves::<D>(alloc, &plain(&BYTES, &SET), &[End::Operation], &[]),
    ]
}

/// Whether a run of one request refuses it too.
fn run_features(alloc: Global) -> Option<bool> {
    let mut core = session_of(alloc, &plain(&BYTES, &SET))?;
    let mut device = Device::new(alloc, Vec::new(alloc));
    let mut out = Vec::new(alloc);
    core.run(1, &mut device, &mut out).ok()?;
    match out.as_slice() {
        [answer] => Some(end_of(answer) == End::Operation),
        _ => None,
    }
}

/// Three retries before a request; four; and four amid its body.
static THREE: [Cut; 3] = [Cut::Retry; 3];

static FOUR: [Cut; 4] = [Cut::Retry; 4];

static AMID: [Cut; 5] = [
    Cut::Give(14),
    Cut::Retry,
    Cut::Retry,
    Cut::Retry,
    Cut::Retry,
];

/// Whether three retries are taken, four are not and leave the request, and four amid a request poison the endpoint.
fn retries<D: Example>(alloc: Global) -> [bool; 3] {
    let again = [End::Retry(11), End::Done];
    let broken = [End::Retry(11), End::Broken(11), End::Broken(11)];
    [
        serves::<D>(alloc, &plain(&THREE, &OWN), &[End::Done], &[]),
        serves::<D>(alloc, &plain(&FOUR, &OWN), &again, &[]),
        serves::<D>(alloc, &plain(&AMID, &SET), &broken, &[]),
    ]
}

/// A failure before a request, by two numbers; one amid it; and one amid the reply to it.
static NINE: [Cut; 1] = [Cut::Fault(9)];

static THIRTEEN: [Cut; 1] = [Cut::Fault(13)];

static INSIDE: [Cut; 2] = [Cut::Give(5), Cut::Fault(9)];

static REPLY: [Cut; 3] = [Cut::Give(8192), Cut::Give(5), Cut::Fault(32)];

/// Whether a failure before a request leaves it, and one amid it or its reply poisons the endpoint. Five bytes of the reply went out.
fn failures<D: Example>(alloc: Global) -> [bool; 4] {
    let failed = [End::Failed(9), End::Done];
    let unconnected = [End::Unconnected(13), End::Done];
    let broken = [End::Failed(9), End::Broken(9), End::Broken(9)];
    let replied = [End::Broken(32), End::Broken(32)];
    [
        serves::<D>(alloc, &plain(&NINE, &OWN), &failed, &[]),
        serves::<D>(alloc, &plain(&THIRTEEN, &OWN), &unconnected, &[]),
        serves::<D>(alloc, &plain(&INSIDE, &OWN), &broken, &[]),
        serves::<D>(alloc, &plain(&REPLY, &GET), &replied, &[1, 0, 0, 0, 5]),
    ]
}

/// Two receives of all that came, and a failure behind them.
static AHEAD: [Cut; 3] = [Cut::Give(8192), Cut::Give(8192), Cut::Fault(104)];

/// Whether three requests are served that came by two receives, the second with its descriptor; what is received behind them fails.
fn ahead<D: Example>(alloc: Global) -> bool {
    let stream = Stream {
        script: &AHEAD,
        first: &OWN,
        then: &KICK_AND_RESET,
        count: 1,
        kind: Kind::NoSocket,
    };
    let ends = [End::Done, End::Done, End::Done, End::Broken(104), End::Gone];
    serves::<D>(alloc, &stream, &ends, &[])
}

#[test]
fn streams_are_answered(rt: HostRuntime) {
    assert!(rt; features::<Device>(rt.alloc()) == [true; 2]);
    assert!(rt; run_features(rt.alloc()) == Some(true));
    assert!(rt; retries::<Device>(rt.alloc()) == [true; 3]);
    assert!(rt; failures::<Device>(rt.alloc()) == [true; 4]);
    assert!(rt; ahead::<Device>(rt.alloc()));
}
