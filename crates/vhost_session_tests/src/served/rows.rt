//! Single requests, and what each is answered.

use super::{End, Stream, serves};
use crate::example::Example;
use std::alloc::Global;
use vhost_link::Kind;
use vhost_promises::Device;

/// GET_FEATURES, SET_OWNER, and SET_FEATURES of 0x40000003.
static GET: [u8; 12] = [1, 0, 0, 0, 1, 0, 0, 0, 0, 0, 0, 0];

static SET: [u8; 20] = [
    2, 0, 0, 0, 1, 0, 0, 0, 8, 0, 0, 0, 3, 0, 0, 0x40, 0, 0, 0, 0,
];

/// GET_FEATURES and SET_PROTOCOL_FEATURES with REPLY_ACK: acknowledgements are on behind them; and with CONFIG beside it.
static ACKS_ON: [u8; 32] = [
    1, 0, 0, 0, 1, 0, 0, 0, 0, 0, 0, 0, 16, 0, 0, 0, 1, 0, 0, 0, 8, 0, 0, 0, 8, 0, 0, 0, 0, 0, 0, 0,
];

static CONFIG_ON: [u8; 32] = [
    1, 0, 0, 0, 1, 0, 0, 0, 0, 0, 0, 0, 16, 0, 0, 0, 1, 0, 0, 0, 8, 0, 0, 0, 8, 2, 0, 0, 0, 0, 0, 0,
];

/// Two regions of guest memory, with a wish for an acknowledgement.
static TABLE: [u8; 84] = [
    5, 0, 0, 0, 9, 0, 0, 0, 72, 0, 0, 0, 2, 0, 0, 0, 0, 0, 0, 0, 0, 0, 0, 0, 0, 0, 0, 0, 0, 16, 0,
    0, 0, 0, 0, 0, 0, 0, 0, 0, 0, 0, 0, 0, 0, 0, 0, 0, 0, 0, 0, 0, 0, 16, 0, 0, 0, 0, 0, 0, 0, 16,
    0, 0, 0, 0, 0, 0, 0, 16, 0, 0, 0, 0, 0, 0, 0, 0, 0, 0, 0, 0, 0, 0,
];

/// The reply to GET_FEATURES, and behind it the acknowledgement that the table was refused; or a change of the configuration.
static TABLE_REFUSED: [u8; 40] = [
    1, 0, 0, 0, 5, 0, 0, 0, 8, 0, 0, 0, 3, 0, 0, 0x40, 0, 0, 0, 0, 5, 0, 0, 0, 5, 0, 0, 0, 8, 0, 0,
    0, 1, 0, 0, 0, 0, 0, 0, 0,
];

static CONFIG_REFUSED: [u8; 40] = [
    1, 0, 0, 0, 5, 0, 0, 0, 8, 0, 0, 0, 3, 0, 0, 0x40, 0, 0, 0, 0, 25, 0, 0, 0, 5, 0, 0, 0, 8, 0,
    0, 0, 1, 0, 0, 0, 0, 0, 0, 0,
];

/// SET_CONFIG, with a wish for an acknowledgement, whose body is eight bytes and no record.
static SET_CONFIG: [u8; 20] = [25, 0, 0, 0, 9, 0, 0, 0, 8, 0, 0, 0, 0, 0, 0, 0, 0, 0, 0, 0];

/// SET_DEVICE_STATE_FD, and the reply that it failed.
static STATE: [u8; 20] = [42, 0, 0, 0, 1, 0, 0, 0, 8, 0, 0, 0, 0, 0, 0, 0, 0, 0, 0, 0];

static STATE_FAILED: [u8; 20] = [42, 0, 0, 0, 5, 0, 0, 0, 8, 0, 0, 0, 1, 1, 0, 0, 0, 0, 0, 0];

/// SET_VRING_NUM of ring 1 to 256, SET_LOG_FD, GET_SHMEM_CONFIG, and GPU_SET_SOCKET.
static NUM: [u8; 20] = [8, 0, 0, 0, 1, 0, 0, 0, 8, 0, 0, 0, 1, 0, 0, 0, 0, 1, 0, 0];

static LOG: [u8; 12] = [7, 0, 0, 0, 1, 0, 0, 0, 0, 0, 0, 0];

static SHMEM: [u8; 12] = [44, 0, 0, 0, 1, 0, 0, 0, 0, 0, 0, 0];

static GPU: [u8; 12] = [33, 0, 0, 0, 1, 0, 0, 0, 0, 0, 0, 0];

/// SET_VRING_KICK of ring 1, whose number says where its bit 8 is set that there is no descriptor.
fn kick(high: u8) -> [u8; 20] {
    [
        12, 0, 0, 0, 1, 0, 0, 0, 8, 0, 0, 0, 1, high, 0, 0, 0, 0, 0, 0,
    ]
}

/// Whether bytes with so many descriptors of this kind, behind others, are answered so.
fn answers<D: Example>(
    alloc: Global,
    bytes: (&[u8], &[u8]),
    descriptors: (usize, Kind),
    expected: &[End],
    out: &[u8],
) -> bool {
    let stream = Stream {
        script: &[],
        first: bytes.0,
        then: bytes.1,
        count: descriptors.0,
        kind: descriptors.1,
    };
    serves::<D>(alloc, &stream, expected, out)
}

/// The same of one request by itself.
fn answer<D: Example>(alloc: Global, bytes: &[u8], count: usize, end: End, out: &[u8]) -> bool {
    answers::<D>(alloc, (&[], bytes), (count, Kind::NoSocket), &[end], out)
}

/// Whether a table of two regions with one descriptor, and a configuration without its record, are acknowledged as refused.
fn refusals<D: Example>(alloc: Global) -> [bool; 2] {
    let ends = [End::Done, End::Done, End::Message];
    let one = (1, Kind::NoSocket);
    let none = (0, Kind::NoSocket);
    [
        answers::<D>(alloc, (&ACKS_ON, &TABLE), one, &ends, &TABLE_REFUSED),
        answers::<D>(
            alloc,
            (&CONFIG_ON, &SET_CONFIG),
            none,
            &ends,
            &CONFIG_REFUSED,
        ),
    ]
}

/// Whether a kick is one without a descriptor where its number says so, however many came; and else has one.
fn kicks<D: Example>(alloc: Global) -> [bool; 3] {
    [
        answer::<D>(alloc, &kick(1), 2, End::Done, &[]),
        answer::<D>(alloc, &kick(0), 0, End::Message, &[]),
        answer::<D>(alloc, &kick(0), 1, End::Done, &[]),
    ]
}

/// Whether single requests are answered so.
fn singles<D: Example>(alloc: Global) -> [bool; 6] {
    [
        answer::<D>(alloc, &STATE, 1, End::Done, &STATE_FAILED),
        answer::<D>(alloc, &STATE, 0, End::Descriptors, &[]),
        answer::<D>(alloc, &NUM, 0, End::Done, &[]),
        answer::<D>(alloc, &LOG, 1, End::Message, &[]),
        answer::<D>(alloc, &SHMEM, 0, End::Inactive(0x40_0000), &[]),
        answers::<D>(alloc, (&[], &GPU), (1, Kind::UnixStream), &[End::Done], &[]),
    ]
}

/// Whether streams that end too early, and a request with a descriptor that it must not have, are answered so. Behind the last its body
/// stays unread, so that the next request is found cut off.
fn cut_off<D: Example>(alloc: Global) -> [bool; 4] {
    let none = (1, Kind::NoSocket);
    let unread = [End::Message, End::Partial];
    [
        answer::<D>(alloc, &[], 0, End::Gone, &[]),
        answer::<D>(alloc, &GET[..11], 0, End::Partial, &[]),
        answer::<D>(alloc, &SET[..16], 0, End::Message, &[]),
        answers::<D>(alloc, (&[], &SET), none, &unread, &[]),
    ]
}

#[test]
fn requests_are_answered(rt: HostRuntime) {
    assert!(rt; refusals::<Device>(rt.alloc()) == [true; 2]);
    assert!(rt; kicks::<Device>(rt.alloc()) == [true; 3]);
    assert!(rt; singles::<Device>(rt.alloc()) == [true; 6]);
    assert!(rt; cut_off::<Device>(rt.alloc()) == [true; 4]);
}
