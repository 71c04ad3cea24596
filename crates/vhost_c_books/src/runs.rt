//! The books of each session for programs in C but a backend's, run: what came is claimed once or handed out once.

use crate::{Act, Books, Call, Kind, opens_books, settles_books};
use std::alloc::{AllocError, Global};
use std::collections::VecDeque;
use vhost_backend_req::ReverseCall;
use vhost_frontend_core::FrontendCall;
use vhost_gpu_backend_req::GpuCall;
use vhost_link::PlainHandle;
use vhost_message::{VhostUserInflight, VhostUserProtocolFeatures};

/// The reply to GET_FEATURES: protocol features.
static FEATURES: [u8; 20] = [1, 0, 0, 0, 5, 0, 0, 0, 8, 0, 0, 0, 0, 0, 0, 64, 0, 0, 0, 0];

/// That to GET_PROTOCOL_FEATURES: INFLIGHT_SHMFD.
static PROTOCOL_FEATURES: [u8; 20] = [15, 0, 0, 0, 5, 0, 0, 0, 8, 0, 0, 0, 0, 16, 0, 0, 0, 0, 0, 0];

/// That to GET_INFLIGHT_FD: 4096 bytes for one queue of 8.
static INFLIGHT: [u8; 36] = [
    31, 0, 0, 0, 5, 0, 0, 0, 24, 0, 0, 0, 0, 16, 0, 0, 0, 0, 0, 0, 0, 0, 0, 0, 0, 0, 0, 0, 1, 0, 8,
    0, 0, 0, 0, 0,
];

/// The reply to BACKEND_CONFIG_CHANGE_MSG: 0.
static CHANGED: [u8; 20] = [2, 0, 0, 0, 5, 0, 0, 0, 8, 0, 0, 0, 0, 0, 0, 0, 0, 0, 0, 0];

/// BACKEND_SHARED_OBJECT_LOOKUP of an object.
static LOOKUP: [u8; 28] = [
    8, 0, 0, 0, 1, 0, 0, 0, 16, 0, 0, 0, 7, 7, 7, 7, 7, 7, 7, 7, 7, 7, 7, 7, 7, 7, 7, 7,
];

/// A display's reply to GET_PROTOCOL_FEATURES: 3.
static SHOWN: [u8; 20] = [1, 0, 0, 0, 4, 0, 0, 0, 8, 0, 0, 0, 3, 0, 0, 0, 0, 0, 0, 0];

/// A frontend agrees on descriptors in flight, asks for theirs, and asks for the features again.
fn asks(alloc: Global) -> Result<VecDeque<FrontendCall>, AllocError> {
    let area = VhostUserInflight {
        mmap_size: 0,
        mmap_offset: 0,
        num_queues: 1,
        queue_size: 8,
    };
    let inflight = VhostUserProtocolFeatures::INFLIGHT_SHMFD;
    let mut asks = VecDeque::new(alloc);
    asks.push_back(FrontendCall::GetFeatures)?;
    asks.push_back(FrontendCall::SetFeatures(1 << 30))?;
    asks.push_back(FrontendCall::GetProtocolFeatures)?;
    asks.push_back(FrontendCall::SetProtocolFeatures(inflight))?;
    asks.push_back(FrontendCall::GetInflightFd(area))?;
    asks.push_back(FrontendCall::GetFeatures)?;
    Ok(asks)
}

/// Whether this came to a session of this kind, was claimed, and was handed out, where these are done.
fn is_settled(
    alloc: Global,
    kind: Kind,
    acts: &[Act<'_>],
    asks: &mut VecDeque<FrontendCall>,
    noted: [&[i32]; 3],
) -> bool {
    match opens_books(alloc, kind, 1) {
        Ok(mut books) => settles_books(&mut books, acts, asks).is_ok() && is_noted(&books, noted),
        Err(_) => false,
    }
}

/// Whether this is what is noted.
fn is_noted(books: &Books, noted: [&[i32]; 3]) -> bool {
    let [came, claimed, handed] = noted;
    books.came.as_slice() == came
        && books.claimed.as_slice() == claimed
        && books.handed.as_slice() == handed
}

/// The same where nothing is to be asked.
fn is_settled_alone(alloc: Global, kind: Kind, acts: &[Act<'_>], noted: [&[i32]; 3]) -> bool {
    let mut none = VecDeque::new(alloc);
    is_settled(alloc, kind, acts, &mut none, noted)
}

/// The descriptor of an area is claimed, and once more, which is refused. Those of a reply that has none are handed out.
fn a_frontends(alloc: Global) -> bool {
    let acts = [
        Act::Call(Call::Ask),
        Act::Call(Call::Send),
        Act::Receive(&FEATURES, &[]),
        Act::Call(Call::Take),
        Act::Call(Call::Ask),
        Act::Call(Call::Take),
        Act::Call(Call::Ask),
        Act::Receive(&PROTOCOL_FEATURES, &[]),
        Act::Call(Call::Take),
        Act::Call(Call::Ask),
        Act::Call(Call::Take),
        Act::Call(Call::Ask),
        Act::Receive(&INFLIGHT, &[7]),
        Act::Claim(7),
        Act::Call(Call::Take),
        Act::Claim(7),
        Act::Claim(7),
        Act::Call(Call::Ask),
        Act::Receive(&FEATURES[..12], &[8]),
        Act::Receive(&FEATURES[12..], &[9]),
        Act::Call(Call::Take),
        Act::Claim(8),
    ];
    match asks(alloc) {
        Ok(mut asks) => {
            let noted: [&[i32]; 3] = [&[7, 8, 9], &[7], &[9, 8]];
            is_settled(alloc, Kind::Frontend, &acts, &mut asks, noted) && asks.is_empty()
        }
        Err(AllocError) => false,
    }
}

/// What comes with a reply nobody may claim: one is handed out between, and the other in the end.
fn a_channels(alloc: Global) -> bool {
    let calls = [
        ReverseCall::SetReplyAck(true),
        ReverseCall::SetConfigChange(true),
        ReverseCall::HandleConfigChange,
    ];
    tells_of_a_change(alloc, &calls)
}

/// A channel makes these calls, of which the last awaits a reply.
fn tells_of_a_change(alloc: Global, calls: &[ReverseCall<PlainHandle>; 3]) -> bool {
    let acts = [
        Act::Call(Call::AskFrontend(&calls[0])),
        Act::Call(Call::AskFrontend(&calls[1])),
        Act::Call(Call::AskFrontend(&calls[2])),
        Act::Call(Call::Send),
        Act::Receive(&CHANGED[..1], &[100]),
        Act::Unclaimed(1),
        Act::Receive(&CHANGED[1..12], &[101]),
        Act::Receive(&CHANGED[12..], &[]),
        Act::Claim(101),
        Act::Call(Call::Take),
    ];
    let noted: [&[i32]; 3] = [&[100, 101], &[], &[100, 101]];
    is_settled_alone(alloc, Kind::Channel, &acts, noted)
}

/// The descriptor of a request is claimed while its call is open. One of a call that is open in the end, and a late one, are handed
/// out.
fn a_servers(alloc: Global) -> bool {
    let acts = [
        Act::Receive(&LOOKUP[..12], &[100]),
        Act::Receive(&LOOKUP[12..], &[]),
        Act::Claim(100),
        Act::Call(Call::Next),
        Act::Claim(100),
        Act::Call(Call::ReplyNumber(0)),
        Act::Call(Call::Send),
        Act::Receive(&LOOKUP[..12], &[101]),
        Act::Receive(&LOOKUP[12..20], &[102]),
        Act::Receive(&LOOKUP[20..], &[]),
        Act::Call(Call::Next),
    ];
    let noted: [&[i32]; 3] = [&[100, 101, 102], &[100], &[102, 101]];
    let cut = [Act::Receive(&LOOKUP[..12], &[103]), Act::Abandon];
    let given_up: [&[i32]; 3] = [&[103], &[], &[103]];
    is_settled_alone(alloc, Kind::Server, &acts, noted)
        && is_settled_alone(alloc, Kind::Server, &cut, given_up)
}

/// What comes with a display's reply is handed out.
fn a_displays(alloc: Global) -> bool {
    let features = GpuCall::GetProtocolFeatures;
    let acts = [
        Act::Call(Call::AskDisplay(&features)),
        Act::Call(Call::Send),
        Act::Receive(&SHOWN[..12], &[100]),
        Act::Receive(&SHOWN[12..], &[]),
        Act::Claim(100),
        Act::Call(Call::TakeNumber),
    ];
    is_settled_alone(alloc, Kind::Display, &acts, [&[100], &[], &[100]])
}

#[test]
fn each_descriptor_is_claimed_or_handed_out(rt: HostRuntime) {
    assert!(rt; a_frontends(rt.alloc()));
    assert!(rt; a_channels(rt.alloc()));
    assert!(rt; a_servers(rt.alloc()));
    assert!(rt; a_displays(rt.alloc()));
}
