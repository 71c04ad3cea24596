//! What a frontend's whole calls are answered, where the replies are known from outside.

use bitflags::Flags;
use std::alloc::Global;
use vhost_frontend::Quiet;
use vhost_link::{Kind, MemLink, PlainHandle};
use vhost_message::{
    Error, MAX_ATTACHED_FD_ENTRIES, Result as Answer, VhostTransferStateDirection,
    VhostTransferStatePhase, VhostUserProtocolFeatures,
};

/// The reply to GET_FEATURES, which offers protocol features.
static FEATURES: [u8; 20] = [
    1, 0, 0, 0, 5, 0, 0, 0, 8, 0, 0, 0, 3, 0, 0, 0x40, 0, 0, 0, 0,
];

/// The descriptor of a device's state.
static STATE: PlainHandle = PlainHandle {
    id: 7,
    kind: Kind::NoSocket,
};

/// A reply to SET_DEVICE_STATE_FD.
fn state_reply(low: u8, high: u8) -> [u8; 20] {
    [
        42, 0, 0, 0, 5, 0, 0, 0, 8, 0, 0, 0, low, high, 0, 0, 0, 0, 0, 0,
    ]
}

/// A frontend of so many queues, to which a reply comes behind the features, if a link can bring so many descriptors at once.
fn frontend_with(
    alloc: Global,
    queues: u64,
    reply: &[u8],
    handles: &[PlainHandle],
) -> Option<Quiet<MemLink>> {
    if handles.len() > MAX_ATTACHED_FD_ENTRIES {
        return None;
    }
    let mut link = MemLink::new(alloc, Vec::new(alloc));
    link.push(&FEATURES, &[]).ok()?;
    link.push(reply, handles).ok()?;
    Quiet::new(alloc, link, queues, 3).ok()
}

/// What the device's state is answered by a frontend that has agreed on it.
fn asks_state(frontend: &mut Quiet<MemLink>) -> Option<Answer<Option<PlainHandle>>> {
    frontend.get_features().ok()?;
    let agreed = frontend.set_protocol_features(VhostUserProtocolFeatures::DEVICE_STATE);
    agreed.ok()?;
    let (direction, phase) = (
        VhostTransferStateDirection::SAVE,
        VhostTransferStatePhase::STOPPED,
    );
    Some(frontend.set_device_state_fd(direction, phase, STATE))
}

/// The same, where this reply comes.
fn state(
    alloc: Global,
    reply: &[u8],
    handles: &[PlainHandle],
) -> Option<Answer<Option<PlainHandle>>> {
    let mut frontend = frontend_with(alloc, 2, reply, handles)?;
    asks_state(&mut frontend)
}

#[test]
fn the_state_of_a_device(rt: HostRuntime) {
    let alloc = rt.alloc();
    let found = [
        matches!(state(alloc, &state_reply(0, 1), &[]), Some(Ok(None))),
        matches!(
            state(alloc, &state_reply(1, 1), &[]),
            Some(Err(Error::BackendInternalError))
        ),
        matches!(
            state(alloc, &state_reply(0, 0), &[STATE]),
            Some(Ok(Some(PlainHandle { id: 7, kind: _ })))
        ),
    ];
    assert!(rt; found == [true; 3]);
}

/// How a frontend of 300 queues answers that the call descriptor of ring 256 is set: a message names at most 256 rings.
fn far_ring(alloc: Global) -> Option<bool> {
    let mut frontend = frontend_with(alloc, 300, &[], &[])?;
    let answer = frontend.set_vring_call(256, &STATE);
    Some(matches!(answer, Err(Error::InvalidParam)))
}

#[test]
fn a_ring_that_no_message_names(rt: HostRuntime) {
    assert!(rt; far_ring(rt.alloc()) == Some(true));
}
