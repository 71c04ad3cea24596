//! Sessions of both channels for programs in C, and joined: what no program in C can call.

use std::alloc::Global;
use std::collections::VecDeque;
use uuid::Uuid;
use vhost_backend_req::ReverseCall;
use vhost_c_channel::{Channel, ChannelServer};
use vhost_c_channel_joined::{
    DisplayAnswer, Halt, Turn, display_run, hears_changes, joined_channel_call, joined_channel_run,
    reports_changes, sizes_a_screen,
};
use vhost_c_common::Refusal;
use vhost_gpu_backend_req::GpuCall;
use vhost_gpu_message::VhostUserGpuScanout;
use vhost_link::PlainHandle;
use vhost_message::{Error, IoError, MAX_ATTACHED_FD_ENTRIES, VhostUserSharedMsg};

/// CONFIG_CHANGE_MSG, twice.
static REPORTS: [u8; 24] = [
    2, 0, 0, 0, 1, 0, 0, 0, 0, 0, 0, 0, 2, 0, 0, 0, 1, 0, 0, 0, 0, 0, 0, 0,
];

/// An acknowledgement of it.
static HEARD: [u8; 20] = [2, 0, 0, 0, 5, 0, 0, 0, 8, 0, 0, 0, 0, 0, 0, 0, 0, 0, 0, 0];

/// SCANOUT, of the first screen: 2 by 2 pixels.
static SIZED: [u8; 24] = [
    7, 0, 0, 0, 0, 0, 0, 0, 12, 0, 0, 0, 0, 0, 0, 0, 2, 0, 0, 0, 2, 0, 0, 0,
];

/// A reply to GET_PROTOCOL_FEATURES of a display: 3.
static FEATURES: [u8; 20] = [1, 0, 0, 0, 4, 0, 0, 0, 8, 0, 0, 0, 3, 0, 0, 0, 0, 0, 0, 0];

/// Whether two reported changes are to be sent.
fn reports(alloc: Global) -> Option<bool> {
    let mut channel = reports_changes(alloc, 2).ok()?;
    let (mut bytes, mut fds) = ([0; 64], [0; MAX_ATTACHED_FD_ENTRIES]);
    let (count, _) = channel.hand_out(&mut bytes, &mut fds).ok()?;
    Some(count == REPORTS.len() && bytes.starts_with(&REPORTS))
}

/// Whether one that was heard of is acknowledged.
fn hears(alloc: Global) -> Option<bool> {
    let mut server = hears_changes(alloc, 1).ok()?;
    let (mut bytes, mut fds) = ([0; 64], [0; MAX_ATTACHED_FD_ENTRIES]);
    let (count, _) = server.hand_out(&mut bytes, &mut fds).ok()?;
    Some(count == HEARD.len() && bytes.starts_with(&HEARD))
}

/// Whether a screen's size is to be sent.
fn sizes(alloc: Global) -> Option<bool> {
    let mut display = sizes_a_screen(alloc, 1).ok()?;
    let (mut bytes, mut fds) = ([0; 64], [0; MAX_ATTACHED_FD_ENTRIES]);
    let (count, _) = display.hand_out(&mut bytes, &mut fds).ok()?;
    Some(count == SIZED.len() && bytes.starts_with(&SIZED))
}

/// An object is shared.
fn add() -> ReverseCall<PlainHandle> {
    let uuid = Uuid::from_bytes([7; 16]);
    ReverseCall::SharedObjectAdd(VhostUserSharedMsg { uuid })
}

/// Whether a device's call is done, which its frontend answers 0. Each message goes in pieces of one byte, of seven, and of the rest.
fn is_done(
    asker: &mut Channel,
    server: &mut ChannelServer,
    call: &ReverseCall<PlainHandle>,
) -> bool {
    match joined_channel_call(asker, server, call, Ok(0), &[1, 7]) {
        Ok(done) => done.outcome.is_ok() && !done.last,
        Err(_) => false,
    }
}

/// Whether it is refused, where its frontend answers by an error of the system.
fn is_refused(
    asker: &mut Channel,
    server: &mut ChannelServer,
    call: &ReverseCall<PlainHandle>,
) -> bool {
    match joined_channel_call(asker, server, call, Err(IoError::Raw(38)), &[1, 7]) {
        Ok(done) => is_frontends(&done.outcome) && !done.last,
        Err(_) => false,
    }
}

/// Whether it is the error that says that the frontend refused.
fn is_frontends(outcome: &Result<(), Refusal>) -> bool {
    matches!(
        outcome,
        Err(Refusal::Protocol(Error::FrontendInternalError))
    )
}

/// A device has acknowledgements and shared objects, and shares one, which is refused once more.
fn shares(asker: &mut Channel, server: &mut ChannelServer) -> bool {
    let uuid = Uuid::from_bytes([7; 16]);
    let add = ReverseCall::SharedObjectAdd(VhostUserSharedMsg { uuid });
    is_done(asker, server, &ReverseCall::SetReplyAck(true))
        && is_done(asker, server, &ReverseCall::SetSharedObject(true))
        && is_done(asker, server, &add)
        && is_refused(asker, server, &add)
}

/// Whether it is so of new sessions, as a run without calls opens them.
fn shares_twice(alloc: Global) -> bool {
    let mut none = VecDeque::new(alloc);
    match joined_channel_run(alloc, &mut none, &[]) {
        Ok((mut asker, mut server)) => shares(&mut asker, &mut server),
        Err(_) => false,
    }
}

/// A device asks a display for its features, of which so many bytes come, and sets a screen's size.
fn shows(alloc: Global, reply: &[u8]) -> Result<[bool; 2], Halt> {
    let size = VhostUserGpuScanout {
        scanout_id: 0,
        width: 2,
        height: 2,
    };
    let turns = [
        Turn {
            call: GpuCall::GetProtocolFeatures,
            pixels: &[],
            reply,
        },
        Turn {
            call: GpuCall::SetScanout(size),
            pixels: &[],
            reply: &[],
        },
    ];
    let (_, _, answers) = display_run(alloc, &turns, &[1, 7])?;
    Ok([
        matches!(answers.first(), Some(Ok(DisplayAnswer::Features(3)))),
        matches!(answers.last(), Some(Ok(DisplayAnswer::Nothing))),
    ])
}

#[test]
fn changes_and_sizes_are_sent(rt: HostRuntime) {
    assert!(rt; reports(rt.alloc()) == Some(true));
    assert!(rt; hears(rt.alloc()) == Some(true));
    assert!(rt; sizes(rt.alloc()) == Some(true));
}

#[test]
fn a_channel_is_joined(rt: HostRuntime) {
    assert!(rt; shares_twice(rt.alloc()));
}

/// Whether the run halts since bytes of a reply are missing.
fn halts(alloc: Global, reply: &[u8]) -> bool {
    match shows(alloc, reply) {
        Ok(_) => false,
        Err(halt) => matches!(halt, Halt::Silent),
    }
}

#[test]
fn a_display_is_joined(rt: HostRuntime) {
    assert!(rt; shows(rt.alloc(), &FEATURES).ok() == Some([true; 2]));
    assert!(rt; halts(rt.alloc(), &FEATURES[..19]));
}
