//! Channels that are shared: one and its clone ask in turn.

use std::alloc::Global;
use std::sync::Wait;
use uuid::Uuid;
use vhost_backend_req::Backend;
use vhost_frontend_req_handler::VhostUserFrontendReqHandler;
use vhost_gpu_backend_req::GpuBackend;
use vhost_link::MemLink;
use vhost_message::VhostUserSharedMsg;

/// The reply to SHARED_OBJECT_ADD: 0.
static ADDED: [u8; 20] = [6, 0, 0, 0, 5, 0, 0, 0, 8, 0, 0, 0, 0, 0, 0, 0, 0, 0, 0, 0];

/// The reply to GET_PROTOCOL_FEATURES of a display: 3.
static FEATURES: [u8; 20] = [1, 0, 0, 0, 4, 0, 0, 0, 8, 0, 0, 0, 3, 0, 0, 0, 0, 0, 0, 0];

/// A link on which a reply came twice.
fn twice(alloc: Global, reply: &[u8]) -> Option<MemLink> {
    let mut link = MemLink::new(alloc, Vec::new(alloc));
    link.push(reply, &[]).ok()?;
    link.push(reply, &[]).ok()?;
    Some(link)
}

/// What an object is answered that this channel adds.
fn added(rt: &impl Wait, channel: &Backend<MemLink>) -> Option<u64> {
    let name = VhostUserSharedMsg {
        uuid: Uuid::from_bytes([7; 16]),
    };
    channel.shared_object_add(rt, &name).ok()
}

/// The same of a channel that has agreed on objects and acknowledgements, and of its clone.
fn added_in_turn(rt: &impl Wait, alloc: Global) -> Option<[Option<u64>; 2]> {
    let channel = Backend::from_stream(alloc, twice(alloc, &ADDED)?, 0).ok()?;
    channel.set_reply_ack_flag(rt, true);
    channel.set_shared_object_flag(rt, true);
    let clone = channel.clone().ok()?;
    Some([added(rt, &channel), added(rt, &clone)])
}

/// Which features a display has, as this channel reads them.
fn features(rt: &impl Wait, channel: &GpuBackend<MemLink>) -> Option<u64> {
    Some(channel.get_protocol_features(rt).ok()?.value)
}

/// The same of a channel and its clone.
fn features_in_turn(rt: &impl Wait, alloc: Global) -> Option<[Option<u64>; 2]> {
    let channel = GpuBackend::from_stream(alloc, twice(alloc, &FEATURES)?, 0).ok()?;
    let clone = channel.clone().ok()?;
    Some([features(rt, &channel), features(rt, &clone)])
}

#[test]
fn channels_and_their_clones(rt: HostRuntime) {
    assert!(rt; added_in_turn(&rt, rt.alloc()) == Some([Some(0), Some(0)]));
    assert!(rt; features_in_turn(&rt, rt.alloc()) == Some([Some(3), Some(3)]));
}
