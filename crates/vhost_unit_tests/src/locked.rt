//! What is shared behind a lock is asked as what is not.

ghost use Rattle.std.specs.Prelude.{⊤};

use std::alloc::Global;
use std::sync::{Arc, Mutex, Wait};
use vhost_backend_req_handler::BackendReqHandler;
use vhost_device::VhostUserBackendReqHandler;
use vhost_dummy_backend::DummyBackendReqHandler;
use vhost_frontend_req_handler::{FrontendReqHandler, VhostUserFrontendReqHandlerMut};
use vhost_link::{Kind, MemLink, PlainHandle};
use vhost_message::{Error, HandlerResult, VhostUserMMap, VhostUserSharedMsg};

/// The example device, over links in memory.
type Device = DummyBackendReqHandler<MemLink>;

/// A request: how many descriptors it has, and its bytes.
type Sent = (usize, &'static [u8]);

/// An owner, features, and of ring 1 its size, its base, its descriptors and that it is enabled; and the size of a packet.
static REQUESTS: [Sent; 11] = [
    (0, &[3, 0, 0, 0, 1, 0, 0, 0, 0, 0, 0, 0]),
    (0, &[1, 0, 0, 0, 1, 0, 0, 0, 0, 0, 0, 0]),
    (
        0,
        &[
            2, 0, 0, 0, 1, 0, 0, 0, 8, 0, 0, 0, 1, 0, 0, 0x40, 0, 0, 0, 0,
        ],
    ),
    (
        0,
        &[
            16, 0, 0, 0, 1, 0, 0, 0, 8, 0, 0, 0, 0x10, 0, 0, 0, 0, 0, 0, 0,
        ],
    ),
    (
        0,
        &[8, 0, 0, 0, 1, 0, 0, 0, 8, 0, 0, 0, 1, 0, 0, 0, 128, 0, 0, 0],
    ),
    (
        0,
        &[10, 0, 0, 0, 1, 0, 0, 0, 8, 0, 0, 0, 1, 0, 0, 0, 7, 0, 0, 0],
    ),
    (
        1,
        &[12, 0, 0, 0, 1, 0, 0, 0, 8, 0, 0, 0, 1, 0, 0, 0, 0, 0, 0, 0],
    ),
    (
        1,
        &[13, 0, 0, 0, 1, 0, 0, 0, 8, 0, 0, 0, 1, 0, 0, 0, 0, 0, 0, 0],
    ),
    (
        1,
        &[14, 0, 0, 0, 1, 0, 0, 0, 8, 0, 0, 0, 1, 0, 0, 0, 0, 0, 0, 0],
    ),
    (
        0,
        &[18, 0, 0, 0, 1, 0, 0, 0, 8, 0, 0, 0, 1, 0, 0, 0, 1, 0, 0, 0],
    ),
    (
        0,
        &[
            20, 0, 0, 0, 1, 0, 0, 0, 8, 0, 0, 0, 0xdc, 5, 0, 0, 0, 0, 0, 0,
        ],
    ),
];

const FILE: PlainHandle = PlainHandle {
    id: 7,
    kind: Kind::NoSocket,
};

/// A link on which these requests came.
fn holding(alloc: Global, requests: &[Sent]) -> Option<MemLink> {
    let mut link = MemLink::new(alloc, Vec::new(alloc));
    for (count, bytes) in requests {
        link.push(bytes, if *count == 0 { &[] } else { &[FILE] })
            .ok()?;
    }
    Some(link)
}

/// Whether a handler serves them all, of a device that is shared.
fn serves_all<S: VhostUserBackendReqHandler<Link = MemLink>>(
    rt: &impl Wait,
    alloc: Global,
    device: Arc<S, Global>,
) -> Option<bool> {
    let link = holding(alloc, &REQUESTS)?;
    let mut handler = BackendReqHandler::from_stream(alloc, link, 0, device).ok()?;
    let mut done = true;
    for _ in &REQUESTS {
        done &= handler.handle_request(rt).is_ok();
    }
    Some(done && matches!(handler.handle_request(rt), Err(Error::Disconnected)))
}

/// Whether the device then has what was set.
fn has_all(device: &Device) -> bool {
    let ring = (
        device.vring_num[1],
        device.vring_base[1],
        device.vring_started[1],
        device.vring_enabled[1],
    );
    let files = (device.kick_fd[1], device.call_fd[1], device.err_fd[1]);
    device.owned
        && (
            device.acked_features,
            device.acked_protocol_features,
            device.mtu,
        ) == (0x4000_0001, 0x10, 1500)
        && ring == (128, 7, true, true)
        && files == (Some(FILE), Some(FILE), Some(FILE))
}

/// Whether a device behind a lock has all.
fn has_all_behind(rt: &impl Wait, device: &Mutex<Device>) -> bool {
    has_all(&device.lock(rt))
}

/// Both of the example device behind a lock.
fn served_shared(rt: &impl Wait, alloc: Global) -> Option<[bool; 2]> {
    let device = Arc::new(alloc, Mutex::new(Device::new(alloc, Vec::new(alloc)))).ok()?;
    let served = serves_all(rt, alloc, device.clone().ok()?)?;
    Some([served, has_all_behind(rt, &device)])
}

#[test]
fn serves_behind_a_lock(rt: HostRuntime) {
    assert!(rt; served_shared(&rt, rt.alloc()) == Some([true; 2]));
}

/// What a device asks: each of its requests once. The objects are called by a first byte of 1, and the mappings have 9 bytes.
static ASKED: [Sent; 6] = [
    (0, &[2, 0, 0, 0, 1, 0, 0, 0, 0, 0, 0, 0]),
    (
        0,
        &[
            6, 0, 0, 0, 1, 0, 0, 0, 16, 0, 0, 0, 1, 2, 2, 2, 2, 2, 2, 2, 2, 2, 2, 2, 2, 2, 2, 2,
        ],
    ),
    (
        0,
        &[
            7, 0, 0, 0, 1, 0, 0, 0, 16, 0, 0, 0, 1, 2, 2, 2, 2, 2, 2, 2, 2, 2, 2, 2, 2, 2, 2, 2,
        ],
    ),
    (
        1,
        &[
            8, 0, 0, 0, 1, 0, 0, 0, 16, 0, 0, 0, 1, 2, 2, 2, 2, 2, 2, 2, 2, 2, 2, 2, 2, 2, 2, 2,
        ],
    ),
    (
        1,
        &[
            9, 0, 0, 0, 1, 0, 0, 0, 40, 0, 0, 0, 3, 0, 0, 0, 0, 0, 0, 0, 0, 0, 0, 0, 0, 0, 0, 0, 0,
            0, 0, 0, 0, 0, 0, 0, 9, 0, 0, 0, 0, 0, 0, 0, 0, 0, 0, 0, 0, 0, 0, 0,
        ],
    ),
    (
        0,
        &[
            10, 0, 0, 0, 1, 0, 0, 0, 40, 0, 0, 0, 3, 0, 0, 0, 0, 0, 0, 0, 0, 0, 0, 0, 0, 0, 0, 0,
            0, 0, 0, 0, 0, 0, 0, 0, 9, 0, 0, 0, 0, 0, 0, 0, 0, 0, 0, 0, 0, 0, 0, 0,
        ],
    ),
];

/// Answers each call by its number, and what it was asked.
#[derive(Drop)]
struct ByArguments;

/// A number of a call, with what it was asked.
fn with(call: u64, asked: u64) -> HandlerResult<u64> {
    Ok(call.wrapping_add(asked))
}

/// The first byte of an object's name.
fn first_of(uuid: &VhostUserSharedMsg) -> u64 {
    uuid.uuid.as_bytes()[0].into()
}

impl VhostUserFrontendReqHandlerMut for ByArguments {
    type Handle = PlainHandle;

    ghost gives = { λ _ _ _ _. ⊤ };

    fn handle_config_change(&mut self) -> HandlerResult<u64> {
        with(200, 0)
    }

    fn shared_object_add(&mut self, uuid: &VhostUserSharedMsg) -> HandlerResult<u64> {
        with(600, first_of(uuid))
    }

    fn shared_object_remove(&mut self, uuid: &VhostUserSharedMsg) -> HandlerResult<u64> {
        with(700, first_of(uuid))
    }

    fn shared_object_lookup(
        &mut self,
        uuid: &VhostUserSharedMsg,
        fd: &PlainHandle,
    ) -> HandlerResult<u64> {
        with(first_of(uuid).wrapping_add(800), fd.id.into())
    }

    fn shmem_map(&mut self, req: &VhostUserMMap, fd: &PlainHandle) -> HandlerResult<u64> {
        with(req.len.wrapping_add(900), fd.id.into())
    }

    fn shmem_unmap(&mut self, req: &VhostUserMMap) -> HandlerResult<u64> {
        with(1000, req.len)
    }
}

/// What the requests are answered by a frontend behind a lock.
fn answered_shared(rt: &impl Wait, alloc: Global) -> Option<[Option<u64>; 6]> {
    let frontend = Arc::new(alloc, Mutex::new(ByArguments)).ok()?;
    let link = holding(alloc, &ASKED)?;
    let mut handler = FrontendReqHandler::new(alloc, FILE, link, 0, frontend).ok()?;
    let mut answers = [None; 6];
    for answer in answers.iter_mut() {
        *answer = handler.handle_request(rt).ok();
    }
    Some(answers)
}

#[test]
fn answers_behind_a_lock(rt: HostRuntime) {
    let wanted = [
        Some(200),
        Some(601),
        Some(701),
        Some(808),
        Some(916),
        Some(1009),
    ];
    assert!(rt; answered_shared(&rt, rt.alloc()) == Some(wanted));
}
