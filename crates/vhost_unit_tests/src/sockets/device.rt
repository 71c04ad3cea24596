//! The device of these tests.

use crate::system::System;
use std::alloc::{AllocError, Global};
use std::sync::{Arc, Mutex};
use vhost_device::VhostUserBackendReqHandler;
use vhost_dummy_backend::DummyBackendReqHandler;
use vhost_link::UnixLink;

/// How many retries a message may use, and how many queues a frontend knows of.
pub(crate) const BUDGET: u32 = 3;

pub(crate) const QUEUES: u64 = 2;

/// What a test does with a device. It is written for any device, since naming a whole one costs the checker much: that is done
/// once, in [`with_device`].
pub(crate) trait Trial: Drop {
    /// What is seen of it.
    type Output: Drop;

    /// Does it, with this device.
    fn on<R: System, S: VhostUserBackendReqHandler<Link = UnixLink>>(
        self,
        rt: &R,
        alloc: Global,
        device: Arc<S, Global>,
    ) -> Self::Output;
}

/// What is seen of a trial with the example device behind a lock, over sockets. Nobody owns it, and it has no file descriptors to
/// give out, since a socket carries none.
pub(crate) fn with_device<R: System, T: Trial>(
    rt: &R,
    alloc: Global,
    trial: T,
) -> Result<T::Output, AllocError> {
    let device = DummyBackendReqHandler::new(alloc, Vec::new(alloc));
    Ok(trial.on(rt, alloc, Arc::new(alloc, Mutex::new(device))?))
}

/// Longer than the path of a socket may be.
pub(crate) const TOO_LONG: &str =
    "nothing_here/a_path_of_more_than_one_hundred_and_eight_bytes_is_too_long_for_the_address_of_a_socket_whatever_the_system_is";
