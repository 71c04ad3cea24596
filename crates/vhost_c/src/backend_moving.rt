//! What came for a backend's session is received and read, and what it replies goes out.

ghost use Rattle.std.specs.Prelude.{◌≡◌, ◌≢◌};
ghost use Rattle.vhost_c_common.specs.ByNumber.{By};
ghost use Rattle.vhost_c_backend.specs.Served.{Sending, Receiving, Getting, Ending};
ghost use Rattle.vhost_c_backend.specs.Serving.{Beginning};
ghost use Rattle.vhost_c.specs.Backend.{missing_at, inactive_at, ended_at};

use crate::backend_holder::BackendHolder;
use std::alloc::Global;
use vhost_c_common::{Refusal, number_of};

/// How many bytes are known to be missing of the next request: 0 where it may be read, and where a call is to be replied to.
#[unsafe(no_mangle)]
pub extern "C" fn covretin_backend_missing(alloc: Global, backend: &mut BackendHolder) -> usize
    ensures missing { result ≡ missing_at backend.old.session }
    ensures same { backend.new.session ≡ backend.old.session }
{
    let Some(held) = backend.take(alloc) else {
        return 0;
    };
    let missing = held.missing();
    backend.put(held);
    missing
}

/// Receives bytes of the next request, with the descriptors that came with the first of them.
#[unsafe(no_mangle)]
pub extern "C" fn covretin_backend_receive(
    alloc: Global,
    backend: &mut BackendHolder,
    bytes: &[u8],
    fds: &[i32],
) -> u32
    ensures received { By (Receiving bytes.now fds.now) backend.old.session result backend.new.session }
    ensures held { By (Getting fds.now) backend.old.session result backend.new.session }
{
    match backend.take(alloc) {
        None => number_of(Err(Refusal::NoSession)),
        Some(mut held) => {
            let outcome = held.receive(bytes, fds);
            backend.put(held);
            number_of(outcome)
        }
    }
}

/// What it means that the stream ended here.
#[unsafe(no_mangle)]
pub extern "C" fn covretin_backend_end(alloc: Global, backend: &mut BackendHolder) -> u32
    ensures { By Ending backend.old.session result backend.new.session }
{
    match backend.take(alloc) {
        None => number_of(Err(Refusal::NoSession)),
        Some(held) => {
            let error = held.end();
            backend.put(held);
            number_of(Err(Refusal::Protocol(error)))
        }
    }
}

/// Hands out a piece of what is to be sent: bytes, and the descriptors that go with the first of them.
#[unsafe(no_mangle)]
pub extern "C" fn covretin_backend_to_send(
    alloc: Global,
    backend: &mut BackendHolder,
    bytes: &mut [u8],
    fds: &mut [i32],
    byte_count: &mut usize,
    fd_count: &mut usize,
) -> u32
    ensures sent { By (Sending bytes.new fds.new (byte_count.new, fd_count.new)) backend.old.session result backend.new.session }
    ensures held { By (λ s o s'. s'.held ≡ s.held) backend.old.session result backend.new.session }
    ensures untouched { result ≢ 0 → (bytes.new ≡ bytes.old) × (fds.new ≡ fds.old) × (byte_count.new ≡ byte_count.old) × (fd_count.new ≡ fd_count.old) }
{
    match backend.take(alloc) {
        None => number_of(Err(Refusal::NoSession)),
        Some(mut held) => {
            let outcome = held.hand_out(bytes, fds);
            backend.put(held);
            match outcome {
                Ok((bytes, fds)) => {
                    *byte_count = bytes;
                    *fd_count = fds;
                    number_of(Ok(()))
                }
                Err(refusal) => number_of(Err(refusal)),
            }
        }
    }
}

/// Reads the request that came: the number of the call of the device that it became.
#[unsafe(no_mangle)]
pub extern "C" fn covretin_backend_next(
    alloc: Global,
    backend: &mut BackendHolder,
    call: &mut u32,
) -> u32
    ensures does { By (Beginning call.new) backend.old.session result backend.new.session }
    ensures untouched { result ≢ 0 → call.new ≡ call.old }
{
    match backend.take(alloc) {
        None => number_of(Err(Refusal::NoSession)),
        Some(mut held) => {
            let outcome = held.next();
            backend.put(held);
            match outcome {
                Ok(number) => {
                    *call = number;
                    number_of(Ok(()))
                }
                Err(refusal) => number_of(Err(refusal)),
            }
        }
    }
}

/// The feature that was not active, as a number with its bit, where the last request was refused for that; else 0.
#[unsafe(no_mangle)]
pub extern "C" fn covretin_backend_inactive(alloc: Global, backend: &mut BackendHolder) -> u64
    ensures inactive { result ≡ inactive_at backend.old.session }
    ensures same { backend.new.session ≡ backend.old.session }
{
    let Some(held) = backend.take(alloc) else {
        return 0;
    };
    let inactive = held.inactive();
    backend.put(held);
    inactive
}

/// 1 where the session has ended, since it could not answer whoever waits: it reads nothing more, and its socket is to be
/// closed. Else 0.
#[unsafe(no_mangle)]
pub extern "C" fn covretin_backend_ended(alloc: Global, backend: &mut BackendHolder) -> u32
    ensures ended { result ≡ ended_at backend.old.session }
    ensures same { backend.new.session ≡ backend.old.session }
{
    let Some(held) = backend.take(alloc) else {
        return 0;
    };
    let ended = held.ended();
    backend.put(held);
    if ended { 1 } else { 0 }
}
