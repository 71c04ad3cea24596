//! What a session sends goes out, what came for it is received, and its answers are decoded.

ghost use Rattle.std.specs.Prelude.{◌≡◌, ◌≢◌};
ghost use Rattle.vhost_c_common.specs.ByNumber.{By};
ghost use Rattle.vhost_c_frontend.specs.Session.{Sending, Receiving, Getting, Takes, TakesHeld, missing_at, inactive_at};

use crate::holder::Holder;
use std::alloc::Global;
use vhost_c_common::{Refusal, number_of};

/// Hands out a piece of what is to be sent: bytes, and the descriptors that go with the first of them.
#[unsafe(no_mangle)]
pub extern "C" fn covretin_to_send(
    alloc: Global,
    session: &mut Holder,
    bytes: &mut [u8],
    fds: &mut [i32],
    byte_count: &mut usize,
    fd_count: &mut usize,
) -> u32
    ensures sent { By (Sending bytes.new fds.new (byte_count.new, fd_count.new)) session.old.session result session.new.session }
    ensures held { By (λ s o s'. s'.held ≡ s.held) session.old.session result session.new.session }
    ensures untouched { result ≢ 0 → (bytes.new ≡ bytes.old) × (fds.new ≡ fds.old) × (byte_count.new ≡ byte_count.old) × (fd_count.new ≡ fd_count.old) }
{
    match session.take(alloc) {
        None => number_of(Err(Refusal::NoSession)),
        Some(mut held) => {
            let outcome = held.hand_out(bytes, fds);
            session.put(held);
            match outcome {
                Ok((bytes, fds)) => {
                    *byte_count = bytes;
                    *fd_count = fds;
                    number_of(Ok(()))
                }
                Err(refusal) => number_of(Err(refusal)),
            }
        }
    }
}

/// How many bytes are known to be missing of the answer: 0 where it may be decoded.
#[unsafe(no_mangle)]
pub extern "C" fn covretin_missing(alloc: Global, session: &mut Holder) -> usize
    ensures missing { result ≡ missing_at session.old.session }
    ensures same { session.new.session ≡ session.old.session }
{
    let Some(held) = session.take(alloc) else {
        return 0;
    };
    let missing = held.missing();
    session.put(held);
    missing
}

/// The feature that was not active, as a number with its bit, where the call that was asked last was refused for that; else
/// 0.
#[unsafe(no_mangle)]
pub extern "C" fn covretin_inactive(alloc: Global, session: &mut Holder) -> u64
    ensures inactive { result ≡ inactive_at session.old.session }
    ensures same { session.new.session ≡ session.old.session }
{
    let Some(held) = session.take(alloc) else {
        return 0;
    };
    let inactive = held.inactive();
    session.put(held);
    inactive
}

/// Receives bytes of the answer, with the descriptors that came with the first of them.
#[unsafe(no_mangle)]
pub extern "C" fn covretin_receive(
    alloc: Global,
    session: &mut Holder,
    bytes: &[u8],
    fds: &[i32],
) -> u32
    ensures received { By (Receiving bytes.now fds.now) session.old.session result session.new.session }
    ensures held { By (Getting fds.now) session.old.session result session.new.session }
{
    match session.take(alloc) {
        None => number_of(Err(Refusal::NoSession)),
        Some(mut held) => {
            let outcome = held.receive(bytes, fds);
            session.put(held);
            number_of(outcome)
        }
    }
}

/// Decodes the answer of the call that was asked.
#[unsafe(no_mangle)]
pub extern "C" fn covretin_take(alloc: Global, session: &mut Holder) -> u32
    ensures taken { By (λ s o s'. Takes s s' o) session.old.session result session.new.session }
    ensures held { By (λ s o s'. TakesHeld s.held o s'.held) session.old.session result session.new.session }
{
    match session.take(alloc) {
        None => number_of(Err(Refusal::NoSession)),
        Some(mut held) => {
            let outcome = held.take();
            session.put(held);
            number_of(outcome)
        }
    }
}
