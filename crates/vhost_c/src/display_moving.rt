//! What a session with a display sends goes out, and what came for it is received.

ghost use Rattle.std.specs.Prelude.{◌≡◌, ◌≢◌};
ghost use Rattle.vhost_c_common.specs.ByNumber.{By};
ghost use Rattle.vhost_c_channel.specs.Display.{Sending, Receiving, Getting, LettingGo};
ghost use Rattle.vhost_c.specs.Display.{missing_at};

use crate::display_holder::DisplayHolder;
use std::alloc::Global;
use vhost_c_common::{Refusal, number_of};

/// Hands out a piece of what is to be sent: bytes, and the descriptors that go with the first of them.
#[unsafe(no_mangle)]
pub extern "C" fn covretin_display_to_send(
    alloc: Global,
    display: &mut DisplayHolder,
    bytes: &mut [u8],
    fds: &mut [i32],
    byte_count: &mut usize,
    fd_count: &mut usize,
) -> u32
    ensures sent { By (Sending bytes.new fds.new (byte_count.new, fd_count.new)) display.old.session result display.new.session }
    ensures held { By (λ s o s'. s'.held ≡ s.held) display.old.session result display.new.session }
    ensures untouched { result ≢ 0 → (bytes.new ≡ bytes.old) × (fds.new ≡ fds.old) × (byte_count.new ≡ byte_count.old) × (fd_count.new ≡ fd_count.old) }
{
    match display.take(alloc) {
        None => number_of(Err(Refusal::NoSession)),
        Some(mut held) => {
            let outcome = held.hand_out(bytes, fds);
            display.put(held);
            match outcome {
                Ok((bytes, fds)) => {
                    *byte_count = bytes;
                    *fd_count = fds;
                    number_of(Ok(()))
                }
                Err(refusal) => number_of(Err(refusal)),
            }
        }
    }
}

/// How many bytes are known to be missing of the reply: 0 where it may be taken.
#[unsafe(no_mangle)]
pub extern "C" fn covretin_display_missing(alloc: Global, display: &mut DisplayHolder) -> usize
    ensures missing { result ≡ missing_at display.old.session }
    ensures same { display.new.session ≡ display.old.session }
{
    let Some(held) = display.take(alloc) else {
        return 0;
    };
    let missing = held.missing();
    display.put(held);
    missing
}

/// Receives bytes of the reply, with the descriptors that came with the first of them.
#[unsafe(no_mangle)]
pub extern "C" fn covretin_display_receive(
    alloc: Global,
    display: &mut DisplayHolder,
    bytes: &[u8],
    fds: &[i32],
) -> u32
    ensures received { By (Receiving bytes.now fds.now) display.old.session result display.new.session }
    ensures held { By (Getting fds.now) display.old.session result display.new.session }
{
    match display.take(alloc) {
        None => number_of(Err(Refusal::NoSession)),
        Some(mut held) => {
            let outcome = held.receive(bytes, fds);
            display.put(held);
            number_of(outcome)
        }
    }
}

/// Hands out descriptors that came: nobody will claim them.
#[unsafe(no_mangle)]
pub extern "C" fn covretin_display_unclaimed(
    alloc: Global,
    display: &mut DisplayHolder,
    fds: &mut [i32],
    count: &mut usize,
) -> u32
    ensures does { By (LettingGo fds.old count.new fds.new) display.old.session result display.new.session }
    ensures untouched { result ≢ 0 → (fds.new ≡ fds.old) × (count.new ≡ count.old) }
{
    match display.take(alloc) {
        None => number_of(Err(Refusal::NoSession)),
        Some(mut held) => {
            *count = held.unclaimed(fds);
            display.put(held);
            number_of(Ok(()))
        }
    }
}
