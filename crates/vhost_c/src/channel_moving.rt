//! What a device's session of the backend channel sends goes out, and what came for it is received and taken.

ghost use Rattle.std.specs.Prelude.{◌≡◌, ◌≢◌};
ghost use Rattle.vhost_c_common.specs.ByNumber.{By};
ghost use Rattle.vhost_c_channel.specs.Asking.{Sending, Receiving, Getting, LettingGo, Takes};
ghost use Rattle.vhost_c.specs.Channel.{missing_at};

use crate::channel_holder::ChannelHolder;
use std::alloc::Global;
use vhost_c_common::{Refusal, number_of};

/// Hands out a piece of what is to be sent: bytes, and the descriptors that go with the first of them.
#[unsafe(no_mangle)]
pub extern "C" fn covretin_channel_to_send(
    alloc: Global,
    channel: &mut ChannelHolder,
    bytes: &mut [u8],
    fds: &mut [i32],
    byte_count: &mut usize,
    fd_count: &mut usize,
) -> u32
    ensures sent { By (Sending bytes.new fds.new (byte_count.new, fd_count.new)) channel.old.session result channel.new.session }
    ensures held { By (λ s o s'. s'.held ≡ s.held) channel.old.session result channel.new.session }
    ensures untouched { result ≢ 0 → (bytes.new ≡ bytes.old) × (fds.new ≡ fds.old) × (byte_count.new ≡ byte_count.old) × (fd_count.new ≡ fd_count.old) }
{
    match channel.take(alloc) {
        None => number_of(Err(Refusal::NoSession)),
        Some(mut held) => {
            let outcome = held.hand_out(bytes, fds);
            channel.put(held);
            match outcome {
                Ok((bytes, fds)) => {
                    *byte_count = bytes;
                    *fd_count = fds;
                    number_of(Ok(()))
                }
                Err(refusal) => number_of(Err(refusal)),
            }
        }
    }
}

/// How many bytes are known to be missing of the reply: 0 where it may be taken.
#[unsafe(no_mangle)]
pub extern "C" fn covretin_channel_missing(alloc: Global, channel: &mut ChannelHolder) -> usize
    ensures missing { result ≡ missing_at channel.old.session }
    ensures same { channel.new.session ≡ channel.old.session }
{
    let Some(held) = channel.take(alloc) else {
        return 0;
    };
    let missing = held.missing();
    channel.put(held);
    missing
}

/// Receives bytes of the reply, with the descriptors that came with the first of them.
#[unsafe(no_mangle)]
pub extern "C" fn covretin_channel_receive(
    alloc: Global,
    channel: &mut ChannelHolder,
    bytes: &[u8],
    fds: &[i32],
) -> u32
    ensures received { By (Receiving bytes.now fds.now) channel.old.session result channel.new.session }
    ensures held { By (Getting fds.now) channel.old.session result channel.new.session }
{
    match channel.take(alloc) {
        None => number_of(Err(Refusal::NoSession)),
        Some(mut held) => {
            let outcome = held.receive(bytes, fds);
            channel.put(held);
            number_of(outcome)
        }
    }
}

/// Takes the reply of the call that was asked.
#[unsafe(no_mangle)]
pub extern "C" fn covretin_channel_take(alloc: Global, channel: &mut ChannelHolder) -> u32
    ensures { By (λ s o s'. Takes s s' o) channel.old.session result channel.new.session }
{
    match channel.take(alloc) {
        None => number_of(Err(Refusal::NoSession)),
        Some(mut held) => {
            let outcome = held.take();
            channel.put(held);
            number_of(outcome)
        }
    }
}

/// Hands out descriptors that came: nobody will claim them.
#[unsafe(no_mangle)]
pub extern "C" fn covretin_channel_unclaimed(
    alloc: Global,
    channel: &mut ChannelHolder,
    fds: &mut [i32],
    count: &mut usize,
) -> u32
    ensures does { By (LettingGo fds.old count.new fds.new) channel.old.session result channel.new.session }
    ensures untouched { result ≢ 0 → (fds.new ≡ fds.old) × (count.new ≡ count.old) }
{
    match channel.take(alloc) {
        None => number_of(Err(Refusal::NoSession)),
        Some(mut held) => {
            *count = held.unclaimed(fds);
            channel.put(held);
            number_of(Ok(()))
        }
    }
}
