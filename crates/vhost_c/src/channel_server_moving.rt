//! What came for a frontend's session of the backend channel is received and read, and what it replies goes out.

ghost use Rattle.std.specs.Prelude.{◌≡◌, ◌≢◌};
ghost use Rattle.vhost_c_common.specs.ByNumber.{By};
ghost use Rattle.vhost_c_channel.specs.Serving.{Sending, Receiving, Getting, Ending, Beginning};
ghost use Rattle.vhost_c.specs.Channel.{missing_of_server};

use crate::channel_server_holder::ChannelServerHolder;
use std::alloc::Global;
use vhost_c_common::{Refusal, number_of};

/// How many bytes are known to be missing of the next request: 0 where it may be read, and where a call is to be replied to.
#[unsafe(no_mangle)]
pub extern "C" fn covretin_channel_server_missing(
    alloc: Global,
    server: &mut ChannelServerHolder,
) -> usize
    ensures missing { result ≡ missing_of_server server.old.session }
    ensures same { server.new.session ≡ server.old.session }
{
    let Some(held) = server.take(alloc) else {
        return 0;
    };
    let missing = held.missing();
    server.put(held);
    missing
}

/// Receives bytes of the next request, with the descriptors that came with the first of them.
#[unsafe(no_mangle)]
pub extern "C" fn covretin_channel_server_receive(
    alloc: Global,
    server: &mut ChannelServerHolder,
    bytes: &[u8],
    fds: &[i32],
) -> u32
    ensures received { By (Receiving bytes.now fds.now) server.old.session result server.new.session }
    ensures held { By (Getting fds.now) server.old.session result server.new.session }
{
    match server.take(alloc) {
        None => number_of(Err(Refusal::NoSession)),
        Some(mut held) => {
            let outcome = held.receive(bytes, fds);
            server.put(held);
            number_of(outcome)
        }
    }
}

/// What it means that the stream ended here.
#[unsafe(no_mangle)]
pub extern "C" fn covretin_channel_server_end(
    alloc: Global,
    server: &mut ChannelServerHolder,
) -> u32
    ensures { By Ending server.old.session result server.new.session }
{
    match server.take(alloc) {
        None => number_of(Err(Refusal::NoSession)),
        Some(held) => {
            let error = held.end();
            server.put(held);
            number_of(Err(Refusal::Protocol(error)))
        }
    }
}

/// Hands out a piece of what is to be sent: bytes, and the descriptors that go with the first of them.
#[unsafe(no_mangle)]
pub extern "C" fn covretin_channel_server_to_send(
    alloc: Global,
    server: &mut ChannelServerHolder,
    bytes: &mut [u8],
    fds: &mut [i32],
    byte_count: &mut usize,
    fd_count: &mut usize,
) -> u32
    ensures sent { By (Sending bytes.new fds.new (byte_count.new, fd_count.new)) server.old.session result server.new.session }
    ensures held { By (λ s o s'. s'.held ≡ s.held) server.old.session result server.new.session }
    ensures untouched { result ≢ 0 → (bytes.new ≡ bytes.old) × (fds.new ≡ fds.old) × (byte_count.new ≡ byte_count.old) × (fd_count.new ≡ fd_count.old) }
{
    match server.take(alloc) {
        None => number_of(Err(Refusal::NoSession)),
        Some(mut held) => {
            let outcome = held.hand_out(bytes, fds);
            server.put(held);
            match outcome {
                Ok((bytes, fds)) => {
                    *byte_count = bytes;
                    *fd_count = fds;
                    number_of(Ok(()))
                }
                Err(refusal) => number_of(Err(refusal)),
            }
        }
    }
}

/// Reads the request that came: the number of the call that it became.
#[unsafe(no_mangle)]
pub extern "C" fn covretin_channel_server_next(
    alloc: Global,
    server: &mut ChannelServerHolder,
    call: &mut u32,
) -> u32
    ensures does { By (Beginning call.new) server.old.session result server.new.session }
    ensures untouched { result ≢ 0 → call.new ≡ call.old }
{
    match server.take(alloc) {
        None => number_of(Err(Refusal::NoSession)),
        Some(mut held) => {
            let outcome = held.next();
            server.put(held);
            match outcome {
                Ok(number) => {
                    *call = number;
                    number_of(Ok(()))
                }
                Err(refusal) => number_of(Err(refusal)),
            }
        }
    }
}
