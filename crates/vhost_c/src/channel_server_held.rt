//! Which descriptors of a frontend's session of the backend channel are whose.

ghost use Rattle.std.specs.Prelude.{◌≡◌, ◌≢◌};
ghost use Rattle.vhost_c_common.specs.ByNumber.{By};
ghost use Rattle.vhost_c_channel.specs.Serving.{Abandoning, Claiming, LettingGo};

use crate::channel_server_holder::ChannelServerHolder;
use std::alloc::Global;
use vhost_c_common::{Refusal, number_of};

/// Claims a descriptor of the call that is to be replied to.
#[unsafe(no_mangle)]
pub extern "C" fn covretin_channel_server_claim(
    alloc: Global,
    server: &mut ChannelServerHolder,
    fd: i32,
) -> u32
    ensures { By (Claiming fd) server.old.session result server.new.session }
{
    match server.take(alloc) {
        None => number_of(Err(Refusal::NoSession)),
        Some(mut held) => {
            let outcome = held.claim(fd);
            server.put(held);
            number_of(outcome)
        }
    }
}

/// Hands out descriptors that nobody will claim.
#[unsafe(no_mangle)]
pub extern "C" fn covretin_channel_server_unclaimed(
    alloc: Global,
    server: &mut ChannelServerHolder,
    fds: &mut [i32],
    count: &mut usize,
) -> u32
    ensures does { By (LettingGo fds.old count.new fds.new) server.old.session result server.new.session }
    ensures untouched { result ≢ 0 → (fds.new ≡ fds.old) × (count.new ≡ count.old) }
{
    match server.take(alloc) {
        None => number_of(Err(Refusal::NoSession)),
        Some(mut held) => {
            *count = held.unclaimed(fds);
            server.put(held);
            number_of(Ok(()))
        }
    }
}

/// The rest of the request that is received will never come.
#[unsafe(no_mangle)]
pub extern "C" fn covretin_channel_server_abandon(
    alloc: Global,
    server: &mut ChannelServerHolder,
) -> u32
    ensures { By Abandoning server.old.session result server.new.session }
{
    match server.take(alloc) {
        None => number_of(Err(Refusal::NoSession)),
        Some(mut held) => {
            held.abandon();
            server.put(held);
            number_of(Ok(()))
        }
    }
}
