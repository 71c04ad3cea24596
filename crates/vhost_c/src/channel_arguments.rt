//! The arguments of the call of a device that is to be replied to, by its form.

ghost use Rattle.std.specs.Prelude.{◌≡◌, ◌≢◌};
ghost use Rattle.vhost_c_common.specs.ByNumber.{By};
ghost use Rattle.vhost_c_channel.specs.Arguments.{mmap_arg, fd_arg};
ghost use Rattle.vhost_c_channel.specs.Serving.{Telling, Putting};

use crate::channel_server_holder::ChannelServerHolder;
use std::alloc::Global;
use vhost_c_channel::Mmap;
use vhost_c_common::{Refusal, number_of};

/// Reads the name of a shared object: 16 bytes.
#[unsafe(no_mangle)]
pub extern "C" fn covretin_channel_call_name(
    alloc: Global,
    server: &mut ChannelServerHolder,
    name: &mut [u8],
) -> u32
    ensures does { By (Putting name.old name.new) server.old.session result server.new.session }
    ensures untouched { result ≢ 0 → name.new ≡ name.old }
{
    match server.take(alloc) {
        None => number_of(Err(Refusal::NoSession)),
        Some(held) => {
            let outcome = held.name_to(name);
            server.put(held);
            number_of(outcome)
        }
    }
}

/// Reads a mapping.
#[unsafe(no_mangle)]
pub extern "C" fn covretin_channel_call_mmap(
    alloc: Global,
    server: &mut ChannelServerHolder,
    mmap: &mut Mmap,
) -> u32
    ensures does { By (Telling mmap_arg mmap.new) server.old.session result server.new.session }
    ensures untouched { result ≢ 0 → mmap.new ≡ mmap.old }
{
    match server.take(alloc) {
        None => number_of(Err(Refusal::NoSession)),
        Some(held) => {
            let outcome = held.mmap();
            server.put(held);
            match outcome {
                Ok(mapping) => {
                    *mmap = mapping;
                    number_of(Ok(()))
                }
                Err(refusal) => number_of(Err(refusal)),
            }
        }
    }
}

/// Reads a file descriptor.
#[unsafe(no_mangle)]
pub extern "C" fn covretin_channel_call_fd(
    alloc: Global,
    server: &mut ChannelServerHolder,
    fd: &mut i32,
) -> u32
    ensures does { By (Telling fd_arg fd.new) server.old.session result server.new.session }
    ensures untouched { result ≢ 0 → fd.new ≡ fd.old }
{
    match server.take(alloc) {
        None => number_of(Err(Refusal::NoSession)),
        Some(held) => {
            let outcome = held.fd();
            server.put(held);
            match outcome {
                Ok(number) => {
                    *fd = number;
                    number_of(Ok(()))
                }
                Err(refusal) => number_of(Err(refusal)),
            }
        }
    }
}
