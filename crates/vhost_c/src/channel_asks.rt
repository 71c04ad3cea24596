//! Calls by which a device asks its frontend.

ghost use Rattle.std.specs.Prelude.{◌≡◌, ◌≢◌, length};
ghost use Rattle.vhost_protocol.specs.JoinedReverse.{Asks};
ghost use Rattle.vhost_protocol.specs.Reverse as reverse;
ghost use Rattle.vhost_link.specs.declared.plain.PlainHandle.{PlainHandle};
ghost use Rattle.vhost_backend_req.specs.Halves.{input_of};
ghost use Rattle.vhost_c_common.specs.Records.{handle_in};
ghost use Rattle.vhost_c_channel.specs.Records.{mmap_in};
ghost use Rattle.vhost_c.specs.Channel.{AsksBy, AsksUnless, AsksWith};

use crate::asks::refused;
use crate::channel_holder::ChannelHolder;
use std::alloc::Global;
use vhost_backend_req::ReverseCall;
use vhost_c_channel::{Mmap, name_in};
use vhost_c_common::{Refusal, handle_of, number_of};
use vhost_link::PlainHandle;
use vhost_message::Error;

/// Asks a session, if there is one.
fn asked(alloc: Global, channel: &mut ChannelHolder, call: ReverseCall<PlainHandle>) -> u32
    ensures { (c : reverse.ReverseCall PlainHandle) → input_of call ≡ Asks c → AsksBy c channel.old.session result channel.new.session }
{
    match channel.take(alloc) {
        None => number_of(Err(Refusal::NoSession)),
        Some(mut held) => {
            let outcome = held.ask(&call);
            channel.put(held);
            number_of(outcome)
        }
    }
}

/// Reports that the configuration space changed.
#[unsafe(no_mangle)]
pub extern "C" fn covretin_channel_ask_config_change(
    alloc: Global,
    channel: &mut ChannelHolder,
) -> u32
    ensures { AsksBy reverse.HandleConfigChange channel.old.session result channel.new.session }
{
    asked(alloc, channel, ReverseCall::HandleConfigChange)
}

/// Adds a shared object, by its name of 16 bytes.
#[unsafe(no_mangle)]
pub extern "C" fn covretin_channel_ask_shared_object_add(
    alloc: Global,
    channel: &mut ChannelHolder,
    name: &[u8],
) -> u32
    ensures { AsksUnless (length name.now ≢ 16) (reverse.SharedObjectAdd (record { uuid = name.now })) channel.old.session result channel.new.session }
{
    match name_in(name) {
        Some(name) => asked(alloc, channel, ReverseCall::SharedObjectAdd(name)),
        None => refused(Error::InvalidParam),
    }
}

/// Removes a shared object.
#[unsafe(no_mangle)]
pub extern "C" fn covretin_channel_ask_shared_object_remove(
    alloc: Global,
    channel: &mut ChannelHolder,
    name: &[u8],
) -> u32
    ensures { AsksUnless (length name.now ≢ 16) (reverse.SharedObjectRemove (record { uuid = name.now })) channel.old.session result channel.new.session }
{
    match name_in(name) {
        Some(name) => asked(alloc, channel, ReverseCall::SharedObjectRemove(name)),
        None => refused(Error::InvalidParam),
    }
}

/// Looks a shared object up, and sends a file descriptor for it.
#[unsafe(no_mangle)]
pub extern "C" fn covretin_channel_ask_shared_object_lookup(
    alloc: Global,
    channel: &mut ChannelHolder,
    name: &[u8],
    fd: i32,
) -> u32
    ensures { AsksWith (handle_in fd) (λ h. AsksUnless (length name.now ≢ 16) (reverse.SharedObjectLookup (record { uuid = name.now }) h)) channel.old.session result channel.new.session }
{
    match handle_of(fd) {
        Some(handle) => looked_up(alloc, channel, name, handle),
        None => refused(Error::InvalidParam),
    }
}

/// The same with the descriptor's handle.
fn looked_up(alloc: Global, channel: &mut ChannelHolder, name: &[u8], handle: PlainHandle) -> u32
    ensures { AsksUnless (length name.now ≢ 16) (reverse.SharedObjectLookup (record { uuid = name.now }) handle) channel.old.session result channel.new.session }
{
    match name_in(name) {
        Some(name) => asked(
            alloc,
            channel,
            ReverseCall::SharedObjectLookup(name, handle),
        ),
        None => refused(Error::InvalidParam),
    }
}

/// Maps a part of what a file descriptor maps into a region of shared memory.
#[unsafe(no_mangle)]
pub extern "C" fn covretin_channel_ask_shmem_map(
    alloc: Global,
    channel: &mut ChannelHolder,
    mmap: &Mmap,
    fd: i32,
) -> u32
    ensures { AsksWith (handle_in fd) (λ h. AsksBy (reverse.ShmemMap (mmap_in mmap.now) h)) channel.old.session result channel.new.session }
{
    match handle_of(fd) {
        Some(handle) => asked(alloc, channel, ReverseCall::ShmemMap(mmap.data(), handle)),
        None => refused(Error::InvalidParam),
    }
}

/// Removes such a mapping.
#[unsafe(no_mangle)]
pub extern "C" fn covretin_channel_ask_shmem_unmap(
    alloc: Global,
    channel: &mut ChannelHolder,
    mmap: &Mmap,
) -> u32
    ensures { AsksBy (reverse.ShmemUnmap (mmap_in mmap.now)) channel.old.session result channel.new.session }
{
    asked(alloc, channel, ReverseCall::ShmemUnmap(mmap.data()))
}
