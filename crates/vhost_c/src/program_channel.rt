//! Any program in C, as its calls of a device's session of the backend channel: values, one after another, in any order.

ghost use Rattle.std.specs.Prelude.{◌≡◌, ◌<◌, ◌+◌, true, All, None, IfOk, IfErr, length, vec_len, vec_capacity};
ghost use Rattle.vhost_c_common.specs.ByNumber.{By};
ghost use Rattle.vhost_c_channel.specs.Asking.{LettingGo, Sending};
ghost use Rattle.vhost_c.specs.Calls.{Appends, IsMade, Runs};
ghost use Rattle.vhost_c.specs.Channel.{Agreeing, missing_at};
ghost use Rattle.vhost_c.specs.ProgramChannel.{AsksTo, Does, IsCalled, IsSound, is_harmless};

use crate::channel_asks::{
    covretin_channel_ask_config_change, covretin_channel_ask_shared_object_add,
    covretin_channel_ask_shared_object_lookup, covretin_channel_ask_shared_object_remove,
    covretin_channel_ask_shmem_map, covretin_channel_ask_shmem_unmap,
};
use crate::channel_holder::ChannelHolder;
use crate::channel_moving::{
    covretin_channel_missing, covretin_channel_receive, covretin_channel_take,
    covretin_channel_to_send, covretin_channel_unclaimed,
};
use crate::channel_opening::{
    covretin_channel_close, covretin_channel_open, covretin_channel_set_config_change,
    covretin_channel_set_reply_ack, covretin_channel_set_shared_object, covretin_channel_set_shmem,
};
use crate::places::{Places, ProgramAnswer, bare};
use std::alloc::{AllocError, Global};
use vhost_c_channel::{Feature, Mmap};

/// What a device asks, with each export's arguments.
#[derive(Drop)]
pub enum ChannelAsk {
    ConfigChange,
    SharedObjectAdd(Vec<u8>),
    SharedObjectRemove(Vec<u8>),
    SharedObjectLookup(Vec<u8>, i32),
    ShmemMap(Mmap, i32),
    ShmemUnmap(Mmap),
}

/// A call of a device's session of the channel that a program makes, with its arguments: each export's.
#[derive(Drop)]
pub enum ChannelCall {
    Open,
    /// `covretin_channel_set_..`.
    Agree(Feature, bool),
    /// `covretin_channel_ask_..`.
    Ask(ChannelAsk),
    ToSend(Places),
    Missing(Places),
    /// With bytes and descriptors.
    Receive(Vec<u8>, Vec<i32>),
    Take,
    Unclaimed(Places),
    Close,
}

/// Makes calls, one after another, whatever each answers, and appends their answers to `answers`.
///
/// AllocError: `answers` could not grow, and no call was made.
pub fn run(
    alloc: Global,
    channel: &mut ChannelHolder,
    calls: Vec<ChannelCall>,
    answers: &mut Vec<ProgramAnswer>,
) -> Result<(), AllocError>
    ensures runs { IfOk result (λ _. Appends Does calls.items answers.old.items answers.new.items channel.old.session channel.new.session) }
    ensures called { IfOk result (λ _. IsMade Does channel.old.session → Appends IsCalled calls.items answers.old.items answers.new.items channel.old.session channel.new.session) }
    ensures memory { IfErr result (λ _. (channel.new.session ≡ channel.old.session) × (answers.new.items ≡ answers.old.items)) }
    ensures room { IfErr result (λ _. vec_capacity answers.old < vec_len answers.old + length calls.items) }
{
    answers.reserve(calls.len())?;
    for call in calls {
        let answer = make(alloc, channel, call);
        answers.push_reserved(answer);
    }
    Ok(())
}

/// Makes a call.
fn make(alloc: Global, channel: &mut ChannelHolder, call: ChannelCall) -> ProgramAnswer
    ensures { Does call result channel.old.session channel.new.session }
{
    match call {
        ChannelCall::Open => bare(alloc, covretin_channel_open(alloc, channel)),
        ChannelCall::Agree(feature, on) => bare(alloc, agreed(alloc, channel, feature, on)),
        ChannelCall::Ask(what) => bare(alloc, asked(alloc, channel, what)),
        ChannelCall::ToSend(places) => to_send(alloc, channel, places),
        ChannelCall::Missing(places) => missing(alloc, channel, places),
        ChannelCall::Receive(bytes, fds) => {
            let number = covretin_channel_receive(alloc, channel, &bytes, &fds);
            bare(alloc, number)
        }
        ChannelCall::Take => bare(alloc, covretin_channel_take(alloc, channel)),
        ChannelCall::Unclaimed(places) => unclaimed(alloc, channel, places),
        ChannelCall::Close => {
            covretin_channel_close(alloc, channel);
            bare(alloc, 0)
        }
    }
}

/// Tells what was agreed on.
fn agreed(alloc: Global, channel: &mut ChannelHolder, feature: Feature, on: bool) -> u32
    ensures { By (Agreeing feature on) channel.old.session result channel.new.session }
{
    match feature {
        Feature::ReplyAck => covretin_channel_set_reply_ack(alloc, channel, on),
        Feature::ConfigChange => covretin_channel_set_config_change(alloc, channel, on),
        Feature::SharedObject => covretin_channel_set_shared_object(alloc, channel, on),
        Feature::Shmem => covretin_channel_set_shmem(alloc, channel, on),
    }
}

/// Asks.
fn asked(alloc: Global, channel: &mut ChannelHolder, what: ChannelAsk) -> u32
    ensures { AsksTo what channel.old.session result channel.new.session }
{
    match what {
        ChannelAsk::ConfigChange => covretin_channel_ask_config_change(alloc, channel),
        ChannelAsk::SharedObjectAdd(name) => {
            covretin_channel_ask_shared_object_add(alloc, channel, &name)
        }
        ChannelAsk::SharedObjectRemove(name) => {
            covretin_channel_ask_shared_object_remove(alloc, channel, &name)
        }
        ChannelAsk::SharedObjectLookup(name, fd) => {
            covretin_channel_ask_shared_object_lookup(alloc, channel, &name, fd)
        }
        ChannelAsk::ShmemMap(mmap, fd) => {
            covretin_channel_ask_shmem_map(alloc, channel, &mmap, fd)
        }
        ChannelAsk::ShmemUnmap(mmap) => covretin_channel_ask_shmem_unmap(alloc, channel, &mmap),
    }
}

/// Hands out a piece of what is to be sent.
fn to_send(alloc: Global, channel: &mut ChannelHolder, mut places: Places) -> ProgramAnswer
    ensures sent { By (Sending result.places.bytes.items result.places.fds.items (result.places.byte_count, result.places.fd_count)) channel.old.session result.number channel.new.session }
    ensures held { By (λ s o s'. s'.held ≡ s.held) channel.old.session result.number channel.new.session }
{
    let number = covretin_channel_to_send(
        alloc,
        channel,
        &mut places.bytes,
        &mut places.fds,
        &mut places.byte_count,
        &mut places.fd_count,
    );
    ProgramAnswer { number, places }
}

/// Tells how many bytes are missing.
fn missing(alloc: Global, channel: &mut ChannelHolder, mut places: Places) -> ProgramAnswer
    ensures number { result.number ≡ 0 }
    ensures missing { result.places.count ≡ missing_at channel.old.session }
    ensures same { channel.new.session ≡ channel.old.session }
{
    places.count = covretin_channel_missing(alloc, channel);
    ProgramAnswer { number: 0, places }
}

/// Hands out descriptors that came.
fn unclaimed(alloc: Global, channel: &mut ChannelHolder, mut places: Places) -> ProgramAnswer
    ensures { By (LettingGo places.fds.items result.places.count result.places.fds.items) channel.old.session result.number channel.new.session }
{
    let number = covretin_channel_unclaimed(alloc, channel, &mut places.fds, &mut places.count);
    ProgramAnswer { number, places }
}

/// A program makes any calls, where there is no session before. Each is answered by 0 or one of its refusals; and where each answer
/// is harmless, the session is sound in the end, if there is one.
pub fn runs_from_none(
    alloc: Global,
    channel: &mut ChannelHolder,
    calls: Vec<ChannelCall>,
) -> Result<Vec<ProgramAnswer>, AllocError>
    ensures as_many { IfOk result (λ answers. length answers.items ≡ length calls.items) }
    ensures called { channel.old.session ≡ None → IfOk result (λ answers. Runs IsCalled calls.items answers.items channel.old.session channel.new.session) }
    ensures sound { channel.old.session ≡ None → IfOk result (λ answers. All (λ a. is_harmless a.number ≡ true) answers.items → IsSound channel.new.session) }
{
    let mut answers = Vec::new(alloc);
    run(alloc, channel, calls, &mut answers)?;
    Ok(answers)
}
