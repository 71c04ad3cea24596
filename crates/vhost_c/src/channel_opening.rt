//! Sessions of the backend channel for a device are opened and closed, and told what was agreed on.

ghost use Rattle.std.specs.Prelude.{◌≡◌, None, IfOk};
ghost use Rattle.vhost_c_common.specs.ByNumber.{By};
ghost use Rattle.vhost_c_channel.specs.Asking.{IsNew};
ghost use Rattle.vhost_c_channel.specs.declared.asking.Feature.TheVariants as feature_;
ghost use Rattle.vhost_c.specs.Channel.{OpensChannel, Agreeing};

use crate::channel_holder::ChannelHolder;
use std::alloc::Global;
use vhost_c_channel::{Channel, Feature};
use vhost_c_common::{Refusal, number_of};
use vhost_message::Error;

/// Opens a session.
#[unsafe(no_mangle)]
pub extern "C" fn covretin_channel_open(alloc: Global, channel: &mut ChannelHolder) -> u32
    ensures { OpensChannel channel.old.session result channel.new.session }
{
    match channel.take(alloc) {
        Some(held) => {
            channel.put(held);
            number_of(Err(Refusal::SessionOpen))
        }
        None => match boxed(alloc) {
            Ok(made) => {
                channel.put(made);
                number_of(Ok(()))
            }
            Err(_) => number_of(Err(Refusal::Protocol(Error::OutOfMemory))),
        },
    }
}

/// A new session in a box.
fn boxed(alloc: Global) -> Result<Box<Channel>, Error>
    ensures { IfOk result (λ b. IsNew b.value) }
{
    match Channel::new(alloc) {
        Ok(session) => match Box::new(alloc, session) {
            Ok(made) => Ok(made),
            Err(_) => Err(Error::OutOfMemory),
        },
        Err(error) => Err(error),
    }
}

/// Closes a session, if there is one, and frees what it held.
#[unsafe(no_mangle)]
pub extern "C" fn covretin_channel_close(alloc: Global, channel: &mut ChannelHolder)
    ensures { channel.new.session ≡ None }
{
    let _closed = channel.take(alloc);
}

/// Tells a session, if there is one, whether both sides agreed on this.
fn agreed(alloc: Global, channel: &mut ChannelHolder, feature: Feature, on: bool) -> u32
    ensures { By (Agreeing feature on) channel.old.session result channel.new.session }
{
    match channel.take(alloc) {
        None => number_of(Err(Refusal::NoSession)),
        Some(mut held) => {
            held.agree(feature, on);
            channel.put(held);
            number_of(Ok(()))
        }
    }
}

/// Whether requests are replied to.
#[unsafe(no_mangle)]
pub extern "C" fn covretin_channel_set_reply_ack(
    alloc: Global,
    channel: &mut ChannelHolder,
    on: bool,
) -> u32
    ensures { By (Agreeing feature_.ReplyAck on) channel.old.session result channel.new.session }
{
    agreed(alloc, channel, Feature::ReplyAck, on)
}

/// Whether changes of the configuration space are reported.
#[unsafe(no_mangle)]
pub extern "C" fn covretin_channel_set_config_change(
    alloc: Global,
    channel: &mut ChannelHolder,
    on: bool,
) -> u32
    ensures { By (Agreeing feature_.ConfigChange on) channel.old.session result channel.new.session }
{
    agreed(alloc, channel, Feature::ConfigChange, on)
}

/// Whether requests about shared objects are made.
#[unsafe(no_mangle)]
pub extern "C" fn covretin_channel_set_shared_object(
    alloc: Global,
    channel: &mut ChannelHolder,
    on: bool,
) -> u32
    ensures { By (Agreeing feature_.SharedObject on) channel.old.session result channel.new.session }
{
    agreed(alloc, channel, Feature::SharedObject, on)
}

/// Whether requests about shared memory are made.
#[unsafe(no_mangle)]
pub extern "C" fn covretin_channel_set_shmem(
    alloc: Global,
    channel: &mut ChannelHolder,
    on: bool,
) -> u32
    ensures { By (Agreeing feature_.Shmem on) channel.old.session result channel.new.session }
{
    agreed(alloc, channel, Feature::Shmem, on)
}
